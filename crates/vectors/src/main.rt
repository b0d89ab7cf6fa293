// Runs stored models through the calls for C, each with memory of full size: the verdict, single courses, or the opposite. Of each run the
// answer is printed; with a verdict the sum of the word memory, with an opposite that of its four slices. Before a call every place holds 9, so
// that it is seen what is written and what is left. The file stdout was written by the independent program.
#![tactic(auto)]

use model::Model;
use std::io;
use std::io::Read;

mod courses;
mod opposites;
mod sums;
mod tables;
mod verdicts;

use courses::show_course;
use opposites::show_opposite;
use verdicts::show_verdict;

// A stored model: the two masks, how many arrow numbers are lent, and what is asked for, a byte each; then n, k and 17 arrow numbers of eight
// bytes, low byte first.
const HEAD: usize = 4;

const MOST_ARROWS: usize = 17;

// What is asked for: the verdict, or the course that follows, or the opposite.
enum Asked {
    Verdict,
    Course,
    Opposite,
}

impl From<u8> for Asked {
    fn from(byte: u8) -> Asked {
        match byte {
            1 => Asked::Course,
            2 => Asked::Opposite,
            _ => Asked::Verdict,
        }
    }
}

// Eight bytes, low byte first. Where the input ends early, zeros stand for what is missing.
fn read_number<R: Read>(input: &mut R) -> u64 {
    let mut bytes = [0u8; 8];
    let _ = input.read_exact(&mut bytes);
    u64::from_le_bytes(bytes)
}

fn show<P: Print, R: Read>(
    rt: &P,
    input: &mut R,
    m: Model,
    arrows: &[u64],
    asked: Asked,
) -> io::Result<()> {
    match asked {
        Asked::Verdict => show_verdict(rt, m, arrows),
        Asked::Course => show_course(rt, input, m, arrows),
        Asked::Opposite => show_opposite(rt, m, arrows),
    }
}

fn show_stored<P: Print, R: Read>(rt: &P, input: &mut R, head: [u8; HEAD]) -> io::Result<()> {
    let [start, home, lent, asked] = head;
    let m = Model {
        n: read_number(input) as usize,
        k: read_number(input) as usize,
        start,
        home,
    };
    let mut arrows = [0u64; MOST_ARROWS];
    for x in &mut arrows {
        *x = read_number(input);
    }
    // As many of them as the stored model says are lent.
    let lent = usize::from(lent).min(arrows.len());
    show(rt, input, m, &arrows[..lent], Asked::from(asked))
}

fn main(rt: HostRuntime) -> io::Result<()> {
    let mut input = rt.stdin();
    for _ in 0..65536usize {
        let mut head = [0u8; HEAD];
        if input.read_exact(&mut head).is_err() {
            return Ok(());
        }
        show_stored(&rt, &mut input, head)?;
    }
    Ok(())
}
