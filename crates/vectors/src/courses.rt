// The course behind a stored model, and its judgement in a line.
use editor::cover_course;
use model::Model;
use std::io;
use std::io::Read;

// A stored course: how many letters u has, and how many u and v have, at most so many; and then the letters, zeros behind them.
const MOST_LETTERS: usize = 80;

pub(crate) fn show_course<P: Print, R: Read>(
    rt: &P,
    input: &mut R,
    m: Model,
    arrows: &[u64],
) -> io::Result<()> {
    let mut lengths = [0u8; 2];
    let mut letters = [0u8; MOST_LETTERS];
    let _ = input.read_exact(&mut lengths);
    let _ = input.read_exact(&mut letters);
    // The first letters are those of u, the others up to an end those of v.
    let end = usize::from(lengths[1]).min(MOST_LETTERS);
    let middle = usize::from(lengths[0]).min(end);
    let (u, v) = letters[..end].split_at(middle);
    let a = cover_course(m.n, m.k, m.start, m.home, arrows, u, v);
    println!(rt; "{} {}", a.number, a.judgement)
}
