// Reads one model file from standard input and prints the verdict, or the refusal.
#![tactic(auto)]

ghost use Rattle.std.specs.Prelude.{◌≤◌, length, take};
ghost use Rattle.std.specs.Io.KnownBytes.{Consumes};

mod report;
mod text;

use report::report;
use std::io;
use std::io::{Read, Write};

// A longest valid file has 211 bytes. With one byte more it is seen that something follows, and no check looks any further, so a longer
// file is judged by its first 212 bytes as it is by all of them: `report_beginning` says so.
const MOST_BYTES: usize = 212;

// More than a longest report has: `report_is_short` says so.
const MOST_TEXT: usize = 8192;

// Reads until the slice is full or the input ends, and says how many bytes were read: those that the input lost stand first in the slice.
// A read that fails counts as the file's end.
fn read_start<R: Read>(input: &mut R, file: &mut [u8]) -> usize
    ensures within { result ≤ length file.new }
    ensures bytes { Consumes (R.remaining input.old) (R.remaining input.new) (take result file.new) }
{
    let mut count = 0;
    while count < file.len() {
        let more = input.read(&mut file[count..]).unwrap_or(0);
        if more == 0 {
            return count;
        }
        count += more;
    }
    count
}

fn main(rt: HostRuntime) -> io::Result<()> {
    let mut file = [0u8; MOST_BYTES];
    let mut text = [0u8; MOST_TEXT];
    let count = read_start(&mut rt.stdin(), &mut file);
    let end = report(&file[..count], &mut text);
    rt.stdout().write_all(&text[..end])
}
