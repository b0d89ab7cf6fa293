// The lines that are printed for a file.
ghost use Rattle.std.specs.Prelude.{◌+◌, ◌≤◌, ◌++◌, length};
ghost use Rattle.laws.specs.Model.{eight};
ghost use Rattle.laws.specs.Answers.{verdict_answer};
ghost use Rattle.laws.specs.Program.{sets_text, profiles_text, count_line, fault_line, answer_lines, told as lines_of, printed};
ghost use Rattle.model.specs.Asked.{asked};
ghost use Rattle.model.specs.Numbers.{number_of};
ghost use Rattle.cover.specs.Verdicts.{told, given};
ghost use Rattle.rung_check.specs.Putting.{Adds, Stands};

use crate::text::Text;
use closing::{ProfileMemory, Refused, SetMemory};
use cover::Answer;
use model::{Fault, Model};

// The word memory of document 01: u has at most 255 letters and v at most 2,048.
const MOST_LETTERS: usize = Model::SETS + Model::PROFILES;

// The lines for the counts.
fn put_counts(sets: usize, profiles: usize, text: &mut Text)
    ensures { Adds (count_line sets_text sets ++ count_line profiles_text profiles) text.old text.new }
{
    text.put_count(b"sets ", sets as u64);
    text.put_count(b"profiles ", profiles as u64);
}

// The lines for an answer of the verdict; u and v stand one behind the other in the word memory.
#[tactic(auto, unfolding(cover::specs::Verdicts::told))]
fn put_answer(answer: Result<Answer, Refused>, memory: &[u8], text: &mut Text)
    requires { (told answer).u + (told answer).v ≤ length memory.now }
    ensures { Adds
        (answer_lines (told answer).number (told answer).sets (told answer).profiles (given answer memory.now))
        text.old text.new }
{
    match answer {
        Ok(Answer::Covered { sets, profiles }) => {
            put_counts(sets, profiles, text);
            text.put_text(b"covered\n");
        }
        Ok(
            Answer::Uncovered {
                sets,
                profiles,
                u,
                v,
            },
        ) => {
            put_counts(sets, profiles, text);
            text.put_text(b"uncovered\n");
            let (first, rest) = memory.split_at(u);
            text.put_word(b'u', first);
            text.put_word(b'v', &rest[..v]);
        }
        Err(refused) => text.put_count(b"refused ", u64::from(u8::from(refused.refusal))),
    }
}

// The line for a refusal of the reader.
fn put_fault(fault: Fault, text: &mut Text)
    ensures { Adds (fault_line (record { number = number_of fault.refusal; offset = fault.offset })) text.old text.new }
{
    text.put_text(b"refused ");
    text.put_number(u64::from(u8::from(fault.refusal)));
    text.put_count(b" at ", fault.offset as u64);
}

// The verdict of a model, with tables of as many sets and profiles as are ever used, and room for every u and v.
fn check(m: Model, arrows: &[u64], text: &mut Text)
    ensures { Adds (lines_of (verdict_answer eight (asked m arrows.now) 256 2048 2304)) text.old text.new }
{
    let mut sets = SetMemory {
        masks: &mut [0u8; 256],
        from: &mut [65535u16; 256],
        event: &mut [0u8; 256],
    };
    let mut profiles = ProfileMemory {
        arrows: &mut [0u64; 2048],
        marks: &mut [0u64; 2048],
        from: &mut [65535u16; 2048],
        event: &mut [0u8; 2048],
    };
    let mut memory = [0u8; MOST_LETTERS];
    let answer = cover::verdict(m, arrows, &mut sets, &mut profiles, &mut memory);
    put_answer(answer, &memory, text);
}

// What is printed for a file: the refusal of the reader, or what the verdict on its model says.
fn put_report(file: &[u8], text: &mut Text)
    ensures { Adds (printed file.now) text.old text.new }
{
    let mut arrows = [0u64; Model::EVENTS];
    match model::read(file, &mut arrows) {
        Ok(m) => check(m, &arrows, text),
        Err(fault) => put_fault(fault, text),
    }
}

// All of it: a longest report has no more than 8,192 bytes.
pub(crate) fn report(file: &[u8], out: &mut [u8]) -> usize
    requires { 8192 ≤ length out.old }
    ensures { Stands (printed file.now) out.old out.new result }
{
    let mut text = Text::new(out);
    put_report(file, &mut text);
    text.end
}
