// What the verdict answers, and how it is found once sets and profiles are complete.
ghost use Rattle.cover.specs.Tables.{sets_viewed, profiles_viewed};
ghost use Rattle.cover.specs.Verdicts.{Concludes};

use crate::tables::{Profiles, Sets};
use crate::words::Placed;
use crate::{pairs, words};
use closing::Refused;
use model::Refusal;

// The verdict; how many sets and profiles stand in the lent slices; and, where it is "uncovered", the lengths of u and v, which stand in
// the word memory, u first.
#[derive(Clone, Copy, PartialEq, Eq)]
pub enum Answer {
    Covered {
        sets: usize,
        profiles: usize,
    },
    Uncovered {
        sets: usize,
        profiles: usize,
        u: usize,
        v: usize,
    },
}

// The verdict on complete tables.
pub(crate) fn conclude(s: Sets, t: Profiles, memory: &mut [u8]) -> Result<Answer, Refused>
    ensures { Concludes (sets_viewed s.entry) (profiles_viewed t.entry) memory.old memory.new result }
{
    let sets = s.masks.len();
    let profiles = t.arrows.len();
    let Some(pair) = pairs::first(s, t) else {
        return Ok(Answer::Covered { sets, profiles });
    };
    let Some(Placed { u, v }) = words::place(s, t, pair, memory) else {
        return Err(Refused {
            refusal: Refusal::FewLetters,
            sets,
            profiles,
        });
    };
    Ok(Answer::Uncovered {
        sets,
        profiles,
        u,
        v,
    })
}
