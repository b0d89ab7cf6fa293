// The verdict: whether every course is accepted, or one that is not. The call takes any numbers and any lent slices, and says in its
// contract what it answers and what every lent slice holds afterwards.
#![tactic(auto)]

mod answer;
mod pairs;
mod tables;
mod words;

ghost use Rattle.closing.specs.Lent.{sets_lent, profiles_lent, SameSets, SameProfiles};
ghost use Rattle.cover.specs.Verdicts.{GivesVerdict};

pub use answer::Answer;
use closing::{ProfileMemory, Refused, SetMemory, close};
use model::Model;
use tables::{Profiles, Sets};

// Closes a model as `close` does and gives the verdict; where it is "uncovered", u and v go to the word memory. Takes any model, any slices
// and any memory.
pub fn verdict(
    m: Model,
    arrows: &[u64],
    sets: &mut SetMemory,
    profiles: &mut ProfileMemory,
    memory: &mut [u8],
) -> Result<Answer, Refused>
    ensures verdict { GivesVerdict m arrows.now (sets_lent sets.old) (sets_lent sets.new)
        (profiles_lent profiles.old) (profiles_lent profiles.new) memory.old memory.new result }
    ensures same_sets { SameSets sets.new sets.old }
    ensures same_profiles { SameProfiles profiles.new profiles.old }
{
    let complete = close(m, arrows, sets, profiles)?;
    let sets = Sets::stored(sets, complete.sets);
    let profiles = Profiles::stored(profiles, complete.profiles);
    answer::conclude(sets, profiles, memory)
}
