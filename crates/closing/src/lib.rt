// Closing: a model's sets and profiles, all of them, into memory that is lent. The call takes any numbers and any slices, and says in its
// contract what it answers and what every lent slice holds afterwards.
#![tactic(auto)]

mod memory;
mod profiles;
mod rows;
mod sets;
mod table;

ghost use Rattle.std.specs.Prelude.{◌≡◌};
ghost use Rattle.closing.specs.Lent.{sets_lent, profiles_lent, SameSets, SameProfiles};
ghost use Rattle.closing.specs.Closing.{told, Closing};

pub use memory::{ProfileMemory, SetMemory};
use model::{Model, Refusal};
pub use table::{NO_ENTRY, NO_EVENT};

// How many sets and profiles a model has: all of them stand in the lent slices.
#[derive(Clone, Copy)]
pub struct Complete {
    pub sets: usize,
    pub profiles: usize,
}

// What is refused, and how many sets and profiles stand in the lent slices.
#[derive(Clone, Copy)]
pub struct Refused {
    pub refusal: Refusal,
    pub sets: usize,
    pub profiles: usize,
}

// Before closing there are none.
impl From<Refusal> for Refused {
    ghost from_gives = { λ r x. x ≡ record { refusal = r; sets = 0; profiles = 0 } };

    fn from(refusal: Refusal) -> Refused {
        Refused {
            refusal,
            sets: 0,
            profiles: 0,
        }
    }
}

// Closes a model: its sets into three slices, its profiles into four. Takes any model and any slices.
pub fn close(
    m: Model,
    arrows: &[u64],
    sets: &mut SetMemory,
    profiles: &mut ProfileMemory,
) -> Result<Complete, Refused>
    ensures closing { Closing m arrows.now (sets_lent sets.old) (sets_lent sets.new)
        (profiles_lent profiles.old) (profiles_lent profiles.new) (told result) }
    ensures same_sets { SameSets sets.new sets.old }
    ensures same_profiles { SameProfiles profiles.new profiles.old }
{
    let m = m.check(arrows)?;
    let sets = table::close(m, sets).map_err(|full| Refused {
        refusal: Refusal::MoreSets,
        sets: full.count,
        profiles: 0,
    })?;
    let profiles = table::close(m, profiles).map_err(|full| Refused {
        refusal: Refusal::MoreProfiles,
        sets,
        profiles: full.count,
    })?;
    Ok(Complete { sets, profiles })
}
