// The first pair of a set and a profile that rejects.
ghost use Rattle.cover.specs.Pairs.{First};

use crate::tables::{Profiles, Sets};
use profile::{Profile, is_rejecting};

// A set and a profile, by their numbers.
#[derive(Clone, Copy)]
pub struct Pair {
    pub set: usize,
    pub profile: usize,
}

// Goes through the sets, and for each through all profiles, and leaves both loops at the first pair that rejects.
#[tactic(auto, unfolding(crate::specs::Pairs::rejects))]
pub(crate) fn first(sets: Sets, profiles: Profiles) -> Option<Pair>
    ensures { First sets.entry.masks.now profiles.entry.arrows.now profiles.entry.marks.now result }
{
    let mut found = None;
    'search: for (i, &set) in sets.masks.iter().enumerate() {
        for (j, (&arrows, &marks)) in profiles.arrows.iter().zip(profiles.marks).enumerate() {
            if is_rejecting(set, Profile { arrows, marks }) {
                found = Some(Pair { set: i, profile: j });
                break 'search;
            }
        }
    }
    found
}
