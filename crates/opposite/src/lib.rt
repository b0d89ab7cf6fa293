// The opposite machine. The public call takes any numbers and any lent slices, and says in its contract what it answers and what every lent
// slice holds afterwards.
#![tactic(auto)]

mod arrows;
mod counts;
mod draw;
mod flags;
mod memory;
mod tables;

ghost use Rattle.std.specs.Prelude.{◌≤◌, ◌≡◌, length, take};
ghost use Rattle.closing.specs.Lent.{sets_lent, profiles_lent, SameSets, SameProfiles};
ghost use Rattle.opposite.specs.Lent.{opposite_lent, SameOpposite};
ghost use Rattle.opposite.specs.Opposites.{WritesOpposite};

use closing::{Complete, ProfileMemory, Refused, SetMemory, close};
use draw::draw;
pub use memory::OppositeMemory;
use model::{Checked, Model, Refusal};
use tables::{Profiles, Tables};

// How many sets and profiles stand in the lent slices, and how many states and arrows the opposite has, which stand in theirs.
#[derive(Clone, Copy)]
pub struct Written {
    pub sets: usize,
    pub profiles: usize,
    pub states: usize,
    pub arrows: usize,
}

// The tables that closing left in the first places of the lent slices.
fn tables_of<'a>(
    asked: Checked<'a>,
    closed: Complete,
    sets: &'a SetMemory,
    profiles: &'a ProfileMemory,
) -> Tables<'a>
    requires sets { closed.sets ≤ length sets.now.masks.now }
    requires profiles { (closed.profiles ≤ length profiles.now.arrows.now) × (closed.profiles ≤ length profiles.now.marks.now) }
    requires few { (closed.profiles ≤ 2048) × (closed.sets ≤ 256) }
    ensures asked { result.asked ≡ asked.entry }
    ensures masks { result.masks.now ≡ take closed.sets sets.now.masks.now }
    ensures arrows { result.profiles.arrows.now ≡ take closed.profiles profiles.now.arrows.now }
    ensures marks { result.profiles.marks.now ≡ take closed.profiles profiles.now.marks.now }
{
    let masks = &sets.masks[..closed.sets];
    let arrows = &profiles.arrows[..closed.profiles];
    let marks = &profiles.marks[..closed.profiles];
    let profiles = Profiles { arrows, marks };
    Tables {
        asked,
        masks,
        profiles,
    }
}

// Closes a model as `close` does and writes its opposite: arrows to three slices, sorted by from, event and to, and a flag for each state
// to a fourth, 1 where it accepts. Takes any model and any slices.
pub fn opposite(
    m: Model,
    arrows: &[u64],
    sets: &mut SetMemory,
    profiles: &mut ProfileMemory,
    out: &mut OppositeMemory,
) -> Result<Written, Refused>
    ensures opposite { WritesOpposite m arrows.now
        (sets_lent sets.old) (sets_lent sets.new)
        (profiles_lent profiles.old) (profiles_lent profiles.new)
        (opposite_lent out.old) (opposite_lent out.new)
        result }
    ensures same_sets { SameSets sets.new sets.old }
    ensures same_profiles { SameProfiles profiles.new profiles.old }
    ensures same_opposite { SameOpposite out.new out.old }
{
    let closed = close(m, arrows, sets, profiles)?;
    let asked = Checked { model: m, arrows };
    let tables = tables_of(asked, closed, sets, profiles);
    let drawn = draw(&tables, out).ok_or(Refused {
        refusal: Refusal::MoreArrows,
        sets: closed.sets,
        profiles: closed.profiles,
    })?;
    Ok(Written {
        sets: closed.sets,
        profiles: closed.profiles,
        states: drawn.states,
        arrows: drawn.arrows,
    })
}
