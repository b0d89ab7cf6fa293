// The opposite of complete tables: counted first, and written only where it fits.
ghost use Rattle.std.specs.Prelude.{◌≤◌, ◌≡◌, cond, length, eqb};
ghost use Rattle.laws.specs.Answers.{room_for_states, room_for_arrows};
ghost use Rattle.opposite.specs.Lent.{opposite_lent, SameOpposite, FittingOf, DrawnOf, DrawsOf};

use crate::arrows::{Lines, Shown};
use crate::counts::{Counts, count};
use crate::flags::{show, write};
use crate::memory::OppositeMemory;
use crate::tables::Tables;
use model::least;

// At most so many states, and so many arrows.
const LIMIT: usize = 65535;

// The room for states: the length of the slice of flags, or the limit.
#[tactic(auto, unfolding(laws::specs::Answers::room_for_states))]
fn state_room(out: &OppositeMemory) -> usize
    ensures { result ≡ room_for_states (opposite_lent out.now) }
{
    least(out.flags.len(), LIMIT)
}

// The room for arrows: the least of their slices and the limit.
#[tactic(auto, unfolding(laws::specs::Answers::room_for_arrows))]
fn arrow_room(out: &OppositeMemory) -> usize
    ensures { result ≡ room_for_arrows (opposite_lent out.now) }
{
    least(
        least(out.from.len(), least(out.event.len(), out.to.len())),
        LIMIT,
    )
}

// Beside how many profiles it is noted whether they have a block: without any block there may be no room for that, and no need.
fn shown_profiles(profiles: usize, blocks: usize) -> usize
    ensures { result ≡ cond (eqb blocks 0) 0 profiles }
{
    if blocks == 0 { 0 } else { profiles }
}

// Writes the arrows and the flags of an opposite that fits. Until the flags are written, their slice holds which profiles have a block.
fn write_all(tables: &Tables, blocks: usize, out: &mut OppositeMemory)
    requires fitting { FittingOf tables.now (opposite_lent out.old) blocks }
    ensures drawn { DrawnOf tables.now (opposite_lent out.old) (opposite_lent out.new) }
    ensures same { SameOpposite out.new out.old }
{
    let profiles = shown_profiles(tables.profiles.len(), blocks);
    let flags = &mut *out.flags;
    show(tables.masks, &tables.profiles, &mut flags[..profiles]);
    let shown = Shown {
        tables: &*tables,
        bytes: &flags[..profiles],
    };
    let mut lines = Lines {
        from: out.from,
        event: out.event,
        to: out.to,
        count: 0,
    };
    lines.sets(shown);
    lines.blocks(shown);
    write(tables.masks, tables.profiles.len(), blocks, flags);
}

// Counts, and writes where it fits.
#[tactic(auto, unfolding(laws::specs::Answers::room_for_states, laws::specs::Answers::room_for_arrows))]
pub(crate) fn draw(tables: &Tables, out: &mut OppositeMemory) -> Option<Counts>
    ensures draws { DrawsOf tables.now (opposite_lent out.old) (opposite_lent out.new) result }
    ensures same { SameOpposite out.new out.old }
{
    let counted = count(tables, state_room(out), arrow_room(out))?;
    write_all(tables, counted.blocks, out);
    Some(counted)
}
