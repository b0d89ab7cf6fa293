// A byte for each profile, whether it has a block; and the opposite's flags.
ghost use Rattle.std.specs.Prelude.{◌+◌, ◌*◌, ◌≤◌, ◌≡◌, cond, ◌∷◌, map, length, take, replicate};
ghost use Rattle.laws.specs.Answers.{over};
ghost use Rattle.laws.specs.Opposite.{has_block};
ghost use Rattle.opposite.specs.Memory.{put_at};
ghost use Rattle.opposite.specs.Lent.{profiles_of};
ghost use Rattle.opposite.specs.Drawing.{flags_of};

use crate::counts::pairs_of;
use crate::tables::Profiles;

// For each of the first profiles, as many as there are bytes: 1 where it has a block, 0 where not.
pub(crate) fn show(masks: &[u8], profiles: &Profiles, shown: &mut [u8])
    requires { length shown.old ≤ length profiles.now.arrows.now }
    ensures { shown.new
        ≡ map (λ t. cond (has_block 8 masks.now t) 1 0) (take (length shown.old) (profiles_of profiles.now)) }
{
    for (j, b) in shown.iter_mut().enumerate() {
        *b = u8::from(0 < pairs_of(masks, profiles.at(j)));
    }
}

// The flags of one block from place n on: 1 for its gate, 0 for its states.
fn block_flags(profiles: usize, flags: &mut [u8], n: usize)
    requires { n + 1 + profiles ≤ length flags.old }
    ensures { flags.new ≡ put_at n (1 ∷ replicate profiles 0) flags.old }
{
    flags[n] = 1;
    flags[n + 1..n + 1 + profiles].fill(0);
}

// The flags of the sets, 1 for the empty one, and then of the blocks.
pub(crate) fn write(masks: &[u8], profiles: usize, blocks: usize, flags: &mut [u8])
    requires { length masks.now + blocks * (profiles + 1) ≤ length flags.old }
    ensures { flags.new ≡ over (flags_of masks.now profiles blocks) flags.old }
{
    set_flags(masks, flags);
    for b in 0..blocks {
        block_flags(profiles, flags, masks.len() + b * (profiles + 1));
    }
}

// The flags of the sets: 1 for the empty one, 0 for the others.
fn set_flags(masks: &[u8], flags: &mut [u8])
    requires { length masks.now ≤ length flags.old }
    ensures { flags.new ≡ over (flags_of masks.now 0 0) flags.old }
{
    for (i, mask) in masks.iter().enumerate() {
        flags[i] = u8::from(*mask == 0);
    }
}
