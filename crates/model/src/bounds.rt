// Numbers outside their range, and bits for states n or above.
ghost use Rattle.std.specs.Prelude.{◌≤◌, ◌≡◌, length, take};
ghost use Rattle.laws.specs.Bits.{some_of};
ghost use Rattle.laws.specs.Refusals.{mask_beyond, arrows_beyond, outside};

use crate::Model;

// x is outside 1 to most.
pub(crate) fn is_outside(most: usize, x: usize) -> bool
    ensures { result ≡ outside most x }
{
    !(1..=most).contains(&x)
}

// A row of bits has one for a state n or above.
pub(crate) fn row_beyond(n: usize, row: u8) -> bool
    requires { n ≤ 8 }
    ensures { result ≡ mask_beyond n row }
{
    0 < u64::from(row) >> n
}

// Some mask has a bit for a state n or above.
pub(crate) fn some_mask_beyond(n: usize, masks: &[u8]) -> bool
    requires { n ≤ 8 }
    ensures { result ≡ some_of (mask_beyond n) masks.now }
{
    masks.iter().any(|mask| row_beyond(n, *mask))
}

// An event's arrows have a bit for p and q where p or q is n or above: any bit behind the first n rows, or in one of these a bit for a
// state n or above.
fn beyond(n: usize, arrows: u64) -> bool
    requires { n ≤ 8 }
    ensures { result ≡ arrows_beyond 8 n arrows }
{
    let rows = arrows.to_le_bytes();
    let first = &rows[..n];
    n < Model::STATES && 0 < arrows >> (Model::STATES * n) || some_mask_beyond(n, first)
}

// One of the first k events has such arrows.
pub(crate) fn some_beyond(n: usize, k: usize, arrows: &[u64]) -> bool
    requires { (n ≤ 8) × (k ≤ length arrows.now) }
    ensures { result ≡ some_of (arrows_beyond 8 n) (take k arrows.now) }
{
    arrows[..k].iter().any(|x| beyond(n, *x))
}
