// Bits of numbers, and a test of a number handed over: its answers packed into a number, and whether it holds of some state.
ghost use Rattle.std.specs.Prelude.{ℕ, ◌^◌, ◌<◌, ◌≤◌, ◌≡◌, Bool};
ghost use Rattle.laws.specs.Bits.{bit, number_of_bits, some_below, cell as cell_of};
ghost use Rattle.profile.specs.Tests.{Answers};

use model::Model;

// Bit i of x.
#[tactic(auto, unfolding(laws::specs::Bits::bit))]
pub(crate) fn has(x: u64, i: usize) -> bool
    requires { i < 64 }
    ensures { result ≡ bit x i }
{
    (x >> i) % 2 == 1
}

// The bit for p, q of a number packed by rows.
#[tactic(auto, unfolding(laws::specs::Bits::cell))]
pub(crate) fn cell(x: u64, p: usize, q: usize) -> bool
    requires { (p < 8) × (q < 8) }
    ensures { result ≡ cell_of 8 x p q }
{
    has(x, Model::STATES * p + q)
}

// The number of n bits whose bit i is the test's answer at i.
#[tactic(auto, unfolding(laws::specs::Bits::number_of_bits))]
pub(crate) fn pack<T: Fn(usize) -> bool>(n: usize, test: T) -> u64
    requires few { n ≤ 64 }
    requires callable { (i : ℕ) → i < n → T.pre test i }
    ensures below { result < 2 ^ n }
    ensures bits { (f : ℕ → Bool) → Answers (T.post test) n f → result ≡ number_of_bits n f }
{
    let mut x: u64 = 0;
    for i in (0..n).rev() {
        x = 2 * x + u64::from(test(i));
    }
    x
}

// The test holds of some state.
pub(crate) fn some_state<T: Fn(usize) -> bool>(test: T) -> bool
    requires { (r : ℕ) → r < 8 → T.pre test r }
    ensures { (f : ℕ → Bool) → Answers (T.post test) 8 f → result ≡ some_below 8 f }
{
    (0..Model::STATES).any(
        |r|
            requires { (r < 8) × T.pre test r }
            ensures { (r < 8) × T.post test r result }
        { test(r) },
    )
}
