// Whether a set and a profile reject.
ghost use Rattle.std.specs.Prelude.{◌≡◌};
ghost use Rattle.laws.specs.Profiles.{marks_a_round, is_rejecting_pair};
ghost use Rattle.profile.specs.Values.{profile};

use crate::bits::{cell, has, some_state};
use crate::{Profile, image, is_same, join};

// Some state of the set is led back to itself with a mark.
#[tactic(auto, unfolding(laws::specs::Profiles::marks_a_round, laws::specs::Profiles::marked))]
pub fn marks_round(set: u8, t: Profile) -> bool
    ensures { result ≡ marks_a_round 8 set (profile t) }
{
    some_state(|r| has(u64::from(set), r) & cell(t.marks, r, r))
}

// The set and the profile fit, and no state of the set has a marked way back to itself.
#[tactic(auto, unfolding(laws::specs::Profiles::is_rejecting_pair, laws::specs::Profiles::is_fitting, laws::specs::Profiles::same_profile), using(crate::proofs::Lent::led_by_arrows),)]
pub fn is_rejecting(set: u8, t: Profile) -> bool
    ensures { result ≡ is_rejecting_pair 8 set (profile t) }
{
    image(set, t.arrows) == set && !marks_round(set, t) && is_same(join(t, t), t)
}
