// One profile: joined with another, made from one event, the set that it leads a set to, and whether it rejects with a set. Each public
// call takes any numbers.
#![tactic(auto)]

mod bits;
mod pairs;

ghost use Rattle.std.specs.Prelude.{◌<◌, ◌≡◌, ◌&&◌, ◌||◌};
ghost use Rattle.laws.specs.Bits.{bit, cell as cell_of, some_below};
ghost use Rattle.laws.specs.Profiles.{same_profile, leads_to, marked, join as joined, image as led};
ghost use Rattle.laws.specs.Repeats.{union as united};
ghost use Rattle.profile.specs.Values.{profile, event_value, next_value, plain};

use bits::{cell, has, pack, some_state};
use model::Model;
pub use pairs::{is_rejecting, marks_round};

// Two numbers: bit 8·p+q says of one whether p leads to q, and of the other whether that is marked.
#[derive(Clone, Copy, PartialEq, Eq)]
pub struct Profile {
    pub arrows: u64,
    pub marks: u64,
}

// s and then t lead from p to q, through some r.
#[tactic(auto, unfolding(laws::specs::Profiles::leads_to))]
fn leads_at(s: Profile, t: Profile, p: usize, q: usize) -> bool
    requires { (p < 8) × (q < 8) }
    ensures { result ≡ some_below 8 (λ r. leads_to 8 (profile s) p r && leads_to 8 (profile t) r q) }
{
    some_state(|r| cell(s.arrows, p, r) & cell(t.arrows, r, q))
}

// And on one of these ways there is a mark.
#[tactic(auto, unfolding(laws::specs::Profiles::leads_to, laws::specs::Profiles::marked))]
fn marks_at(s: Profile, t: Profile, p: usize, q: usize) -> bool
    requires { (p < 8) × (q < 8) }
    ensures { result ≡ some_below 8 (λ r. leads_to 8 (profile s) p r && leads_to 8 (profile t) r q
        && (marked 8 (profile s) p r || marked 8 (profile t) r q)) }
{
    some_state(|r| {
        cell(s.arrows, p, r) & cell(t.arrows, r, q) & (cell(s.marks, p, r) | cell(t.marks, r, q))
    })
}

// s and then t: bit i = 8·p+q of each number is asked for p and q.
#[tactic(auto, unfolding(laws::specs::Profiles::join, laws::specs::Bits::grid))]
pub fn join(s: Profile, t: Profile) -> Profile
    ensures { profile result ≡ joined 8 (profile s) (profile t) }
{
    let arrows = pack(64, |i| leads_at(s, t, i / Model::STATES, i % Model::STATES));
    // Where there is no way none has a mark.
    let marks = pack(
        64,
        |i| has(arrows, i) && marks_at(s, t, i / Model::STATES, i % Model::STATES),
    );
    Profile { arrows, marks }
}

// Leads and marks where s or t does.
pub fn union(s: Profile, t: Profile) -> Profile
    ensures { profile result ≡ united 8 (profile s) (profile t) }
{
    Profile {
        arrows: s.arrows | t.arrows,
        marks: s.marks | t.marks,
    }
}

// Both numbers are equal.
#[tactic(auto, unfolding(laws::specs::Profiles::same_profile))]
pub fn is_same(s: Profile, t: Profile) -> bool
    ensures { result ≡ same_profile (profile s) (profile t) }
{
    s == t
}

// The profile of one event, from its number of arrows: an arrow that arrives at a home state is marked.
#[tactic(auto, unfolding(crate::specs::Values::event_value, laws::specs::Bits::grid, laws::specs::Bits::cell))]
pub fn of_event(arrows: u64, home: u8) -> Profile
    ensures { profile result ≡ event_value arrows home }
{
    Profile {
        arrows,
        marks: pack(
            64,
            |i| has(arrows, i) & has(u64::from(home), i % Model::STATES),
        ),
    }
}

// The profile of what was read, if anything was, with one event more.
pub fn next(x: Option<Profile>, event: Profile) -> Profile
    ensures { profile result ≡ next_value x event }
{
    match x {
        None => event,
        Some(t) => join(t, event),
    }
}

// Some state of the set leads to q.
fn reached(set: u8, arrows: u64, q: usize) -> bool
    requires { q < 8 }
    ensures { result ≡ some_below 8 (λ p. bit set p && cell_of 8 arrows p q) }
{
    some_state(|p| has(u64::from(set), p) & cell(arrows, p, q))
}

// The set to which arrows lead a set.
#[tactic(auto, unfolding(laws::specs::Profiles::image, laws::specs::Profiles::leads_to))]
pub fn image(set: u8, arrows: u64) -> u8
    ensures { result ≡ led 8 set (plain arrows) }
{
    pack(Model::STATES, |q| reached(set, arrows, q)) as u8
}
