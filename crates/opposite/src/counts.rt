// How many states and arrows the opposite has, counted without writing.
ghost use Rattle.std.specs.Prelude.{◌+◌, ◌*◌, ◌^◌, ◌<◌, ◌≤◌, ◌≡◌, ◌&&◌, leb, length};
ghost use Rattle.laws.specs.Bits.{counted, count as count_of};
ghost use Rattle.laws.specs.Profiles.{same_profile, next_profile};
ghost use Rattle.laws.specs.Opposite.{rejects_non_empty, second_count};
ghost use Rattle.model.specs.Lent.{machine_of};
ghost use Rattle.profile.specs.Values.{profile, before as before_of};
ghost use Rattle.opposite.specs.Tables.{remains_unmarked};
ghost use Rattle.opposite.specs.Lent.{profiles_of, CountedOf};

use crate::tables::Tables;
use model::Checked;
use profile::{Profile, image, is_same, join, marks_round, next, of_event};

// How many blocks, states and arrows the opposite has.
#[derive(Clone, Copy)]
pub struct Counts {
    pub blocks: usize,
    pub states: usize,
    pub arrows: usize,
}

impl Counts {
    // One block more, of so many states: from each of them, and from each set that the block's profile rejects with, an arrow on k events.
    fn add_block(&mut self, k: usize, pairs: usize, size: usize)
        requires { (self.old.blocks + 1 ≤ 2048) × (self.old.states + size < 2 ^ 32) × (self.old.arrows + (k * pairs + size * k) < 2 ^ 32) }
        ensures { self.new ≡ record {
          blocks = self.old.blocks + 1;
          states = self.old.states + size;
          arrows = self.old.arrows + (k * pairs + size * k);
        } }
    {
        self.blocks += 1;
        self.states += size;
        self.arrows += k * pairs + size * k;
    }

    // There is room for so many states, and for so many arrows.
    fn fit(&self, state_room: usize, arrow_room: usize) -> bool
        ensures { result ≡ (leb self.now.states state_room && leb self.now.arrows arrow_room) }
    {
        self.states <= state_room && self.arrows <= arrow_room
    }
}

// The set is not empty, the profile leads it exactly to itself, and no state of it back to itself with a mark.
#[tactic(auto, using(crate::proofs::Adding::unmarked_by_arrows))]
pub(crate) fn stays_unmarked(set: u8, t: Profile) -> bool
    ensures { result ≡ remains_unmarked 8 set (profile t) }
{
    set != 0 && image(set, t.arrows) == set && !marks_round(set, t)
}

// With how many sets other than the empty one the profile rejects. It is squared once, for all sets.
pub(crate) fn pairs_of(masks: &[u8], t: Profile) -> usize
    ensures { result ≡ count_of (λ P. rejects_non_empty 8 P (profile t)) masks.now }
{
    if !is_same(join(t, t), t) {
        return 0;
    }
    masks.iter().filter(|set| stays_unmarked(**set, t)).count()
}

// The profile of what was read, if anything was, and then event a.
pub(crate) fn next_on(asked: &Checked, x: Option<Profile>, a: usize) -> Profile
    requires { a < asked.now.model.k }
    ensures { profile result ≡ next_profile 8 (machine_of asked.now) (before_of x) a }
{
    next(x, of_event(asked.arrows[a], asked.model.home))
}

// On how many events what was read and then the event has the profile t.
#[tactic(auto, unfolding(laws::specs::Profiles::same_profile))]
fn returns_of(asked: &Checked, x: Option<Profile>, t: Profile) -> usize
    ensures { result ≡ count_of (λ a. same_profile (next_profile 8 (machine_of asked.now) (before_of x) a) (profile t))
        (counted 0 asked.now.model.k) }
{
    let mut found = 0;
    for a in 0..asked.model.k {
        if is_same(next_on(asked, x, a), t) {
            found += 1;
        }
    }
    found
}

// How many second arrows the block of t has.
fn seconds_of(tables: &Tables, t: Profile) -> usize
    ensures { result ≡ second_count 8 (machine_of tables.now.asked) tables.now.asked.model.k
        (profiles_of tables.now.profiles) (profile t) }
{
    let mut found = returns_of(&tables.asked, None, t);
    for (&arrows, &marks) in tables.profiles.arrows.iter().zip(tables.profiles.marks) {
        found += returns_of(&tables.asked, Some(Profile { arrows, marks }), t);
    }
    found
}

// Goes through the profiles and adds up what their blocks have, as long as that fits: nothing, where there are more states or arrows than
// there is room for. So no more second arrows are looked for than there is room for arrows.
pub(crate) fn count(tables: &Tables, state_room: usize, arrow_room: usize) -> Option<Counts>
    requires { (state_room ≤ 65535) × (arrow_room ≤ 65535) }
    ensures { CountedOf tables.now state_room arrow_room result }
{
    let k = tables.asked.model.k;
    let size = tables.profiles.len() + 1;
    let mut counts = Counts {
        blocks: 0,
        states: tables.masks.len(),
        arrows: tables.masks.len() * k,
    };
    for (&arrows, &marks) in tables.profiles.arrows.iter().zip(tables.profiles.marks) {
        let t = Profile { arrows, marks };
        let pairs = pairs_of(tables.masks, t);
        if pairs == 0 {
            continue;
        }
        counts.add_block(k, pairs, size);
        if !counts.fit(state_room, arrow_room) {
            return None;
        }
        counts.arrows += seconds_of(tables, t);
    }
    counts.fit(state_room, arrow_room).then_some(counts)
}
