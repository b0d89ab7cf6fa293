// The sets: a set's mask, the number of the set it came from, and its last event.
ghost use Rattle.std.specs.Prelude.{ℕ, ◌<◌, ◌≡◌, [], ◌∷◌, ◌++◌};
ghost use Rattle.laws.specs.Model.{eight};
ghost use Rattle.laws.specs.Profiles.{set_value};
ghost use Rattle.laws.specs.Answers.{SetSlices, room_for_sets, set_slices};
ghost use Rattle.model.specs.Lent.{machine_of};
ghost use Rattle.profile.specs.Values.{so_far};
ghost use Rattle.closing.specs.Memory.{sets_in};
ghost use Rattle.closing.specs.Lent.{sets_lent, SameSets};
ghost use Rattle.closing.specs.SetRows.{set_at, set_layout, set_tells, same_sets, same_sets_on};

use crate::memory::SetMemory;
use crate::rows::{Entry, Rows};
use model::{Checked, Model, least};
use profile::image;

impl Rows for SetMemory<'_> {
    type Value = u8;

    ghost Paper = { ℕ };

    ghost paper = { λ x. x };

    ghost values = { set_value 8 };

    ghost Slices = { SetSlices };

    ghost slices = { sets_lent };

    ghost write = { set_slices };

    ghost read = { sets_in };

    ghost at = { set_at };

    ghost room_for = { room_for_sets eight };

    ghost Same = { SameSets };

    #[tactic(auto, unfolding(laws::specs::Answers::room_for_sets))]
    fn room(&self) -> usize {
        least(
            least(self.masks.len(), least(self.from.len(), self.event.len())),
            Model::SETS,
        )
    }

    #[tactic(auto, unfolding(laws::specs::Answers::room_for_sets))]
    fn value(&self, i: usize) -> u8 {
        self.masks[i]
    }

    #[tactic(auto, unfolding(laws::specs::Answers::room_for_sets))]
    fn put(&mut self, count: usize, e: Entry<u8>)
        requires { count < room_for_sets eight (sets_lent self.old) }
        ensures stored { sets_lent self.new ≡ set_slices (sets_in (sets_lent self.old) count
            ++ (record { value = e.value; from = e.from; event = e.event } ∷ [])) (sets_lent self.old) }
        ensures same { SameSets self.new self.old }
    {
        self.masks[count] = e.value;
        self.from[count] = e.from;
        self.event[count] = e.event;
    }

    // The set of the empty word is the start states.
    fn of_empty_word(m: Checked) -> Option<u8>
        ensures { so_far (λ x. x) result ≡ (set_value 8 (machine_of m.entry)).of [] }
    {
        Some(m.model.start)
    }

    // Every word has a set, so that there always is one to go on from.
    #[tactic(auto, unfolding(laws::specs::Profiles::set_value, laws::specs::Profiles::next_set))]
    fn next(m: Checked, x: Option<u8>, a: usize) -> u8
        requires { a < m.model.k }
        ensures { result ≡ (set_value 8 (machine_of m.entry)).next (so_far (λ x. x) x) a }
    {
        match x {
            None => 0,
            Some(set) => image(set, m.arrows[a]),
        }
    }

    ghost layout = { set_layout };

    ghost tells = { set_tells };

    ghost itself = { same_sets };

    ghost chained = { same_sets_on };
}
