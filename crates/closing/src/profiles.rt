// The profiles: a profile's arrows and marks, the number of the profile it came from, and its last event.
ghost use Rattle.std.specs.Prelude.{◌<◌, ◌≡◌, [], ◌∷◌, ◌++◌};
ghost use Rattle.laws.specs.Model.{eight};
ghost use Rattle.laws.specs.Profiles.{Profile as Paper, profile_value};
ghost use Rattle.laws.specs.Answers.{ProfileSlices, room_for_profiles, profile_slices};
ghost use Rattle.model.specs.Lent.{machine_of};
ghost use Rattle.profile.specs.Values.{profile, so_far};
ghost use Rattle.closing.specs.Memory.{profiles_in};
ghost use Rattle.closing.specs.Lent.{profiles_lent, SameProfiles};
ghost use Rattle.closing.specs.ProfileRows.{profile_at, profile_layout, profile_tells, same_profiles, same_profiles_on};

use crate::memory::ProfileMemory;
use crate::rows::{Entry, Rows};
use model::{Checked, Model, least};
use profile::{Profile, next, of_event};

impl Rows for ProfileMemory<'_> {
    type Value = Profile;

    ghost Paper = { Paper };

    ghost paper = { profile };

    ghost values = { profile_value 8 };

    ghost Slices = { ProfileSlices };

    ghost slices = { profiles_lent };

    ghost write = { profile_slices };

    ghost read = { profiles_in };

    ghost at = { profile_at };

    ghost room_for = { room_for_profiles eight };

    ghost Same = { SameProfiles };

    #[tactic(auto, unfolding(laws::specs::Answers::room_for_profiles))]
    fn room(&self) -> usize {
        least(
            least(
                least(self.arrows.len(), self.marks.len()),
                least(self.from.len(), self.event.len()),
            ),
            Model::PROFILES,
        )
    }

    #[tactic(auto, unfolding(laws::specs::Answers::room_for_profiles))]
    fn value(&self, i: usize) -> Profile {
        Profile {
            arrows: self.arrows[i],
            marks: self.marks[i],
        }
    }

    #[tactic(auto, unfolding(laws::specs::Answers::room_for_profiles))]
    fn put(&mut self, count: usize, e: Entry<Profile>)
        requires { count < room_for_profiles eight (profiles_lent self.old) }
        ensures stored { profiles_lent self.new ≡ profile_slices (profiles_in (profiles_lent self.old) count
            ++ (record { value = profile e.value; from = e.from; event = e.event } ∷ [])) (profiles_lent self.old) }
        ensures same { SameProfiles self.new self.old }
    {
        self.arrows[count] = e.value.arrows;
        self.marks[count] = e.value.marks;
        self.from[count] = e.from;
        self.event[count] = e.event;
    }

    // The empty word has no profile.
    #[tactic(auto, unfolding(laws::specs::Profiles::profile_value, laws::specs::Profiles::word_profile, laws::specs::Profiles::profile_from))]
    fn of_empty_word(m: Checked) -> Option<Profile>
        ensures { so_far profile result ≡ (profile_value 8 (machine_of m.entry)).of [] }
    {
        None
    }

    fn next(m: Checked, x: Option<Profile>, a: usize) -> Profile
        requires { a < m.model.k }
        ensures { profile result ≡ (profile_value 8 (machine_of m.entry)).next (so_far profile x) a }
    {
        next(x, of_event(m.arrows[a], m.model.home))
    }

    ghost layout = { profile_layout };

    ghost tells = { profile_tells };

    ghost itself = { same_profiles };

    ghost chained = { same_profiles_on };
}
