// The complete tables that an opposite is made from.
ghost use Rattle.std.specs.Prelude.{◌≤◌, ◌<◌, ◌≡◌, length, get_or, eqb};
ghost use Rattle.laws.specs.Bits.{place_of};
ghost use Rattle.laws.specs.Profiles.{same_profile};
ghost use Rattle.profile.specs.Values.{profile as value_of};
ghost use Rattle.opposite.specs.Tables.{profiles_at};

use model::Checked;
use profile::Profile;

// The profiles, in a slice of arrows and a slice of marks.
#[derive(Clone, Copy)]
pub struct Profiles<'a> {
    pub arrows: &'a [u64],
    pub marks: &'a [u64],
    pub ghost alike: { length marks.now ≡ length arrows.now },
}

impl<'a> Profiles<'a> {
    // How many there are.
    pub(crate) fn len(&self) -> usize
        ensures { result ≡ length self.now.arrows.now }
    {
        self.arrows.len()
    }

    // Profile number j.
    pub(crate) fn at(&self, j: usize) -> Profile
        requires { j < length self.now.arrows.now }
        ensures { result ≡ record { arrows = get_or self.now.arrows.now j 0; marks = get_or self.now.marks.now j 0 } }
    {
        Profile {
            arrows: self.arrows[j],
            marks: self.marks[j],
        }
    }

    // The profiles, one by one.
    pub(crate) fn iter(&self) -> Each<'a>
        ensures { result.left ≡ self.now }
    {
        Each { left: *self }
    }

    // The place of a profile; how many there are, where it is not among them.
    pub(crate) fn place(&self, x: Profile) -> usize
        ensures { result ≡ place_of (same_profile (value_of x)) (profiles_at self.now.arrows.now self.now.marks.now) }
    {
        let many = self.len();
        (0..many).find(|j| x == self.at(*j)).unwrap_or(many)
    }
}

// A walk over profiles: those that are left.
#[derive(Drop)]
pub struct Each<'a> {
    pub left: Profiles<'a>,
}

impl Iterator for Each<'_> {
    ghost use Rattle.std.specs.Iterator.{YieldsFirstBy, item_count};
    ghost use Rattle.opposite.specs.Lines.{each_left};

    type Item = Profile;

    ghost next_gives = { YieldsFirstBy value_of each_left };

    ghost remaining = { item_count each_left };

    #[tactic(auto, unfolding(crate::specs::Tables::profiles_at))]
    fn next(&mut self) -> Option<Profile> {
        let (arrows, other_arrows) = self.left.arrows.split_first()?;
        let (marks, other_marks) = self.left.marks.split_first()?;
        self.left = Profiles {
            arrows: other_arrows,
            marks: other_marks,
        };
        Some(Profile {
            arrows: *arrows,
            marks: *marks,
        })
    }
}

// The model, its sets and its profiles, which are no more than closing can answer.
#[derive(Clone, Copy)]
pub struct Tables<'a> {
    pub asked: Checked<'a>,
    pub masks: &'a [u8],
    pub profiles: Profiles<'a>,
    pub ghost few: { (length profiles.arrows.now ≤ 2048) × (length masks.now ≤ 256) },
}

// The place of a set; how many there are, where it is not among them.
pub(crate) fn place_of_set(masks: &[u8], set: u8) -> usize
    ensures { result ≡ place_of (eqb set) masks.now }
{
    masks
        .iter()
        .position(|mask| set == *mask)
        .unwrap_or(masks.len())
}
