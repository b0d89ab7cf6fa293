// A course that can be judged, and its words, read letter by letter: the set of the beginning and the profile of the round.
ghost use Rattle.std.specs.Prelude.{◌≡◌, IfOk};
ghost use Rattle.std.proofs.Math.Option.{some};
ghost use Rattle.laws.specs.Words.{letters_are_below};
ghost use Rattle.laws.specs.Model.{eight, Course as IsCourse};
ghost use Rattle.laws.specs.Refusals.{first_of, course_checks};
ghost use Rattle.laws.specs.Profiles.{word_set, word_profile};
ghost use Rattle.model.specs.Asked.{asked};
ghost use Rattle.model.specs.Numbers.{refused};
ghost use Rattle.model.specs.Lent.{checked_model, machine_of};
ghost use Rattle.profile.specs.Values.{profile};

use model::{Checked, Model, Refusal};
use profile::{Profile, image, join, of_event};

// Two words over the events of a checked model, the beginning u and the round v, which has a letter.
#[derive(Clone, Copy)]
pub struct Course<'a> {
    pub model: Checked<'a>,
    pub u: &'a [u8],
    pub v: &'a [u8],
    pub ghost is_course: { IsCourse model.model.k u.now v.now },
}

// Every letter is below k.
fn letters_below(k: usize, w: &[u8]) -> bool
    ensures { result ≡ letters_are_below k w.now }
{
    w.iter().all(|a| (*a as usize) < k)
}

impl<'a> Course<'a> {
    // What is refused of a course: the model's refusals, then 10 and 9, the first that applies. Takes any model and any two words.
    #[tactic(auto, using(crate::proofs::Refused::refusals))]
    pub(crate) fn check(
        m: Model,
        arrows: &'a [u64],
        u: &'a [u8],
        v: &'a [u8],
    ) -> Result<Course<'a>, Refusal>
        ensures number { refused result ≡ (first_of (course_checks eight (asked m arrows.now) u.now v.now)).number }
        ensures checked { IfOk result (λ c. (checked_model c.model ≡ asked m arrows.now) × (c.u.now ≡ u.now) × (c.v.now ≡ v.now)) }
    {
        let model = m.check(arrows)?;
        if v.is_empty() {
            return Err(Refusal::EmptyRound);
        }
        if !letters_below(m.k, u) || !letters_below(m.k, v) {
            return Err(Refusal::MissingEvent);
        }
        Ok(Course { model, u, v })
    }

    // The set of the beginning.
    #[tactic(auto, using(crate::proofs::Judging::set_steps))]
    pub(crate) fn set_of_beginning(&self) -> u8
        ensures { result ≡ word_set 8 (machine_of self.now.model) self.now.u.now }
    {
        let Checked { model, arrows } = self.model;
        let mut set = model.start;
        for a in self.u {
            set = image(set, arrows[*a as usize]);
        }
        set
    }

    // The profile of the round.
    #[tactic(auto, using(crate::proofs::Judging::profile_steps))]
    pub(crate) fn profile_of_round(&self) -> Profile
        ensures { word_profile 8 (machine_of self.now.model) self.now.v.now ≡ some (profile result) }
    {
        let Checked { model, arrows } = self.model;
        let mut t = of_event(arrows[self.v[0] as usize], model.home);
        for a in &self.v[1..] {
            t = join(t, of_event(arrows[*a as usize], model.home));
        }
        t
    }
}
