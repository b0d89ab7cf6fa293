// One course, judged without tables. The call takes any numbers and any two words, and says in its contract what it answers.
#![tactic(auto)]

mod words;

ghost use Rattle.std.specs.Prelude.{◌≡◌, true, ◌↔◌};
ghost use Rattle.laws.specs.Model.{Accepted};
ghost use Rattle.laws.specs.Repeats.{MarksLed, Repeats};
ghost use Rattle.model.specs.Lent.{machine_of};
ghost use Rattle.profile.specs.Values.{profile};
ghost use Rattle.course.specs.Courses.{JudgesCourse};

use model::{Model, Refusal};
use profile::{Profile, image, is_same, join, marks_round, union};
use words::Course;

// The course is accepted or not.
#[derive(Clone, Copy, PartialEq, Eq)]
pub enum Judgement {
    Accepted,
    Rejected,
}

// All repeats of a profile in one: joined with itself as often as that leads or marks anything more. Each turn adds at least one of 128
// bits, so it ends. A mark where t does not lead would spread to ways that no repeat of t marks.
fn repeated(t: Profile) -> Profile
    requires { MarksLed 8 (profile t) }
    ensures { Repeats 8 (profile t) (profile result) }
{
    let mut c = t;
    loop {
        let grown = union(c, join(c, c));
        if is_same(grown, c) {
            return c;
        }
        c = grown;
    }
}

impl Course<'_> {
    // The course is accepted.
    #[tactic(auto, using(crate::proofs::Judging::accepting))]
    fn is_accepted(&self) -> bool
        ensures { (result ≡ true) ↔ Accepted (machine_of self.now.model) self.now.u.now self.now.v.now }
    {
        let set = self.set_of_beginning();
        let all = repeated(self.profile_of_round());
        marks_round(set, all) || marks_round(image(set, all.arrows), all)
    }
}

// Judges one course, the beginning u and the round v. Takes any model and any two words.
#[tactic(auto, using(crate::proofs::Judged::refused))]
pub fn judge(m: Model, arrows: &[u64], u: &[u8], v: &[u8]) -> Result<Judgement, Refusal>
    ensures { JudgesCourse m arrows.now u.now v.now result }
{
    let course = Course::check(m, arrows, u, v)?;
    if course.is_accepted() {
        Ok(Judgement::Accepted)
    } else {
        Ok(Judgement::Rejected)
    }
}
