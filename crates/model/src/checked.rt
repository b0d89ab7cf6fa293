// A model of which nothing is refused.
ghost use Rattle.std.specs.Prelude.{◌≡◌, IfOk};
ghost use Rattle.laws.specs.Model.{eight};
ghost use Rattle.laws.specs.Refusals.{Unrefused, first_of, model_checks};
ghost use Rattle.model.specs.Asked.{asked};
ghost use Rattle.model.specs.Numbers.{refused};

use crate::{Model, Refusal, bounds};

// The model, with the slice of its arrows.
#[derive(Clone, Copy)]
pub struct Checked<'a> {
    pub model: Model,
    pub arrows: &'a [u64],
    pub ghost unrefused: { Unrefused eight (asked model arrows.now) },
}

impl Model {
    // What is refused of a model: 1, 2 or 3, the first that applies. Takes any model and any slice of arrows.
    pub fn check(self, arrows: &[u64]) -> Result<Checked<'_>, Refusal>
        ensures number { refused result ≡ (first_of (model_checks eight (asked self arrows.now))).number }
        ensures checked { IfOk result (λ c. (c.model ≡ self) × (c.arrows.now ≡ arrows.now)) }
    {
        if bounds::is_outside(Model::STATES, self.n) || bounds::is_outside(Model::EVENTS, self.k) {
            return Err(Refusal::OutsideRange);
        }
        if arrows.len() < self.k {
            return Err(Refusal::FewArrows);
        }
        if bounds::row_beyond(self.n, self.start)
            || bounds::row_beyond(self.n, self.home)
            || bounds::some_beyond(self.n, self.k, arrows)
        {
            return Err(Refusal::MissingState);
        }
        Ok(Checked {
            model: self,
            arrows,
        })
    }
}
