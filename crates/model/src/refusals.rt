// What is refused, by any call: each case has the number that is given back for it.
ghost use Rattle.std.specs.Prelude.{◌≡◌};
ghost use Rattle.model.specs.Numbers.{number_of};

#[derive(Clone, Copy, PartialEq, Eq)]
pub enum Refusal {
    OutsideRange = 1,
    FewArrows = 2,
    MissingState = 3,
    MoreSets = 4,
    MoreProfiles = 5,
    FewLetters = 6,
    MoreArrows = 7,
    BrokenForm = 8,
    MissingEvent = 9,
    EmptyRound = 10,
}

impl From<Refusal> for u8 {
    ghost from_gives = { λ refusal number. number ≡ number_of refusal };

    fn from(refusal: Refusal) -> u8 {
        refusal as u8
    }
}

impl Refusal {
    // The fault of this refusal at an offset.
    pub(crate) fn at(self, offset: usize) -> Fault
        ensures { result ≡ record { refusal = self; offset = offset } }
    {
        Fault {
            refusal: self,
            offset,
        }
    }
}

// What is refused of a model file, and the offset of its place.
#[derive(Clone, Copy, PartialEq, Eq)]
pub struct Fault {
    pub refusal: Refusal,
    pub offset: usize,
}
