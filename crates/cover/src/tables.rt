// Complete tables, as parts of slices that hold nothing else.
ghost use Rattle.std.specs.Prelude.{ℕ, ◌≡◌, ◌≤◌, length, take};
ghost use Rattle.laws.specs.Model.{eight};
ghost use Rattle.closing.specs.Memory.{SetsLent, ProfilesLent};
ghost use Rattle.cover.specs.WordMemory.{Linked};

use closing::{ProfileMemory, SetMemory};

// What the words of a table's entries are rebuilt from: for each entry its predecessor's number and its last event.
#[derive(Clone, Copy)]
pub struct Links<'a> {
    pub from: &'a [u16],
    pub event: &'a [u8],
    ghost linked: { Linked from.now event.now },
}

// The sets, within their limit.
#[derive(Clone, Copy)]
pub struct Sets<'a> {
    pub masks: &'a [u8],
    pub links: Links<'a>,
    ghost places: { length links.from.now ≡ length masks.now },
    ghost few: { length masks.now ≤ eight.sets },
}

impl<'s> Sets<'s> {
    ghost use Rattle.closing.specs.Lent.{sets_lent};
    ghost use Rattle.cover.specs.Tables.{sets_viewed, first_sets};

    // Those in the first places of lent slices.
    pub(crate) fn stored(lent: &'s SetMemory, count: usize) -> Sets<'s>
        requires there { (room : ℕ) × SetsLent (sets_lent lent.now) count room }
        requires linked { Linked (take count lent.now.from.now) (take count lent.now.event.now) }
        ensures { sets_viewed result ≡ first_sets count (sets_lent lent.now) }
    {
        let masks = &lent.masks[..count];
        let from = &lent.from[..count];
        let event = &lent.event[..count];
        Sets {
            masks,
            links: Links { from, event },
        }
    }
}

// The profiles, within theirs: so the letters of two words can be added up.
#[derive(Clone, Copy)]
pub struct Profiles<'a> {
    pub arrows: &'a [u64],
    pub marks: &'a [u64],
    pub links: Links<'a>,
    ghost places: { length links.from.now ≡ length arrows.now },
    ghost mark_places: { length marks.now ≡ length arrows.now },
    ghost few: { length arrows.now ≤ eight.profiles },
}

impl<'s> Profiles<'s> {
    ghost use Rattle.closing.specs.Lent.{profiles_lent};
    ghost use Rattle.cover.specs.Tables.{profiles_viewed, first_profiles};

    // Those in the first places of lent slices.
    pub(crate) fn stored(lent: &'s ProfileMemory, count: usize) -> Profiles<'s>
        requires there { (room : ℕ) × ProfilesLent (profiles_lent lent.now) count room }
        requires linked { Linked (take count lent.now.from.now) (take count lent.now.event.now) }
        ensures { profiles_viewed result ≡ first_profiles count (profiles_lent lent.now) }
    {
        let arrows = &lent.arrows[..count];
        let marks = &lent.marks[..count];
        let from = &lent.from[..count];
        let event = &lent.event[..count];
        Profiles {
            arrows,
            marks,
            links: Links { from, event },
        }
    }
}
