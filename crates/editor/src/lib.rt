// The calls for an editor written in C: numbers and slices go in, a plain struct of numbers comes back. The crate editor_c exports them.
#![tactic(auto)]

ghost use Rattle.std.specs.Prelude.{◌≡◌};
ghost use Rattle.closing.specs.Memory.{set_memory, profile_memory};
ghost use Rattle.opposite.specs.Memory.{opposite_memory};
ghost use Rattle.editor.specs.Editor.{in_numbers, Exports, opposite_numbers, ExportsOpposite};
ghost use Rattle.editor.specs.Editor.{course_numbers, ExportsCourse, reading_numbers, ExportsReading};

use closing::{ProfileMemory, Refused, SetMemory};
use course::Judgement;
use cover::Answer;
use model::{Fault, Model, Refusal};
use opposite::{OppositeMemory, Written};

// The verdict as a number; include/cover.h has the same.
enum Verdict {
    NotGiven = 0,
    Covered = 1,
    Uncovered = 2,
}

// The verdict's answer as numbers; include/cover.h declares the same.
#[repr(C)]
#[derive(Clone, Copy)]
pub struct CoverVerdict {
    pub number: u8,
    pub verdict: u8,
    pub sets: usize,
    pub profiles: usize,
    pub u: usize,
    pub v: usize,
}

// Each case of the answer as numbers.
impl From<Result<Answer, Refused>> for CoverVerdict {
    ghost from_gives = { λ answer numbers. numbers ≡ in_numbers answer };

    #[tactic(auto, unfolding(crate::specs::Editor::in_numbers, crate::specs::Editor::code, cover::specs::Verdicts::told))]
    fn from(answer: Result<Answer, Refused>) -> CoverVerdict {
        match answer {
            Ok(Answer::Covered { sets, profiles }) => CoverVerdict {
                number: 0,
                verdict: Verdict::Covered as u8,
                sets,
                profiles,
                u: 0,
                v: 0,
            },
            Ok(
                Answer::Uncovered {
                    sets,
                    profiles,
                    u,
                    v,
                },
            ) => CoverVerdict {
                number: 0,
                verdict: Verdict::Uncovered as u8,
                sets,
                profiles,
                u,
                v,
            },
            Err(
                Refused {
                    refusal,
                    sets,
                    profiles,
                },
            ) => CoverVerdict {
                number: u8::from(refusal),
                verdict: Verdict::NotGiven as u8,
                sets,
                profiles,
                u: 0,
                v: 0,
            },
        }
    }
}

// The verdict, as `verdict` gives it.
pub fn cover_verdict(
    n: usize,
    k: usize,
    start: u8,
    home: u8,
    arrows: &[u64],
    set_masks: &mut [u8],
    set_from: &mut [u16],
    set_event: &mut [u8],
    profile_arrows: &mut [u64],
    profile_marks: &mut [u64],
    profile_from: &mut [u16],
    profile_event: &mut [u8],
    memory: &mut [u8],
) -> CoverVerdict
    ensures { Exports (record { n = n; k = k; start = start; home = home }) arrows.now
        (set_memory set_masks.old set_from.old set_event.old)
        (set_memory set_masks.new set_from.new set_event.new)
        (profile_memory profile_arrows.old profile_marks.old
        profile_from.old profile_event.old)
        (profile_memory profile_arrows.new profile_marks.new
        profile_from.new profile_event.new)
        memory.old memory.new
        result }
{
    let m = Model { n, k, start, home };
    let mut sets = SetMemory {
        masks: set_masks,
        from: set_from,
        event: set_event,
    };
    let mut profiles = ProfileMemory {
        arrows: profile_arrows,
        marks: profile_marks,
        from: profile_from,
        event: profile_event,
    };
    cover::verdict(m, arrows, &mut sets, &mut profiles, memory).into()
}

// The opposite's answer as numbers; include/cover.h declares the same.
#[repr(C)]
#[derive(Clone, Copy)]
pub struct CoverOpposite {
    pub number: u8,
    pub sets: usize,
    pub profiles: usize,
    pub states: usize,
    pub arrows: usize,
}

// Each case of the opposite's answer as numbers.
impl From<Result<Written, Refused>> for CoverOpposite {
    ghost from_gives = { λ answer numbers. numbers ≡ opposite_numbers answer };

    #[tactic(auto, unfolding(crate::specs::Editor::opposite_numbers, opposite::specs::Opposites::told))]
    fn from(answer: Result<Written, Refused>) -> CoverOpposite {
        match answer {
            Ok(
                Written {
                    sets,
                    profiles,
                    states,
                    arrows,
                },
            ) => CoverOpposite {
                number: 0,
                sets,
                profiles,
                states,
                arrows,
            },
            Err(
                Refused {
                    refusal,
                    sets,
                    profiles,
                },
            ) => CoverOpposite {
                number: u8::from(refusal),
                sets,
                profiles,
                states: 0,
                arrows: 0,
            },
        }
    }
}

// The opposite, as `opposite` writes it.
pub fn cover_opposite(
    n: usize,
    k: usize,
    start: u8,
    home: u8,
    arrows: &[u64],
    set_masks: &mut [u8],
    set_from: &mut [u16],
    set_event: &mut [u8],
    profile_arrows: &mut [u64],
    profile_marks: &mut [u64],
    profile_from: &mut [u16],
    profile_event: &mut [u8],
    from: &mut [u16],
    event: &mut [u8],
    to: &mut [u16],
    flags: &mut [u8],
) -> CoverOpposite
    ensures { ExportsOpposite (record { n = n; k = k; start = start; home = home }) arrows.now
        (set_memory set_masks.old set_from.old set_event.old)
        (set_memory set_masks.new set_from.new set_event.new)
        (profile_memory profile_arrows.old profile_marks.old
        profile_from.old profile_event.old)
        (profile_memory profile_arrows.new profile_marks.new
        profile_from.new profile_event.new)
        (opposite_memory from.old event.old to.old flags.old)
        (opposite_memory from.new event.new to.new flags.new)
        result }
{
    let model = Model { n, k, start, home };
    let mut sets = SetMemory {
        masks: set_masks,
        from: set_from,
        event: set_event,
    };
    let mut profiles = ProfileMemory {
        arrows: profile_arrows,
        marks: profile_marks,
        from: profile_from,
        event: profile_event,
    };
    let mut out = OppositeMemory {
        from,
        event,
        to,
        flags,
    };
    opposite::opposite(model, arrows, &mut sets, &mut profiles, &mut out).into()
}

// The judgement as a number; include/cover.h has the same.
enum Judged {
    NotGiven = 0,
    Accepted = 1,
    NotAccepted = 2,
}

// The judgement of one course as numbers; include/cover.h declares the same.
#[repr(C)]
#[derive(Clone, Copy)]
pub struct CoverCourse {
    pub number: u8,
    pub judgement: u8,
}

// Each case of the judgement as numbers.
impl From<Result<Judgement, Refusal>> for CoverCourse {
    ghost from_gives = { λ answer numbers. numbers ≡ course_numbers answer };

    #[tactic(auto, unfolding(crate::specs::Editor::course_numbers, crate::specs::Editor::code, course::specs::Courses::number, course::specs::Courses::accepted, course::specs::Courses::is_said))]
    fn from(answer: Result<Judgement, Refusal>) -> CoverCourse {
        match answer {
            Ok(Judgement::Accepted) => CoverCourse {
                number: 0,
                judgement: Judged::Accepted as u8,
            },
            Ok(Judgement::Rejected) => CoverCourse {
                number: 0,
                judgement: Judged::NotAccepted as u8,
            },
            Err(refusal) => CoverCourse {
                number: u8::from(refusal),
                judgement: Judged::NotGiven as u8,
            },
        }
    }
}

// One course, as `judge` judges it.
pub fn cover_course(
    n: usize,
    k: usize,
    start: u8,
    home: u8,
    arrows: &[u64],
    u: &[u8],
    v: &[u8],
) -> CoverCourse
    ensures { ExportsCourse (record { n = n; k = k; start = start; home = home }) arrows.now
        u.now v.now result }
{
    course::judge(Model { n, k, start, home }, arrows, u, v).into()
}

// What was read of a file, as numbers; include/cover.h declares the same.
#[repr(C)]
#[derive(Clone, Copy)]
pub struct CoverReading {
    pub number: u8,
    pub offset: usize,
    pub n: usize,
    pub k: usize,
    pub start: u8,
    pub home: u8,
}

// Each case of a reading as numbers.
impl From<Result<Model, Fault>> for CoverReading {
    ghost from_gives = { λ answer numbers. numbers ≡ reading_numbers answer };

    #[tactic(auto, unfolding(crate::specs::Editor::reading_numbers, model::specs::Reader::told))]
    fn from(answer: Result<Model, Fault>) -> CoverReading {
        match answer {
            Ok(model) => CoverReading {
                number: 0,
                offset: 0,
                n: model.n,
                k: model.k,
                start: model.start,
                home: model.home,
            },
            Err(Fault { refusal, offset }) => CoverReading {
                number: u8::from(refusal),
                offset,
                n: 0,
                k: 0,
                start: 0,
                home: 0,
            },
        }
    }
}

// A model file, as `read` reads it.
pub fn cover_read(file: &[u8], arrows: &mut [u64]) -> CoverReading
    ensures { ExportsReading file.now arrows.old arrows.new result }
{
    model::read(file, arrows).into()
}
