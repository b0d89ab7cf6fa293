// The exports for C, under the names that include/cover.h declares: each is the call of the crate editor, with its contract.
#![tactic(auto)]

ghost use Rattle.closing.specs.Memory.{set_memory, profile_memory};
ghost use Rattle.opposite.specs.Memory.{opposite_memory};
ghost use Rattle.editor.specs.Editor.{Exports, ExportsOpposite, ExportsCourse, ExportsReading};

use editor::{CoverCourse, CoverOpposite, CoverReading, CoverVerdict};

// The verdict, as `verdict` gives it.
#[unsafe(no_mangle)]
pub extern "C" fn cover_verdict(
    n: usize,
    k: usize,
    start: u8,
    home: u8,
    arrows: &[u64],
    set_masks: &mut [u8],
    set_from: &mut [u16],
    set_event: &mut [u8],
    profile_arrows: &mut [u64],
    profile_marks: &mut [u64],
    profile_from: &mut [u16],
    profile_event: &mut [u8],
    memory: &mut [u8],
) -> CoverVerdict
    ensures { Exports (record { n = n; k = k; start = start; home = home }) arrows.now
        (set_memory set_masks.old set_from.old set_event.old)
        (set_memory set_masks.new set_from.new set_event.new)
        (profile_memory profile_arrows.old profile_marks.old
        profile_from.old profile_event.old)
        (profile_memory profile_arrows.new profile_marks.new
        profile_from.new profile_event.new)
        memory.old memory.new
        result }
{
    editor::cover_verdict(
        n,
        k,
        start,
        home,
        arrows,
        set_masks,
        set_from,
        set_event,
        profile_arrows,
        profile_marks,
        profile_from,
        profile_event,
        memory,
    )
}

// The opposite, as `opposite` writes it.
#[unsafe(no_mangle)]
pub extern "C" fn cover_opposite(
    n: usize,
    k: usize,
    start: u8,
    home: u8,
    arrows: &[u64],
    set_masks: &mut [u8],
    set_from: &mut [u16],
    set_event: &mut [u8],
    profile_arrows: &mut [u64],
    profile_marks: &mut [u64],
    profile_from: &mut [u16],
    profile_event: &mut [u8],
    from: &mut [u16],
    event: &mut [u8],
    to: &mut [u16],
    flags: &mut [u8],
) -> CoverOpposite
    ensures { ExportsOpposite (record { n = n; k = k; start = start; home = home }) arrows.now
        (set_memory set_masks.old set_from.old set_event.old)
        (set_memory set_masks.new set_from.new set_event.new)
        (profile_memory profile_arrows.old profile_marks.old
        profile_from.old profile_event.old)
        (profile_memory profile_arrows.new profile_marks.new
        profile_from.new profile_event.new)
        (opposite_memory from.old event.old to.old flags.old)
        (opposite_memory from.new event.new to.new flags.new)
        result }
{
    editor::cover_opposite(
        n,
        k,
        start,
        home,
        arrows,
        set_masks,
        set_from,
        set_event,
        profile_arrows,
        profile_marks,
        profile_from,
        profile_event,
        from,
        event,
        to,
        flags,
    )
}

// One course, as `judge` judges it.
#[unsafe(no_mangle)]
pub extern "C" fn cover_course(
    n: usize,
    k: usize,
    start: u8,
    home: u8,
    arrows: &[u64],
    u: &[u8],
    v: &[u8],
) -> CoverCourse
    ensures { ExportsCourse (record { n = n; k = k; start = start; home = home }) arrows.now
        u.now v.now result }
{
    editor::cover_course(n, k, start, home, arrows, u, v)
}

// A model file, as `read` reads it.
#[unsafe(no_mangle)]
pub extern "C" fn cover_read(file: &[u8], arrows: &mut [u64]) -> CoverReading
    ensures { ExportsReading file.now arrows.old arrows.new result }
{
    editor::cover_read(file, arrows)
}
