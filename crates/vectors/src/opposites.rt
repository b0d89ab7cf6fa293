// One line for the opposite: the answer, and the sum of its four slices.
use crate::sums::mix_all;
use crate::tables::Tables;
use editor::cover_opposite;
use model::Model;
use std::io;

// As many arrows and states as an opposite may have.
const ROOM: usize = 65535;

pub(crate) fn show_opposite<P: Print>(rt: &P, m: Model, arrows: &[u64]) -> io::Result<()> {
    let mut tables = Tables::FILLED;
    let mut from = [9u16; ROOM];
    let mut event = [9u8; ROOM];
    let mut to = [9u16; ROOM];
    let mut flags = [9u8; ROOM];
    let a = cover_opposite(
        m.n,
        m.k,
        m.start,
        m.home,
        arrows,
        &mut tables.set_masks,
        &mut tables.set_from,
        &mut tables.set_event,
        &mut tables.profile_arrows,
        &mut tables.profile_marks,
        &mut tables.profile_from,
        &mut tables.profile_event,
        &mut from,
        &mut event,
        &mut to,
        &mut flags,
    );
    let sum = mix_all(mix_all(mix_all(mix_all(0, &from), &event), &to), &flags);
    println!(rt;
        "{} {} {} {} {} {sum}",
        a.number, a.sets, a.profiles, a.states, a.arrows
    )
}
