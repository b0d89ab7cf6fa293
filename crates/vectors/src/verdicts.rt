// One line for the verdict: the answer, and the sum of the word memory.
use crate::sums::mix_all;
use crate::tables::Tables;
use editor::cover_verdict;
use model::Model;
use std::io;

// Room for u and v, as many letters as there may be sets and profiles.
const WORDS: usize = Model::SETS + Model::PROFILES;

pub(crate) fn show_verdict<P: Print>(rt: &P, m: Model, arrows: &[u64]) -> io::Result<()> {
    let mut tables = Tables::FILLED;
    let mut words = [9u8; WORDS];
    let a = cover_verdict(
        m.n,
        m.k,
        m.start,
        m.home,
        arrows,
        &mut tables.set_masks,
        &mut tables.set_from,
        &mut tables.set_event,
        &mut tables.profile_arrows,
        &mut tables.profile_marks,
        &mut tables.profile_from,
        &mut tables.profile_event,
        &mut words,
    );
    println!(rt;
        "{} {} {} {} {} {} {}",
        a.number,
        a.sets,
        a.profiles,
        a.verdict,
        a.u,
        a.v,
        mix_all(0, &words)
    )
}
