// The least word of an entry, rebuilt through ever smaller entry numbers, and the words of a pair in the word memory.
ghost use Rattle.std.specs.Prelude.{◌<◌, ◌≤◌, ◌≡◌, length};
ghost use Rattle.cover.specs.WordMemory.{word_in, Places};

use crate::pairs::Pair;
use crate::tables::{Links, Profiles, Sets};
use closing::{NO_ENTRY, NO_EVENT};

// How many letters the word of entry i has.
#[tactic(auto, using(crate::proofs::Rebuilding::word_steps))]
fn count(links: &Links, i: usize) -> usize
    requires { i < length links.now.from.now }
    ensures { result ≡ length (word_in links.now.from.now links.now.event.now i) }
{
    let origin = links.from[i];
    if origin == NO_ENTRY {
        if links.event[i] == NO_EVENT {
            return 0;
        }
        return 1;
    }
    count(links, origin as usize) + 1
}

// Writes the word of entry i to a part that has exactly its length.
#[tactic(auto, using(crate::proofs::Rebuilding::word_steps))]
fn write(links: &Links, i: usize, out: &mut [u8])
    requires i_in_bounds { i < length links.now.from.now }
    requires out_len { length out.old ≡ length (word_in links.now.from.now links.now.event.now i) }
    ensures { out.new ≡ word_in links.now.from.now links.now.event.now i }
{
    let origin = links.from[i];
    if origin == NO_ENTRY {
        if links.event[i] == NO_EVENT {
            return;
        }
        out[0] = links.event[i];
        return;
    }
    let last = out.len() - 1;
    out[last] = links.event[i];
    write(links, origin as usize, &mut out[..last]);
}

// How many letters u and v have.
#[derive(Clone, Copy)]
pub struct Placed {
    pub u: usize,
    pub v: usize,
}

// Writes the word of the pair's set and behind it that of its profile, or nothing where they do not fit.
#[tactic(auto, using(crate::proofs::Rebuilding::word_steps), unfolding(laws::specs::Answers::over))]
pub(crate) fn place(sets: Sets, profiles: Profiles, pair: Pair, memory: &mut [u8]) -> Option<Placed>
    requires set_there { pair.set < length sets.masks.now }
    requires profile_there { pair.profile < length profiles.arrows.now }
    ensures { Places (word_in sets.entry.links.from.now sets.entry.links.event.now pair.set)
        (word_in profiles.entry.links.from.now profiles.entry.links.event.now pair.profile)
        memory.old memory.new result }
{
    let u = count(&sets.links, pair.set);
    let v = count(&profiles.links, pair.profile);
    if memory.len() < u + v {
        return None;
    }
    write(&sets.links, pair.set, &mut memory[..u]);
    write(&profiles.links, pair.profile, &mut memory[u..u + v]);
    Some(Placed { u, v })
}
