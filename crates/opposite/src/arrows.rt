// The opposite's arrows, written one behind the other to three lent slices.
ghost use Rattle.std.specs.Prelude.{◌+◌, ◌*◌, ◌≤◌, ◌≡◌, true, [], ◌∷◌, length};
ghost use Rattle.laws.specs.Bits.{every_of};
ghost use Rattle.laws.specs.Opposite.{arrow};
ghost use Rattle.profile.specs.Values.{profile as value_of};
ghost use Rattle.opposite.specs.Tables.{is_idempotent};
ghost use Rattle.opposite.specs.Lent.{shown_of, shown_from};
ghost use Rattle.opposite.specs.Memory.{HasRoom, Adds};

use crate::counts::{next_on, stays_unmarked};
use crate::tables::{Profiles, Tables, place_of_set};
use model::Checked;
use profile::{Profile, image, is_same, of_event};

// The tables, and beside each of the first profiles a byte that is 1 where the profile has a block. The blocks fit behind the sets, and each
// profile with a block is its own square.
#[derive(Clone, Copy)]
pub struct Shown<'a> {
    pub tables: &'a Tables<'a>,
    pub bytes: &'a [u8],
    pub ghost few: { length bytes.now ≤ length tables.now.profiles.arrows.now },
    pub ghost fits: { length tables.now.masks.now + length (shown_of tables.now bytes.now) * (length tables.now.profiles.arrows.now + 1) ≤ 65535 },
    pub ghost squares: { every_of (is_idempotent 8) (shown_of tables.now bytes.now) ≡ true },
}

impl<'a> Shown<'a> {
    ghost use Rattle.std.specs.Prelude.{MatchOption};
    ghost use Rattle.opposite.specs.Lines.{IsNext, First};

    // The blocks, one behind the other, the first behind the sets.
    fn blocks(self) -> Blocks<'a>
        ensures { First self.entry result }
    {
        Blocks {
            shown: self,
            passed: 0,
            gate: self.tables.masks.len(),
        }
    }

    // The number of the first profile that has a block, after the first so many.
    fn next_from(self, passed: usize) -> Option<usize>
        ensures { MatchOption result (shown_from self.entry.tables.now self.entry.bytes.now passed ≡ []) (IsNext self.entry passed) }
    {
        (passed..self.bytes.len()).find(|j| self.bytes[*j] == 1)
    }
}

// A block: its gate's number, behind which stands a state for each profile, and its profile, which is its own square.
#[derive(Clone, Copy)]
struct Block<'a> {
    profiles: Profiles<'a>,
    gate: usize,
    profile: Profile,
    ghost fits: { gate + 1 + length profiles.arrows.now ≤ 65535 },
    ghost square: { is_idempotent 8 (value_of profile) ≡ true },
}

// A walk over the blocks: how many profiles were passed, and the gate of the next block.
#[derive(Drop)]
struct Blocks<'a> {
    shown: Shown<'a>,
    passed: usize,
    gate: usize,
    ghost fits: { gate + length (shown_from shown.tables.now shown.bytes.now passed) * (length shown.tables.now.profiles.arrows.now + 1) ≤ 65535 },
    ghost squares: { every_of (is_idempotent 8) (shown_from shown.tables.now shown.bytes.now passed) ≡ true },
}

impl<'a> Iterator for Blocks<'a> {
    ghost use Rattle.std.specs.Iterator.{item_count};
    ghost use Rattle.opposite.specs.Lines.{GivesBlock, left_of};

    type Item = Block<'a>;

    ghost next_gives = { GivesBlock };

    ghost remaining = { item_count left_of };

    fn next(&mut self) -> Option<Block<'a>> {
        let j = self.shown.next_from(self.passed)?;
        let profiles = self.shown.tables.profiles;
        let gate = self.gate;
        self.passed = j + 1;
        self.gate += profiles.len() + 1;
        Some(Block {
            profiles,
            gate,
            profile: profiles.at(j),
        })
    }
}

// The slices that arrows are written to, and how many stand there.
#[derive(Drop)]
pub struct Lines<'a> {
    pub from: &'a mut [u16],
    pub event: &'a mut [u8],
    pub to: &'a mut [u16],
    pub count: usize,
}

impl Lines<'_> {
    ghost use Rattle.opposite.specs.Lines.{gate_lines, onto_lines, leads_lines, block_lines, blocks_lines, into_lines, set_lines, sets_lines};

    // Writes the arrow on event a from p to q.
    fn put(&mut self, p: usize, a: usize, q: usize)
        requires room { HasRoom (arrow p a q ∷ []) self.old }
        requires p_bound { (p ≤ 65535) × (a ≤ 255) × (q ≤ 65535) }
        ensures { Adds (arrow p a q ∷ []) self.old self.new }
    {
        self.from[self.count] = p as u16;
        self.event[self.count] = a as u8;
        self.to[self.count] = q as u16;
        self.count += 1;
    }

    // From p on event a onto the profile y in a block: to its gate, where y is its profile.
    fn to_gate(&mut self, block: Block, p: usize, a: usize, y: Profile)
        requires p_bound { (p ≤ 65535) × (a ≤ 255) }
        requires room { HasRoom (gate_lines block p a y) self.old }
        ensures { Adds (gate_lines block.entry p a y) self.old self.new }
    {
        if is_same(y, block.profile) {
            self.put(p, a, block.gate);
        }
    }

    // From p on event a onto the profile y in a block: to its gate too, where y is its profile, and to the state of y.
    fn onto(&mut self, block: Block, p: usize, a: usize, y: Profile)
        requires p_bound { (p ≤ 65535) × (a ≤ 255) }
        requires room { HasRoom (onto_lines block p a y) self.old }
        ensures { Adds (onto_lines block.entry p a y) self.old self.new }
    {
        self.to_gate(block, p, a, y);
        self.put(p, a, block.gate + 1 + block.profiles.place(y));
    }

    // In a block from p, where what was read has the profile x: on each event onto the next.
    fn leads_on(&mut self, asked: &Checked, block: Block, p: usize, x: Option<Profile>)
        requires p_bound { p ≤ 65535 }
        requires room { HasRoom (leads_lines asked.now block p x) self.old }
        ensures { Adds (leads_lines asked.now block.entry p x) self.old self.new }
    {
        for a in 0..asked.model.k {
            let y = next_on(asked, x, a);
            self.onto(block, p, a, y);
        }
    }

    // A block: its gate, and then its states.
    fn block(&mut self, asked: &Checked, block: Block)
        requires room { HasRoom (block_lines asked.now block) self.old }
        ensures { Adds (block_lines asked.now block.entry) self.old self.new }
    {
        self.leads_on(asked, block, block.gate, None);
        for (i, x) in block.profiles.iter().enumerate() {
            self.leads_on(asked, block, block.gate + 1 + i, Some(x));
        }
    }

    // The blocks of the profiles that have one, behind the sets.
    pub(crate) fn blocks(&mut self, shown: Shown)
        requires room { HasRoom (blocks_lines shown) self.old }
        ensures { Adds (blocks_lines shown.entry) self.old self.new }
    {
        for block in shown.blocks() {
            self.block(&shown.tables.asked, block);
        }
    }

    // From set number i on event a, whose profile stands at e: into the block of each profile that rejects with the set. A profile that
    // has a block is its own square, so it is not squared here.
    fn into_blocks(&mut self, shown: Shown, set: u8, i: usize, a: usize, e: usize)
        requires i_bound { (i ≤ 65535) × (a ≤ 255) × (e ≤ length shown.tables.now.profiles.arrows.now) }
        requires room { HasRoom (into_lines shown set i a e) self.old }
        ensures { Adds (into_lines shown.entry set i a e) self.old self.new }
    {
        for block in shown.blocks() {
            if stays_unmarked(set, block.profile) {
                self.put(i, a, block.gate + 1 + e);
            }
        }
    }

    // From set number i on each event: to the next set, and into the blocks.
    fn from_set(&mut self, shown: Shown, set: u8, i: usize)
        requires i_bound { i ≤ 65535 }
        requires room { HasRoom (set_lines shown set i) self.old }
        ensures { Adds (set_lines shown.entry set i) self.old self.new }
    {
        let tables = shown.tables;
        let m = tables.asked.model;
        for a in 0..m.k {
            let arrows = tables.asked.arrows[a];
            self.put(i, a, place_of_set(tables.masks, image(set, arrows)));
            let e = tables.profiles.place(of_event(arrows, m.home));
            self.into_blocks(shown, set, i, a, e);
        }
    }

    // The sets, one behind the other.
    pub(crate) fn sets(&mut self, shown: Shown)
        requires room { HasRoom (sets_lines shown) self.old }
        ensures { Adds (sets_lines shown.entry) self.old self.new }
    {
        for (i, set) in shown.tables.masks.iter().enumerate() {
            self.from_set(shown, *set, i);
        }
    }
}
