// What the two tables have in common: an entry, the rows of lent slices that hold entries, and the values of words.
ghost use Rattle.std.specs.Prelude.{ℕ, ◌<◌, ◌≡◌, List, [], ◌∷◌, ◌++◌};
ghost use Rattle.laws.specs.Model.{Machine};
ghost use Rattle.laws.specs.Tables.{WordValue};
ghost use Rattle.laws.specs.Tables as tables;
ghost use Rattle.model.specs.Lent.{machine_of};
ghost use Rattle.profile.specs.Values.{so_far};
ghost use Rattle.closing.specs.Rows.{Layout};

use model::Checked;

// An entry: a value, the number of the entry it came from, and its last event.
#[derive(Clone, Copy)]
pub(crate) struct Entry<V> {
    pub value: V,
    pub from: u16,
    pub event: u8,
}

// Rows in lent slices, an entry of a table in each.
pub(crate) trait Rows {
    type Value: Copy + PartialEq;

    // A value as document 01 has it, and the values of words.
    ghost Paper: { Type 0 };

    ghost paper: { Self.Value → Paper };

    ghost values: { Machine ℕ → WordValue Paper };

    // What stands in the slices; entries written to the first rows, and read from them; the entry in a row; how many there is room for.
    ghost Slices: { Type 0 };

    ghost slices: { Self → Slices };

    ghost write: { List (tables.Entry Paper) → Slices → Slices };

    ghost read: { Slices → ℕ → List (tables.Entry Paper) };

    ghost at: { Slices → ℕ → tables.Entry Paper };

    ghost room_for: { Slices → ℕ };

    // These are the slices that were lent.
    ghost Same: { Self → Self → Type 0 };

    // The room: the least of the slices and the limit.
    fn room(&self) -> usize
        ensures { result ≡ room_for (slices self.now) };

    // The value in a row.
    fn value(&self, i: usize) -> Self::Value
        requires { i < room_for (slices self.now) }
        ensures { paper result ≡ (at (slices self.now) i).value };

    // Stores an entry in the row behind the first count.
    fn put(&mut self, count: usize, e: Entry<Self::Value>)
        requires { count < room_for (slices self.old) }
        ensures stored { slices self.new ≡ write (read (slices self.old) count
            ++ (record { value = paper e.value; from = e.from; event = e.event } ∷ [])) (slices self.old) }
        ensures same { Same self.new self.old };

    // The value of the empty word, where it has one.
    fn of_empty_word(m: Checked) -> Option<Self::Value>
        ensures { so_far paper result ≡ (values (machine_of m.entry)).of [] };

    // The value of a word with event a more, from that of the word.
    fn next(m: Checked, x: Option<Self::Value>, a: usize) -> Self::Value
        requires { a < m.model.k }
        ensures { paper result ≡ (values (machine_of m.entry)).next (so_far paper x) a };

    // The slices are a table's, `==` is document 01's test, and the same slices stay the same.
    ghost layout: { Layout write read at room_for };

    ghost tells: { (M : Machine ℕ) (x y : Self.Value) → (values M).same (paper x) (paper y) ≡ Self.Value.eq x y };

    ghost itself: { (x : Self) → Same x x };

    ghost chained: { (x y z : Self) → Same x y → Same y z → Same x z };
}
