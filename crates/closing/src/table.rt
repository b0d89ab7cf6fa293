// A table of all values that words have, closed into lent slices, whatever the values are.
ghost use Rattle.std.specs.Prelude.{ℕ, ◌≤◌, ◌≡◌, []};
ghost use Rattle.laws.specs.Model.{Machine};
ghost use Rattle.laws.specs.Tables.{stored, enter as entered, through_events, begun, made};
ghost use Rattle.model.specs.Lent.{machine_of};
ghost use Rattle.profile.specs.Values.{so_far};
ghost use Rattle.closing.specs.Memory.{going, counting, Fills};

use crate::rows::{Entry, Rows};
use model::Checked;

// There is no room for one more: so many entries stand there.
#[derive(Clone, Copy)]
pub(crate) struct Full {
    pub count: usize,
}

// What stands for the predecessor's number where there is none, and for the event of the first set.
pub const NO_ENTRY: u16 = 65535;

pub const NO_EVENT: u8 = 255;

// A table in lent rows: its entries stand in the first count of them.
#[derive(Drop)]
struct Table<'a, R: Rows> {
    rows: &'a mut R,
    count: usize,
    ghost within: { count ≤ R.room_for (R.slices rows.now) },
}

impl<R: Rows> Table<'_, R> {
    // The value is among those of the entries. Which machine it is does not matter: values are only compared.
    fn is_there(&self, x: R::Value) -> bool
        ensures { (M : Machine ℕ) → result ≡ stored (R.values M) (R.paper x) (R.read (R.slices self.now.rows.now) self.now.count) }
    {
        (0..self.count).any(|i| self.rows.value(i) == x)
    }

    // Enters an entry whose value is not there yet, or says that there is no room for it.
    fn enter(&mut self, e: Entry<R::Value>) -> Result<(), Full>
        ensures fills { (M : Machine ℕ) → Fills R.write (R.room_for (R.slices self.old.rows.now))
            (entered (R.values M) (R.room_for (R.slices self.old.rows.now)) (record { value = R.paper e.value; from = e.from; event = e.event })
            (going (R.read (R.slices self.old.rows.now) self.old.count)))
            (R.slices self.old.rows.now) (R.slices self.new.rows.now) (counting self.new.count result) }
        ensures same { R.Same self.new.rows.now self.old.rows.now }
        ensures same_reference { self.new.rows.ghost_name ≡ self.old.rows.ghost_name }
    {
        if self.is_there(e.value) {
            return Ok(());
        }
        if self.rows.room() <= self.count {
            return Err(Full { count: self.count });
        }
        self.rows.put(self.count, e);
        self.count += 1;
        Ok(())
    }

    // Enters what the k events make of one value, or of the empty word where it has none.
    fn by_events(&mut self, m: Checked, x: Option<R::Value>, from: u16) -> Result<(), Full>
        ensures fills { Fills R.write (R.room_for (R.slices self.old.rows.now))
            (through_events (R.values (machine_of m.entry)) (R.room_for (R.slices self.old.rows.now)) from
            (so_far R.paper x) m.entry.model.k 0 (going (R.read (R.slices self.old.rows.now) self.old.count)))
            (R.slices self.old.rows.now) (R.slices self.new.rows.now) (counting self.new.count result) }
        ensures same { R.Same self.new.rows.now self.old.rows.now }
        ensures same_reference { self.new.rows.ghost_name ≡ self.old.rows.ghost_name }
    {
        for a in 0..m.model.k {
            let value = R::next(m, x, a);
            self.enter(Entry {
                value,
                from,
                event: a as u8,
            })?;
        }
        Ok(())
    }

    // Begins the table: with the value of the empty word, or, where that has none, with what each event is by itself.
    fn begin(&mut self, m: Checked) -> Result<(), Full>
        requires { self.old.count ≡ 0 }
        ensures fills { Fills R.write (R.room_for (R.slices self.old.rows.now))
            (begun (R.values (machine_of m.entry)) m.entry.model.k (R.room_for (R.slices self.old.rows.now))
            ((R.values (machine_of m.entry)).of []))
            (R.slices self.old.rows.now) (R.slices self.new.rows.now) (counting self.new.count result) }
        ensures same { R.Same self.new.rows.now self.old.rows.now }
        ensures same_reference { self.new.rows.ghost_name ≡ self.old.rows.ghost_name }
    {
        match R::of_empty_word(m) {
            None => self.by_events(m, None, NO_ENTRY),
            Some(value) => self.enter(Entry {
                value,
                from: NO_ENTRY,
                event: NO_EVENT,
            }),
        }
    }
}

// Closes the table: it begins, and then each entry goes by all events.
pub(crate) fn close<R: Rows>(m: Checked, rows: &mut R) -> Result<usize, Full>
    ensures fills { Fills R.write (R.room_for (R.slices rows.old))
        (made (R.values (machine_of m.entry)) m.entry.model.k (R.room_for (R.slices rows.old)))
        (R.slices rows.old) (R.slices rows.new) result }
    ensures same { R.Same rows.new rows.old }
{
    let mut table = Table { rows, count: 0 };
    table.begin(m)?;
    let mut i = 0;
    // The table grows while it is gone through, so that no range has its end.
    while i < table.count {
        let x = table.rows.value(i);
        table.by_events(m, Some(x), i as u16)?;
        i += 1;
    }
    Ok(table.count)
}
