//! The unique keys of the rows.

ghost use Rattle.std.specs.Prelude.{◌≡◌, ◌+◌, ◌-◌, filter, OnOk, OnErr};
ghost use Rattle.std.specs.Map.Iter.{ShowsInOrder, deref_pair};
ghost use Rattle.std.specs.Prelude.{ℕ};
ghost use Rattle.vtep_base.specs.Maps as maps;
ghost use Rattle.vtep_rows.specs.Tallies.{count_at, raised, lowered};
ghost use Rattle.vtep_rows.specs.Marks.{Mark as AMark, is_at_place, mark_by, stamp_at, times, marked_by};

use crate::row::Row;
use crate::stamps::{Stamp, stamp_at};
use std::alloc::Global;
use std::collections::BTreeMap;
use std::collections::btree_map::Range;
use std::marker::Model;
use vtep_base::{OutOfMemory, RowId};
use vtep_schema::Table;

/// A table, the place of a unique key, the number and the identifier of its stamp, and the identifier of a row.
pub(crate) type Mark = (Table, u8, u64, RowId, RowId);

/// How often each mark stands: once, and twice for a moment where a row is replaced by one with the same key.
#[derive(Drop)]
pub(crate) struct Marks {
    by_mark: BTreeMap<Mark, u64>,
}

impl Model for Marks {
    ghost use Rattle.std.specs.Prelude.{ℕ};
    ghost use Rattle.vtep_base.specs.Maps as maps;
    ghost use Rattle.vtep_rows.specs.Marks.{mark_cmp, marks_code, IsNumbered};

    ghost Value = { maps.Map mark_cmp ℕ };

    ghost coded = { marks_code };

    ghost view = { λ m. maps.of_list m.by_mark.entries };

    ghost invariant = { λ m. IsNumbered (maps.of_list m.by_mark.entries) };
}

impl Marks {
    /// None.
    pub(crate) fn new(alloc: Global) -> Marks
        ensures { result ≡ maps.empty }
    {
        Marks {
            by_mark: BTreeMap::new(alloc),
        }
    }

    fn of(&self, table: Table, place: u8, stamp: Stamp, row: RowId) -> u64
        ensures { result ≡ count_at self.now (mark_by (table, row) place stamp) }
    {
        self.by_mark
            .get(&(table, place, stamp.number, stamp.id, row))
            .copied()
            .unwrap_or(0)
    }

    /// Once more. After an `Err` the marks are as they were; a count that would pass 64 bits is want of memory.
    fn raise(
        &mut self,
        table: Table,
        place: u8,
        stamp: Stamp,
        row: RowId,
    ) -> Result<(), OutOfMemory>
        ensures ok { OnOk result (self.new ≡ raised self.old (mark_by (table, row) place stamp)) }
        ensures err { OnErr result (self.new ≡ self.old) }
    {
        let n = self.of(table, place, stamp, row);
        if n == u64::MAX {
            return Err(OutOfMemory);
        }
        self.by_mark
            .insert((table, place, stamp.number, stamp.id, row), n + 1)?;
        Ok(())
    }

    /// Once less. Takes no memory.
    fn lower(&mut self, table: Table, place: u8, stamp: Stamp, row: RowId)
        ensures { self.new ≡ lowered self.old (mark_by (table, row) place stamp) }
    {
        let n = self.of(table, place, stamp, row);
        if n <= 1 {
            self.by_mark
                .remove(&(table, place, stamp.number, stamp.id, row));
        } else {
            let _ = self
                .by_mark
                .insert((table, place, stamp.number, stamp.id, row), n - 1);
        }
    }

    /// Marks one unique key of a row. After an `Err` the marks are as they were.
    fn add_key(&mut self, table: Table, place: u8, id: RowId, row: &Row) -> Result<(), OutOfMemory>
        ensures ok { OnOk result ((q : AMark) → count_at self.new q ≡ count_at self.old q
            + times q (table, id) place (stamp_at table place row.now)) }
        ensures err { OnErr result ((q : AMark) → count_at self.new q ≡ count_at self.old q) }
    {
        match stamp_at(table, place, row) {
            Some(stamp) => self.raise(table, place, stamp, id),
            None => Ok(()),
        }
    }

    /// Takes the mark of one unique key away. Takes no memory.
    fn take_key(&mut self, table: Table, place: u8, id: RowId, row: &Row)
        ensures { (q : AMark) → count_at self.new q ≡ count_at self.old q
            - times q (table, id) place (stamp_at table place row.now) }
    {
        match stamp_at(table, place, row) {
            Some(stamp) => self.lower(table, place, stamp, id),
            None => {}
        }
    }

    /// Marks the unique keys of a row. After an `Err` the marks are as they were.
    pub(crate) fn add_row(&mut self, table: Table, id: RowId, row: &Row) -> Result<(), OutOfMemory>
        ensures ok { OnOk result ((q : AMark) → count_at self.new q ≡ count_at self.old q
            + marked_by q (table, id) row.now) }
        ensures err { OnErr result ((q : AMark) → count_at self.new q ≡ count_at self.old q) }
    {
        self.add_key(table, 0, id, row)?;
        let second = self.add_key(table, 1, id, row);
        let Ok(()) = second else {
            self.take_key(table, 0, id, row);
            return Err(OutOfMemory);
        };
        Ok(())
    }

    /// Takes the marks of a row away. Takes no memory.
    pub(crate) fn take_row(&mut self, table: Table, id: RowId, row: &Row)
        ensures { (q : AMark) → count_at self.new q ≡ count_at self.old q
            - marked_by q (table, id) row.now }
    {
        self.take_key(table, 0, id, row);
        self.take_key(table, 1, id, row);
    }

    /// The marks of a stamp, by row. Takes no memory.
    pub(crate) fn at(&self, table: Table, place: u8, stamp: Stamp) -> Range<'_, Mark, u64>
        ensures rest { result ≡ filter (λ e. is_at_place (table, place, stamp.number, stamp.id) e.0)
            self.now.list }
        ensures runs { ShowsInOrder (deref_pair {K = AMark} {X = ℕ}) }
    {
        let least = (table, place, stamp.number, stamp.id, 0);
        let most = (table, place, stamp.number, stamp.id, RowId::MAX);
        self.by_mark.range(least..=most)
    }
}
