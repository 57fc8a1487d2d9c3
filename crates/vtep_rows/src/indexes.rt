//! What is counted of the rows.

ghost use Rattle.std.specs.Prelude.{◌≡◌, ◌+◌, ◌-◌, OnOk, OnErr};
ghost use Rattle.vtep_base.specs.Maps as maps;
ghost use Rattle.vtep_rows.specs.Indexes.{Count, count_in, adds, part};

use crate::marks::Marks;
use crate::names::Names;
use crate::naming::references;
use crate::row::Row;
use crate::sizes::Sizes;
use crate::store::Store;
use std::alloc::Global;
use vtep_base::{OutOfMemory, RowId};
use vtep_schema::Table;

/// How often each row is named, and from which table; the unique keys; and how many rows each table has.
#[derive(Drop)]
pub(crate) struct Indexes {
    pub(crate) names: Names,
    pub(crate) marks: Marks,
    pub(crate) sizes: Sizes,
}

impl Indexes {
    /// Those of no row.
    pub(crate) fn new(alloc: Global) -> Indexes
        ensures { (c : Count) → count_in result c ≡ 0 }
    {
        Indexes {
            names: Names::new(alloc),
            marks: Marks::new(alloc),
            sizes: Sizes::new(),
        }
    }

    /// Counts a row in. After an `Err` all is as it was; a count that would pass 64 bits is want of memory.
    fn add(&mut self, alloc: Global, table: Table, id: RowId, row: &Row) -> Result<(), OutOfMemory>
        ensures ok { OnOk result ((c : Count) → count_in self.new c ≡ count_in self.old c
            + adds c ((table, id), row.now)) }
        ensures err { OnErr result ((c : Count) → count_in self.new c ≡ count_in self.old c) }
    {
        if !self.sizes.has_room(table) {
            return Err(OutOfMemory);
        }
        let named = references(alloc, row)?;
        self.names.raise_all(named.as_slice(), table)?;
        let marked = self.marks.add_row(table, id, row);
        let Ok(()) = marked else {
            self.names.lower_row(table, row);
            return Err(OutOfMemory);
        };
        self.sizes.raise(table);
        Ok(())
    }

    /// Counts a row out. Takes no memory.
    fn take(&mut self, table: Table, id: RowId, row: &Row)
        ensures { (c : Count) → count_in self.new c ≡ count_in self.old c
            - adds c ((table, id), row.now) }
    {
        self.names.lower_row(table, row);
        self.marks.take_row(table, id, row);
        self.sizes.lower(table);
    }

    /// Counts in the row that stands at a place. After an `Err` all is as it was.
    pub(crate) fn add_at(
        &mut self,
        alloc: Global,
        store: &Store,
        table: Table,
        id: RowId,
    ) -> Result<(), OutOfMemory>
        ensures ok { OnOk result ((c : Count) → count_in self.new c ≡ count_in self.old c
            + part (adds c) (table, id) (maps.get store.now (table, id))) }
        ensures err { OnErr result ((c : Count) → count_in self.new c ≡ count_in self.old c) }
    {
        match store.get(table, id) {
            Some(row) => self.add(alloc, table, id, row),
            None => Ok(()),
        }
    }

    /// Counts out the row that stood at a place. Takes no memory.
    pub(crate) fn take_old(&mut self, table: Table, id: RowId, old: &Option<Row>)
        ensures { (c : Count) → count_in self.new c ≡ count_in self.old c
            - part (adds c) (table, id) old.now }
    {
        match old {
            Some(row) => self.take(table, id, row),
            None => {}
        }
    }
}
