//! Rows by table and identifier, and what is counted of them.

ghost use Rattle.std.specs.Prelude.{◌≡◌, ◌<◌, ◌&&◌, ◌==◌, ◌^◌, not, map, length, option_map, filter, IfOk, OnOk, OnErr};
ghost use Rattle.std.specs.List.{list_any};
ghost use Rattle.std.specs.Map.Iter.{ShowsInOrder, deref_pair};
ghost use Rattle.vtep_base.specs.Maps as maps;
ghost use Rattle.vtep_schema.specs.Tables.{same_table, tables};
ghost use Rattle.vtep_rows.specs.Row.{put_all, first, Contents};
ghost use Rattle.vtep_rows.specs.Rows.{Key, names, is_named, without};
ghost use Rattle.vtep_rows.specs.Marks.{agree_at};
ghost use Rattle.vtep_rows.specs.Keyed.{holds, first_key};

use crate::indexes::Indexes;
use crate::keyed::first_marked;
use crate::row::Row;
use crate::stamps::{Stamp, stamp_at};
use crate::store::Store;
use crate::twins::has_marked_twin;
use ovsdb_values::Atom;
use std::alloc::Global;
use std::collections::btree_map::{Iter, Range};
use std::marker::Model;
use vtep_base::{List, OutOfMemory, RowId};
use vtep_schema::{Table, tables};

/// A finite map from a table and an identifier to a row. The indexes count its rows.
#[derive(Drop)]
pub(crate) struct Indexed {
    store: Store,
    indexes: Indexes,
}

impl Model for Indexed {
    ghost use Rattle.vtep_base.specs.Maps as maps;
    ghost use Rattle.vtep_rows.specs.Row.{Contents};
    ghost use Rattle.vtep_rows.specs.Rows.{key_cmp};
    ghost use Rattle.vtep_rows.specs.Codes.{store_code};
    ghost use Rattle.vtep_rows.specs.Indexes.{IsIndexed};

    ghost Value = { maps.Map key_cmp Contents };

    ghost coded = { store_code };

    ghost view = { λ i. i.store };

    ghost invariant = { λ i. IsIndexed i.indexes i.store };
}

impl Indexed {
    /// No row.
    pub(crate) fn new(alloc: Global) -> Indexed
        ensures { result ≡ maps.empty }
    {
        Indexed {
            store: Store::new(alloc),
            indexes: Indexes::new(alloc),
        }
    }

    /// Puts a row in, and gives the one that stood there. After an `Err` the rows are as they were.
    pub(crate) fn put(
        &mut self,
        alloc: Global,
        table: Table,
        id: RowId,
        row: Row,
    ) -> Result<Option<Row>, OutOfMemory>
        ensures ok { OnOk result (self.new ≡ maps.insert self.old (table, id) row) }
        ensures before { IfOk result (λ old. old ≡ maps.get self.old (table, id)) }
        ensures err { OnErr result (self.new ≡ self.old) }
    {
        let old = self.store.swap(table, id, row)?;
        let counted = self.indexes.add_at(alloc, &self.store, table, id);
        let Ok(()) = counted else {
            self.store.put_back(table, id, old);
            return Err(OutOfMemory);
        };
        self.indexes.take_old(table, id, &old);
        Ok(old)
    }

    /// Takes a row away, and gives it. Takes no memory.
    pub(crate) fn remove(&mut self, table: Table, id: RowId) -> Option<Row>
        ensures before { result ≡ maps.get self.old (table, id) }
        ensures removed { self.new ≡ maps.remove self.old (table, id) }
    {
        let gone = self.store.remove(table, id);
        self.indexes.take_old(table, id, &gone);
        gone
    }

    pub(crate) fn remove_all(&mut self, keys: List<(Table, RowId)>)
        ensures { self.new ≡ without self.old keys }
    {
        'keys: for (table, id) in keys.into_vec() {
            self.remove(table, id);
        }
    }

    /// The row of a table with this identifier. Takes no memory.
    pub(crate) fn get(&self, table: Table, id: RowId) -> Option<&Row>
        ensures { option_map (λ row. row.now) result ≡ maps.get self.now (table, id) }
    {
        self.store.get(table, id)
    }

    pub(crate) fn has(&self, table: Table, id: RowId) -> bool
        ensures { result ≡ maps.has self.now (table, id) }
    {
        self.store.has(table, id)
    }

    pub(crate) fn iter(&self) -> Iter<'_, (Table, RowId), Row>
        ensures rest { result ≡ self.now.list }
        ensures filled { put_all maps.empty result ≡ self.now }
    {
        self.store.iter()
    }

    /// The rows of a table by identifier.
    pub(crate) fn of_table(&self, table: Table) -> Range<'_, (Table, RowId), Row>
        ensures rest { result ≡ filter (λ e. same_table e.0.0 table) self.now.list }
        ensures fits { length result < 2 ^ 63 }
        ensures runs { ShowsInOrder (deref_pair {K = Key} {X = Contents}) }
    {
        self.store.of_table(table)
    }

    pub(crate) fn copy(&self, alloc: Global) -> Result<Indexed, OutOfMemory>
        ensures { IfOk result (λ copy. copy ≡ self.now) }
    {
        let mut copy = Indexed::new(alloc);
        'rows: for (key, row) in self.iter() {
            copy.put(alloc, key.0, key.1, row.copy(alloc)?)?;
        }
        Ok(copy)
    }

    /// How many rows a table has. Takes no memory, and one look-up.
    pub(crate) fn count(&self, table: Table) -> u64
        ensures { result ≡ length (filter (λ e. same_table e.0.0 table) self.now.list) }
    {
        self.indexes.sizes.of(table)
    }

    /// Whether a row of a table names a row. Takes no memory, and one look-up.
    pub(crate) fn names(&self, table: Table, of: Table, id: RowId) -> bool
        ensures { result ≡ list_any (λ e. same_table e.0.0 table && names e.1 (of, id))
            self.now.list }
    {
        self.indexes.names.of(of, id, table) > 0
    }

    /// Whether any row names a row. Takes no memory, and a look-up for each table.
    pub(crate) fn is_named(&self, table: Table, id: RowId) -> bool
        ensures { result ≡ is_named self.now (table, id) }
    {
        self.named_by_any(table, id)
    }

    fn named_by_any(&self, table: Table, id: RowId) -> bool
        ensures { result ≡ list_any (λ of. list_any
            (λ e. same_table e.0.0 of && names e.1 (table, id)) self.now.list) tables }
    {
        tables().iter().any(|of| self.names(*of, table, id))
    }

    /// Whether another row of the table has the row's unique key of this place. Takes no memory; time for the rows with the
    /// key's stamp.
    pub(crate) fn shares_key(&self, table: Table, place: u8, id: RowId, row: &Row) -> bool
        ensures { result ≡ list_any (λ e. same_table e.0.0 table
            && (not (e.0.1 == id) && agree_at table place row.now e.1)) self.now.list }
    {
        match stamp_at(table, place, row) {
            Some(stamp) => {
                has_marked_twin(
                    &self.store,
                    &self.indexes.marks,
                    table,
                    place,
                    stamp,
                    id,
                    row,
                )
            }
            None => false,
        }
    }

    /// The first row of a table, by identifier, that has these atoms in the columns of the table's first unique key. Takes no
    /// memory; a look-up, and time for the rows with the key's stamp.
    pub(crate) fn keyed(&self, table: Table, key: &[Atom]) -> Option<RowId>
        ensures { result ≡ first (map (λ e. e.0.1) (filter (λ e. same_table e.0.0 table
            && holds (first_key table) key.now e.1) self.now.list)) }
    {
        first_marked(&self.store, &self.indexes.marks, table, Stamp::of(key), key)
    }
}
