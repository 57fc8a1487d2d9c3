//! All rows of a gateway.

ghost use Rattle.std.specs.Prelude.{◌≡◌, ◌==◌, ◌&&◌, not, map, ◌<◌, ◌≤◌, ◌^◌, length, [], true, None, Some, is_some, option_map, filter, IfOk, IfErr, IfSome, OnOk, OnErr};
ghost use Rattle.std.specs.List.{list_any};
ghost use Rattle.vtep_base.specs.Maps as maps;
ghost use Rattle.vtep_schema.specs.Tables.{same_table};
ghost use Rattle.vtep_rows.specs.Row.{is_row, first};
ghost use Rattle.vtep_rows.specs.Rows.{row_id, next_id, last_number, row_at, rows_of, ids_of, opening, inserted, replaced, removed, unnamed_from, collected, is_given, names, is_named, IsRows};
ghost use Rattle.vtep_rows.specs.Marks.{agree_at};
ghost use Rattle.vtep_rows.specs.Keyed.{holds, first_key};
ghost use Rattle.vtep_base.specs.Answers.{OrMemory};
ghost use Rattle.vtep_rows.specs.Faults.{rows_refusal};

use crate::indexed::Indexed;
use crate::row::Row;
use ovsdb_values::Atom;
use std::alloc::Global;
use std::collections::btree_map::{Iter, Range};
use std::marker::Model;
use vtep_base::{Ipv4, List, Name, OutOfMemory, RowId};
use vtep_schema::Table;

/// The rows of a gateway: a finite map from a table and an identifier to a row, and the greatest row number given.
#[derive(Drop)]
pub struct Rows {
    alloc: Global,
    made: u32,
    counter: u64,
    rows: Indexed,
}

impl Model for Rows {
    ghost use Rattle.vtep_rows.specs.Rows.{Rows as AllRows, IsRows};
    ghost use Rattle.vtep_rows.specs.Codes.{rows_code};

    ghost Value = { AllRows };

    ghost coded = { rows_code };

    ghost view = { λ r. record { made = r.made; counter = r.counter; rows = r.rows } };

    ghost invariant = { λ r. IsRows (record { made = r.made; counter = r.counter; rows = r.rows }) };
}

/// Why a row is not inserted.
#[derive(Clone, Copy, Debug, PartialEq, Eq)]
pub enum RowsFault {
    OutOfMemory,
    /// The counter is at its most, 2^62 - 1.
    Spent,
}

impl From<OutOfMemory> for RowsFault {
    ghost use Rattle.std.specs.Prelude.{◌≡◌};
    ghost use Rattle.vtep_rows.specs.declared.rows.RowsFault.TheVariants as fault;

    ghost from_gives = { λ _ e. e ≡ fault.OutOfMemory };

    fn from(_error: OutOfMemory) -> RowsFault {
        RowsFault::OutOfMemory
    }
}

/// The identifiers of a table's rows, ascending. Contracts see those that are left.
#[derive(Drop)]
pub struct Ids<'a> {
    rest: Range<'a, (Table, RowId), Row>,
}

impl<'a> Model for Ids<'a> {
    ghost use Rattle.std.specs.Prelude.{ℕ, List, map};

    ghost Value = { List ℕ };

    ghost view = { λ i. map (λ e. e.0.1) i.rest };
}

impl<'a> Iterator for Ids<'a> {
    ghost use Rattle.std.specs.Iterator.{YieldsFirst, item_count};

    type Item = RowId;

    ghost next_gives = { YieldsFirst (λ ids. ids) };

    ghost remaining = { item_count (λ ids. ids) };

    fn next(&mut self) -> Option<RowId> {
        let ((_, id), _) = self.rest.next()?;
        Some(*id)
    }
}

impl<'a> Ids<'a> {
    pub(crate) fn of(rest: Range<'a, (Table, RowId), Row>) -> Ids<'a>
        ensures { result ≡ map (λ e. e.0.1) rest.entry }
    {
        Ids { rest }
    }
}

/// The greatest number of a row.
const LAST_NUMBER: u64 = (1 << 62) - 1;

fn row_id(made: u32, number: u64) -> RowId
    ensures { result ≡ row_id made number }
{
    (u128::from(made) << 96) + (8 << 76) + (2 << 62) + u128::from(number % (1 << 62))
}

impl Rows {
    /// The rows of a new gateway: number 1 in Global, which names number 2 in Physical_Switch, which has the gateway's name and
    /// tunnel address.
    pub fn new(alloc: Global, name: &Name, ip: Ipv4) -> Result<Rows, OutOfMemory>
        ensures { IfOk result (λ rows. rows ≡ opening name.now ip) }
    {
        let mut rows = Rows {
            alloc,
            made: ip.bits(),
            counter: 0,
            rows: Indexed::new(alloc),
        };
        let global = Row::global(alloc, rows.id(2))?;
        let switch = Row::switch(alloc, name, ip)?;
        rows.add(global)?;
        rows.add(switch)?;
        Ok(rows)
    }

    /// Equal rows, with the same counter.
    pub fn copy(&self, alloc: Global) -> Result<Rows, OutOfMemory>
        ensures { IfOk result (λ copy. copy ≡ self.now) }
    {
        Ok(Rows {
            alloc,
            made: self.made,
            counter: self.counter,
            rows: self.rows.copy(alloc)?,
        })
    }

    /// The row of a table with this identifier. Takes no memory.
    pub fn get(&self, table: Table, id: RowId) -> Option<&Row>
        ensures value { option_map (λ row. row.now) result ≡ row_at self.now (table, id) }
        ensures table { IfSome result (λ row. row.now.table ≡ table) }
    {
        self.rows.get(table, id)
    }

    /// The identifiers of a table's rows, ascending. Takes no memory.
    pub fn ids(&self, table: Table) -> Ids<'_>
        ensures { result ≡ ids_of table self.now }
    {
        Ids {
            rest: self.of_table(table),
        }
    }

    /// What the rows take their memory from.
    pub(crate) fn alloc(&self) -> Global {
        self.alloc
    }

    pub(crate) fn has(&self, table: Table, id: RowId) -> bool
        ensures { result ≡ maps.has self.now.rows (table, id) }
    {
        self.rows.has(table, id)
    }

    pub(crate) fn of_table(&self, table: Table) -> Range<'_, (Table, RowId), Row>
        ensures rest { result ≡ filter (λ e. same_table e.0.0 table) self.now.rows.list }
        ensures fits { length result < 2 ^ 63 }
    {
        self.rows.of_table(table)
    }

    pub(crate) fn count(&self, table: Table) -> u64
        ensures { result ≡ length (filter (λ e. same_table e.0.0 table) self.now.rows.list) }
    {
        self.rows.count(table)
    }

    /// Whether a row of a table names a row. Takes no memory, and one look-up.
    pub fn names(&self, table: Table, of: Table, id: RowId) -> bool
        ensures { result ≡ list_any (λ row. names row.1 (of, id)) (rows_of table self.now) }
    {
        self.rows.names(table, of, id)
    }

    /// The first row of a table, by identifier, that has these atoms in the columns of the table's first unique key; none where
    /// the table has no unique key. Takes no memory; a look-up, and time for the rows with the key's stamp.
    pub fn keyed(&self, table: Table, key: &[Atom]) -> Option<RowId>
        ensures { result ≡ first (map (λ row. row.0)
            (filter (λ row. holds (first_key table) key.now row.1) (rows_of table self.now))) }
    {
        self.rows.keyed(table, key)
    }

    /// Whether any row names a row. Takes no memory, and a look-up for each table.
    pub(crate) fn is_named(&self, table: Table, id: RowId) -> bool
        ensures { result ≡ is_named self.now.rows (table, id) }
    {
        self.rows.is_named(table, id)
    }

    /// Whether another row of the table has the row's unique key of this place. Takes no memory; time for the rows with the
    /// key's stamp.
    pub(crate) fn shares_key(&self, table: Table, place: u8, id: RowId, row: &Row) -> bool
        ensures { result ≡ list_any (λ other. not (other.0 == id)
            && agree_at table place row.now other.1) (rows_of table self.now) }
    {
        self.rows.shares_key(table, place, id, row)
    }

    pub(crate) fn iter(&self) -> Iter<'_, (Table, RowId), Row>
        ensures { result ≡ self.now.rows.list }
    {
        self.rows.iter()
    }

    /// The rows that nothing names go.
    pub(crate) fn leave_out(&mut self, keys: List<(Table, RowId)>)
        requires { keys ≡ unnamed_from [] self.old.rows.list }
        ensures { self.new ≡ collected self.old }
    {
        self.rows.remove_all(keys);
    }

    /// The greatest row number given.
    pub fn counter(&self) -> u64
        ensures value { result ≡ self.now.counter }
        ensures most { result ≤ last_number }
        // Each row stands at its table, and at an identifier that was given.
        ensures rows { IsRows self.now }
    {
        self.counter
    }

    /// The row identifier of a number (RFC 9562, version 8): 32 bits of the address with which the rows were made, 16 zeros, the
    /// version, 12 zeros, the variant, and the low 62 bits of the number.
    pub fn id(&self, number: u64) -> RowId
        ensures { result ≡ row_id self.now.made number }
    {
        row_id(self.made, number)
    }

    /// Gives a row the next number, and the identifier of that number.
    ///
    /// `Spent` comes exactly where the counter is 2^62 - 1. After an `Err` the rows are as they were.
    pub fn insert(&mut self, table: Table, row: Row) -> Result<RowId, RowsFault>
        requires { row.table ≡ table }
        ensures ok { OnOk result (self.new ≡ inserted self.old row) }
        ensures id { IfOk result (λ id. id ≡ next_id self.old) }
        // No row had that identifier.
        ensures fresh { IfOk result (λ id. (t : Table) → row_at self.old (t, id) ≡ None) }
        ensures room { OnOk result (self.old.counter < last_number) }
        ensures err { OnErr result (self.new ≡ self.old) }
        ensures spent { IfErr result
            (λ fault. OrMemory (rows_refusal fault) (λ _. self.old.counter ≡ last_number)) }
    {
        if self.counter == LAST_NUMBER {
            return Err(RowsFault::Spent);
        }
        Ok(self.add(row)?)
    }

    fn add(&mut self, row: Row) -> Result<RowId, OutOfMemory>
        requires { self.old.counter < last_number }
        ensures ok { OnOk result (self.new ≡ inserted self.old row) }
        ensures id { IfOk result (λ id. id ≡ next_id self.old) }
        ensures fresh { IfOk result (λ id. (t : Table) → row_at self.old (t, id) ≡ None) }
        ensures err { OnErr result (self.new ≡ self.old) }
    {
        let id = row_id(self.made, self.counter + 1);
        self.rows.put(self.alloc, row.table(), id, row)?;
        self.counter += 1;
        Ok(id)
    }

    /// Puts a row in the place of the one with this identifier. After an `Err` the rows are as they were.
    pub fn replace(&mut self, table: Table, id: RowId, row: Row) -> Result<(), OutOfMemory>
        requires there { is_some (row_at self.old (table, id)) ≡ true }
        requires table { row.table ≡ table }
        ensures ok { OnOk result (self.new ≡ replaced self.old (table, id) row) }
        ensures err { OnErr result (self.new ≡ self.old) }
    {
        self.rows.put(self.alloc, row.table(), id, row)?;
        Ok(())
    }

    /// Puts a row at an identifier that was given, and gives the one that stood there. After an `Err` the rows are as they were.
    pub(crate) fn put(
        &mut self,
        table: Table,
        id: RowId,
        row: Row,
    ) -> Result<Option<Row>, OutOfMemory>
        requires table { row.table ≡ table }
        requires given { is_given self.old id ≡ true }
        ensures ok { OnOk result (self.new ≡ replaced self.old (table, id) row) }
        ensures before { IfOk result (λ old. old ≡ row_at self.old (table, id)) }
        ensures err { OnErr result (self.new ≡ self.old) }
    {
        let old = self.rows.put(self.alloc, row.table(), id, row)?;
        Ok(old)
    }

    /// Another counter, under which each identifier was given.
    pub(crate) fn set_counter(&mut self, counter: u64)
        requires { IsRows (record self.old { counter = counter }) }
        ensures { self.new ≡ record self.old { counter = counter } }
    {
        self.counter = counter;
    }

    /// Takes a row away, and gives it. Takes no memory.
    pub fn remove(&mut self, table: Table, id: RowId) -> Option<Row>
        ensures before { result ≡ row_at self.old (table, id) }
        ensures removed { self.new ≡ removed self.old (table, id) }
    {
        self.rows.remove(table, id)
    }
}
