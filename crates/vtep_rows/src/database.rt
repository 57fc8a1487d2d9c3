//! The rows of a gateway, with what they were at the last commit.

ghost use Rattle.std.specs.Prelude.{◌≡◌, ◌<◌, ◌+◌, ◌||◌, true, None, is_some, map, filter, filter_map, option_map, IfOk, IfErr, IfSome, OnOk, OnErr};
ghost use Rattle.vtep_schema.specs.Tables.{same_table, table_place};
ghost use Rattle.vtep_base.specs.Maps.{Map};
ghost use Rattle.vtep_rows.specs.Row.{Contents};
ghost use Rattle.vtep_rows.specs.Rows.{Key, key_cmp, IsRows, row_at, next_id, last_number, inserted, replaced, removed, has_key, collected};
ghost use Rattle.vtep_base.specs.Answers.{OrMemory};
ghost use Rattle.vtep_rows.specs.Faults.{rows_refusal};
ghost use Rattle.vtep_rows.specs.Changes.{changes};
ghost use Rattle.vtep_rows.specs.Sound.{broken};
ghost use Rattle.vtep_rows.specs.Database.{collected_at, let_go, later_than, IsCollecting, from_place, ids_at};

use crate::collection::add_references;
use crate::differences::Change;
use crate::images::Images;
use crate::row::Row;
use crate::rows::{Rows, RowsFault};
use crate::soundness::Rule;
use std::alloc::Global;
use std::collections::BTreeSet;
use std::marker::Model;
use std::mem;
use vtep_base::{List, OutOfMemory, RowId};
use vtep_schema::{Table, root, tables};

/// The rows of a gateway, with what they were at the last commit. A commit and what goes before it cost the rows that were
/// written since then, not all rows.
#[derive(Drop)]
pub struct Database {
    alloc: Global,
    rows: Rows,
    before: Images,
    counter: u64,
}

impl Model for Database {
    ghost use Rattle.vtep_rows.specs.Database.{Versions, versions_code, restored, IsBefore};

    ghost Value = { Versions };

    ghost coded = { versions_code };

    ghost view = { λ d. record { committed = restored d.before d.counter d.rows; current = d.rows } };

    ghost invariant = { λ d. IsBefore d.before d.counter d.rows };
}

impl Database {
    /// These rows, as they are committed.
    pub fn new(alloc: Global, rows: Rows) -> Database
        ensures { result ≡ record { committed = rows; current = rows } }
    {
        let counter = rows.counter();
        Database {
            alloc,
            rows,
            before: Images::new(alloc),
            counter,
        }
    }

    /// The current rows.
    pub fn rows(&self) -> &Rows
        ensures { result.now ≡ self.now.current }
    {
        &self.rows
    }

    /// The current rows.
    pub fn into_rows(self) -> Rows
        ensures { result ≡ self.current }
    {
        self.rows
    }

    /// The row that was at this place at the last commit. Takes no memory.
    pub fn was(&self, table: Table, id: RowId) -> Option<&Row>
        ensures { option_map (λ row. row.now) result ≡ row_at self.now.committed (table, id) }
    {
        match self.before.get(table, id) {
            Some(image) => image.as_ref(),
            None => self.rows.get(table, id),
        }
    }

    /// The rows are committed as they are, without a look at what changed. Takes no memory.
    pub fn begin(&mut self)
        ensures { self.new ≡ record { committed = self.old.current; current = self.old.current } }
    {
        self.counter = self.rows.counter();
        self.before = Images::new(self.alloc);
    }

    /// Gives a row the next number, and the identifier of that number.
    ///
    /// `Spent` comes exactly where the counter is 2^62 - 1. After an `Err` all is as it was.
    pub fn insert(&mut self, table: Table, row: Row) -> Result<RowId, RowsFault>
        requires { row.table ≡ table }
        ensures ok { OnOk result (self.new
            ≡ record self.old { current = inserted self.old.current row }) }
        ensures id { IfOk result (λ id. id ≡ next_id self.old.current) }
        ensures room { OnOk result (self.old.current.counter < last_number) }
        ensures err { OnErr result (self.new ≡ self.old) }
        ensures spent { IfErr result
            (λ fault. OrMemory (rows_refusal fault) (λ _. self.old.current.counter ≡ last_number)) }
    {
        let id = self.before.insert_row(&mut self.rows, table, row)?;
        Ok(id)
    }

    /// Puts a row in the place of the one with this identifier. After an `Err` all is as it was.
    pub fn replace(&mut self, table: Table, id: RowId, row: Row) -> Result<(), OutOfMemory>
        requires there { is_some (row_at self.old.current (table, id)) ≡ true }
        requires table { row.table ≡ table }
        ensures ok { OnOk result (self.new
            ≡ record self.old { current = replaced self.old.current (table, id) row }) }
        ensures err { OnErr result (self.new ≡ self.old) }
    {
        // It says that the identifiers of all rows were given.
        let _ = self.rows.counter();
        self.before.put_row(&mut self.rows, table, id, row)?;
        Ok(())
    }

    /// Takes a row away. After an `Err` all is as it was.
    pub fn remove(&mut self, table: Table, id: RowId) -> Result<(), OutOfMemory>
        ensures ok { OnOk result (self.new
            ≡ record self.old { current = removed self.old.current (table, id) }) }
        ensures err { OnErr result (self.new ≡ self.old) }
    {
        self.before.remove_row(&mut self.rows, table, id)?;
        Ok(())
    }

    /// The identifiers of a table's rows that differ from the committed ones, came or went, ascending.
    pub fn differing(&self, alloc: Global, table: Table) -> Result<List<RowId>, OutOfMemory>
        ensures { IfOk result (λ ids. ids
            ≡ map (λ c. c.id) (filter (λ c. same_table c.table table)
            (changes self.now.committed self.now.current))) }
    {
        self.before.differing(alloc, &self.rows, table)
    }

    /// Takes away the rows of tables that are not root and that nothing names, until none is left. After an `Err` some may be
    /// left.
    pub fn collect(&mut self) -> Result<(), OutOfMemory>
        requires { collected self.old.committed ≡ self.old.committed }
        ensures { OnOk result (self.new
            ≡ record self.old { current = collected self.old.current }) }
    {
        let mut candidates = self.candidates()?;
        'tables: for table in tables() {
            self.collect_table(&mut candidates, *table)?;
        }
        Ok(())
    }

    fn candidates(&self) -> Result<BTreeSet<(Table, RowId)>, OutOfMemory>
        requires { collected self.now.committed ≡ self.now.committed }
        ensures rows { IsRows self.now.current }
        ensures candidates { IfOk result
            (λ found. IsCollecting self.now.current.rows self.now.current.rows
            (from_place 0 found.keys)) }
    {
        // It says that the rows keep their form.
        let _ = self.rows.counter();
        self.before.candidates(self.alloc)
    }

    /// Takes away the candidates of a table that nothing names. What they named becomes candidates of later tables.
    fn collect_table(
        &mut self,
        candidates: &mut BTreeSet<(Table, RowId)>,
        table: Table,
    ) -> Result<(), OutOfMemory>
        ensures committed { OnOk result (self.new.committed ≡ self.old.committed) }
        ensures current { OnOk result
            (self.new.current ≡ record self.old.current { rows = self.new.current.rows }) }
        ensures rows { OnOk result ((m : Map key_cmp Contents)
            → IsCollecting m self.old.current.rows
            (from_place (table_place table) candidates.old.keys)
            → IsCollecting m self.new.current.rows (from_place (table_place table + 1) candidates.new.keys)) }
    {
        let ids = ids_at(self.alloc, candidates, table)?;
        'ids: for id in ids.into_vec() {
            self.collect_row(candidates, table, id)?;
        }
        Ok(())
    }

    /// Takes a row away that nothing names. What it named becomes candidates.
    fn collect_row(
        &mut self,
        candidates: &mut BTreeSet<(Table, RowId)>,
        table: Table,
        id: RowId,
    ) -> Result<(), OutOfMemory>
        ensures row { OnOk result (self.new
            ≡ record self.old { current = collected_at self.old.current (table, id) }) }
        ensures candidates { OnOk result
            ((k : Key) → has_key candidates.new.keys k
            ≡ (has_key candidates.old.keys k || let_go self.old.current (table, id) k)) }
        ensures later { OnOk result ((k : Key) → let_go self.old.current (table, id) k ≡ true
            → later_than table k ≡ true) }
    {
        // It says that the row names rows of root or later tables alone, since it is one of its table.
        let _ = self.rows.counter();
        let Some(row) = self.rows.get(table, id) else {
            return Ok(());
        };
        if root(table) || self.rows.is_named(table, id) {
            return Ok(());
        }
        add_references(candidates, self.alloc, row)?;
        self.remove(table, id)
    }

    /// The rule of the first breach of the current rows by rule, table and identifier. Takes no memory.
    pub fn broken(&self) -> Option<Rule>
        requires { broken self.now.committed ≡ None }
        ensures { result ≡ broken self.now.current }
    {
        let Ok(()) = self.rows.check_rule(Rule::Limit) else {
            return Some(Rule::Limit);
        };
        if self.before.break_references(&self.rows) {
            return Some(Rule::Reference);
        }
        if self.before.break_keys(&self.rows) {
            return Some(Rule::Unique);
        }
        None
    }

    /// Commits the current rows, and gives each row that differs, by table and identifier. After an `Err` the current rows are
    /// committed as well, and what differed is lost.
    pub fn commit(&mut self, alloc: Global) -> Result<Change, OutOfMemory>
        ensures change { IfOk result
            (λ change. change ≡ changes self.old.committed self.old.current) }
        ensures left { self.new ≡ record
            { committed = self.old.current; current = self.old.current } }
    {
        let images = mem::replace(&mut self.before, Images::new(self.alloc));
        self.counter = self.rows.counter();
        images.into_change(alloc, &self.rows)
    }

    /// The current rows become the committed ones. After an `Err` the rows that are left are committed, and some
    /// are not back.
    pub fn roll_back(&mut self) -> Result<(), OutOfMemory>
        ensures { OnOk result (self.new
            ≡ record { committed = self.old.committed; current = self.old.committed }) }
    {
        let counter = self.counter;
        let images = mem::replace(&mut self.before, Images::new(self.alloc));
        let done = images.put_back(&mut self.rows);
        self.counter = self.rows.counter();
        done?;
        self.rows.set_counter(counter);
        self.counter = counter;
        Ok(())
    }
}

fn ids_at(
    alloc: Global,
    places: &BTreeSet<(Table, RowId)>,
    table: Table,
) -> Result<List<RowId>, OutOfMemory>
    ensures { IfOk result (λ ids. ids ≡ ids_at table places.now.keys) }
{
    let mut ids = List::new(alloc);
    'places: for key in places {
        if key.0 == table {
            ids.push(key.1)?;
        }
    }
    Ok(ids)
}
