//! Mirrors.

ghost use Rattle.std.specs.Prelude.{◌≡◌, true, false, Ok, IfErr, OnOk, map, filter, option_map};
ghost use Rattle.serde_json.specs.View.{view};
ghost use Rattle.vtep_base.specs.Maps as maps;
ghost use Rattle.vtep_schema.specs.Tables.{same_table};
ghost use Rattle.monitor_updates.specs.Mirrored.{is_value, has_values, agrees, contradiction, applied, applied_one, taken, IsMeant, StaysUnlessMemory};

use crate::row_updates::{KeyedUpdate, RowUpdate, told_of};
use crate::updates::differ;
use ovsdb_values::Datum;
use serde_json::Value;
use std::alloc::Global;
use std::marker::Model;
use vtep_base::{List, OutOfMemory, RowId};
use vtep_rows::{Ids, Row, Store};
use vtep_schema::{Column, Table, columns};

/// Why a mirror does not take table updates.
#[derive(Clone, Copy, Debug, PartialEq, Eq)]
pub enum MirrorFault {
    /// No memory is left. Nothing more is claimed of the mirror.
    OutOfMemory,
    /// The value is no table updates of the schema.
    Shape,
    /// A new row is there, or one that went or changed is not there or has other old values.
    Contradicts { table: Table, row: RowId },
}

impl From<OutOfMemory> for MirrorFault {
    ghost use Rattle.std.specs.Prelude.{◌≡◌};
    ghost use Rattle.monitor_updates.specs.declared.mirror.MirrorFault.TheVariants as fault;

    ghost from_gives = { λ _ e. e ≡ fault.OutOfMemory };

    fn from(_error: OutOfMemory) -> MirrorFault {
        MirrorFault::OutOfMemory
    }
}

/// The rows of a gateway as its monitor tells them: a finite map from a table and an identifier to a row.
#[derive(Drop)]
pub struct Mirror {
    rows: Store,
}

impl Model for Mirror {
    ghost use Rattle.vtep_base.specs.Maps as maps;
    ghost use Rattle.vtep_rows.specs.Row.{Contents};
    ghost use Rattle.vtep_rows.specs.Rows.{key_cmp};
    ghost use Rattle.vtep_rows.specs.Codes.{store_code};

    ghost Value = { maps.Map key_cmp Contents };

    ghost coded = { store_code };

    ghost view = { λ m. m.rows };
}

fn is_value(row: &Row, column: Column, datum: &Datum) -> bool
    ensures { result ≡ is_value (maps.get row.now.values column) datum.now }
{
    match row.find(column) {
        Some(value) => *value == *datum,
        None => false,
    }
}

fn has_values(values: &[(Column, Datum)], row: &Row) -> bool
    ensures { result ≡ has_values values.now row.now }
{
    'values: for (column, datum) in values {
        if !is_value(row, *column, datum) {
            return false;
        }
    }
    true
}

/// A new row is not there; one that went or changed has the old values, and is in no answer to a request.
fn agrees(first: bool, table: Table, told: &RowUpdate, there: Option<&Row>) -> bool
    ensures { result ≡ agrees first table told.now (option_map (λ r. r.now) there.entry) }
{
    match told {
        RowUpdate::Insert(_) => there.is_none(),
        RowUpdate::Delete(old) => match there {
            Some(row) => !first && !differ(columns(table), old, row),
            None => false,
        },
        RowUpdate::Modify(before, _) => match there {
            Some(row) => !first && has_values(before.as_slice(), row),
            None => false,
        },
    }
}

/// The first row that contradicts what is there.
fn contradiction(first: bool, rows: &Store, told: &[KeyedUpdate]) -> Option<(Table, RowId)>
    ensures { result ≡ contradiction first rows.now told.now }
{
    'told: for entry in told {
        let (table, id) = entry.0;
        if !agrees(first, table, &entry.1, rows.get(table, id)) {
            return Some((table, id));
        }
    }
    None
}

fn apply_one(rows: &mut Store, table: Table, id: RowId, told: RowUpdate) -> Result<(), OutOfMemory>
    ensures { OnOk result (rows.new ≡ applied_one rows.old (table, id) told) }
{
    match told {
        RowUpdate::Insert(row) => rows.put(table, id, row),
        RowUpdate::Delete(_) => {
            let _gone = rows.remove(table, id);
            Ok(())
        }
        RowUpdate::Modify(_, row) => rows.put(table, id, row),
    }
}

fn apply(rows: &mut Store, told: List<KeyedUpdate>) -> Result<(), OutOfMemory>
    ensures { OnOk result (rows.new ≡ applied rows.old told) }
{
    'told: for ((table, id), told) in told.into_vec() {
        apply_one(rows, table, id, told)?;
    }
    Ok(())
}

fn take(alloc: Global, rows: &mut Store, first: bool, updates: &Value) -> Result<(), MirrorFault>
    ensures ok { OnOk result (taken first rows.old (view updates.now) ≡ Ok rows.new) }
    ensures err { IfErr result (λ f. IsMeant f (taken first rows.old (view updates.now))) }
    ensures kept { IfErr result (λ f. StaysUnlessMemory f rows.old rows.new) }
{
    let Some(told) = told_of(alloc, updates)? else {
        return Err(MirrorFault::Shape);
    };
    if let Some((table, row)) = contradiction(first, rows, told.as_slice()) {
        return Err(MirrorFault::Contradicts { table, row });
    }
    apply(rows, told)?;
    Ok(())
}

impl Mirror {
    /// A mirror without rows.
    pub fn new(alloc: Global) -> Mirror
        ensures { result ≡ maps.empty }
    {
        Mirror {
            rows: Store::new(alloc),
        }
    }

    /// Takes the answer to a monitor's request (RFC 7047, section 4.1.5).
    ///
    /// A refusal leaves the mirror as it was. `Shape` comes before `Contradicts`, which names the first such row of the answer.
    pub fn open(&mut self, alloc: Global, reply: &Value) -> Result<(), MirrorFault>
        ensures ok { OnOk result (taken true self.old (view reply.now) ≡ Ok self.new) }
        ensures err { IfErr result (λ f. IsMeant f (taken true self.old (view reply.now))) }
        ensures kept { IfErr result (λ f. StaysUnlessMemory f self.old self.new) }
    {
        take(alloc, &mut self.rows, true, reply)
    }

    /// Takes the table updates of an update (RFC 7047, section 4.1.6).
    ///
    /// A refusal leaves the mirror as it was. `Shape` comes before `Contradicts`, which names the first such row of the updates.
    pub fn take(&mut self, alloc: Global, update: &Value) -> Result<(), MirrorFault>
        ensures ok { OnOk result (taken false self.old (view update.now) ≡ Ok self.new) }
        ensures err { IfErr result (λ f. IsMeant f (taken false self.old (view update.now))) }
        ensures kept { IfErr result (λ f. StaysUnlessMemory f self.old self.new) }
    {
        take(alloc, &mut self.rows, false, update)
    }

    /// The row of a table with this identifier. Takes no memory.
    pub fn find(&self, table: Table, id: RowId) -> Option<&Row>
        ensures { option_map (λ row. row.now) result ≡ maps.get self.now (table, id) }
    {
        self.rows.get(table, id)
    }

    /// The identifiers of a table's rows, ascending. Takes no memory.
    pub fn ids(&self, table: Table) -> Ids<'_>
        ensures { result ≡ map (λ e. e.0.1) (filter (λ e. same_table e.0.0 table) self.now.list) }
    {
        self.rows.ids(table)
    }
}
