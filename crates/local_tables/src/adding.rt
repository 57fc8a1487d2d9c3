//! Rows that come.

ghost use Rattle.std.specs.Prelude.{◌≡◌, ◌<◌, ◌^◌, [], IfOk, IfErr, OnOk};
ghost use Rattle.vtep_base.specs.Answers.{OrMemory};
ghost use Rattle.vtep_rows.specs.Faults.{rows_refusal};
ghost use Rattle.vtep_rows.specs.Rows.{last_number, next_id, inserted};
ghost use Rattle.local_tables.specs.LocalRows.{locator_row};
ghost use Rattle.local_tables.specs.Followed.{own_locator, located, locator_of, with_flood, with_floods, completed_by};

use crate::keys::locator_key;
use crate::rows::{flood_row, locator_row, set_row};
use std::alloc::Global;
use vtep_base::{Ipv4, OutOfMemory, RowId};
use vtep_rows::{Database, Rows, RowsFault};
use vtep_schema::Table;

/// The locator of the own address: a look-up.
fn own_locator(alloc: Global, rows: &Rows, own: Ipv4) -> Result<Option<RowId>, OutOfMemory>
    requires { own < 2 ^ 32 }
    ensures { IfOk result (λ id. id ≡ own_locator own rows.now) }
{
    let key = locator_key(alloc, own)?;
    Ok(rows.keyed(Table::PhysicalLocator, &key))
}

fn insert_locator(alloc: Global, database: &mut Database, own: Ipv4) -> Result<RowId, RowsFault>
    requires { own < 2 ^ 32 }
    ensures id { IfOk result (λ id. id ≡ next_id database.old.current) }
    ensures rows { OnOk result (database.new ≡ record database.old
        { current = inserted database.old.current (locator_row own) }) }
    ensures spent { IfErr result (λ fault. OrMemory (rows_refusal fault) (λ _.
        (database.old.current.counter ≡ last_number)
        × (database.new.committed ≡ database.old.committed))) }
{
    let row = locator_row(alloc, own)?;
    let id = database.insert(Table::PhysicalLocator, row)?;
    Ok(id)
}

/// The locator of the own address, which is inserted where it is not there.
pub(crate) fn locate(alloc: Global, database: &mut Database, own: Ipv4) -> Result<RowId, RowsFault>
    requires { own < 2 ^ 32 }
    ensures id { IfOk result (λ id. id
        ≡ locator_of (own_locator own database.old.current) database.old.current) }
    ensures rows { OnOk result (database.new ≡ record database.old {
      current
          = located own (own_locator own database.old.current) database.old.current;
    }) }
    ensures spent { IfErr result (λ fault. OrMemory (rows_refusal fault) (λ _. (last_number
        < (located own (own_locator own database.old.current) database.old.current).counter)
        × (database.new.committed ≡ database.old.committed))) }
{
    match own_locator(alloc, database.rows(), own)? {
        Some(id) => Ok(id),
        None => insert_locator(alloc, database, own),
    }
}

/// Inserts the row of a bound switch, and its set.
fn add_flood(
    alloc: Global,
    database: &mut Database,
    locator: RowId,
    switch: RowId,
) -> Result<(), RowsFault>
    ensures rows { OnOk result (database.new ≡ record database.old
        { current = with_flood locator database.old.current switch }) }
    ensures spent { IfErr result (λ fault. OrMemory (rows_refusal fault) (λ _. (last_number
        < (with_flood locator database.old.current switch).counter)
        × (database.new.committed ≡ database.old.committed))) }
{
    let row = set_row(alloc, locator)?;
    let set = database.insert(Table::PhysicalLocatorSet, row)?;
    let row = flood_row(alloc, switch, set)?;
    database.insert(Table::McastMacsLocal, row)?;
    Ok(())
}

fn add_each_flood(
    alloc: Global,
    database: &mut Database,
    locator: RowId,
    switches: &[RowId],
) -> Result<(), RowsFault>
    ensures rows { OnOk result (database.new ≡ record database.old
        { current = with_floods locator database.old.current switches.now }) }
    ensures spent { IfErr result (λ fault. OrMemory (rows_refusal fault) (λ _. (last_number
        < (with_floods locator database.old.current switches.now).counter)
        × (database.new.committed ≡ database.old.committed))) }
{
    'switches: for switch in switches {
        add_flood(alloc, database, locator, *switch)?;
    }
    Ok(())
}

/// Inserts the rows of switches, with the own locator where it is not there.
pub(crate) fn add_floods(
    alloc: Global,
    database: &mut Database,
    own: Ipv4,
    switches: &[RowId],
) -> Result<(), RowsFault>
    requires { own < 2 ^ 32 }
    ensures rows { OnOk result (database.new ≡ record database.old {
      current = completed_by own
          (own_locator own database.old.current) switches.now [] database.old.current;
    }) }
    ensures spent { IfErr result (λ fault. OrMemory (rows_refusal fault) (λ _. (last_number
        < (completed_by own (own_locator own database.old.current) switches.now []
        database.old.current).counter) × (database.new.committed ≡ database.old.committed))) }
{
    if switches.is_empty() {
        return Ok(());
    }
    let locator = locate(alloc, database, own)?;
    add_each_flood(alloc, database, locator, switches)
}
