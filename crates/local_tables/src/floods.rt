//! The switches that a change of the rows binds or no longer binds.

ghost use Rattle.std.specs.Prelude.{◌≡◌, ℕ, ◌++◌, flat_map, option_map, IfOk, OnOk};
ghost use Rattle.std.specs.List.Sorted.{IsStrictlySortedBy};
ghost use Rattle.std.specs.Ordering.{nat_cmp};
ghost use Rattle.vtep_schema.specs.declared.Table.TheVariants.{PhysicalPort, LogicalSwitch};
ghost use Rattle.vtep_rows.specs.Rows.{row_at};
ghost use Rattle.local_tables.specs.Following.{has_id, differing, switches_of, touched, has_flood, lost, gained};

use crate::bindings::is_bound;
use crate::keys::flood_key;
use std::alloc::Global;
use std::collections::BTreeSet;
use vtep_base::{List, OutOfMemory, RowId};
use vtep_rows::{Database, Row, Rows, references};
use vtep_schema::Table;

/// Adds the switches that a port binds.
fn add_switches(
    alloc: Global,
    row: Option<&Row>,
    switches: &mut List<RowId>,
) -> Result<(), OutOfMemory>
    ensures { OnOk result (switches.new ≡ switches.old
        ++ switches_of (option_map (λ row. row.now) row.entry)) }
{
    let Some(row) = row else {
        return Ok(());
    };
    'references: for key in references(alloc, row)?.into_vec() {
        if key.0 == Table::LogicalSwitch {
            switches.push(key.1)?;
        }
    }
    Ok(())
}

/// Adds the switches that the ports bind or bound which differ.
fn add_bound(
    alloc: Global,
    database: &Database,
    switches: &mut List<RowId>,
) -> Result<(), OutOfMemory>
    ensures { OnOk result (switches.new ≡ switches.old
        ++ flat_map (λ id. switches_of (row_at database.now.committed (PhysicalPort, id))
        ++ switches_of (row_at database.now.current (PhysicalPort, id)))
        (differing PhysicalPort database.now.committed database.now.current)) }
{
    let ports = database.differing(alloc, Table::PhysicalPort)?;
    'ports: for id in ports.into_vec() {
        add_switches(alloc, database.was(Table::PhysicalPort, id), switches)?;
        add_switches(
            alloc,
            database.rows().get(Table::PhysicalPort, id),
            switches,
        )?;
    }
    Ok(())
}

/// The switches that may be bound or not from now on.
pub(crate) fn touched(alloc: Global, database: &Database) -> Result<List<RowId>, OutOfMemory>
    ensures { IfOk result (λ switches. switches
        ≡ touched database.now.committed database.now.current) }
{
    let mut switches = List::new(alloc);
    add_bound(alloc, database, &mut switches)?;
    let differing = database.differing(alloc, Table::LogicalSwitch)?;
    'switches: for id in differing.into_vec() {
        switches.push(id)?;
    }
    Ok(switches)
}

/// Whether a switch has a row for unknown destinations.
fn has_flood(alloc: Global, rows: &Rows, switch: RowId) -> Result<bool, OutOfMemory>
    ensures { IfOk result (λ has. has ≡ has_flood rows.now switch) }
{
    let key = flood_key(alloc, switch)?;
    Ok(rows.keyed(Table::McastMacsLocal, &key).is_some())
}

/// Those of the switches that are no longer bound.
pub(crate) fn lost(
    alloc: Global,
    rows: &Rows,
    touched: &[RowId],
) -> Result<List<RowId>, OutOfMemory>
    ensures { IfOk result (λ switches. switches ≡ lost rows.now touched.now) }
{
    let mut switches = List::new(alloc);
    'touched: for switch in touched {
        if !is_bound(rows, *switch) {
            switches.push(*switch)?;
        }
    }
    Ok(switches)
}

/// Those of the switches that are bound and have no row.
fn gained(alloc: Global, rows: &Rows, touched: &[RowId]) -> Result<List<RowId>, OutOfMemory>
    ensures { IfOk result (λ switches. switches ≡ gained rows.now touched.now) }
{
    let mut switches = List::new(alloc);
    'touched: for switch in touched {
        if is_bound(rows, *switch) && !has_flood(alloc, rows, *switch)? {
            switches.push(*switch)?;
        }
    }
    Ok(switches)
}

/// The switches, each once.
fn distinct(alloc: Global, switches: List<RowId>) -> Result<BTreeSet<RowId>, OutOfMemory>
    ensures { IfOk result (λ set. (i : ℕ) → has_id set.keys i ≡ has_id switches i) }
{
    let mut set = BTreeSet::new(alloc);
    'switches: for switch in switches.into_vec() {
        set.insert(switch)?;
    }
    Ok(set)
}

/// The switches by identifier.
fn in_order(alloc: Global, set: &BTreeSet<RowId>) -> Result<List<RowId>, OutOfMemory>
    ensures value { IfOk result (λ ids. ids ≡ set.now.keys) }
    ensures order { IfOk result (IsStrictlySortedBy nat_cmp) }
{
    let mut ids = List::new(alloc);
    'set: for switch in set {
        ids.push(*switch)?;
    }
    Ok(ids)
}

/// Those of the switches that are bound and have no row, by identifier, each once.
pub(crate) fn missing(
    alloc: Global,
    rows: &Rows,
    touched: &[RowId],
) -> Result<List<RowId>, OutOfMemory>
    ensures same { IfOk result
        (λ ids. (i : ℕ) → has_id ids i ≡ has_id (gained rows.now touched.now) i) }
    ensures order { IfOk result (IsStrictlySortedBy nat_cmp) }
{
    let gained = gained(alloc, rows, touched)?;
    in_order(alloc, &distinct(alloc, gained)?)
}
