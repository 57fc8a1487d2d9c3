//! The learnt addresses that go with a change of the rows.

ghost use Rattle.std.specs.Prelude.{◌≡◌, ◌++◌, option_copied, IfOk, OnOk};
ghost use Rattle.vtep_schema.specs.declared.Table.TheVariants.{PhysicalPort, UcastMacsRemote};
ghost use Rattle.local_tables.specs.Following.{differing, unbound, unbound_by, claimed_at, claimed, leaving};

use crate::bindings::is_bound_there;
use forward_program::read_remote;
use mac_learning::{Learned, Learnt};
use std::alloc::Global;
use vtep_base::{List, OutOfMemory, RowId};
use vtep_rows::{Database, Rows};
use vtep_schema::Table;

/// Adds the entries whose port and VLAN no longer name their switch.
fn add_unbound(
    alloc: Global,
    rows: &Rows,
    learned: &Learned,
    gone: &mut List<Learnt>,
) -> Result<(), OutOfMemory>
    ensures { OnOk result (gone.new ≡ gone.old ++ unbound rows.now learned.now.entries) }
{
    'entries: for entry in learned.entries() {
        if !is_bound_there(alloc, rows, entry)? {
            gone.push(*entry)?;
        }
    }
    Ok(())
}

/// The entry of the address of a remote row that was inserted.
fn claimed_at(database: &Database, learned: &Learned, id: RowId) -> Option<Learnt>
    ensures { result
        ≡ claimed_at database.now.committed database.now.current learned.now.entries id }
{
    if database.was(Table::UcastMacsRemote, id).is_some() {
        return None;
    }
    let row = database.rows().get(Table::UcastMacsRemote, id)?;
    let remote = read_remote(row)?;
    learned.find(remote.switch, remote.mac).copied()
}

/// Adds the entries of the addresses of remote rows that were inserted.
fn add_claimed(
    alloc: Global,
    database: &Database,
    learned: &Learned,
    gone: &mut List<Learnt>,
) -> Result<(), OutOfMemory>
    ensures { OnOk result (gone.new ≡ gone.old
        ++ claimed database.now.committed database.now.current learned.now.entries) }
{
    let ids = database.differing(alloc, Table::UcastMacsRemote)?;
    'ids: for id in ids.into_vec() {
        if let Some(entry) = claimed_at(database, learned, id) {
            gone.push(entry)?;
        }
    }
    Ok(())
}

/// The entries that go. Ports are looked at where one differs alone, remote rows where they differ.
pub(crate) fn leaving(
    alloc: Global,
    database: &Database,
    learned: &Learned,
) -> Result<List<Learnt>, OutOfMemory>
    ensures { IfOk result (λ gone. gone
        ≡ leaving database.now.committed database.now.current learned.now.entries) }
{
    let mut gone = List::new(alloc);
    if !database.differing(alloc, Table::PhysicalPort)?.is_empty() {
        add_unbound(alloc, database.rows(), learned, &mut gone)?;
    }
    add_claimed(alloc, database, learned, &mut gone)?;
    Ok(gone)
}
