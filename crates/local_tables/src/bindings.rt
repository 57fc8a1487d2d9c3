//! What the ports of a gateway bind.

ghost use Rattle.std.specs.Prelude.{◌≡◌, IfOk};
ghost use Rattle.local_tables.specs.Followed.{switch_at, is_bound_there};
ghost use Rattle.local_tables.specs.Following.{is_bound};

use crate::keys::port_key;
use forward_program::id_at_key;
use mac_learning::Learnt;
use std::alloc::Global;
use vtep_base::{Name, OutOfMemory, RowId, Vlan};
use vtep_rows::Rows;
use vtep_schema::{Column, Table};

/// The switch that the bindings of a port name at a VLAN.
fn switch_at(
    alloc: Global,
    rows: &Rows,
    port: &Name,
    vlan: Vlan,
) -> Result<Option<RowId>, OutOfMemory>
    ensures { IfOk result (λ switch. switch ≡ switch_at rows.now port.now vlan) }
{
    let key = port_key(alloc, port)?;
    let Some(id) = rows.keyed(Table::PhysicalPort, &key) else {
        return Ok(None);
    };
    let Some(row) = rows.get(Table::PhysicalPort, id) else {
        return Ok(None);
    };
    Ok(id_at_key(row, Column::PortVlanBindings, vlan.number()))
}

/// The port and VLAN of an entry name its switch.
pub(crate) fn is_bound_there(
    alloc: Global,
    rows: &Rows,
    entry: &Learnt,
) -> Result<bool, OutOfMemory>
    ensures { IfOk result (λ bound. bound ≡ is_bound_there rows.now entry.now) }
{
    match switch_at(alloc, rows, &entry.port, entry.vlan)? {
        Some(switch) => Ok(switch == entry.switch),
        None => Ok(false),
    }
}

/// The switch is there, and the bindings of some port name it. Takes no memory.
pub(crate) fn is_bound(rows: &Rows, switch: RowId) -> bool
    ensures { result ≡ is_bound rows.now switch }
{
    rows.get(Table::LogicalSwitch, switch).is_some()
        && rows.names(Table::PhysicalPort, Table::LogicalSwitch, switch)
}
