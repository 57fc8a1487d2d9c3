//! The rows that a gateway writes itself.

ghost use Rattle.std.specs.Prelude.{◌≡◌, ◌<◌, ◌^◌, true, Ok, Err, IfOk};
ghost use Rattle.ovsdb_values.specs.Sets.{one};
ghost use Rattle.vtep_rows.specs.declared.row.RowFault.TheVariants as row_fault;
ghost use Rattle.local_tables.specs.LocalRows.{is_individual, locator_values, locator_row, set_row, address_values, address_row, flood_row};

use crate::keys::{encapsulation_atom, ip_atom, mac_atom, unknown_atom};
use ovsdb_values::{Atom, AtomSet, Datum};
use std::alloc::Global;
use vtep_base::{Ipv4, List, Mac, OutOfMemory, RowId};
use vtep_rows::{Row, RowFault};
use vtep_schema::{Column, Table};

fn one(alloc: Global, atom: Atom) -> Result<Datum, OutOfMemory>
    ensures { IfOk result (λ datum. datum ≡ one atom) }
{
    Ok(Datum::Set(AtomSet::one(alloc, atom)?))
}

/// A row of values that make one, which fails for want of memory alone.
fn made(row: Result<Row, RowFault>) -> Result<Row, OutOfMemory>
    requires { row ≡ Err row_fault.Values → ⊥ }
    ensures { IfOk result (λ r. row ≡ Ok r) }
{
    row.map_err(|_| OutOfMemory)
}

fn locator_values(alloc: Global, ip: Ipv4) -> Result<List<(Column, Datum)>, OutOfMemory>
    requires { ip < 2 ^ 32 }
    ensures { IfOk result (λ values. values ≡ locator_values ip) }
{
    let encapsulation = one(alloc, encapsulation_atom(alloc)?)?;
    let address = one(alloc, ip_atom(alloc, ip)?)?;
    let mut values = List::new(alloc);
    values.push((Column::LocatorEncapsulationType, encapsulation))?;
    values.push((Column::LocatorDstIp, address))?;
    Ok(values)
}

/// A tunnel end point.
pub(crate) fn locator_row(alloc: Global, ip: Ipv4) -> Result<Row, OutOfMemory>
    requires { ip < 2 ^ 32 }
    ensures { IfOk result (λ row. row ≡ locator_row ip) }
{
    let values = locator_values(alloc, ip)?;
    made(Row::filled(alloc, Table::PhysicalLocator, values))
}

/// The set of one locator.
pub(crate) fn set_row(alloc: Global, locator: RowId) -> Result<Row, OutOfMemory>
    ensures { IfOk result (λ row. row ≡ set_row locator) }
{
    let locators = one(alloc, Atom::Id(locator))?;
    let mut values = List::new(alloc);
    values.push((Column::SetLocators, locators))?;
    made(Row::filled(alloc, Table::PhysicalLocatorSet, values))
}

fn address_values(
    alloc: Global,
    switch: RowId,
    mac: Mac,
    locator: RowId,
) -> Result<List<(Column, Datum)>, OutOfMemory>
    ensures { IfOk result (λ values. values ≡ address_values (switch, mac) locator) }
{
    let address = one(alloc, mac_atom(alloc, mac)?)?;
    let switch = one(alloc, Atom::Id(switch))?;
    let locator = one(alloc, Atom::Id(locator))?;
    let mut values = List::new(alloc);
    values.push((Column::UcastLocalMac, address))?;
    values.push((Column::UcastLocalLogicalSwitch, switch))?;
    values.push((Column::UcastLocalLocator, locator))?;
    Ok(values)
}

/// An address of a switch is behind this gateway.
pub(crate) fn address_row(
    alloc: Global,
    switch: RowId,
    mac: Mac,
    locator: RowId,
) -> Result<Row, OutOfMemory>
    requires { is_individual mac ≡ true }
    ensures { IfOk result (λ row. row ≡ address_row (switch, mac) locator) }
{
    let values = address_values(alloc, switch, mac, locator)?;
    made(Row::filled(alloc, Table::UcastMacsLocal, values))
}

/// This gateway takes the frames of a switch to unknown destinations.
pub(crate) fn flood_row(alloc: Global, switch: RowId, set: RowId) -> Result<Row, OutOfMemory>
    ensures { IfOk result (λ row. row ≡ flood_row switch set) }
{
    let unknown = one(alloc, unknown_atom(alloc)?)?;
    let switch = one(alloc, Atom::Id(switch))?;
    let set = one(alloc, Atom::Id(set))?;
    let mut values = List::new(alloc);
    values.push((Column::McastLocalMac, unknown))?;
    values.push((Column::McastLocalLogicalSwitch, switch))?;
    values.push((Column::McastLocalLocatorSet, set))?;
    made(Row::filled(alloc, Table::McastMacsLocal, values))
}
