//! The ports of a gateway.

ghost use Rattle.std.specs.Prelude.{◌≡◌, ◌∷◌, [], nat_le, length, true, is_some, None, Some, Err, IfOk, IfErr, IfSome, OnOk};
ghost use Rattle.vtep_base.specs.Texts.{is_name};
ghost use Rattle.vtep_base.specs.Answers.{OrMemory};
ghost use Rattle.ovsdb_values.specs.Sets.{one};
ghost use Rattle.ovsdb_values.specs.declared.atoms.Atom.TheVariants.{Id, Text};
ghost use Rattle.vtep_schema.specs.declared.Table.TheVariants.{PhysicalPort, PhysicalSwitch};
ghost use Rattle.vtep_schema.specs.declared.Column.TheVariants.{PortName, SwitchPorts};
ghost use Rattle.vtep_rows.specs.Row.{allowed, value_at};
ghost use Rattle.vtep_gateway.specs.declared.EventRefused.TheVariants.{NoPort};
ghost use Rattle.vtep_rows.specs.declared.row.RowFault.TheVariants as row_fault;
ghost use Rattle.vtep_gateway.specs.CommitFaults.{refusal_of};
ghost use Rattle.vtep_gateway.specs.Ports.{is_text, port_named, is_full, port_refusal, changed_ports, changed_switch, Takes, with_ports, port_row, with_port, without_port};
ghost use Rattle.vtep_gateway.specs.Settled.{IsSettled};

use crate::EventRefused;
use ovsdb_values::{Atom, AtomSet, Datum};
use std::alloc::Global;
use vtep_base::{List, Name, OutOfMemory, RowId, Txt};
use vtep_rows::{Database, Ids, Row, RowFault, Rows, RowsFault};
use vtep_schema::{Column, Table, most};

/// Why there is no port more, or less.
#[derive(Clone, Copy, Drop)]
pub(crate) enum PortFault {
    OutOfMemory,
    /// The event is refused.
    Refused(EventRefused),
}

impl From<OutOfMemory> for PortFault {
    ghost use Rattle.std.specs.Prelude.{◌≡◌};
    ghost use Rattle.vtep_gateway.specs.declared.ports.PortFault.TheVariants as fault;

    ghost from_gives = { λ _ e. e ≡ fault.OutOfMemory };

    fn from(_error: OutOfMemory) -> PortFault {
        PortFault::OutOfMemory
    }
}

/// What a port does at its switch.
#[derive(Clone, Copy)]
pub(crate) enum Change {
    Joins,
    Leaves,
}

/// The name as the atom that a row holds.
fn name_atom(alloc: Global, name: &Name) -> Result<Atom, OutOfMemory>
    ensures atom { IfOk result (λ atom. atom ≡ Text name.now) }
    ensures form { is_name name.now ≡ true }
{
    let text = String::from_utf8_lossy(alloc, name.as_slice())?;
    Ok(Atom::Text(Txt::from_string(text)))
}

/// The identifier of the port of this name: a look-up.
pub(crate) fn port_named(
    alloc: Global,
    rows: &Rows,
    name: &Name,
) -> Result<Option<RowId>, OutOfMemory>
    ensures id { IfOk result (λ id. id ≡ port_named rows.now name.now) }
    ensures form { is_name name.now ≡ true }
{
    let key = [name_atom(alloc, name)?];
    Ok(rows.keyed(Table::PhysicalPort, &key))
}

/// The datum is this one text.
fn is_text(datum: &Datum, name: &Name) -> bool
    ensures { result ≡ is_text datum.now name.now }
{
    let Datum::Set(set) = datum else {
        return false;
    };
    match set.as_slice() {
        [Atom::Text(text)] => text.as_slice() == name.as_slice(),
        _ => false,
    }
}

/// Whether there is a port of this name. Takes no memory, and looks at each port, of which there are at most 64.
pub(crate) fn has_port(rows: &Rows, name: &Name) -> bool
    ensures { result ≡ is_some (port_named rows.now name.now) }
{
    'ports: for id in rows.ids(Table::PhysicalPort) {
        if let Some(row) = rows.get(Table::PhysicalPort, id) {
            if is_text(row.value(Column::PortName), name) {
                return true;
            }
        }
    }
    false
}

/// As many identifiers are left, at least.
fn has_at_least(least: u64, ids: Ids<'_>) -> bool
    ensures { result ≡ nat_le least (length ids.entry) }
{
    let mut missing = least;
    'ids: for _id in ids {
        if missing == 0 {
            return true;
        }
        missing -= 1;
    }
    missing == 0
}

/// As many ports are there as there may be.
fn is_full(rows: &Rows) -> bool
    ensures { result ≡ is_full rows.now }
{
    has_at_least(most(Table::PhysicalPort), rows.ids(Table::PhysicalPort))
}

fn one(alloc: Global, atom: Atom) -> Result<Datum, OutOfMemory>
    ensures { IfOk result (λ datum. datum ≡ one atom) }
{
    Ok(Datum::Set(AtomSet::one(alloc, atom)?))
}

/// A row of values that make one, which fails for want of memory alone.
fn made(row: Result<Row, RowFault>) -> Result<Row, OutOfMemory>
    requires { row ≡ Err row_fault.Values → ⊥ }
    ensures { IfOk result (λ r. row ≡ Ok r) }
{
    row.map_err(|_| OutOfMemory)
}

fn changed_ports(
    alloc: Global,
    change: Change,
    id: RowId,
    ports: &Datum,
) -> Result<Datum, OutOfMemory>
    ensures { IfOk result (λ datum. datum ≡ changed_ports change id ports.now) }
{
    let port = one(alloc, Atom::Id(id))?;
    match change {
        Change::Joins => ports.with_all(alloc, &port),
        Change::Leaves => ports.without_all(alloc, &port),
    }
}

/// The row of the switch, which a port joins or leaves.
fn changed_switch(
    alloc: Global,
    change: Change,
    id: RowId,
    switch: &Row,
) -> Result<Row, OutOfMemory>
    requires table { switch.now.table ≡ PhysicalSwitch }
    requires fits { allowed SwitchPorts (changed_ports change id (value_at switch.now SwitchPorts))
        ≡ true }
    ensures { IfOk result (λ row. row ≡ changed_switch change id switch.now) }
{
    let ports = changed_ports(alloc, change, id, switch.value(Column::SwitchPorts))?;
    made(switch.with(alloc, Column::SwitchPorts, ports))
}

/// A port joins the switch, or leaves it.
fn change_ports(
    alloc: Global,
    database: &mut Database,
    change: Change,
    id: RowId,
) -> Result<(), OutOfMemory>
    requires { Takes change id database.old.current }
    ensures { OnOk result (database.new
        ≡ record database.old { current = with_ports database.old.current change id }) }
{
    let rows = database.rows();
    let switch = rows.ids(Table::PhysicalSwitch).next().unwrap();
    let row = rows.get(Table::PhysicalSwitch, switch).unwrap();
    let row = changed_switch(alloc, change, id, row)?;
    database.replace(Table::PhysicalSwitch, switch, row)
}

/// What is given of a port of this name.
fn port_values(alloc: Global, name: &Name) -> Result<List<(Column, Datum)>, OutOfMemory>
    ensures values { IfOk result (λ values. values ≡ (PortName, one (Text name.now)) ∷ []) }
    ensures form { is_name name.now ≡ true }
{
    let name = one(alloc, name_atom(alloc, name)?)?;
    let mut values = List::new(alloc);
    values.push((Column::PortName, name))?;
    Ok(values)
}

/// The row of a port of this name.
fn port_row(alloc: Global, name: &Name) -> Result<Row, OutOfMemory>
    ensures { IfOk result (λ row. row ≡ port_row name.now) }
{
    let values = port_values(alloc, name)?;
    made(Row::filled(alloc, Table::PhysicalPort, values))
}

/// One more port: its row, which the row of the switch names.
///
/// `Repeated` comes where a port has this name, `Ports` where as many are there as there may be or no row number is left. After
/// a refusal all is as it was.
pub(crate) fn add_port(alloc: Global, database: &mut Database, name: &Name) -> Result<(), PortFault>
    requires { IsSettled database.old.current }
    ensures form { is_name name.now ≡ true }
    ensures free { OnOk result (port_refusal database.old.current name.now ≡ None) }
    ensures added { OnOk result (database.new
        ≡ record database.old { current = with_port database.old.current name.now }) }
    ensures refused { IfErr result (λ fault. OrMemory (refusal_of fault)
        (λ why. (port_refusal database.old.current name.now ≡ Some why)
        × (database.new ≡ database.old))) }
{
    if port_named(alloc, database.rows(), name)?.is_some() {
        return Err(PortFault::Refused(EventRefused::Repeated));
    }
    if is_full(database.rows()) {
        return Err(PortFault::Refused(EventRefused::Ports));
    }
    let row = port_row(alloc, name)?;
    match database.insert(Table::PhysicalPort, row) {
        Ok(id) => Ok(change_ports(alloc, database, Change::Joins, id)?),
        Err(RowsFault::Spent) => Err(PortFault::Refused(EventRefused::Ports)),
        Err(RowsFault::OutOfMemory) => Err(PortFault::OutOfMemory),
    }
}

/// The port of this name is taken away: its row, and its name in the row of the switch.
///
/// `NoPort` comes where there is none. Then all is as it was.
pub(crate) fn remove_port(
    alloc: Global,
    database: &mut Database,
    name: &Name,
) -> Result<(), PortFault>
    requires { IsSettled database.old.current }
    ensures removed { OnOk result (IfSome (port_named database.old.current name.now)
        (λ id. database.new
        ≡ record database.old { current = without_port database.old.current id })) }
    ensures found { OnOk result (is_some (port_named database.old.current name.now) ≡ true) }
    ensures refused { IfErr result (λ fault. OrMemory (refusal_of fault)
        (λ why. (why ≡ NoPort) × (port_named database.old.current name.now ≡ None)
        × (database.new ≡ database.old))) }
{
    let Some(id) = port_named(alloc, database.rows(), name)? else {
        return Err(PortFault::Refused(EventRefused::NoPort));
    };
    database.remove(Table::PhysicalPort, id)?;
    Ok(change_ports(alloc, database, Change::Leaves, id)?)
}
