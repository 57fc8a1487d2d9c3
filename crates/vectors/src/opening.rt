//! The rows at which transactions begin.

use crate::faults::CaseFault;
use ovsdb_values::{Atom, AtomSet, Datum};
use std::alloc::Global;
use vtep_base::{Ipv4, List, Name, RowId, Txt};
use vtep_rows::{Row, Rows};
use vtep_schema::{Column, Table};

/// The rows at which a transaction begins.
#[derive(Clone, Copy)]
pub enum Opening {
    /// Those of the new gateway g1 at 10.0.0.1, whose next row has the number 3.
    Gateway,
    /// With the ports p1 and p2, numbers 3 and 4, which the switch names.
    Ports,
}

fn add_port(alloc: Global, rows: &mut Rows, name: &str) -> Result<RowId, CaseFault> {
    let name = AtomSet::one(alloc, Atom::Text(Txt::from_str(alloc, name)?))?;
    let mut values = List::new(alloc);
    values.push((Column::PortName, Datum::Set(name)))?;
    let port = Row::filled(alloc, Table::PhysicalPort, values)?;
    Ok(rows.insert(Table::PhysicalPort, port)?)
}

/// Makes the switch name these ports.
fn name_ports(alloc: Global, rows: &mut Rows, ports: List<Atom>) -> Result<(), CaseFault> {
    let id = rows.id(2);
    let Some(switch) = rows.get(Table::PhysicalSwitch, id) else {
        return Err(CaseFault::Form);
    };
    let ports = Datum::Set(AtomSet::merged(alloc, ports)?);
    let switch = switch.with(alloc, Column::SwitchPorts, ports)?;
    Ok(rows.replace(Table::PhysicalSwitch, id, switch)?)
}

fn add_ports(alloc: Global, rows: &mut Rows) -> Result<(), CaseFault> {
    let mut ports = List::new(alloc);
    ports.push(Atom::Id(add_port(alloc, rows, "p1")?))?;
    ports.push(Atom::Id(add_port(alloc, rows, "p2")?))?;
    name_ports(alloc, rows, ports)
}

impl Opening {
    /// The rows themselves.
    pub fn rows(self, alloc: Global) -> Result<Rows, CaseFault> {
        let name = Name::parse(b"g1")?;
        let mut rows = Rows::new(alloc, &name, Ipv4::from_bits(0x0a00_0001))?;
        match self {
            Opening::Gateway => {}
            Opening::Ports => add_ports(alloc, &mut rows)?,
        }
        Ok(rows)
    }
}
