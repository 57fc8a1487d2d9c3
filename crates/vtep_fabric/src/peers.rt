//! The gateways of a fabric as an installation finds them.

ghost use Rattle.std.specs.Prelude.{◌≡◌, ◌<◌, ◌^◌, ℕ, option_map, filter_map, length, IfOk, OnOk, OnErr};
ghost use Rattle.std.specs.Map.Iter.{ShowsInOrder, deref_pair};
ghost use Rattle.vtep_base.specs.Maps as maps;
ghost use Rattle.vtep_schema.specs.declared.Table.TheVariants.{PhysicalPort};
ghost use Rattle.vtep_schema.specs.declared.Column.TheVariants.{PortName};
ghost use Rattle.vtep_rows.specs.Row.{first, text_in, put_all};
ghost use Rattle.vtep_rows.specs.Rows.{rows_of};
ghost use Rattle.forward_program.specs.Readings.{text_in_row, own_ip, port_name};
ghost use Rattle.fabric_world.specs.Intentions.{bytes_cmp};
ghost use Rattle.fabric_world.specs.Installer.{peer_in, port_in};

use forward_program::own_address;
use ovsdb_values::{Atom, Datum};
use std::alloc::Global;
use std::marker::Model;
use vtep_base::{Ipv4, Name, Ordered, OutOfMemory, RowId, Walk};
use vtep_rows::{Row, Rows};
use vtep_schema::{Column, Table};

/// A gateway as it is found: its address, and its ports with the identifiers of their rows.
#[derive(Drop)]
pub(crate) struct Peer {
    pub(crate) ip: Ipv4,
    pub(crate) ports: Ordered<Name, RowId>,
}

impl Model for Peer {
    ghost use Rattle.vtep_base.specs.Maps as maps;
    ghost use Rattle.fabric_world.specs.Installer as installer;
    ghost use Rattle.fabric_world.specs.Installer.{peer_code};

    ghost Value = { installer.Peer };

    ghost coded = { peer_code };

    ghost view = { λ p. record { ip = p.ip; ports = maps.of_list p.ports } };
}

/// Gateways as they are found, by name.
#[derive(Drop)]
pub(crate) struct Peers {
    by_name: Ordered<Name, Peer>,
}

impl Model for Peers {
    ghost use Rattle.vtep_base.specs.Maps as maps;
    ghost use Rattle.fabric_world.specs.Installer as installer;
    ghost use Rattle.fabric_world.specs.Installer.{peers_code};

    ghost Value = { installer.Peers };

    ghost coded = { peers_code };

    ghost view = { λ p. maps.of_list p.by_name };
}

fn first_text(atoms: &[Atom]) -> Option<&[u8]>
    ensures { option_map (λ text. text.now) result ≡ first (filter_map text_in atoms.now) }
{
    'atoms: for atom in atoms {
        if let Atom::Text(text) = atom {
            return Some(text.as_slice());
        }
    }
    None
}

fn text(row: &Row) -> Option<&[u8]>
    ensures { option_map (λ text. text.now) result ≡ text_in_row row.now PortName }
{
    match row.find(Column::PortName) {
        Some(Datum::Set(set)) => first_text(set.as_slice()),
        _ => None,
    }
}

fn port_name(row: &Row) -> Option<Name>
    ensures { result ≡ port_name row.now }
{
    Name::parse(text(row)?).ok()
}

/// The ports of a gateway with these rows.
fn ports_in(alloc: Global, rows: &Rows) -> Result<Ordered<Name, RowId>, OutOfMemory>
    ensures { IfOk result (λ ports. maps.map_by bytes_cmp ports
        ≡ put_all maps.empty (filter_map port_in (rows_of PhysicalPort rows.now))) }
{
    let mut ports = Ordered::new(alloc);
    'ports: for id in rows.ids(Table::PhysicalPort) {
        if let Some(row) = rows.get(Table::PhysicalPort, id) {
            if let Some(name) = port_name(row) {
                ports.put(name, id)?;
            }
        }
    }
    Ok(ports)
}

/// The tunnel address, or 0.0.0.0 where the rows have none.
pub(crate) fn own_ip(rows: &Rows) -> Ipv4
    ensures { result ≡ own_ip rows.now }
{
    own_address(rows).unwrap_or(Ipv4::from_bits(0))
}

impl Peer {
    /// The gateway of these rows.
    pub(crate) fn of(alloc: Global, rows: &Rows) -> Result<Peer, OutOfMemory>
        ensures { IfOk result (λ peer. peer ≡ peer_in rows.now) }
    {
        Ok(Peer {
            ip: own_ip(rows),
            ports: ports_in(alloc, rows)?,
        })
    }

    /// Its address.
    pub(crate) fn ip(&self) -> Ipv4
        ensures { result ≡ self.now.ip }
    {
        self.ip
    }

    /// Its ports by name, each with the identifier of its row.
    pub(crate) fn ports(&self) -> Walk<'_, Name, RowId>
        ensures rest { result ≡ self.now.ports.list }
        ensures runs { ShowsInOrder (deref_pair {K = Name} {X = ℕ}) }
        ensures fits { length result < 2 ^ 63 }
    {
        self.ports.walk(None)
    }
}

impl Peers {
    /// No gateway.
    pub(crate) fn new(alloc: Global) -> Peers
        ensures { result ≡ maps.empty }
    {
        Peers {
            by_name: Ordered::new(alloc),
        }
    }

    /// Adds a gateway. After an `Err` all is as it was.
    pub(crate) fn put(&mut self, name: Name, peer: Peer) -> Result<(), OutOfMemory>
        ensures ok { OnOk result (self.new ≡ maps.insert self.old name peer) }
        ensures err { OnErr result (self.new ≡ self.old) }
    {
        self.by_name.put(name, peer)?;
        Ok(())
    }

    /// The gateway of this name.
    pub(crate) fn find(&self, name: &Name) -> Option<&Peer>
        ensures { option_map (λ peer. peer.now) result ≡ maps.get self.now name.now }
    {
        self.by_name.find(name)
    }

    /// All of them by name.
    pub(crate) fn walk(&self) -> Walk<'_, Name, Peer>
        ensures rest { result ≡ self.now.list }
        ensures runs { ShowsInOrder (deref_pair {K = Name} {X = Peer}) }
        ensures fits { length result < 2 ^ 63 }
    {
        self.by_name.walk(None)
    }
}
