//! How the forwarding state follows a change: the places of what was in the rows are emptied, then
//! what is in them is put, then the ACLs that the change touches, and last the learnt list is asked
//! for each address that it may concern.

ghost use Rattle.std.specs.Prelude.{◌≡◌, ◌&&◌, ◌==◌, ℕ, List, [], ◌∷◌, true, false, Some, filter_map, flat_map, option_map, IfSome, OnOk};
ghost use Rattle.std.specs.List.{list_all, list_any};
ghost use Rattle.std.specs.Option.{option_to_list};
ghost use Rattle.vtep_schema.specs.Tables.{same_table};
ghost use Rattle.vtep_rows.specs.Row.{Contents, id_in, ids_at, put_all};
ghost use Rattle.vtep_rows.specs.Rows.{Rows as AllRows, IsRows};
ghost use Rattle.vtep_rows.specs.Sound.{Sound};
ghost use Rattle.vtep_rows.specs.Changes.{changes};
ghost use Rattle.forward_program.specs.declared.spots.Spot.{Spot as Place};
ghost use Rattle.forward_program.specs.declared.spots.Spot.TheVariants as spot;
ghost use Rattle.forward_program.specs.declared.spots.Part.TheVariants as part;
ghost use Rattle.forward_program.specs.Readings.{own_address, number_and_id, is_vlan};
ghost use Rattle.forward_program.specs.Built.{IsIn};
ghost use Rattle.forward_program.specs.Shown.{pair_entries, row_entries, shown};
ghost use Rattle.forward_program.specs.Follows.{entries_if, entries_before, entries_after, was_row, places, both_of, port_places, IsBound, IsCleared, is_of_acl, acl_tail, gone_acl, without, has_row, is_touched, touched_entry, touched_entries, acls_followed, AreMoved, tunnel_ip, moves_own};
ghost use Rattle.mac_learning.specs.declared.Learnt.{Learnt as Entry};
ghost use Rattle.mac_learning.specs.Learning.{IsOnce};
ghost use Rattle.forward_program.specs.Same.{same_number};

use crate::fib::Fib;
use crate::readings::{
    atoms, bound_to, ip, other_address, port_name, read_group, read_remote, tunnel_key,
    vlan_and_switch, vlan_pairs,
};
use crate::spots::{Part, Spot};
use mac_learning::{Learned, Learnt};
use ovsdb_values::Atom;
use std::alloc::Global;
use vtep_base::{Ipv4, Ledger, Name, OutOfMemory, RowId, Steps, Vlan};
use vtep_rows::{Row, RowChange, Rows};
use vtep_schema::{Column, Table};

// ---- the gateway's own address

fn ip_if(row: Option<&Row>) -> Option<Ipv4>
    ensures { result ≡ tunnel_ip (option_map (λ row. row.now) row.entry) }
{
    ip(row?, Column::SwitchTunnelIps)
}

fn same_ip(old: Option<Ipv4>, new: Option<Ipv4>) -> bool
    ensures { result ≡ same_number old new }
{
    match old {
        None => new.is_none(),
        Some(old) => match new {
            None => false,
            Some(new) => old == new,
        },
    }
}

fn moves(change: &RowChange) -> bool
    ensures { result ≡ moves_own change.now }
{
    change.table == Table::PhysicalSwitch
        && !same_ip(ip_if(change.old.as_ref()), ip_if(change.new.as_ref()))
}

/// Whether a row of Physical_Switch has another address than it had.
pub(crate) fn moves_own(change: &[RowChange]) -> bool
    ensures { result ≡ list_any moves_own change.now }
{
    change.iter().any(moves)
}

// ---- the places of rows of other tables than Physical_Port: two at most

type Spots = (Option<Spot>, Option<Spot>);

fn switch_spots(id: RowId, row: &Row) -> Spots
    ensures { (own : ℕ) → both_of result
        ≡ places (row_entries own Table.LogicalSwitch (id, row.now)) }
{
    let network = match tunnel_key(row) {
        Some(vni) => Some(Spot::Vni(vni)),
        None => None,
    };
    (Some(Spot::Switch(id, Part::Itself)), network)
}

fn remote_spot(row: &Row) -> Option<Spot>
    ensures { (own id : ℕ) → option_to_list result
        ≡ places (row_entries own Table.UcastMacsRemote (id, row.now)) }
{
    let remote = read_remote(row)?;
    Some(Spot::Switch(remote.switch, Part::Host(remote.mac)))
}

fn group_spot(row: &Row) -> Option<Spot>
    ensures { (own id : ℕ) → option_to_list result
        ≡ places (row_entries own Table.McastMacsRemote (id, row.now)) }
{
    let group = read_group(row)?;
    Some(Spot::Switch(group.switch, Part::Group(group.group)))
}

fn locator_spot(own: Ipv4, id: RowId, row: &Row) -> Option<Spot>
    ensures { option_to_list result
        ≡ places (row_entries own Table.PhysicalLocator (id, row.now)) }
{
    match other_address(row, own) {
        Some(_) => Some(Spot::Locator(id)),
        None => None,
    }
}

fn spots_of(own: Ipv4, table: Table, id: RowId, row: &Row) -> Spots
    requires { same_table table Table.PhysicalPort ≡ false }
    ensures { both_of result ≡ places (row_entries own table (id, row.now)) }
{
    match table {
        Table::LogicalSwitch => switch_spots(id, row),
        Table::UcastMacsRemote => (remote_spot(row), None),
        Table::McastMacsRemote => (group_spot(row), None),
        Table::PhysicalLocatorSet => (Some(Spot::Set(id)), None),
        Table::PhysicalLocator => (locator_spot(own, id, row), None),
        _ => (None, None),
    }
}

fn spots_if(own: Ipv4, table: Table, id: RowId, row: Option<&Row>) -> Spots
    requires { same_table table Table.PhysicalPort ≡ false }
    ensures { both_of result
        ≡ places (entries_if own table id (option_map (λ row. row.now) row.entry)) }
{
    match row {
        Some(row) => spots_of(own, table, id, row),
        None => (None, None),
    }
}

fn is_at(spot: &Spot, other: &Option<Spot>) -> bool
    ensures { result ≡ true → IsIn spot.now (option_to_list other.now) }
{
    match other {
        Some(other) => spot == other,
        None => false,
    }
}

fn stays(spot: &Spot, new: &Spots) -> bool
    ensures { result ≡ true → IsIn spot.now (both_of new.now) }
{
    if is_at(spot, &new.0) {
        return true;
    }
    is_at(spot, &new.1)
}

// ---- ACLs

fn is_of_acl(change: &RowChange) -> bool
    ensures { result ≡ is_of_acl change.now }
{
    change.table == Table::Acl || change.table == Table::AclEntry
}

/// The change from its first row of an ACL or of an entry on.
fn acl_tail(change: &[RowChange]) -> &[RowChange]
    ensures { result.now ≡ acl_tail change.now }
{
    'change: for (at, row) in change.iter().enumerate() {
        if is_of_acl(row) {
            let (_, tail) = change.split_at(at);
            return tail;
        }
    }
    &[]
}

fn is_row(change: &RowChange, table: Table, id: RowId) -> bool
    ensures { result ≡ same_table change.now.table table && (change.now.id == id) }
{
    change.table == table && change.id == id
}

fn has_row(change: &[RowChange], table: Table, id: RowId) -> bool
    ensures { result ≡ has_row change.now table id }
{
    change.iter().any(|row| is_row(row, table, id))
}

/// Whether an atom names an entry whose row is in a change.
fn has_entry(change: &[RowChange], atom: &Atom) -> bool
    ensures { result ≡ list_any (has_row change.now Table.AclEntry)
        (option_to_list (id_in atom.now)) }
{
    match atom {
        Atom::Id(id) => has_row(change, Table::AclEntry, *id),
        _ => false,
    }
}

fn has_some_entry(change: &[RowChange], atoms: &[Atom]) -> bool
    ensures { result ≡ list_any (λ atom. list_any (has_row change.now Table.AclEntry)
        (option_to_list (id_in atom))) atoms.now }
{
    atoms.iter().any(|atom| has_entry(change, atom))
}

/// Whether a change has the row of an entry of an ACL.
fn has_its_entry(change: &[RowChange], row: &Row) -> bool
    ensures { result ≡ list_any (has_row change.now Table.AclEntry)
        (ids_at row.now Column.AclEntries) }
{
    has_some_entry(change, atoms(row, Column::AclEntries))
}

/// Whether a change has the row of an ACL, or that of one of its entries.
fn is_touched(change: &[RowChange], id: RowId, row: &Row) -> bool
    ensures { result ≡ is_touched change.now (id, row.now) }
{
    has_row(change, Table::Acl, id) || has_its_entry(change, row)
}

fn gone_acl(change: &RowChange) -> Option<Spot>
    ensures { result ≡ gone_acl change.now }
{
    if change.table == Table::Acl && change.new.is_none() {
        Some(Spot::Acl(change.id))
    } else {
        None
    }
}

// ---- the bindings of a port

fn is_some(bound: Option<RowId>, switch: RowId) -> bool
    ensures { result ≡ true → bound ≡ Some switch }
{
    match bound {
        Some(other) => other == switch,
        None => false,
    }
}

fn bound_if(row: Option<&Row>, port: Name, vlan: Vlan) -> Option<RowId>
    ensures { IfSome result (λ switch. IsBound (option_map (λ row. row.now) row.entry)
        (spot.Port port vlan) (spot.Switch switch (part.Member port vlan))) }
{
    bound_to(row?, port, vlan)
}

impl<L: Ledger> Fib<L> {
    /// Empties a place, unless it stays.
    fn clear_spot(&mut self, spot: &Spot, stays: bool, steps: &mut Steps<L>)
        ensures cleared { (staying : List Place) → (stays ≡ true → IsIn spot.now staying)
            → IsCleared self.old.entries self.new.entries (spot.now ∷ []) staying }
        ensures same { self.new.broken ≡ self.old.broken }
    {
        if stays {
            return;
        }
        self.remove(spot, steps);
    }

    fn clear_if(&mut self, spot: &Option<Spot>, new: &Spots, steps: &mut Steps<L>)
        ensures cleared { IsCleared self.old.entries self.new.entries (option_to_list spot.now)
            (both_of new.now) }
        ensures same { self.new.broken ≡ self.old.broken }
    {
        let Some(spot) = spot else {
            return;
        };
        self.clear_spot(spot, stays(spot, new), steps);
    }

    fn clear_spots(&mut self, old: &Spots, new: &Spots, steps: &mut Steps<L>)
        ensures cleared { IsCleared self.old.entries self.new.entries (both_of old.now)
            (both_of new.now) }
        ensures same { self.new.broken ≡ self.old.broken }
    {
        self.clear_if(&old.0, new, steps);
        self.clear_if(&old.1, new, steps);
    }

    fn clear_pair(
        &mut self,
        port: Name,
        pair: &(Atom, Atom),
        new: Option<&Row>,
        steps: &mut Steps<L>,
    )
        requires { is_vlan pair.now ≡ true }
        ensures cleared { (row : Contents) → IsCleared self.old.entries self.new.entries
            (places (pair_entries port row (number_and_id pair.now)))
            (port_places (option_map (λ row. row.now) new.entry)) }
        ensures same { self.new.broken ≡ self.old.broken }
    {
        let Some(bound) = vlan_and_switch(pair) else {
            return;
        };
        let (vlan, switch) = bound;
        let after = bound_if(new, port, vlan);
        let member = Spot::Switch(switch, Part::Member(port, vlan));
        self.clear_spot(&Spot::Port(port, vlan), after.is_some(), steps);
        self.clear_spot(&member, is_some(after, switch), steps);
    }

    fn clear_pairs(
        &mut self,
        port: Name,
        pairs: &[(Atom, Atom)],
        new: Option<&Row>,
        steps: &mut Steps<L>,
    )
        requires { list_all is_vlan pairs.now ≡ true }
        ensures cleared { (row : Contents) → IsCleared self.old.entries self.new.entries
            (places (flat_map (λ p. pair_entries port row (number_and_id p)) pairs.now))
            (port_places (option_map (λ row. row.now) new.entry)) }
        ensures same { self.new.broken ≡ self.old.broken }
    {
        'pairs: for pair in pairs {
            self.clear_pair(port, pair, new, steps);
        }
    }

    fn clear_port(&mut self, old: &Row, new: Option<&Row>, steps: &mut Steps<L>)
        ensures cleared { (own id : ℕ) → IsCleared self.old.entries self.new.entries
            (places (row_entries own Table.PhysicalPort (id, old.now)))
            (port_places (option_map (λ row. row.now) new.entry)) }
        ensures same { self.new.broken ≡ self.old.broken }
    {
        let Some(port) = port_name(old) else {
            return;
        };
        self.clear_pairs(port, vlan_pairs(old), new, steps);
    }

    /// Empties the places that a row had and has no longer.
    fn clear_row(&mut self, own: Ipv4, change: &RowChange, steps: &mut Steps<L>)
        ensures row { was_row change.now.old ≡ true }
        ensures cleared { IsCleared self.old.entries self.new.entries
            (places (entries_if own change.now.table change.now.id change.now.old))
            (places (entries_if own change.now.table change.now.id change.now.new)) }
        ensures same { self.new.broken ≡ self.old.broken }
    {
        let Some(old) = &change.old else {
            return;
        };
        let new = change.new.as_ref();
        // It says that it is a row of its table.
        let _ = old.table();
        if change.table == Table::PhysicalPort {
            self.clear_port(old, new, steps);
            return;
        }
        let gone = spots_of(own, change.table, change.id, old);
        let staying = spots_if(own, change.table, change.id, new);
        self.clear_spots(&gone, &staying, steps);
    }

    fn clear_rows(&mut self, own: Ipv4, change: &[RowChange], steps: &mut Steps<L>)
        ensures rows { list_all (λ c. was_row c.old) change.now ≡ true }
        ensures cleared { IsCleared self.old.entries self.new.entries
            (places (entries_before own change.now)) (places (entries_after own change.now)) }
        ensures same { self.new.broken ≡ self.old.broken }
    {
        'change: for row in change {
            self.clear_row(own, row, steps);
        }
    }

    fn put_after(
        &mut self,
        alloc: Global,
        own: Ipv4,
        change: &RowChange,
        steps: &mut Steps<L>,
    ) -> Result<(), OutOfMemory>
        ensures ok { OnOk result (self.new.entries ≡ put_all self.old.entries
            (entries_if own change.now.table change.now.id change.now.new)) }
        ensures same { self.new.broken ≡ self.old.broken }
    {
        match &change.new {
            Some(row) => self.put_row(alloc, own, change.table, change.id, row, steps),
            None => Ok(()),
        }
    }

    fn put_rows(
        &mut self,
        alloc: Global,
        own: Ipv4,
        change: &[RowChange],
        steps: &mut Steps<L>,
    ) -> Result<(), OutOfMemory>
        ensures ok { OnOk result (self.new.entries
            ≡ put_all self.old.entries (entries_after own change.now)) }
        ensures same { self.new.broken ≡ self.old.broken }
    {
        'change: for row in change {
            self.put_after(alloc, own, row, steps)?;
        }
        Ok(())
    }

    fn clear_acl(&mut self, change: &RowChange, steps: &mut Steps<L>)
        ensures entries { self.new.entries
            ≡ without self.old.entries (option_to_list (gone_acl change.now)) }
        ensures same { self.new.broken ≡ self.old.broken }
    {
        if let Some(spot) = gone_acl(change) {
            self.remove(&spot, steps);
        }
    }

    /// Removes the ACLs that are no longer there.
    fn clear_acls(&mut self, change: &[RowChange], steps: &mut Steps<L>)
        ensures entries { self.new.entries
            ≡ without self.old.entries (filter_map gone_acl change.now) }
        ensures same { self.new.broken ≡ self.old.broken }
    {
        'change: for row in change {
            self.clear_acl(row, steps);
        }
    }

    fn put_if_touched(
        &mut self,
        alloc: Global,
        rows: &Rows,
        change: &[RowChange],
        id: RowId,
        row: &Row,
        steps: &mut Steps<L>,
    ) -> Result<(), OutOfMemory>
        ensures ok { OnOk result (self.new.entries ≡ put_all self.old.entries
            (touched_entry rows.now change.now (id, row.now))) }
        ensures same { self.new.broken ≡ self.old.broken }
    {
        if !is_touched(change, id, row) {
            return Ok(());
        }
        self.put_acl(alloc, rows, id, row, steps)
    }

    fn put_touched(
        &mut self,
        alloc: Global,
        rows: &Rows,
        change: &[RowChange],
        steps: &mut Steps<L>,
    ) -> Result<(), OutOfMemory>
        ensures ok { OnOk result (self.new.entries
            ≡ put_all self.old.entries (touched_entries rows.now change.now)) }
        ensures same { self.new.broken ≡ self.old.broken }
    {
        'acls: for id in rows.ids(Table::Acl) {
            if let Some(row) = rows.get(Table::Acl, id) {
                self.put_if_touched(alloc, rows, change, id, row, steps)?;
            }
        }
        Ok(())
    }

    /// Removes the ACLs that are no longer there, and puts those that a change touches.
    fn follow_acls(
        &mut self,
        alloc: Global,
        rows: &Rows,
        change: &[RowChange],
        steps: &mut Steps<L>,
    ) -> Result<(), OutOfMemory>
        ensures ok { OnOk result
            (self.new.entries ≡ acls_followed rows.now change.now self.old.entries) }
        ensures same { self.new.broken ≡ self.old.broken }
    {
        if change.is_empty() {
            return Ok(());
        }
        self.clear_acls(change, steps);
        self.put_touched(alloc, rows, change, steps)
    }

    /// Makes it the state after a change that keeps the gateway's own address. What a remote row
    /// had is put anew before the learnt list is asked for its address.
    pub(crate) fn follow(
        &mut self,
        alloc: Global,
        own: Ipv4,
        rows: &Rows,
        learned: &Learned,
        change: &[RowChange],
        moved: &[Learnt],
        steps: &mut Steps<L>,
    ) -> Result<(), OutOfMemory>
        requires rows { IsRows rows.now }
        requires sound { Sound rows.now }
        requires own { own_address rows.now ≡ Some own }
        requires keeps { list_any moves_own change.now ≡ false }
        requires once { IsOnce learned.now.entries }
        ensures state { (before : AllRows) → (known : List Entry) → Sound before
            → IsOnce known → change.now ≡ changes before rows.now
            → AreMoved known learned.now.entries moved.now
            → self.old.entries ≡ shown before known
            → OnOk result (self.new.entries ≡ shown rows.now learned.now.entries) }
        ensures same { self.new.broken ≡ self.old.broken }
    {
        self.clear_rows(own, change, steps);
        self.put_rows(alloc, own, change, steps)?;
        self.follow_acls(alloc, rows, acl_tail(change), steps)?;
        self.ask_all(learned, change, moved, steps)
    }
}
