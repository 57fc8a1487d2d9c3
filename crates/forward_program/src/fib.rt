//! The forwarding state.

ghost use Rattle.std.specs.Prelude.{◌≡◌, ◌≤◌, ◌+◌, ◌++◌, ℕ, List, [], ◌∷◌, false, true, None, ◌↔◌, length, vec_len, filter_map, flat_map, IsSome, IfOk, OnOk, OnErr};
ghost use Rattle.std.specs.List.{list_all};
ghost use Rattle.std.specs.Option.{option_to_list};
ghost use Rattle.vtep_base.specs.Maps as maps;
ghost use Rattle.vtep_rows.specs.Row.{put_all, ids_at, id_in, first};
ghost use Rattle.vtep_rows.specs.Rows.{Rows as AllRows};
ghost use Rattle.forward_program.specs.declared.facts.Fact.{Fact};
ghost use Rattle.forward_program.specs.Built.{IsIn, built};
ghost use Rattle.forward_program.specs.Joins.{facts_of};
ghost use Rattle.vtep_rows.specs.Sound.{Sound};
ghost use Rattle.vtep_rows.specs.Changes.{changes};
ghost use Rattle.forward_program.specs.Readings.{own_address, number_and_id, is_vlan};
ghost use Rattle.forward_program.specs.Shown.{binding_entries, pair_entries, vni_entries, row_entries, table_entries, forward_tables, all_entries, acl_entry, with_acls, shown};
ghost use Rattle.forward_program.specs.Hosts.{with_learnt};
ghost use Rattle.forward_program.specs.Follows.{AreMoved};
ghost use Rattle.mac_learning.specs.declared.Learnt.{Learnt as Entry};
ghost use Rattle.mac_learning.specs.Learning.{IsOnce};

use crate::acls::rules;
use crate::follow::moves_own;
use crate::held::{Few, Held, Lists};
use crate::readings::{
    atoms, lists, mode, other_address, own_address, port_name, read_group, read_remote, tunnel_key,
    vlan_and_switch, vlan_pairs,
};
use crate::spots::{Part, Spot};
use mac_learning::{Learned, Learnt};
use ovsdb_values::Atom;
use std::alloc::Global;
use std::marker::Model;
use vtep_base::{Counted, Ipv4, Ledger, Name, OutOfMemory, RowId, Steps, Vlan, Vni};
use vtep_rows::{Change, Row, RowChange, Rows};
use vtep_schema::{Column, Table};

/// The forwarding state of a gateway. Contracts see its entries, and whether want of memory broke
/// it.
#[derive(Drop)]
pub struct Fib<L: Ledger> {
    pub(crate) entries: Counted<L, Spot, Held>,
    broken: bool,
}

impl<L: Ledger> Model for Fib<L> {
    ghost use Rattle.vtep_base.specs.Maps as maps;
    ghost use Rattle.forward_program.specs.Spots.{State, state_code};

    ghost Value = { State };

    ghost coded = { state_code };

    ghost view = { λ f. record { entries = maps.of_list f.entries; broken = f.broken } };
}

/// The tables that the forwarding state is made of, but for that of the ACLs.
const TABLES: [Table; 6] = [
    Table::PhysicalPort,
    Table::LogicalSwitch,
    Table::UcastMacsRemote,
    Table::McastMacsRemote,
    Table::PhysicalLocatorSet,
    Table::PhysicalLocator,
];

fn push_id(ids: &mut Vec<RowId>, atom: &Atom) -> Result<(), OutOfMemory>
    ensures items { OnOk result (ids.new.items
        ≡ ids.old.items ++ option_to_list (id_in atom.now)) }
    ensures len { OnOk result (vec_len ids.new ≤ vec_len ids.old + 1) }
{
    if let Atom::Id(id) = atom {
        ids.push(*id)?;
    }
    Ok(())
}

fn few_ids(alloc: Global, atoms: &[Atom]) -> Result<Few<RowId>, OutOfMemory>
    requires { length atoms.now ≤ 64 }
    ensures { IfOk result (λ ids. ids ≡ filter_map id_in atoms.now) }
{
    let mut ids = Vec::with_capacity(alloc, atoms.len())?;
    'atoms: for atom in atoms {
        push_id(&mut ids, atom)?;
    }
    Ok(Few::new(ids))
}

/// The locators of a set.
fn locators(alloc: Global, row: &Row) -> Result<Few<RowId>, OutOfMemory>
    ensures { IfOk result (λ ids. ids ≡ ids_at row.now Column.SetLocators) }
{
    // It says that it is a row of its table.
    let _ = row.table();
    few_ids(alloc, atoms(row, Column::SetLocators))
}

impl<L: Ledger> Fib<L> {
    /// No entry, and not broken. Takes no memory.
    pub fn new(alloc: Global) -> Fib<L>
        ensures { result ≡ record { entries = maps.empty; broken = false } }
    {
        Fib {
            entries: Counted::new(alloc),
            broken: false,
        }
    }

    /// Whether want of memory broke it.
    pub fn broken(&self) -> bool
        ensures { result ≡ self.now.broken }
    {
        self.broken
    }

    pub(crate) fn put(
        &mut self,
        spot: Spot,
        held: Held,
        steps: &mut Steps<L>,
    ) -> Result<(), OutOfMemory>
        ensures ok { OnOk result (self.new.entries ≡ maps.insert self.old.entries spot held) }
        ensures same { self.new.broken ≡ self.old.broken }
    {
        self.entries.put(spot, held, steps)?;
        Ok(())
    }

    fn holds(&self, spot: &Spot, held: &Held) -> bool
        ensures { result ≡ true → maps.get self.now.entries spot.now ≡ Some held.now }
    {
        match self.entries.find(spot) {
            Some(there) => there.same_binding(held),
            None => false,
        }
    }

    /// Puts what is not there already, at a place of a binding.
    fn put_new(&mut self, spot: Spot, held: Held, steps: &mut Steps<L>) -> Result<(), OutOfMemory>
        ensures ok { OnOk result (self.new.entries ≡ maps.insert self.old.entries spot held) }
        ensures same { self.new.broken ≡ self.old.broken }
    {
        if self.holds(&spot, &held) {
            return Ok(());
        }
        self.put(spot, held, steps)
    }

    fn put_binding(
        &mut self,
        port: Name,
        bound: (Vlan, RowId),
        lists: Lists,
        steps: &mut Steps<L>,
    ) -> Result<(), OutOfMemory>
        ensures ok { OnOk result (self.new.entries
            ≡ put_all self.old.entries (binding_entries
            (record { port = port; vlan = bound.0; switch = bound.1; lists = lists }))) }
        ensures same { self.new.broken ≡ self.old.broken }
    {
        let (vlan, switch) = bound;
        self.put_new(Spot::Port(port, vlan), Held::Bound { switch, lists }, steps)?;
        self.put_new(
            Spot::Switch(switch, Part::Member(port, vlan)),
            Held::Lists(lists),
            steps,
        )
    }

    fn put_pair(
        &mut self,
        port: Name,
        row: &Row,
        pair: &(Atom, Atom),
        steps: &mut Steps<L>,
    ) -> Result<(), OutOfMemory>
        requires { is_vlan pair.now ≡ true }
        ensures ok { OnOk result (self.new.entries
            ≡ put_all self.old.entries (pair_entries port row.now (number_and_id pair.now))) }
        ensures same { self.new.broken ≡ self.old.broken }
    {
        match vlan_and_switch(pair) {
            Some(bound) => self.put_binding(port, bound, lists(row, bound.0), steps),
            None => Ok(()),
        }
    }

    fn put_pairs(
        &mut self,
        port: Name,
        row: &Row,
        pairs: &[(Atom, Atom)],
        steps: &mut Steps<L>,
    ) -> Result<(), OutOfMemory>
        requires { list_all is_vlan pairs.now ≡ true }
        ensures ok { OnOk result (self.new.entries
            ≡ put_all self.old.entries
            (flat_map (λ p. pair_entries port row.now (number_and_id p)) pairs.now)) }
        ensures same { self.new.broken ≡ self.old.broken }
    {
        'pairs: for pair in pairs {
            self.put_pair(port, row, pair, steps)?;
        }
        Ok(())
    }

    fn put_port(&mut self, id: RowId, row: &Row, steps: &mut Steps<L>) -> Result<(), OutOfMemory>
        ensures ok { (own : ℕ) → OnOk result (self.new.entries
            ≡ put_all self.old.entries (row_entries own Table.PhysicalPort (id, row.now))) }
        ensures same { self.new.broken ≡ self.old.broken }
    {
        let Some(port) = port_name(row) else {
            return Ok(());
        };
        self.put_pairs(port, row, vlan_pairs(row), steps)
    }

    fn put_switch(&mut self, id: RowId, row: &Row, steps: &mut Steps<L>) -> Result<(), OutOfMemory>
        ensures ok { (own : ℕ) → OnOk result (self.new.entries
            ≡ put_all self.old.entries (row_entries own Table.LogicalSwitch (id, row.now))) }
        ensures same { self.new.broken ≡ self.old.broken }
    {
        let held = Held::Switch {
            vni: tunnel_key(row),
            mode: mode(row),
        };
        self.put(Spot::Switch(id, Part::Itself), held, steps)?;
        self.put_vni(id, tunnel_key(row), steps)
    }

    fn put_vni(
        &mut self,
        id: RowId,
        vni: Option<Vni>,
        steps: &mut Steps<L>,
    ) -> Result<(), OutOfMemory>
        ensures ok { OnOk result (self.new.entries
            ≡ put_all self.old.entries (vni_entries id vni)) }
        ensures same { self.new.broken ≡ self.old.broken }
    {
        match vni {
            Some(vni) => self.put(Spot::Vni(vni), Held::Of(id), steps),
            None => Ok(()),
        }
    }

    fn put_remote(&mut self, id: RowId, row: &Row, steps: &mut Steps<L>) -> Result<(), OutOfMemory>
        ensures ok { (own : ℕ) → OnOk result (self.new.entries
            ≡ put_all self.old.entries (row_entries own Table.UcastMacsRemote (id, row.now))) }
        ensures same { self.new.broken ≡ self.old.broken }
    {
        let Some(remote) = read_remote(row) else {
            return Ok(());
        };
        let held = Held::Host {
            here: None,
            there: Some(remote.locator),
        };
        self.put(
            Spot::Switch(remote.switch, Part::Host(remote.mac)),
            held,
            steps,
        )
    }

    fn put_group(&mut self, id: RowId, row: &Row, steps: &mut Steps<L>) -> Result<(), OutOfMemory>
        ensures ok { (own : ℕ) → OnOk result (self.new.entries
            ≡ put_all self.old.entries (row_entries own Table.McastMacsRemote (id, row.now))) }
        ensures same { self.new.broken ≡ self.old.broken }
    {
        let Some(group) = read_group(row) else {
            return Ok(());
        };
        let spot = Spot::Switch(group.switch, Part::Group(group.group));
        self.put(spot, Held::Set(group.set), steps)
    }

    fn put_locator(
        &mut self,
        own: Ipv4,
        id: RowId,
        row: &Row,
        steps: &mut Steps<L>,
    ) -> Result<(), OutOfMemory>
        ensures ok { OnOk result (self.new.entries
            ≡ put_all self.old.entries (row_entries own Table.PhysicalLocator (id, row.now))) }
        ensures same { self.new.broken ≡ self.old.broken }
    {
        match other_address(row, own) {
            Some(ip) => self.put(Spot::Locator(id), Held::Address(ip), steps),
            None => Ok(()),
        }
    }

    fn put_set(
        &mut self,
        alloc: Global,
        id: RowId,
        row: &Row,
        steps: &mut Steps<L>,
    ) -> Result<(), OutOfMemory>
        ensures ok { (own : ℕ) → OnOk result (self.new.entries
            ≡ put_all self.old.entries (row_entries own Table.PhysicalLocatorSet (id, row.now))) }
        ensures same { self.new.broken ≡ self.old.broken }
    {
        let locators = locators(alloc, row)?;
        self.put(Spot::Set(id), Held::Members(locators), steps)
    }

    /// What a row has in the forwarding state.
    pub(crate) fn put_row(
        &mut self,
        alloc: Global,
        own: Ipv4,
        table: Table,
        id: RowId,
        row: &Row,
        steps: &mut Steps<L>,
    ) -> Result<(), OutOfMemory>
        ensures ok { OnOk result (self.new.entries
            ≡ put_all self.old.entries (row_entries own table (id, row.now))) }
        ensures same { self.new.broken ≡ self.old.broken }
    {
        match table {
            Table::PhysicalPort => self.put_port(id, row, steps),
            Table::LogicalSwitch => self.put_switch(id, row, steps),
            Table::UcastMacsRemote => self.put_remote(id, row, steps),
            Table::McastMacsRemote => self.put_group(id, row, steps),
            Table::PhysicalLocatorSet => self.put_set(alloc, id, row, steps),
            Table::PhysicalLocator => self.put_locator(own, id, row, steps),
            _ => Ok(()),
        }
    }

    fn put_table(
        &mut self,
        alloc: Global,
        own: Ipv4,
        table: Table,
        rows: &Rows,
        steps: &mut Steps<L>,
    ) -> Result<(), OutOfMemory>
        requires { own_address rows.now ≡ Some own }
        ensures ok { OnOk result (self.new.entries
            ≡ put_all self.old.entries (table_entries rows.now table)) }
        ensures same { self.new.broken ≡ self.old.broken }
    {
        'ids: for id in rows.ids(table) {
            if let Some(row) = rows.get(table, id) {
                self.put_row(alloc, own, table, id, row, steps)?;
            }
        }
        Ok(())
    }

    fn fill(&mut self, alloc: Global, rows: &Rows, steps: &mut Steps<L>) -> Result<(), OutOfMemory>
        requires { IsSome (own_address rows.now) }
        ensures ok { OnOk result (self.new.entries
            ≡ put_all self.old.entries (all_entries rows.now)) }
        ensures same { self.new.broken ≡ self.old.broken }
    {
        let Some(own) = own_address(rows) else {
            return Ok(());
        };
        'tables: for table in &TABLES {
            self.put_table(alloc, own, *table, rows, steps)?;
        }
        Ok(())
    }

    /// Puts an ACL.
    pub(crate) fn put_acl(
        &mut self,
        alloc: Global,
        rows: &Rows,
        id: RowId,
        row: &Row,
        steps: &mut Steps<L>,
    ) -> Result<(), OutOfMemory>
        ensures ok { OnOk result (self.new.entries
            ≡ put_all self.old.entries (acl_entry rows.now (id, row.now) ∷ [])) }
        ensures same { self.new.broken ≡ self.old.broken }
    {
        let rules = rules(alloc, rows, row)?;
        self.put(Spot::Acl(id), Held::Rules(rules), steps)
    }

    fn put_acls(
        &mut self,
        alloc: Global,
        rows: &Rows,
        steps: &mut Steps<L>,
    ) -> Result<(), OutOfMemory>
        ensures ok { OnOk result (self.new.entries ≡ with_acls rows.now self.old.entries) }
        ensures same { self.new.broken ≡ self.old.broken }
    {
        'acls: for id in rows.ids(Table::Acl) {
            if let Some(row) = rows.get(Table::Acl, id) {
                self.put_acl(alloc, rows, id, row, steps)?;
            }
        }
        Ok(())
    }

    /// Adds what the rows and the learnt addresses have.
    fn fill_all(
        &mut self,
        alloc: Global,
        rows: &Rows,
        learned: &Learned,
        steps: &mut Steps<L>,
    ) -> Result<(), OutOfMemory>
        requires { IsSome (own_address rows.now) }
        ensures ok { OnOk result (self.new.entries ≡ with_learnt learned.now.entries
            (with_acls rows.now (put_all self.old.entries (all_entries rows.now)))) }
        ensures same { self.new.broken ≡ self.old.broken }
    {
        self.fill(alloc, rows, steps)?;
        self.put_acls(alloc, rows, steps)?;
        self.put_learnt(learned, steps)
    }

    fn first(&self) -> Option<Spot>
        ensures { result ≡ first (maps.keys self.now.entries) }
    {
        let (spot, _) = self.entries.walk(None).next()?;
        Some(*spot)
    }

    pub(crate) fn remove(&mut self, spot: &Spot, steps: &mut Steps<L>)
        ensures entries { self.new.entries ≡ maps.remove self.old.entries spot.now }
        ensures same { self.new.broken ≡ self.old.broken }
    {
        let _ = self.entries.remove(spot, steps);
    }

    fn clear(&mut self, steps: &mut Steps<L>)
        ensures entries { self.new.entries ≡ maps.empty }
        ensures same { self.new.broken ≡ self.old.broken }
    {
        'entries: while let Some(spot) = self.first() {
            self.remove(&spot, steps);
        }
    }

    fn set_broken(&mut self, broken: bool)
        ensures { self.new ≡ record self.old { broken = broken } }
    {
        self.broken = broken;
    }

    /// Makes it the state of these rows and learnt addresses, by what differs where the gateway's
    /// own address is what it was.
    fn lead(
        &mut self,
        alloc: Global,
        rows: &Rows,
        learned: &Learned,
        change: &[RowChange],
        moved: &[Learnt],
        steps: &mut Steps<L>,
    ) -> Result<(), OutOfMemory>
        requires sound { Sound rows.now }
        requires own { IsSome (own_address rows.now) }
        ensures state { (before : AllRows) → (known : List Entry) → Sound before → IsOnce known
            → change.now ≡ changes before rows.now
            → AreMoved known learned.now.entries moved.now
            → self.old.entries ≡ shown before known
            → OnOk result (self.new.entries ≡ shown rows.now learned.now.entries) }
        ensures same { self.new.broken ≡ self.old.broken }
    {
        // They say that each row is one of its table, and that each address is learnt once.
        let _ = rows.counter();
        let _ = learned.entries();
        if let Some(own) = own_address(rows) {
            if !moves_own(change) {
                return self.follow(alloc, own, rows, learned, change, moved, steps);
            }
        }
        self.clear(steps);
        self.fill_all(alloc, rows, learned, steps)
    }

    /// Follows a commit that led from some sound rows and learnt addresses, of which this is the
    /// state, to these, by this change of the rows. `moved` has the learnt addresses that came,
    /// went or moved. After an `Err` the state is broken.
    pub fn apply(
        &mut self,
        alloc: Global,
        rows: &Rows,
        learned: &Learned,
        change: &Change,
        moved: &[Learnt],
        steps: &mut Steps<L>,
    ) -> Result<(), OutOfMemory>
        requires going { self.old.broken ≡ false }
        requires sound { Sound rows.now }
        requires own { IsSome (own_address rows.now) }
        ensures state { (before : AllRows) → (known : List Entry) → Sound before → IsOnce known
            → change.now ≡ changes before rows.now
            → AreMoved known learned.now.entries moved.now
            → self.old.entries ≡ shown before known
            → OnOk result (self.new
            ≡ record { entries = shown rows.now learned.now.entries; broken = false }) }
        ensures broken { OnErr result (self.new.broken ≡ true) }
    {
        self.set_broken(true);
        self.lead(alloc, rows, learned, change.as_slice(), moved, steps)?;
        self.set_broken(false);
        Ok(())
    }
}

/// The forwarding state of sound rows with an own address, and of learnt addresses.
pub fn build<L: Ledger>(
    alloc: Global,
    rows: &Rows,
    learned: &Learned,
    steps: &mut Steps<L>,
) -> Result<Fib<L>, OutOfMemory>
    requires sound { Sound rows.now }
    requires own { IsSome (own_address rows.now) }
    ensures state { IfOk result (λ fib. fib
        ≡ record { entries = shown rows.now learned.now.entries; broken = false }) }
    // It says what is built from the rows and the learnt addresses.
    ensures built { IfOk result (λ fib. (f : Fact)
        → IsIn f (facts_of fib.entries) ↔ IsIn f (built rows.now learned.now.entries)) }
{
    // They say that each row is one of its table, and that each address is learnt once.
    let _ = rows.counter();
    let _ = learned.entries();
    let mut fib = Fib::new(alloc);
    fib.fill_all(alloc, rows, learned, steps)?;
    Ok(fib)
}
