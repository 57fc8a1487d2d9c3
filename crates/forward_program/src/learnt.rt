//! The places of learnt addresses in the forwarding state.

ghost use Rattle.std.specs.Prelude.{◌≡◌, ◌++◌, Some, map, flat_map, option_map, OnOk};
ghost use Rattle.vtep_base.specs.Maps as maps;
ghost use Rattle.forward_program.specs.Joins.{Port};
ghost use Rattle.forward_program.specs.Hosts.{host, learnt_port, there_in, learnt_at, forgotten_by, with_place, with_learnt};
ghost use Rattle.forward_program.specs.Follows.{learnt_address, remote_address, remote_addresses, asked};

use crate::fib::Fib;
use crate::held::Held;
use crate::readings::read_remote;
use crate::spots::{Part, Spot};
use mac_learning::{Learned, Learnt};
use vtep_base::{Ledger, Mac, Name, OutOfMemory, RowId, Steps, Vlan};
use vtep_rows::{Row, RowChange};
use vtep_schema::Table;

/// Where an address of a switch was learnt.
fn learnt_port(learned: &Learned, switch: RowId, mac: Mac) -> Option<(Name, Vlan)>
    ensures { result ≡ learnt_port learned.now.entries switch mac }
{
    match learned.find(switch, mac) {
        Some(entry) => Some((entry.port, entry.vlan)),
        None => None,
    }
}

impl<L: Ledger> Fib<L> {
    /// The locator of the remote row of an address.
    fn there(&self, spot: &Spot) -> Option<RowId>
        ensures { result ≡ there_in (maps.get self.now.entries spot.now) }
    {
        match self.entries.find(spot) {
            Some(Held::Host { there, .. }) => *there,
            _ => None,
        }
    }

    fn learn_at(
        &mut self,
        spot: Spot,
        port: (Name, Vlan),
        steps: &mut Steps<L>,
    ) -> Result<(), OutOfMemory>
        ensures ok { OnOk result (self.new.entries ≡ learnt_at self.old.entries spot port) }
        ensures same { self.new.broken ≡ self.old.broken }
    {
        let held = Held::Host {
            here: Some(port),
            there: self.there(&spot),
        };
        self.put(spot, held, steps)
    }

    /// Leaves what the rows say at the place of an address that was learnt.
    fn forget_here(
        &mut self,
        spot: Spot,
        there: Option<RowId>,
        steps: &mut Steps<L>,
    ) -> Result<(), OutOfMemory>
        ensures ok { (here : Port) → OnOk result (self.new.entries
            ≡ forgotten_by self.old.entries spot (Some (Held.Host (Some here) there))) }
        ensures same { self.new.broken ≡ self.old.broken }
    {
        let Some(locator) = there else {
            self.remove(&spot, steps);
            return Ok(());
        };
        let held = Held::Host {
            here: None,
            there: Some(locator),
        };
        self.put(spot, held, steps)
    }

    fn forget_at(&mut self, spot: Spot, steps: &mut Steps<L>) -> Result<(), OutOfMemory>
        ensures ok { OnOk result (self.new.entries
            ≡ forgotten_by self.old.entries spot (maps.get self.old.entries spot)) }
        ensures same { self.new.broken ≡ self.old.broken }
    {
        let there = match self.entries.find(&spot) {
            Some(
                Held::Host {
                    here: Some(_),
                    there,
                },
            ) => *there,
            _ => return Ok(()),
        };
        self.forget_here(spot, there, steps)
    }

    /// Says where an address is learnt, or that it is not.
    fn set_place(
        &mut self,
        spot: Spot,
        place: Option<(Name, Vlan)>,
        steps: &mut Steps<L>,
    ) -> Result<(), OutOfMemory>
        ensures ok { OnOk result (self.new.entries ≡ with_place self.old.entries spot place) }
        ensures same { self.new.broken ≡ self.old.broken }
    {
        match place {
            Some(port) => self.learn_at(spot, port, steps),
            None => self.forget_at(spot, steps),
        }
    }

    /// Asks the learnt list for an address.
    fn ask(
        &mut self,
        learned: &Learned,
        switch: RowId,
        mac: Mac,
        steps: &mut Steps<L>,
    ) -> Result<(), OutOfMemory>
        ensures ok { OnOk result (self.new.entries
            ≡ with_place self.old.entries (host switch mac)
            (learnt_port learned.now.entries switch mac)) }
        ensures same { self.new.broken ≡ self.old.broken }
    {
        let place = learnt_port(learned, switch, mac);
        self.set_place(Spot::Switch(switch, Part::Host(mac)), place, steps)
    }

    fn ask_row(
        &mut self,
        learned: &Learned,
        row: Option<&Row>,
        steps: &mut Steps<L>,
    ) -> Result<(), OutOfMemory>
        ensures ok { OnOk result (self.new.entries
            ≡ asked learned.now.entries (remote_address (option_map (λ row. row.now) row.entry))
            self.old.entries) }
        ensures same { self.new.broken ≡ self.old.broken }
    {
        let Some(row) = row else {
            return Ok(());
        };
        match read_remote(row) {
            Some(remote) => self.ask(learned, remote.switch, remote.mac, steps),
            None => Ok(()),
        }
    }

    fn ask_both(
        &mut self,
        learned: &Learned,
        change: &RowChange,
        steps: &mut Steps<L>,
    ) -> Result<(), OutOfMemory>
        ensures ok { OnOk result (self.new.entries ≡ asked learned.now.entries
            (remote_address change.now.old ++ remote_address change.now.new) self.old.entries) }
        ensures same { self.new.broken ≡ self.old.broken }
    {
        self.ask_row(learned, change.old.as_ref(), steps)?;
        self.ask_row(learned, change.new.as_ref(), steps)
    }

    fn ask_change(
        &mut self,
        learned: &Learned,
        change: &RowChange,
        steps: &mut Steps<L>,
    ) -> Result<(), OutOfMemory>
        ensures ok { OnOk result (self.new.entries
            ≡ asked learned.now.entries (remote_addresses change.now) self.old.entries) }
        ensures same { self.new.broken ≡ self.old.broken }
    {
        if change.table == Table::UcastMacsRemote {
            return self.ask_both(learned, change, steps);
        }
        Ok(())
    }

    fn ask_rows(
        &mut self,
        learned: &Learned,
        change: &[RowChange],
        steps: &mut Steps<L>,
    ) -> Result<(), OutOfMemory>
        ensures ok { OnOk result (self.new.entries ≡ asked learned.now.entries
            (flat_map remote_addresses change.now) self.old.entries) }
        ensures same { self.new.broken ≡ self.old.broken }
    {
        'change: for row in change {
            self.ask_change(learned, row, steps)?;
        }
        Ok(())
    }

    fn ask_moved(
        &mut self,
        learned: &Learned,
        moved: &[Learnt],
        steps: &mut Steps<L>,
    ) -> Result<(), OutOfMemory>
        ensures ok { OnOk result (self.new.entries
            ≡ asked learned.now.entries (map learnt_address moved.now) self.old.entries) }
        ensures same { self.new.broken ≡ self.old.broken }
    {
        'moved: for entry in moved {
            self.ask(learned, entry.switch, entry.mac, steps)?;
        }
        Ok(())
    }

    /// Asks the learnt list for each address that a change may concern.
    pub(crate) fn ask_all(
        &mut self,
        learned: &Learned,
        change: &[RowChange],
        moved: &[Learnt],
        steps: &mut Steps<L>,
    ) -> Result<(), OutOfMemory>
        ensures ok { OnOk result (self.new.entries ≡ asked learned.now.entries
            (flat_map remote_addresses change.now ++ map learnt_address moved.now)
            self.old.entries) }
        ensures same { self.new.broken ≡ self.old.broken }
    {
        self.ask_rows(learned, change, steps)?;
        self.ask_moved(learned, moved, steps)
    }

    /// Adds each learnt address.
    pub(crate) fn put_learnt(
        &mut self,
        learned: &Learned,
        steps: &mut Steps<L>,
    ) -> Result<(), OutOfMemory>
        ensures ok { OnOk result (self.new.entries
            ≡ with_learnt learned.now.entries self.old.entries) }
        ensures same { self.new.broken ≡ self.old.broken }
    {
        'entries: for entry in learned.entries() {
            let spot = Spot::Switch(entry.switch, Part::Host(entry.mac));
            self.learn_at(spot, (entry.port, entry.vlan), steps)?;
        }
        Ok(())
    }
}
