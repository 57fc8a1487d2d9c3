//! The tunnel end point of a gateway: what its sessions read and write, and what it learns.

ghost use Rattle.std.specs.Prelude.{◌≡◌, ◌++◌, [], ℕ, List as Listed, true, false, is_some, None, Some, IfOk, IfErr, IfSome, OnOk};
ghost use Rattle.vtep_base.specs.Maps as maps;
ghost use Rattle.vtep_base.specs.Texts.{is_name};
ghost use Rattle.vtep_base.specs.Answers.{OrMemory};
ghost use Rattle.vtep_rows.specs.Rows.{Rows as AllRows};
ghost use Rattle.vtep_rows.specs.Changes.{changes};
ghost use Rattle.mac_learning.specs.declared.Learnt.{Learnt as Entry};
ghost use Rattle.forward_program.specs.Follows.{AreMoved};
ghost use Rattle.local_tables.specs.Following.{without_all};
ghost use Rattle.vtep_gateway.specs.declared.EventRefused.TheVariants.{NoPort};
ghost use Rattle.vtep_gateway.specs.Commit.{changed};
ghost use Rattle.vtep_gateway.specs.CommitFaults.{refusal_of};
ghost use Rattle.vtep_gateway.specs.Vtep.{with_monitors};
ghost use Rattle.vtep_gateway.specs.Monitors.{told_all};
ghost use Rattle.vtep_gateway.specs.Ports.{port_named, port_refusal, with_port, without_port};
ghost use Rattle.vtep_gateway.specs.Good.{IsGood};
ghost use Rattle.vtep_gateway.specs.Ready.{fib_of};

use crate::Outgoing;
use crate::commit::{Kept, commit_unchecked};
use crate::frames::own_address;
use crate::monitors::Monitors;
use crate::ports::{PortFault, add_port, remove_port};
use forward_program::Fib;
use mac_learning::{Learned, Learnt};
use std::alloc::Global;
use std::marker::Model;
use vtep_base::{Ledger, List, Name, OutOfMemory, Steps};
use vtep_rows::{Change, Database, Rows};

/// A tunnel end point.
#[derive(Drop)]
pub(crate) struct Vtep {
    pub(crate) alloc: Global,
    pub(crate) name: Name,
    pub(crate) database: Database,
    pub(crate) learned: Learned,
    /// In seconds.
    pub(crate) clock: u64,
    pub(crate) monitors: Monitors,
}

impl Model for Vtep {
    ghost use Rattle.std.specs.Prelude.{◌≡◌};
    ghost use Rattle.vtep_gateway.specs.Vtep as vtep;
    ghost use Rattle.vtep_gateway.specs.Vtep.{vtep_code};
    ghost use Rattle.vtep_gateway.specs.Learning.{most_learnt};

    ghost Value = { vtep.Vtep };

    ghost coded = { vtep_code };

    ghost view = { λ v. record {
      name = v.name;
      rows = v.database.current;
      learned = v.learned.entries;
      clock = v.clock;
      monitors = v.monitors;
    } };

    ghost invariant = { λ v. v.learned.limit ≡ most_learnt };
}

impl Vtep {
    /// The rows.
    pub(crate) fn rows(&self) -> &Rows
        ensures { result.now ≡ self.now.rows }
    {
        self.database.rows()
    }

    /// Closes the monitors of a session.
    pub(crate) fn close_monitors(&mut self, session: u32)
        ensures { self.new ≡ with_monitors self.old (maps.remove self.old.monitors session) }
    {
        self.monitors.close(session);
    }

    /// Takes entries out of the learnt list. Takes no memory.
    fn evict(&mut self, gone: &[Learnt])
        ensures { self.new
            ≡ record self.old { learned = without_all gone.now self.old.learned } }
    {
        'gone: for entry in gone {
            self.learned.evict(entry.switch, entry.mac);
        }
    }

    /// The monitors are told of a change that led to the rows, and the forwarding state follows it and the addresses that came, went
    /// or moved.
    pub(crate) fn publish<L: Ledger>(
        &self,
        change: &Change,
        moved: &[Learnt],
        fib: &mut Fib<L>,
        steps: &mut Steps<L>,
        sends: &mut List<Outgoing>,
    ) -> Result<(), OutOfMemory>
        requires good { IsGood self.now.rows self.now.learned }
        requires going { fib.old.broken ≡ false }
        ensures told { (before : AllRows) → change.now ≡ changes before self.now.rows
            → OnOk result (sends.new
            ≡ sends.old ++ told_all before self.now.rows self.now.monitors) }
        ensures fib { (before : AllRows) (known : Listed Entry) → IsGood before known
            → change.now ≡ changes before self.now.rows → AreMoved known self.now.learned moved.now
            → fib.old ≡ fib_of before known
            → OnOk result (fib.new ≡ fib_of self.now.rows self.now.learned) }
    {
        self.monitors.tell(self.alloc, change, sends)?;
        fib.apply(self.alloc, self.rows(), &self.learned, change, moved, steps)
    }

    /// A commit is concluded: the entries that have to go leave the learnt list, the monitors are told, and the forwarding state
    /// follows.
    pub(crate) fn conclude<L: Ledger>(
        &mut self,
        kept: Kept,
        fib: &mut Fib<L>,
        steps: &mut Steps<L>,
        sends: &mut List<Outgoing>,
    ) -> Result<(), OutOfMemory>
        requires good { IsGood self.old.rows (without_all kept.gone self.old.learned) }
        requires going { fib.old.broken ≡ false }
        ensures left { OnOk result (self.new
            ≡ record self.old { learned = without_all kept.gone self.old.learned }) }
        ensures told { (before : AllRows) → kept.change ≡ changes before self.old.rows
            → OnOk result (sends.new
            ≡ sends.old ++ told_all before self.old.rows self.old.monitors) }
        ensures fib { (before : AllRows) → IsGood before self.old.learned
            → kept.change ≡ changes before self.old.rows → fib.old ≡ fib_of before self.old.learned
            → OnOk result (fib.new ≡ fib_of self.new.rows self.new.learned) }
    {
        self.evict(kept.gone.as_slice());
        self.publish(&kept.change, kept.gone.as_slice(), fib, steps, sends)
    }

    /// Adds a port, and gives what the monitors are told. The forwarding state follows.
    pub(crate) fn add_port<L: Ledger>(
        &mut self,
        name: &Name,
        fib: &mut Fib<L>,
        steps: &mut Steps<L>,
    ) -> Result<List<Outgoing>, PortFault>
        requires good { IsGood self.old.rows self.old.learned }
        requires fib { fib.old ≡ fib_of self.old.rows self.old.learned }
        ensures form { is_name name.now ≡ true }
        ensures free { OnOk result (port_refusal self.old.rows name.now ≡ None) }
        ensures left { IfOk result
            (λ sends. changed self.old (with_port self.old.rows name.now) self.old.learned
            ≡ record { vtep = self.new; sends = sends }) }
        ensures good { OnOk result (IsGood self.new.rows self.new.learned) }
        ensures fib { OnOk result (fib.new ≡ fib_of self.new.rows self.new.learned) }
        ensures refused { IfErr result (λ fault. OrMemory (refusal_of fault)
            (λ why. (port_refusal self.old.rows name.now ≡ Some why) × (self.new ≡ self.old)
            × (fib.new ≡ fib.old))) }
    {
        let own = own_address(self.rows());
        self.database.begin();
        add_port(self.alloc, &mut self.database, name)?;
        let kept = commit_unchecked(self.alloc, &mut self.database, own, &self.learned)?;
        let mut sends = List::new(self.alloc);
        self.conclude(kept, fib, steps, &mut sends)?;
        Ok(sends)
    }

    /// Takes a port away, and gives what the monitors are told. The forwarding state follows.
    pub(crate) fn remove_port<L: Ledger>(
        &mut self,
        name: &Name,
        fib: &mut Fib<L>,
        steps: &mut Steps<L>,
    ) -> Result<List<Outgoing>, PortFault>
        requires good { IsGood self.old.rows self.old.learned }
        requires fib { fib.old ≡ fib_of self.old.rows self.old.learned }
        ensures found { OnOk result (is_some (port_named self.old.rows name.now) ≡ true) }
        ensures left { IfOk result (λ sends. IfSome (port_named self.old.rows name.now)
            (λ id. changed self.old (without_port self.old.rows id) self.old.learned
            ≡ record { vtep = self.new; sends = sends })) }
        ensures good { OnOk result (IsGood self.new.rows self.new.learned) }
        ensures fib { OnOk result (fib.new ≡ fib_of self.new.rows self.new.learned) }
        ensures refused { IfErr result (λ fault. OrMemory (refusal_of fault)
            (λ why. (why ≡ NoPort) × (port_named self.old.rows name.now ≡ None)
            × (self.new ≡ self.old) × (fib.new ≡ fib.old))) }
    {
        let own = own_address(self.rows());
        self.database.begin();
        remove_port(self.alloc, &mut self.database, name)?;
        let kept = commit_unchecked(self.alloc, &mut self.database, own, &self.learned)?;
        let mut sends = List::new(self.alloc);
        self.conclude(kept, fib, steps, &mut sends)?;
        Ok(sends)
    }
}
