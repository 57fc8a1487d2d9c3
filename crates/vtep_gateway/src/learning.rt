//! What a gateway learns of the frames that enter, and what it forgets with time.

ghost use Rattle.std.specs.Prelude.{◌≡◌, ◌<◌, ◌^◌, ◌∷◌, ◌++◌, ◌==◌, ◌&&◌, [], ℕ, List as Listed, true, not, is_some, Some, IfOk, OnOk};
ghost use Rattle.vtep_rows.specs.Rows.{last_number};
ghost use Rattle.vtep_rows.specs.Changes.{changes};
ghost use Rattle.mac_learning.specs.declared.Learnt.{Learnt as Entry};
ghost use Rattle.mac_learning.specs.Learning.{found};
ghost use Rattle.forward_program.specs.Built.{IsIn};
ghost use Rattle.vtep_base.specs.Texts.{is_name};
ghost use Rattle.local_tables.specs.LocalRows.{is_individual};
ghost use Rattle.local_tables.specs.Followed.{is_bound_there, followed};
ghost use Rattle.local_tables.specs.Following.{without_all};
ghost use Rattle.local_tables.specs.Local.{IsChanged, IsLearning};
ghost use Rattle.vtep_gateway.specs.Learning.{learns_in, seen_by, with_source, aged};
ghost use Rattle.vtep_gateway.specs.Frames.{ways};
ghost use Rattle.vtep_gateway.specs.Settled.{IsSettled};
ghost use Rattle.vtep_gateway.specs.Good.{IsGood};
ghost use Rattle.vtep_gateway.specs.Ready.{fib_of};

use crate::Outgoing;
use crate::frames::own_address;
use crate::vtep::Vtep;
use forward_program::{Fib, source};
use local_tables::{add_address, forget};
use mac_learning::{Learn, Learnt};
use std::alloc::Global;
use vtep_base::{Inner, Ipv4, Ledger, List, Name, OutOfMemory, RowId, Steps, Vlan};
use vtep_rows::{Change, Database};

/// How many addresses may be learnt.
pub(crate) const MOST_LEARNT: u64 = 2048;

/// The last row number.
const LAST_NUMBER: u64 = (1 << 62) - 1;

/// Commits that nothing differs.
fn commit_nothing(alloc: Global, database: &mut Database) -> Result<Change, OutOfMemory>
    ensures rows { OnOk result (database.new.current ≡ database.old.current) }
    ensures change { IfOk result
        (λ change. change ≡ changes database.old.current database.old.current) }
{
    database.begin();
    database.commit(alloc)
}

/// Commits the row of an address that is learnt, of a gateway with this tunnel address.
fn commit_new(
    alloc: Global,
    database: &mut Database,
    own: Ipv4,
    new: &Learnt,
) -> Result<Change, OutOfMemory>
    requires settled { IsSettled database.old.current }
    requires fits { own < 2 ^ 32 }
    requires individual { is_individual new.now.mac ≡ true }
    requires room { database.old.current.counter < last_number }
    ensures rows { (known : Listed Entry) → IsLearning own database.old.current known new.now
        → OnOk result (database.new.current ≡ (followed own database.old.current
        database.old.current (known ++ new.now ∷ [])).rows) }
    ensures change { (known : Listed Entry) → IsLearning own database.old.current known new.now
        → IfOk result (λ change. change ≡ changes database.old.current database.new.current) }
{
    database.begin();
    match add_address(alloc, database, own, new.switch, new.mac) {
        Ok(()) => database.commit(alloc),
        Err(_) => Err(OutOfMemory),
    }
}

/// Commits that the rows of entries go that are no longer learnt.
fn commit_aged(
    alloc: Global,
    database: &mut Database,
    gone: &[Learnt],
) -> Result<Change, OutOfMemory>
    requires settled { IsSettled database.old.current }
    ensures rows { (own : ℕ) (known : Listed Entry)
        → IsChanged own database.old.current database.old.current known
        → ((e : Entry) → IsIn e gone.now → IsIn e known)
        → OnOk result (database.new.current ≡ (followed own database.old.current
        database.old.current (without_all gone.now known)).rows) }
    ensures change { (own : ℕ) (known : Listed Entry)
        → IsChanged own database.old.current database.old.current known
        → ((e : Entry) → IsIn e gone.now → IsIn e known)
        → IfOk result (λ change. change ≡ changes database.old.current database.new.current) }
{
    database.begin();
    forget(alloc, database, gone)?;
    database.commit(alloc)
}

impl Vtep {
    /// The address is new, and no number is left for its row. Takes no memory.
    fn is_spent(&self, new: &Learnt) -> bool
        ensures { result ≡ (not (is_some (found new.now.switch new.now.mac self.now.learned))
            && (self.now.rows.counter == last_number)) }
    {
        self.learned.find(new.switch, new.mac).is_none() && self.rows().counter() == LAST_NUMBER
    }

    /// Sees an address of a switch at a port and VLAN, and says whether it is a new one that could not be learnt. The monitors are
    /// told of its row, and the forwarding state follows.
    pub(crate) fn see<L: Ledger>(
        &mut self,
        new: Learnt,
        fib: &mut Fib<L>,
        steps: &mut Steps<L>,
        sends: &mut List<Outgoing>,
    ) -> Result<bool, OutOfMemory>
        requires good { IsGood self.old.rows self.old.learned }
        requires fib { fib.old ≡ fib_of self.old.rows self.old.learned }
        requires individual { is_individual new.mac ≡ true }
        requires bound { is_bound_there self.old.rows new ≡ true }
        requires named { is_name new.port ≡ true }
        ensures left { OnOk result (self.new
            ≡ (seen_by self.old new (learns_in self.old new)).vtep) }
        ensures told { OnOk result (sends.new
            ≡ sends.old ++ (seen_by self.old new (learns_in self.old new)).sends) }
        ensures full { IfOk result
            (λ full. full ≡ (seen_by self.old new (learns_in self.old new)).full) }
        ensures good { OnOk result (IsGood self.new.rows self.new.learned) }
        ensures fib { OnOk result (fib.new ≡ fib_of self.new.rows self.new.learned) }
    {
        if self.is_spent(&new) {
            return Ok(true);
        }
        let own = own_address(self.rows());
        match self
            .learned
            .learn(new.switch, new.mac, &new.port, new.vlan, new.seen)?
        {
            Learn::Full => Ok(true),
            Learn::Same => Ok(false),
            Learn::Moved => {
                let change = commit_nothing(self.alloc, &mut self.database)?;
                self.publish(&change, &[new], fib, steps, sends)?;
                Ok(false)
            }
            Learn::Learnt => {
                let change = commit_new(self.alloc, &mut self.database, own, &new)?;
                self.publish(&change, &[new], fib, steps, sends)?;
                Ok(false)
            }
        }
    }

    /// Learns the source of a frame of a switch where it entered, unless it is the address of a group, and says whether it is a new one
    /// that could not be learnt. The monitors are told of its row, and the forwarding state follows.
    pub(crate) fn learn<L: Ledger>(
        &mut self,
        switch: RowId,
        port: &Name,
        vlan: Vlan,
        inner: &Inner<'_>,
        fib: &mut Fib<L>,
        steps: &mut Steps<L>,
        sends: &mut List<Outgoing>,
    ) -> Result<bool, OutOfMemory>
        requires good { IsGood self.old.rows self.old.learned }
        requires fib { fib.old ≡ fib_of self.old.rows self.old.learned }
        requires bound { (ways self.old).bound (port.now, vlan) ≡ Some switch }
        ensures left { OnOk result (self.new
            ≡ (with_source self.old switch port.now vlan inner.now).vtep) }
        ensures told { OnOk result (sends.new
            ≡ sends.old ++ (with_source self.old switch port.now vlan inner.now).sends) }
        ensures full { IfOk result
            (λ full. full ≡ (with_source self.old switch port.now vlan inner.now).full) }
        ensures good { OnOk result (IsGood self.new.rows self.new.learned) }
        ensures fib { OnOk result (fib.new ≡ fib_of self.new.rows self.new.learned) }
    {
        let mac = source(inner);
        // They say that the address has 48 bits and that the name is one.
        let _ = mac.bytes();
        let _ = port.as_slice();
        if mac.is_group() {
            return Ok(false);
        }
        let new = Learnt {
            switch,
            mac,
            port: *port,
            vlan,
            seen: self.clock,
        };
        self.see(new, fib, steps, sends)
    }

    /// The clock goes on, and what was seen too long ago is forgotten. Gives what the monitors are told. The forwarding state
    /// follows.
    pub(crate) fn age<L: Ledger>(
        &mut self,
        seconds: u32,
        fib: &mut Fib<L>,
        steps: &mut Steps<L>,
    ) -> Result<List<Outgoing>, OutOfMemory>
        requires good { IsGood self.old.rows self.old.learned }
        requires fib { fib.old ≡ fib_of self.old.rows self.old.learned }
        ensures left { IfOk result
            (λ sends. aged self.old seconds ≡ record { vtep = self.new; sends = sends }) }
        ensures good { OnOk result (IsGood self.new.rows self.new.learned) }
        ensures fib { OnOk result (fib.new ≡ fib_of self.new.rows self.new.learned) }
    {
        self.clock = self.clock.saturating_add(seconds as u64);
        let gone = self.learned.age(self.alloc, self.clock)?;
        let change = commit_aged(self.alloc, &mut self.database, gone.as_slice())?;
        let mut sends = List::new(self.alloc);
        self.publish(&change, gone.as_slice(), fib, steps, &mut sends)?;
        Ok(sends)
    }
}
