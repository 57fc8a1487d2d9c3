//! What follows a change of the rows or of what is learnt.

ghost use Rattle.std.specs.Prelude.{◌≡◌, ◌<◌, ◌^◌, Ok, Err, IsOk, IfOk, IfErr};
ghost use Rattle.vtep_base.specs.Answers.{OrMemory};
ghost use Rattle.vtep_rows.specs.Changes.{changes};
ghost use Rattle.local_tables.specs.Followed.{commit};
ghost use Rattle.local_tables.specs.Following.{without_all};
ghost use Rattle.local_tables.specs.Local.{IsChanged};
ghost use Rattle.vtep_gateway.specs.CommitFaults.{rule_of};

use local_tables::follow;
use mac_learning::{Learned, Learnt};
use std::alloc::Global;
use vtep_base::{Ipv4, List, OutOfMemory};
use vtep_rows::{Change, Database, RowsFault, Rule};

/// Why a change is not kept.
#[derive(Clone, Copy, Drop)]
pub(crate) enum CommitFault {
    OutOfMemory,
    /// The rows break this rule.
    Broken(Rule),
}

impl From<OutOfMemory> for CommitFault {
    ghost use Rattle.std.specs.Prelude.{◌≡◌};
    ghost use Rattle.vtep_gateway.specs.declared.commit.CommitFault.TheVariants as fault;

    ghost from_gives = { λ _ e. e ≡ fault.OutOfMemory };

    fn from(_error: OutOfMemory) -> CommitFault {
        CommitFault::OutOfMemory
    }
}

/// What a commit comes to.
#[derive(Drop)]
pub(crate) struct Kept {
    /// How the rows differ.
    pub(crate) change: Change,
    /// The learnt entries that have to go.
    pub(crate) gone: List<Learnt>,
}

/// The rows are again what they were before a change that breaks a rule.
fn take_back(database: &mut Database, rule: Rule) -> Result<Kept, CommitFault>
    ensures back { IfErr result (λ fault. OrMemory (rule_of fault)
        (λ why. (why ≡ rule) × (database.new.current ≡ database.old.committed))) }
    ensures never { IsOk result → ⊥ }
{
    database.roll_back()?;
    Err(CommitFault::Broken(rule))
}

/// The Local tables follow a change of the rows of a gateway with this tunnel address, and the rules are checked. Gives the rows that
/// differ from those before the change and the learnt entries that have to go, or takes the rows back. It costs the rows that were
/// written, not all rows.
pub(crate) fn commit(
    alloc: Global,
    database: &mut Database,
    own: Ipv4,
    learned: &Learned,
) -> Result<Kept, CommitFault>
    requires changed { IsChanged own database.old.committed database.old.current
        learned.now.entries }
    requires fits { own < 2 ^ 32 }
    ensures kept { IfOk result
        (λ kept. commit own database.old.committed database.old.current learned.now.entries
        ≡ Ok (record
        { rows = database.new.current; learned = without_all kept.gone learned.now.entries })) }
    ensures change { IfOk result
        (λ kept. kept.change ≡ changes database.old.committed database.new.current) }
    ensures broken { IfErr result (λ fault. OrMemory (rule_of fault)
        (λ rule. (commit own database.old.committed database.old.current learned.now.entries
        ≡ Err rule) × (database.new.current ≡ database.old.committed))) }
{
    match follow(alloc, database, own, learned) {
        Ok(gone) => {
            // It says that no number past the last one was given.
            let _ = database.rows().counter();
            if let Some(rule) = database.broken() {
                return take_back(database, rule);
            }
            let change = database.commit(alloc)?;
            Ok(Kept { change, gone })
        }
        Err(RowsFault::Spent) => take_back(database, Rule::Limit),
        Err(RowsFault::OutOfMemory) => Err(CommitFault::OutOfMemory),
    }
}

/// The same of a change that breaks no rule, without a check.
pub(crate) fn commit_unchecked(
    alloc: Global,
    database: &mut Database,
    own: Ipv4,
    learned: &Learned,
) -> Result<Kept, OutOfMemory>
    requires changed { IsChanged own database.old.committed database.old.current
        learned.now.entries }
    requires fits { own < 2 ^ 32 }
    requires kept { IsOk (commit own database.old.committed database.old.current
        learned.now.entries) }
    ensures kept { IfOk result
        (λ kept. commit own database.old.committed database.old.current learned.now.entries
        ≡ Ok (record
        { rows = database.new.current; learned = without_all kept.gone learned.now.entries })) }
    ensures change { IfOk result
        (λ kept. kept.change ≡ changes database.old.committed database.new.current) }
{
    let gone = follow(alloc, database, own, learned).map_err(|_| OutOfMemory)?;
    let change = database.commit(alloc)?;
    Ok(Kept { change, gone })
}
