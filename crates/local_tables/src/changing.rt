//! How the Local tables follow a change of the rows.

ghost use Rattle.std.specs.Prelude.{◌≡◌, ◌<◌, ◌^◌, true, IfOk, IfErr, OnOk};
ghost use Rattle.vtep_base.specs.Answers.{OrMemory};
ghost use Rattle.vtep_schema.specs.declared.Table.TheVariants.{UcastMacsLocal, McastMacsLocal};
ghost use Rattle.vtep_rows.specs.Faults.{rows_refusal};
ghost use Rattle.local_tables.specs.Followed.{followed, is_spent};
ghost use Rattle.local_tables.specs.Following.{lost, without_all, without_rows, address_keys, flood_keys};
ghost use Rattle.local_tables.specs.Local.{IsChanged};

use crate::adding::add_floods;
use crate::floods::{lost, missing, touched};
use crate::leaving::leaving;
use crate::removing::{remove_addresses, remove_floods};
use mac_learning::{Learned, Learnt};
use std::alloc::Global;
use vtep_base::{Ipv4, List, OutOfMemory, RowId};
use vtep_rows::{Database, RowsFault};

/// Takes the rows away of addresses that go and of switches that are no longer bound.
fn remove_stale(
    alloc: Global,
    database: &mut Database,
    gone: &[Learnt],
    touched: &[RowId],
) -> Result<(), OutOfMemory>
    ensures { OnOk result (database.new ≡ record database.old {
      current
          = without_rows McastMacsLocal (without_rows UcastMacsLocal database.old.current
          (address_keys gone.now)) (flood_keys (lost database.old.current touched.now));
    }) }
{
    let lost = lost(alloc, database.rows(), touched)?;
    remove_addresses(alloc, database, gone)?;
    remove_floods(alloc, database, lost.as_slice())
}

/// The Local tables follow a change of the rows, of a gateway with this tunnel address. Gives the
/// learnt entries that go: those whose port and VLAN no longer name their switch, and those of
/// whose address a remote row was inserted. It looks at the rows that differ, and walks the learnt
/// list where a port differs.
///
/// `Spent` comes only where row numbers that it needs would pass the last one. Then the committed
/// rows are as they were.
pub fn follow(
    alloc: Global,
    database: &mut Database,
    own: Ipv4,
    learned: &Learned,
) -> Result<List<Learnt>, RowsFault>
    requires changed { IsChanged own database.old.committed database.old.current learned.now.entries }
    requires fits { own < 2 ^ 32 }
    ensures rows { OnOk result (database.new ≡ record database.old {
      current
          = (followed own database.old.committed database.old.current learned.now.entries).rows;
    }) }
    ensures gone { IfOk result (λ gone. without_all gone learned.now.entries
        ≡ (followed own database.old.committed database.old.current learned.now.entries).learned) }
    ensures spent { IfErr result (λ fault. OrMemory (rows_refusal fault) (λ _.
        (is_spent (followed own database.old.committed database.old.current learned.now.entries).rows
        ≡ true) × (database.new.committed ≡ database.old.committed))) }
{
    let gone = leaving(alloc, database, learned)?;
    let touched = touched(alloc, database)?;
    let missing = missing(alloc, database.rows(), touched.as_slice())?;
    remove_stale(alloc, database, gone.as_slice(), touched.as_slice())?;
    add_floods(alloc, database, own, missing.as_slice())?;
    database.collect()?;
    Ok(gone)
}
