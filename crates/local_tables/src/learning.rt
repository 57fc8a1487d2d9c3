//! How the Local tables follow what is learnt and what is no longer.

ghost use Rattle.std.specs.Prelude.{◌≡◌, ◌<◌, ◌^◌, ◌++◌, ◌∷◌, [], ℕ, List as Listed, true, OnOk, IfErr};
ghost use Rattle.vtep_base.specs.Answers.{OrMemory};
ghost use Rattle.vtep_rows.specs.Faults.{rows_refusal};
ghost use Rattle.vtep_rows.specs.Rows.{collected, last_number};
ghost use Rattle.mac_learning.specs.declared.Learnt.{Learnt as Entry};
ghost use Rattle.forward_program.specs.Built.{IsIn};
ghost use Rattle.local_tables.specs.LocalRows.{is_individual};
ghost use Rattle.local_tables.specs.Followed.{own_locator, completed_by, followed};
ghost use Rattle.local_tables.specs.Following.{without_all};
ghost use Rattle.local_tables.specs.Local.{IsChanged, IsLearning};

use crate::adding::locate;
use crate::removing::remove_addresses;
use crate::rows::address_row;
use mac_learning::Learnt;
use std::alloc::Global;
use vtep_base::{Ipv4, Mac, OutOfMemory, RowId};
use vtep_rows::{Database, RowsFault};
use vtep_schema::Table;

/// Inserts the row of an address that is learnt, of a gateway with this tunnel address, where no
/// other row is changed.
///
/// `Spent` comes only where no row number is left. Then the committed rows are as they were.
pub fn add_address(
    alloc: Global,
    database: &mut Database,
    own: Ipv4,
    switch: RowId,
    mac: Mac,
) -> Result<(), RowsFault>
    requires referenced { collected database.old.committed ≡ database.old.committed }
    requires fits { own < 2 ^ 32 }
    requires individual { is_individual mac ≡ true }
    ensures rows { (before : Listed Entry) (new : Entry)
        → IsLearning own database.old.current before new → new.switch ≡ switch → new.mac ≡ mac
        → OnOk result (database.new ≡ record database.old { current = (followed own database.old.current database.old.current (before ++ new ∷ [])).rows }) }
    ensures spent { (before : Listed Entry) (new : Entry)
        → IsLearning own database.old.current before new
        → IfErr result (λ fault. OrMemory (rows_refusal fault) (λ _.
        (database.old.current.counter ≡ last_number)
        × (database.new.committed ≡ database.old.committed))) }
{
    let locator = locate(alloc, database, own)?;
    let row = address_row(alloc, switch, mac, locator)?;
    database.insert(Table::UcastMacsLocal, row)?;
    Ok(database.collect()?)
}

/// Takes the rows of entries away that are no longer learnt, where no other row is changed.
pub fn forget(alloc: Global, database: &mut Database, gone: &[Learnt]) -> Result<(), OutOfMemory>
    requires referenced { collected database.old.committed ≡ database.old.committed }
    ensures rows { (own : ℕ) (before : Listed Entry) → IsChanged own database.old.current database.old.current before
        → ((e : Entry) → IsIn e gone.now → IsIn e before)
        → OnOk result (database.new ≡ record database.old { current = (followed own database.old.current database.old.current (without_all gone.now before)).rows }) }
{
    remove_addresses(alloc, database, gone)?;
    database.collect()
}
