//! Rows that go by their keys.

ghost use Rattle.std.specs.Prelude.{◌≡◌, OnOk};
ghost use Rattle.vtep_schema.specs.declared.Table.TheVariants.{UcastMacsLocal, McastMacsLocal};
ghost use Rattle.local_tables.specs.Following.{without_row, without_rows, address_keys, flood_keys};

use crate::keys::{address_key, flood_key};
use mac_learning::Learnt;
use ovsdb_values::Atom;
use std::alloc::Global;
use vtep_base::{OutOfMemory, RowId};
use vtep_rows::Database;
use vtep_schema::Table;

/// Takes the first row of a table away that has a key.
fn remove_row(database: &mut Database, table: Table, key: &[Atom]) -> Result<(), OutOfMemory>
    ensures { OnOk result (database.new ≡ record database.old
        { current = without_row table database.old.current key.now }) }
{
    match database.rows().keyed(table, key) {
        Some(id) => database.remove(table, id),
        None => Ok(()),
    }
}

/// Takes the rows of learnt addresses away.
pub(crate) fn remove_addresses(
    alloc: Global,
    database: &mut Database,
    gone: &[Learnt],
) -> Result<(), OutOfMemory>
    ensures { OnOk result (database.new ≡ record database.old {
      current
          = without_rows UcastMacsLocal database.old.current (address_keys gone.now);
    }) }
{
    'gone: for entry in gone {
        let key = address_key(alloc, entry.switch, entry.mac)?;
        remove_row(database, Table::UcastMacsLocal, &key)?;
    }
    Ok(())
}

/// Takes the rows of switches away.
pub(crate) fn remove_floods(
    alloc: Global,
    database: &mut Database,
    lost: &[RowId],
) -> Result<(), OutOfMemory>
    ensures { OnOk result (database.new ≡ record database.old {
      current
          = without_rows McastMacsLocal database.old.current (flood_keys lost.now);
    }) }
{
    'lost: for switch in lost {
        let key = flood_key(alloc, *switch)?;
        remove_row(database, Table::McastMacsLocal, &key)?;
    }
    Ok(())
}
