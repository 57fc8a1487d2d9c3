//! Tables and columns by their names.

ghost use Rattle.std.specs.Prelude.{◌≡◌};
ghost use Rattle.vtep_schema.specs.Tables.{named_in, table_name, table_named, column_name, column_named};

use crate::lines::{column_name, columns, table_name, tables};
use crate::{Column, Table};

fn table_among(among: &[Table], name: &str) -> Option<Table>
    ensures { result ≡ named_in table_name name.now among.now }
{
    'among: for table in among {
        if table_name(*table) == name {
            return Some(*table);
        }
    }
    None
}

/// The table of this name.
pub fn table(name: &str) -> Option<Table>
    ensures { result ≡ table_named name.now }
{
    table_among(tables(), name)
}

fn column_among(among: &[Column], name: &str) -> Option<Column>
    ensures { result ≡ named_in column_name name.now among.now }
{
    'among: for column in among {
        if column_name(*column) == name {
            return Some(*column);
        }
    }
    None
}

/// The table's column of this name.
pub fn column(table: Table, name: &str) -> Option<Column>
    ensures { result ≡ column_named table name.now }
{
    column_among(columns(table), name)
}
