//! What follows from the lines.

ghost use Rattle.std.specs.Prelude.{◌≡◌, ◌&&◌, map};
ghost use Rattle.std.specs.List.{list_any};
ghost use Rattle.vtep_schema.specs.Tables.{belongs, kind_of, shape_of, table_rule, words_of, written_by_sessions};

use crate::lines::{column_rule, columns, table_rule, tables};
use crate::rules::{Domain, Words};
use crate::{Column, Table};
use vtep_base::{Kind, Shape};

/// The table has the column.
pub fn belongs(column: Column, table: Table) -> bool
    ensures { result ≡ belongs column table }
{
    columns(table).iter().any(|other| column == *other)
}

/// The texts, in the order of their bytes.
pub fn words(words: Words) -> &'static [&'static str]
    ensures { map (λ w. w.now) result.now ≡ words_of words }
{
    match words {
        Words::Encapsulations => &["vxlan_over_ipv4"],
        Words::ReplicationModes => &["service_node", "source_node"],
        Words::Directions => &["egress", "ingress"],
        Words::Actions => &["deny", "permit"],
    }
}

fn kind_of(domain: Domain) -> Kind
    ensures { result ≡ kind_of domain }
{
    match domain {
        Domain::Whole { .. } => Kind::Integer,
        Domain::Row(_) => Kind::Id,
        _ => Kind::Text,
    }
}

/// The notation of a column's values.
pub fn shape(column: Column) -> Shape
    ensures { result ≡ shape_of column }
{
    let rule = column_rule(column);
    Shape {
        key: kind_of(rule.key),
        value: rule.value.map(kind_of),
    }
}

/// The rows of the table stay where nothing names them.
pub fn root(table: Table) -> bool
    ensures { result ≡ (table_rule table).root }
{
    table_rule(table).root
}

/// How many rows the table may have.
pub fn most(table: Table) -> u64
    ensures { result ≡ (table_rule table).most }
{
    table_rule(table).most
}

/// Sessions may update and mutate the column.
pub fn written_by_sessions(column: Column) -> bool
    ensures { result ≡ written_by_sessions column }
{
    if matches!(column, Column::PortVlanBindings | Column::PortAclBindings) {
        return true;
    }
    is_open_column(tables(), column)
}

/// A table that is open to sessions has the column.
fn is_open_column(among: &[Table], column: Column) -> bool
    ensures { result ≡ list_any (λ t. (table_rule t).open_to_sessions && belongs column t)
        among.now }
{
    'among: for table in among {
        if table_rule(*table).open_to_sessions && belongs(column, *table) {
            return true;
        }
    }
    false
}
