//! Rows that have a key.

ghost use Rattle.std.specs.Prelude.{◌≡◌, map, filter};
ghost use Rattle.vtep_base.specs.Maps as maps;
ghost use Rattle.vtep_rows.specs.Row.{first};
ghost use Rattle.vtep_rows.specs.Marks.{is_at_place};
ghost use Rattle.vtep_rows.specs.Keyed.{holds_only, holds_in, holds, first_key, holds_there};

use crate::marks::Marks;
use crate::row::Row;
use crate::stamps::Stamp;
use crate::store::Store;
use ovsdb_values::Atom;
use vtep_base::RowId;
use vtep_schema::{Column, Table, unique_keys};

fn holds_only(atoms: &[Atom], atom: &Atom) -> bool
    ensures { result ≡ holds_only atoms.now atom.now }
{
    match atoms {
        [only] => only == atom,
        _ => false,
    }
}

fn holds_in(columns: &[Column], key: &[Atom], row: &Row) -> bool
    ensures { result ≡ holds_in columns.now key.now row.now }
{
    let mut rest = key;
    'columns: for column in columns {
        let Some((atom, others)) = rest.split_first() else {
            return false;
        };
        if !holds_only(row.atoms(*column), atom) {
            return false;
        }
        rest = others;
    }
    rest.is_empty()
}

/// A row holds these atoms in the columns of the table's first unique key.
fn holds(table: Table, key: &[Atom], row: &Row) -> bool
    ensures { result ≡ holds (first_key table) key.now row.now }
{
    match unique_keys(table).first() {
        Some(columns) => holds_in(columns, key, row),
        None => false,
    }
}

/// The row that stands at an identifier holds them.
fn holds_there(store: &Store, table: Table, key: &[Atom], id: RowId) -> bool
    ensures { result ≡ holds_there table key.now (maps.get store.now (table, id)) }
{
    match store.get(table, id) {
        Some(row) => holds(table, key, row),
        None => false,
    }
}

/// The first row that has a mark with this stamp and holds these atoms. Takes no memory.
pub(crate) fn first_marked(
    store: &Store,
    marks: &Marks,
    table: Table,
    stamp: Stamp,
    key: &[Atom],
) -> Option<RowId>
    ensures { result ≡ first (map (λ e. e.0.4)
        (filter (λ e. holds_there table key.now (maps.get store.now (table, e.0.4)))
        (filter (λ e. is_at_place (table, 0, stamp.number, stamp.id) e.0) marks.now.list))) }
{
    'marks: for (mark, _) in marks.at(table, 0, stamp) {
        if holds_there(store, table, key, mark.4) {
            return Some(mark.4);
        }
    }
    None
}
