//! Rows that have one unique key.

ghost use Rattle.std.specs.Prelude.{◌≡◌, ◌&&◌, ◌==◌, not, filter};
ghost use Rattle.std.specs.List.{list_any};
ghost use Rattle.vtep_base.specs.Maps as maps;
ghost use Rattle.vtep_rows.specs.Marks.{is_at_place, agree_at, agree_there};

use crate::marks::Marks;
use crate::row::Row;
use crate::soundness::agree;
use crate::stamps::Stamp;
use crate::store::Store;
use vtep_base::RowId;
use vtep_schema::{Table, unique_keys};

/// Two rows agree in one of the table's unique keys.
fn agree_at(table: Table, place: u8, one: &Row, other: &Row) -> bool
    ensures { result ≡ agree_at table place one.now other.now }
{
    let keys = unique_keys(table);
    let place = usize::from(place);
    if place >= keys.len() {
        return false;
    }
    agree(keys[place], one, other)
}

/// The row that stands at an identifier agrees with this one.
fn agree_there(store: &Store, table: Table, place: u8, row: &Row, id: RowId) -> bool
    ensures { result ≡ agree_there table place row.now (maps.get store.now (table, id)) }
{
    match store.get(table, id) {
        Some(other) => agree_at(table, place, row, other),
        None => false,
    }
}

/// Whether another row that has a mark with this stamp agrees with the row. Takes no memory.
pub(crate) fn has_marked_twin(
    store: &Store,
    marks: &Marks,
    table: Table,
    place: u8,
    stamp: Stamp,
    id: RowId,
    row: &Row,
) -> bool
    ensures { result ≡ list_any (λ e. not (e.0.4 == id)
        && agree_there table place row.now (maps.get store.now (table, e.0.4)))
        (filter (λ e. is_at_place (table, place, stamp.number, stamp.id) e.0) marks.now.list) }
{
    'marks: for (mark, _) in marks.at(table, place, stamp) {
        if mark.4 != id && agree_there(store, table, place, row, mark.4) {
            return true;
        }
    }
    false
}
