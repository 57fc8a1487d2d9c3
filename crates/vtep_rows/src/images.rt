//! What rows were before they were written.

ghost use Rattle.std.specs.Prelude.{◌≡◌, ◌<◌, ◌++◌, ◌&&◌, ◌||◌, true, [], None, filter_map, option_map, IfOk, IfErr, OnOk, OnErr};
ghost use Rattle.std.specs.List.{cons_option};
ghost use Rattle.vtep_base.specs.Maps as maps;
ghost use Rattle.vtep_schema.specs.Tables.{same_table};
ghost use Rattle.vtep_rows.specs.Rows.{Key, has_key, same_key, row_at, next_id, last_number, inserted, replaced, removed, is_given};
ghost use Rattle.vtep_base.specs.Answers.{OrMemory};
ghost use Rattle.vtep_rows.specs.Faults.{rows_refusal};
ghost use Rattle.vtep_rows.specs.Changes.{differ};
ghost use Rattle.vtep_rows.specs.Database.{remembered, changed_at, differing_in, image_fits, images_fit, backed, all_backed, dangles, doubled, any_dangles, any_doubled, may_go, image_names};

use crate::collection::add_references;
use crate::differences::{Change, RowChange, copy_row, differ};
use crate::row::Row;
use crate::rows::{Rows, RowsFault};
use std::alloc::Global;
use std::collections::btree_map::{IntoIter, Iter};
use std::collections::{BTreeMap, BTreeSet};
use std::marker::Model;
use vtep_base::{List, OutOfMemory, RowId};
use vtep_schema::Table;

/// From a table and an identifier to the row that was there, or to none where there was no row.
#[derive(Drop)]
pub(crate) struct Images {
    by_key: BTreeMap<(Table, RowId), Option<Row>>,
}

impl Model for Images {
    ghost use Rattle.vtep_base.specs.Maps as maps;
    ghost use Rattle.vtep_rows.specs.Database.{Images as AllImages, images_code};

    ghost Value = { AllImages };

    ghost coded = { images_code };

    ghost view = { λ s. maps.of_list s.by_key.entries };
}

impl Images {
    /// No image.
    pub(crate) fn new(alloc: Global) -> Images
        ensures { result ≡ maps.empty }
    {
        Images {
            by_key: BTreeMap::new(alloc),
        }
    }

    pub(crate) fn has(&self, table: Table, id: RowId) -> bool
        ensures { result ≡ maps.has self.now (table, id) }
    {
        self.by_key.contains_key(&(table, id))
    }

    /// The image of a place, where there is one.
    pub(crate) fn get(&self, table: Table, id: RowId) -> Option<&Option<Row>>
        ensures { option_map (λ image. image.now) result ≡ maps.get self.now (table, id) }
    {
        self.by_key.get(&(table, id))
    }

    /// By table and identifier.
    pub(crate) fn iter(&self) -> Iter<'_, (Table, RowId), Option<Row>>
        ensures { result ≡ self.now.list }
    {
        self.by_key.iter()
    }

    /// By table and identifier.
    pub(crate) fn into_entries(self) -> IntoIter<(Table, RowId), Option<Row>>
        ensures { result ≡ self.list }
    {
        self.by_key.into_iter()
    }

    /// Makes room for the image of a place that has none. After an `Err` the images are as they were.
    fn make_room(&mut self, table: Table, id: RowId) -> Result<(), OutOfMemory>
        ensures ok { OnOk result (self.new ≡ maps.insert self.old (table, id) None) }
        ensures err { OnErr result (self.new ≡ self.old) }
    {
        self.by_key.insert((table, id), None)?;
        Ok(())
    }

    /// Puts an image where there is room for it. Takes no memory.
    fn fill(&mut self, table: Table, id: RowId, image: Option<Row>)
        requires { maps.has self.old (table, id) ≡ true }
        ensures { self.new ≡ maps.insert self.old (table, id) image }
    {
        let _ = self.by_key.insert((table, id), image);
    }

    fn forget(&mut self, table: Table, id: RowId)
        ensures { self.new ≡ maps.remove self.old (table, id) }
    {
        self.by_key.remove(&(table, id));
    }

    /// Inserts a row, and remembers that there was none. After an `Err` rows and images are as they were.
    pub(crate) fn insert_row(
        &mut self,
        rows: &mut Rows,
        table: Table,
        row: Row,
    ) -> Result<RowId, RowsFault>
        requires { row.table ≡ table }
        ensures rows { OnOk result (rows.new ≡ inserted rows.old row) }
        ensures images { OnOk result
            (self.new ≡ remembered self.old rows.old (table, next_id rows.old)) }
        ensures id { IfOk result (λ id. id ≡ next_id rows.old) }
        ensures room { OnOk result (rows.old.counter < last_number) }
        ensures rows_err { OnErr result (rows.new ≡ rows.old) }
        ensures images_err { OnErr result (self.new ≡ self.old) }
        ensures spent { IfErr result
            (λ fault. OrMemory (rows_refusal fault) (λ _. rows.old.counter ≡ last_number)) }
    {
        let id = rows.id(rows.counter() + 1);
        if self.has(table, id) {
            return rows.insert(table, row);
        }
        self.make_room(table, id)?;
        match rows.insert(table, row) {
            Ok(id) => Ok(id),
            Err(fault) => {
                self.forget(table, id);
                Err(fault)
            }
        }
    }

    /// Puts a row, and remembers what was there. After an `Err` rows and images are as they were.
    pub(crate) fn put_row(
        &mut self,
        rows: &mut Rows,
        table: Table,
        id: RowId,
        row: Row,
    ) -> Result<(), OutOfMemory>
        requires table { row.table ≡ table }
        requires given { is_given rows.old id ≡ true }
        ensures rows { OnOk result (rows.new ≡ replaced rows.old (table, id) row) }
        ensures images { OnOk result (self.new ≡ remembered self.old rows.old (table, id)) }
        ensures rows_err { OnErr result (rows.new ≡ rows.old) }
        ensures images_err { OnErr result (self.new ≡ self.old) }
    {
        if self.has(table, id) {
            rows.put(table, id, row)?;
            return Ok(());
        }
        self.make_room(table, id)?;
        match rows.put(table, id, row) {
            Ok(old) => {
                self.fill(table, id, old);
                Ok(())
            }
            Err(fault) => {
                self.forget(table, id);
                Err(fault)
            }
        }
    }

    /// Takes a row away, and remembers it. After an `Err` rows and images are as they were.
    pub(crate) fn remove_row(
        &mut self,
        rows: &mut Rows,
        table: Table,
        id: RowId,
    ) -> Result<(), OutOfMemory>
        ensures rows { OnOk result (rows.new ≡ removed rows.old (table, id)) }
        ensures images { OnOk result (self.new ≡ remembered self.old rows.old (table, id)) }
        ensures rows_err { OnErr result (rows.new ≡ rows.old) }
        ensures images_err { OnErr result (self.new ≡ self.old) }
    {
        if self.has(table, id) {
            rows.remove(table, id);
            return Ok(());
        }
        self.make_room(table, id)?;
        let old = rows.remove(table, id);
        self.fill(table, id, old);
        Ok(())
    }

    /// Puts each row back as it was. After an `Err` some rows may be back and others not.
    pub(crate) fn put_back(self, rows: &mut Rows) -> Result<(), OutOfMemory>
        requires { images_fit rows.old self.list ≡ true }
        ensures rows { OnOk result (rows.new ≡ all_backed rows.old self.list) }
    {
        'images: for ((table, id), image) in self.into_entries() {
            put_image(rows, table, id, image)?;
        }
        Ok(())
    }

    /// What differs from the images, by table and identifier. The images become part of it.
    pub(crate) fn into_change(self, alloc: Global, rows: &Rows) -> Result<Change, OutOfMemory>
        ensures { IfOk result (λ change. change ≡ filter_map (changed_at rows.now) self.list) }
    {
        let mut change = List::new(alloc);
        'images: for ((table, id), image) in self.into_entries() {
            add_change(&mut change, alloc, rows, table, id, image)?;
        }
        Ok(change)
    }

    /// The identifiers of a table's rows that differ from their images, ascending.
    pub(crate) fn differing(
        &self,
        alloc: Global,
        rows: &Rows,
        table: Table,
    ) -> Result<List<RowId>, OutOfMemory>
        ensures { IfOk result (λ ids. ids ≡ differing_in table rows.now self.now.list) }
    {
        let mut ids = List::new(alloc);
        'images: for (key, image) in self.iter() {
            if differs(rows, table, key, image) {
                ids.push(key.1)?;
            }
        }
        Ok(ids)
    }

    /// Whether a row that went is still named, or one that is there names a row that is not. Takes no memory.
    pub(crate) fn break_references(&self, rows: &Rows) -> bool
        ensures { result ≡ any_dangles rows.now self.now.list }
    {
        'images: for (key, _) in self.iter() {
            if dangles(rows, key.0, key.1) {
                return true;
            }
        }
        false
    }

    /// Whether another row has a key of one that is there. Takes no memory.
    pub(crate) fn break_keys(&self, rows: &Rows) -> bool
        ensures { result ≡ any_doubled rows.now self.now.list }
    {
        'images: for (key, _) in self.iter() {
            if doubled(rows, key.0, key.1) {
                return true;
            }
        }
        false
    }

    /// Where a row may be that nothing names any more: the places that have an image, and those that the images name.
    pub(crate) fn candidates(&self, alloc: Global) -> Result<BTreeSet<(Table, RowId)>, OutOfMemory>
        ensures { IfOk result (λ found. (k : Key) → has_key found.keys k ≡ may_go self.now.list k) }
    {
        let mut found = BTreeSet::new(alloc);
        'images: for (key, image) in self.iter() {
            add_candidates(&mut found, alloc, key, image)?;
        }
        Ok(found)
    }
}

fn dangles(rows: &Rows, table: Table, id: RowId) -> bool
    ensures { result ≡ dangles rows.now (table, id) (row_at rows.now (table, id)) }
{
    match rows.get(table, id) {
        Some(row) => !rows.all_there(row),
        None => rows.is_named(table, id),
    }
}

fn doubled(rows: &Rows, table: Table, id: RowId) -> bool
    ensures { result ≡ doubled rows.now (table, id) (row_at rows.now (table, id)) }
{
    match rows.get(table, id) {
        Some(row) => rows.has_twin(table, id, row),
        None => false,
    }
}

fn add_candidates(
    found: &mut BTreeSet<(Table, RowId)>,
    alloc: Global,
    key: &(Table, RowId),
    image: &Option<Row>,
) -> Result<(), OutOfMemory>
    ensures { OnOk result ((k : Key) → has_key found.new.keys k
        ≡ (has_key found.old.keys k || (same_key k key.now || image_names image.now k))) }
{
    found.insert(*key)?;
    match image {
        Some(row) => add_references(found, alloc, row),
        None => Ok(()),
    }
}

/// The place is one of the table, and its row differs from the image.
fn differs(rows: &Rows, table: Table, key: &(Table, RowId), image: &Option<Row>) -> bool
    ensures { result ≡ (same_table key.now.0 table && differ image.now (row_at rows.now key.now)) }
{
    key.0 == table && differ(image.as_ref(), rows.get(key.0, key.1))
}

fn put_image(
    rows: &mut Rows,
    table: Table,
    id: RowId,
    image: Option<Row>,
) -> Result<(), OutOfMemory>
    requires { image_fits rows.old (table, id) image ≡ true }
    ensures { OnOk result (rows.new ≡ backed rows.old (table, id) image) }
{
    match image {
        Some(row) => {
            rows.put(table, id, row)?;
        }
        None => {
            rows.remove(table, id);
        }
    }
    Ok(())
}

/// Adds what differs at the place of an image.
fn add_change(
    change: &mut Change,
    alloc: Global,
    rows: &Rows,
    table: Table,
    id: RowId,
    image: Option<Row>,
) -> Result<(), OutOfMemory>
    ensures { OnOk result (change.new ≡ change.old
        ++ cons_option (changed_at rows.now ((table, id), image)) []) }
{
    let row = rows.get(table, id);
    if !differ(image.as_ref(), row) {
        return Ok(());
    }
    change.push(RowChange {
        table,
        id,
        old: image,
        new: copy_row(alloc, row)?,
    })
}
