//! What operations do to rows.

ghost use Rattle.std.specs.Prelude.{◌≡◌, IfOk, OnOk};
ghost use Rattle.vtep_base.specs.declared.words.Word.TheVariants as word;
ghost use Rattle.vtep_rows.specs.Row.{filled_row};
ghost use Rattle.vtep_rows.specs.Rows.{row_at};
ghost use Rattle.transact_profile.specs.Refusing.{Reads, ReadsAs, given};
ghost use Rattle.transact_profile.specs.Operations.{waited_fields};
ghost use Rattle.transact_profile.specs.Conditions.{selected, resolved_cells, resolved_conditions, resolved_mutations, resolved_rows};
ghost use Rattle.transact_profile.specs.Finish.{seen};
ghost use Rattle.transact_profile.specs.Meaning.{insert, select, changed_at, change_each, change, changed, change_step, remove_each, delete, select_step, update_step, mutate_step, delete_step, same_rows, wait, run_op};

use crate::faults::Fault;
use crate::found::selected_rows;
use crate::mutating::{mutated, updated};
use crate::names::NamedRows;
use crate::operations::{Condition, Field, Mutation, Op};
use crate::outcomes::OpResult;
use crate::parts::all_fields;
use crate::resolving::{resolved_conditions, resolved_mutations, resolved_row, resolved_rows};
use crate::selecting::selected;
use crate::waiting::{same_rows, waits_for};
use ovsdb_values::Datum;
use std::alloc::Global;
use vtep_base::{List, OutOfMemory, RowId, Word};
use vtep_rows::{Database, Row, RowFault, Rows, RowsFault};
use vtep_schema::{Column, Table};

const OUT_OF_BOUNDS: Fault = Fault::Refused(Word::ConstraintViolation);

fn filled(alloc: Global, table: Table, values: List<(Column, Datum)>) -> Result<Row, Fault>
    ensures value { Reads result (given word.ConstraintViolation (filled_row table values)) }
    ensures table { IfOk result (λ row. row.table ≡ table) }
{
    match Row::filled(alloc, table, values) {
        Ok(row) => Ok(row),
        Err(RowFault::OutOfMemory) => Err(Fault::OutOfMemory),
        Err(RowFault::Values) => Err(OUT_OF_BOUNDS),
    }
}

fn insert(
    alloc: Global,
    database: &mut Database,
    table: Table,
    values: List<(Column, Datum)>,
) -> Result<OpResult, Fault>
    ensures value { ReadsAs (λ reply. (seen reply, database.new.current)) result
        (insert table values database.old.current) }
    ensures committed { database.new.committed ≡ database.old.committed }
{
    let row = filled(alloc, table, values)?;
    match database.insert(table, row) {
        Ok(id) => Ok(OpResult::Inserted(id)),
        Err(RowsFault::OutOfMemory) => Err(Fault::OutOfMemory),
        Err(RowsFault::Spent) => Err(OUT_OF_BOUNDS),
    }
}

/// What is done to a row.
#[derive(Clone, Copy)]
pub(crate) enum Edit<'a> {
    /// The values are written.
    Write(&'a [(Column, Datum)]),
    /// The mutations are done in order.
    Mutate(&'a [Mutation]),
}

fn changed(alloc: Global, row: &Row, edit: Edit<'_>) -> Result<Row, Fault>
    ensures value { Reads result (changed edit.entry row.now) }
    ensures table { IfOk result (λ new. new.table ≡ row.now.table) }
{
    match edit {
        Edit::Write(values) => updated(alloc, row, values),
        Edit::Mutate(mutations) => mutated(alloc, row, mutations),
    }
}

fn change_at(
    alloc: Global,
    database: &mut Database,
    table: Table,
    id: RowId,
    edit: Edit<'_>,
) -> Result<(), Fault>
    ensures value { ReadsAs (λ done. database.new.current) result
        (changed_at table id (changed edit.entry) (row_at database.old.current (table, id))
        database.old.current) }
    ensures committed { database.new.committed ≡ database.old.committed }
{
    let Some(row) = database.rows().get(table, id) else {
        return Ok(());
    };
    let new = changed(alloc, row, edit)?;
    database.replace(table, id, new)?;
    Ok(())
}

fn change_each(
    alloc: Global,
    database: &mut Database,
    table: Table,
    edit: Edit<'_>,
    ids: &[RowId],
) -> Result<(), Fault>
    ensures value { ReadsAs (λ done. database.new.current) result
        (change_each table (changed edit.entry) ids.now database.old.current) }
    ensures committed { database.new.committed ≡ database.old.committed }
{
    'ids: for id in ids {
        change_at(alloc, database, table, *id, edit)?;
    }
    Ok(())
}

fn remove_each(database: &mut Database, table: Table, ids: &[RowId]) -> Result<(), OutOfMemory>
    ensures value { OnOk result (database.new.current
        ≡ remove_each table ids.now database.old.current) }
    ensures committed { database.new.committed ≡ database.old.committed }
{
    'ids: for id in ids {
        database.remove(table, *id)?;
    }
    Ok(())
}

#[tactic(auto, unfolding(crate::specs::Meaning::change))]
fn count_changed(
    alloc: Global,
    database: &mut Database,
    table: Table,
    edit: Edit<'_>,
    ids: &[RowId],
) -> Result<OpResult, Fault>
    ensures value { ReadsAs (λ reply. (seen reply, database.new.current)) result
        (change table (changed edit.entry) ids.now database.old.current) }
    ensures committed { database.new.committed ≡ database.old.committed }
{
    change_each(alloc, database, table, edit, ids)?;
    Ok(OpResult::Count(ids.len() as u64))
}

#[tactic(auto, unfolding(crate::specs::Meaning::change_step))]
fn change(
    alloc: Global,
    database: &mut Database,
    table: Table,
    conditions: &[Condition],
    edit: Edit<'_>,
) -> Result<OpResult, Fault>
    ensures value { ReadsAs (λ reply. (seen reply, database.new.current)) result
        (change_step table conditions.now (changed edit.entry) database.old.current) }
    ensures committed { database.new.committed ≡ database.old.committed }
{
    let ids = selected(alloc, database.rows(), table, conditions)?;
    count_changed(alloc, database, table, edit, ids.as_slice())
}

#[tactic(auto, unfolding(crate::specs::Meaning::update_step))]
fn update(
    alloc: Global,
    database: &mut Database,
    table: Table,
    conditions: &[Condition],
    values: &[(Column, Datum)],
) -> Result<OpResult, Fault>
    ensures value { ReadsAs (λ reply. (seen reply, database.new.current)) result
        (update_step table conditions.now values.now database.old.current) }
    ensures committed { database.new.committed ≡ database.old.committed }
{
    change(alloc, database, table, conditions, Edit::Write(values))
}

#[tactic(auto, unfolding(crate::specs::Meaning::mutate_step))]
fn mutate(
    alloc: Global,
    database: &mut Database,
    table: Table,
    conditions: &[Condition],
    mutations: &[Mutation],
) -> Result<OpResult, Fault>
    ensures value { ReadsAs (λ reply. (seen reply, database.new.current)) result
        (mutate_step table conditions.now mutations.now database.old.current) }
    ensures committed { database.new.committed ≡ database.old.committed }
{
    change(alloc, database, table, conditions, Edit::Mutate(mutations))
}

fn delete(
    alloc: Global,
    database: &mut Database,
    table: Table,
    conditions: &[Condition],
) -> Result<OpResult, OutOfMemory>
    ensures value { IfOk result (λ reply. (seen reply, database.new.current)
        ≡ delete table (selected table conditions.now database.old.current) database.old.current) }
    ensures committed { database.new.committed ≡ database.old.committed }
{
    let ids = selected(alloc, database.rows(), table, conditions)?;
    remove_each(database, table, ids.as_slice())?;
    Ok(OpResult::Count(ids.len() as u64))
}

fn select(
    alloc: Global,
    rows: &Rows,
    table: Table,
    conditions: &[Condition],
    columns: &Option<List<Field>>,
) -> Result<OpResult, OutOfMemory>
    ensures { IfOk result (λ reply. seen reply ≡ select table conditions.now columns.now rows.now) }
{
    let ids = selected(alloc, rows, table, conditions)?;
    let found = selected_rows(alloc, rows, table, columns, ids.as_slice())?;
    Ok(OpResult::Rows(found))
}

fn is_same(
    alloc: Global,
    rows: &Rows,
    table: Table,
    columns: &Option<List<Field>>,
    ids: &[RowId],
    given: &[List<(Field, Datum)>],
) -> Result<bool, OutOfMemory>
    ensures { IfOk result (λ b. b ≡ same_rows (waited_fields table columns.now) rows.now table
        ids.now given.now) }
{
    match columns {
        Some(fields) => same_rows(alloc, fields.as_slice(), rows, table, ids, given),
        None => {
            let fields = all_fields(alloc, table)?;
            same_rows(alloc, fields.as_slice(), rows, table, ids, given)
        }
    }
}

fn update_named(
    alloc: Global,
    names: &NamedRows,
    database: &mut Database,
    table: Table,
    conditions: &List<Condition>,
    row: &List<(Column, Datum)>,
) -> Result<OpResult, Fault>
    ensures value { ReadsAs (λ reply. (seen reply, database.new.current)) result
        (update_step table (resolved_conditions names.now conditions.now)
        (resolved_cells names.now row.now) database.old.current) }
    ensures committed { database.new.committed ≡ database.old.committed }
{
    let conditions = resolved_conditions(alloc, names, conditions.as_slice())?;
    let row = resolved_row(alloc, names, row.as_slice())?;
    update(
        alloc,
        database,
        table,
        conditions.as_slice(),
        row.as_slice(),
    )
}

fn mutate_named(
    alloc: Global,
    names: &NamedRows,
    database: &mut Database,
    table: Table,
    conditions: &List<Condition>,
    mutations: &List<Mutation>,
) -> Result<OpResult, Fault>
    ensures value { ReadsAs (λ reply. (seen reply, database.new.current)) result
        (mutate_step table (resolved_conditions names.now conditions.now)
        (resolved_mutations names.now mutations.now) database.old.current) }
    ensures committed { database.new.committed ≡ database.old.committed }
{
    let conditions = resolved_conditions(alloc, names, conditions.as_slice())?;
    let mutations = resolved_mutations(alloc, names, mutations.as_slice())?;
    mutate(
        alloc,
        database,
        table,
        conditions.as_slice(),
        mutations.as_slice(),
    )
}

fn insert_named(
    alloc: Global,
    names: &NamedRows,
    database: &mut Database,
    table: Table,
    row: &[(Column, Datum)],
) -> Result<OpResult, Fault>
    ensures value { ReadsAs (λ reply. (seen reply, database.new.current)) result
        (insert table (resolved_cells names.now row.now) database.old.current) }
    ensures committed { database.new.committed ≡ database.old.committed }
{
    let row = resolved_row(alloc, names, row)?;
    insert(alloc, database, table, row)
}

fn select_named(
    alloc: Global,
    names: &NamedRows,
    rows: &Rows,
    table: Table,
    conditions: &List<Condition>,
    columns: &Option<List<Field>>,
) -> Result<OpResult, Fault>
    ensures { ReadsAs (λ reply. (seen reply, rows.now)) result
        (select_step table (resolved_conditions names.now conditions.now) columns.now rows.now) }
{
    let conditions = resolved_conditions(alloc, names, conditions.as_slice())?;
    Ok(select(alloc, rows, table, conditions.as_slice(), columns)?)
}

fn delete_named(
    alloc: Global,
    names: &NamedRows,
    database: &mut Database,
    table: Table,
    conditions: &List<Condition>,
) -> Result<OpResult, Fault>
    ensures value { ReadsAs (λ reply. (seen reply, database.new.current)) result
        (delete_step table (resolved_conditions names.now conditions.now) database.old.current) }
    ensures committed { database.new.committed ≡ database.old.committed }
{
    let conditions = resolved_conditions(alloc, names, conditions.as_slice())?;
    Ok(delete(alloc, database, table, conditions.as_slice())?)
}

/// Whether the rows that are waited for are those that are there.
fn is_same_named(
    alloc: Global,
    names: &NamedRows,
    rows: &Rows,
    table: Table,
    conditions: &List<Condition>,
    columns: &Option<List<Field>>,
    given: &List<List<(Field, Datum)>>,
) -> Result<bool, OutOfMemory>
    ensures { IfOk result (λ same. same
        ≡ same_rows (waited_fields table columns.now) rows.now table
        (selected table (resolved_conditions names.now conditions.now) rows.now)
        (resolved_rows names.now given.now)) }
{
    let conditions = resolved_conditions(alloc, names, conditions.as_slice())?;
    let given = resolved_rows(alloc, names, given.as_slice())?;
    let ids = selected(alloc, rows, table, conditions.as_slice())?;
    is_same(
        alloc,
        rows,
        table,
        columns,
        ids.as_slice(),
        given.as_slice(),
    )
}

/// An operation, and what its names stand for.
#[tactic(auto, unfolding(crate::specs::Meaning::wait))]
pub(crate) fn run_op(
    alloc: Global,
    names: &NamedRows,
    database: &mut Database,
    op: &Op,
) -> Result<OpResult, Fault>
    ensures value { ReadsAs (λ reply. (seen reply, database.new.current)) result
        (run_op names.now op.now database.old.current) }
    ensures committed { database.new.committed ≡ database.old.committed }
{
    match op {
        Op::Insert { table, row, .. } => insert_named(
            alloc,
            names,
            database,
            *table,
            row.as_slice(),
        ),
        Op::Select {
            table,
            conditions,
            columns,
        } => select_named(alloc, names, database.rows(), *table, conditions, columns),
        Op::Update {
            table,
            conditions,
            row,
        } => update_named(alloc, names, database, *table, conditions, row),
        Op::Mutate {
            table,
            conditions,
            mutations,
        } => mutate_named(alloc, names, database, *table, conditions, mutations),
        Op::Delete { table, conditions } => delete_named(
            alloc, names, database, *table, conditions,
        ),
        Op::Wait {
            table,
            conditions,
            columns,
            until,
            rows: given,
        } => {
            let same = is_same_named(
                alloc,
                names,
                database.rows(),
                *table,
                conditions,
                columns,
                given,
            )?;
            if !waits_for(*until, same) {
                return Err(Fault::Refused(Word::TimedOut));
            }
            Ok(OpResult::Empty)
        }
        Op::Commit { durable } => {
            if *durable {
                return Err(Fault::Refused(Word::NotSupported));
            }
            Ok(OpResult::Empty)
        }
        Op::Abort => Err(Fault::Refused(Word::Aborted)),
        Op::Comment => Ok(OpResult::Empty),
    }
}
