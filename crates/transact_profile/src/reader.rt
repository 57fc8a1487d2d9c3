//! Operations as they are written.

ghost use Rattle.std.specs.Prelude.{◌≡◌, option_map, IfOk};
ghost use Rattle.serde_json.specs.View.{view};
ghost use Rattle.transact_profile.specs.Refusing.{Reads};
ghost use Rattle.transact_profile.specs.Operations.{is_new, insert_read, select_read, update_read, mutate_read, delete_read, wait_read, commit_read, comment_read, named_op, op_read};

use crate::columns::{
    columns_known, is_whole_row, none_fixed, none_mutated, objects_known, row_known, row_permitted,
    triples_known, triples_permitted,
};
use crate::faults::Fault;
use crate::known::Known;
use crate::members::{
    boolean_member, object_member, objects_member, optional_number, optional_text, optional_texts,
    text_member, triples_member, until_member,
};
use crate::names::NameSet;
use crate::operations::Op;
use crate::parts::{cells, chosen, conditions, mutations, table_read, waited_rows};
use ovsdb_values::Atom;
use serde_json::Value;
use std::alloc::Global;
use vtep_base::{OutOfMemory, Txt, Word};
use vtep_schema::table_rule;

const UNKNOWN_COLUMN: Fault = Fault::Refused(Word::UnknownColumn);

const NOT_PERMITTED: Fault = Fault::Refused(Word::PermissionError);

const OUT_OF_BOUNDS: Fault = Fault::Refused(Word::ConstraintViolation);

fn is_new(alloc: Global, earlier: &NameSet, name: Option<&str>) -> Result<bool, OutOfMemory>
    ensures { IfOk result (λ new. new
        ≡ is_new earlier.now (option_map (λ s. s.now) name.entry)) }
{
    match name {
        Some(name) => {
            let name = Atom::Named(Txt::from_str(alloc, name)?);
            Ok(!earlier.has(&name))
        }
        None => Ok(true),
    }
}

fn owned(alloc: Global, name: Option<&str>) -> Result<Option<Txt>, OutOfMemory>
    ensures { IfOk result (λ copy. copy ≡ option_map (λ s. s.now) name.entry) }
{
    match name {
        Some(name) => Ok(Some(Txt::from_str(alloc, name)?)),
        None => Ok(None),
    }
}

fn insert_read(
    alloc: Global,
    known: &Known,
    earlier: &NameSet,
    operation: &Value,
) -> Result<Op, Fault>
    ensures { Reads result (insert_read known.now earlier.now (view operation.now)) }
{
    let table = text_member("table", operation)?;
    let row = object_member("row", operation)?;
    let name = optional_text("uuid-name", operation)?;
    let table = table_read(table)?;
    if !row_known(table, row) {
        return Err(UNKNOWN_COLUMN);
    }
    if !(table_rule(table).open_to_sessions && row_permitted(table, row)) {
        return Err(NOT_PERMITTED);
    }
    if !is_new(alloc, earlier, name)? {
        return Err(Fault::Refused(Word::DuplicateUuidName));
    }
    let row = cells(alloc, known, table, row)?;
    if !is_whole_row(table, row.as_slice()) {
        return Err(OUT_OF_BOUNDS);
    }
    let name = owned(alloc, name)?;
    Ok(Op::Insert { table, row, name })
}

fn select_read(alloc: Global, known: &Known, operation: &Value) -> Result<Op, Fault>
    ensures { Reads result (select_read known.now (view operation.now)) }
{
    let table = text_member("table", operation)?;
    let triples = triples_member("where", operation)?;
    let columns = optional_texts("columns", operation)?;
    let table = table_read(table)?;
    if !(triples_known(table, triples) && columns_known(table, columns)) {
        return Err(UNKNOWN_COLUMN);
    }
    let conditions = conditions(alloc, known, table, triples)?;
    let columns = chosen(alloc, table, columns)?;
    Ok(Op::Select {
        table,
        conditions,
        columns,
    })
}

fn update_read(alloc: Global, known: &Known, operation: &Value) -> Result<Op, Fault>
    ensures { Reads result (update_read known.now (view operation.now)) }
{
    let table = text_member("table", operation)?;
    let triples = triples_member("where", operation)?;
    let row = object_member("row", operation)?;
    let table = table_read(table)?;
    if !(row_known(table, row) && triples_known(table, triples)) {
        return Err(UNKNOWN_COLUMN);
    }
    if !row_permitted(table, row) {
        return Err(NOT_PERMITTED);
    }
    let row = cells(alloc, known, table, row)?;
    let conditions = conditions(alloc, known, table, triples)?;
    if !none_fixed(row.as_slice()) {
        return Err(OUT_OF_BOUNDS);
    }
    Ok(Op::Update {
        table,
        conditions,
        row,
    })
}

fn mutate_read(alloc: Global, known: &Known, operation: &Value) -> Result<Op, Fault>
    ensures { Reads result (mutate_read known.now (view operation.now)) }
{
    let table = text_member("table", operation)?;
    let triples = triples_member("where", operation)?;
    let changes = triples_member("mutations", operation)?;
    let table = table_read(table)?;
    if !(triples_known(table, triples) && triples_known(table, changes)) {
        return Err(UNKNOWN_COLUMN);
    }
    if !triples_permitted(table, changes) {
        return Err(NOT_PERMITTED);
    }
    let conditions = conditions(alloc, known, table, triples)?;
    let mutations = mutations(alloc, known, table, changes)?;
    if !none_mutated(mutations.as_slice()) {
        return Err(OUT_OF_BOUNDS);
    }
    Ok(Op::Mutate {
        table,
        conditions,
        mutations,
    })
}

fn delete_read(alloc: Global, known: &Known, operation: &Value) -> Result<Op, Fault>
    ensures { Reads result (delete_read known.now (view operation.now)) }
{
    let table = text_member("table", operation)?;
    let triples = triples_member("where", operation)?;
    let table = table_read(table)?;
    if !triples_known(table, triples) {
        return Err(UNKNOWN_COLUMN);
    }
    if !table_rule(table).open_to_sessions {
        return Err(NOT_PERMITTED);
    }
    let conditions = conditions(alloc, known, table, triples)?;
    Ok(Op::Delete { table, conditions })
}

fn wait_read(alloc: Global, known: &Known, operation: &Value) -> Result<Op, Fault>
    ensures { Reads result (wait_read known.now (view operation.now)) }
{
    let table = text_member("table", operation)?;
    let triples = triples_member("where", operation)?;
    let columns = optional_texts("columns", operation)?;
    let until = until_member("until", operation)?;
    let rows = objects_member("rows", operation)?;
    let _timeout = optional_number("timeout", operation)?;
    let table = table_read(table)?;
    if !(triples_known(table, triples)
        && columns_known(table, columns)
        && objects_known(table, rows))
    {
        return Err(UNKNOWN_COLUMN);
    }
    let conditions = conditions(alloc, known, table, triples)?;
    let columns = chosen(alloc, table, columns)?;
    let rows = waited_rows(alloc, known, table, &columns, rows)?;
    Ok(Op::Wait {
        table,
        conditions,
        columns,
        until,
        rows,
    })
}

fn commit_read(operation: &Value) -> Result<Op, Fault>
    ensures { Reads result (commit_read (view operation.now)) }
{
    let durable = boolean_member("durable", operation)?;
    Ok(Op::Commit { durable })
}

fn comment_read(operation: &Value) -> Result<Op, Fault>
    ensures { Reads result (comment_read (view operation.now)) }
{
    let _text = text_member("comment", operation)?;
    Ok(Op::Comment)
}

fn named_op(
    alloc: Global,
    known: &Known,
    earlier: &NameSet,
    name: &str,
    operation: &Value,
) -> Result<Op, Fault>
    ensures { Reads result (named_op known.now earlier.now name.now (view operation.now)) }
{
    match name {
        "insert" => insert_read(alloc, known, earlier, operation),
        "select" => select_read(alloc, known, operation),
        "update" => update_read(alloc, known, operation),
        "mutate" => mutate_read(alloc, known, operation),
        "delete" => delete_read(alloc, known, operation),
        "wait" => wait_read(alloc, known, operation),
        "commit" => commit_read(operation),
        "abort" => Ok(Op::Abort),
        "comment" => comment_read(operation),
        "assert" => Err(Fault::Refused(Word::NotSupported)),
        _ => Err(Fault::Refused(Word::SyntaxError)),
    }
}

/// An operation, of which the names of the earlier insertions are given, or its first fault.
pub(crate) fn op_read(
    alloc: Global,
    known: &Known,
    earlier: &NameSet,
    operation: &Value,
) -> Result<Op, Fault>
    ensures { Reads result (op_read known.now earlier.now (view operation.now)) }
{
    let name = text_member("op", operation)?;
    named_op(alloc, known, earlier, name, operation)
}
