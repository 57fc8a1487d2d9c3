//! Rows of values.

use crate::faults::CaseFault;
use crate::lines::{parts, say, text};
use crate::values::{read, say_datum};
use ovsdb_values::{Atom, AtomSet, Datum};
use std::alloc::Global;
use vtep_base::{Bytes, Kind, List, RowId, Shape};
use vtep_rows::{Row, RowFault};
use vtep_schema::{Column, Table, column_name, columns, named, shape};

/// Adds an identifier, as it stands in JSON.
pub fn say_id(alloc: Global, id: RowId, answer: &mut Bytes) -> Result<(), CaseFault> {
    let id = Datum::Set(AtomSet::one(alloc, Atom::Id(id))?);
    let shape = Shape {
        key: Kind::Id,
        value: None,
    };
    say_datum(alloc, &id, shape, answer)
}

/// Adds the values of a row, a line each.
pub fn say_row(alloc: Global, row: &Row, answer: &mut Bytes) -> Result<(), CaseFault> {
    'columns: for column in columns(row.table()) {
        let Some(datum) = row.find(*column) else {
            return Err(CaseFault::Form);
        };
        let name = column_name(*column);
        answer.append_all(&[name.as_bytes(), b" "])?;
        say_datum(alloc, datum, shape(*column), answer)?;
    }
    Ok(())
}

/// A column and its value: `TABLE COLUMN SHAPE JSON`.
fn value(alloc: Global, line: &Bytes) -> Result<(Column, Datum), CaseFault> {
    let (table, rest) = parts(text(line)?);
    let (name, rest) = parts(rest);
    let Some(column) = named::table(table).and_then(|table| named::column(table, name)) else {
        return Err(CaseFault::Form);
    };
    let (_, datum) = read(alloc, rest)?;
    Ok((column, datum?))
}

fn made(
    alloc: Global,
    word: &str,
    table: Table,
    values: List<(Column, Datum)>,
) -> Result<Result<Row, RowFault>, CaseFault> {
    match word {
        "of" => Ok(Row::of(alloc, table, values)),
        "filled" => Ok(Row::filled(alloc, table, values)),
        _ => Err(CaseFault::Form),
    }
}

/// Adds an equal row to the one that the values of the lines behind the first make, or says that they make none. The first line
/// is `of TABLE`, where they are all values, or `filled TABLE`, where the others are defaults.
pub fn answer(alloc: Global, asked: &[Bytes], answer: &mut Bytes) -> Result<(), CaseFault> {
    let Some((first, lines)) = asked.split_first() else {
        return Err(CaseFault::Form);
    };
    let (word, name) = parts(text(first)?);
    let Some(table) = named::table(name) else {
        return Err(CaseFault::Form);
    };
    let mut values = List::new(alloc);
    'lines: for line in lines {
        values.push(value(alloc, line)?)?;
    }
    match made(alloc, word, table, values)? {
        Ok(row) => say_row(alloc, &row.copy(alloc)?, answer),
        Err(RowFault::Values) => Ok(say(answer, "Values")?),
        Err(RowFault::OutOfMemory) => Err(CaseFault::OutOfMemory),
    }
}
