//! The operations of a transaction.

ghost use Rattle.std.specs.Prelude.{◌≡◌, [], map, length, drop, IfOk, OnOk};
ghost use Rattle.vtep_base.specs.Maps as maps;
ghost use Rattle.serde_json.specs.View.{view};
ghost use Rattle.transact_profile.specs.Transaction.{no_insertion, with_insertion, known_insertions, with_name_of, read_from, read_with, operations, ops_in};

use crate::faults::Fault;
use crate::known::Known;
use crate::members::items;
use crate::names::NameSet;
use crate::operations::{Op, OpFault, Ops};
use crate::reader::op_read;
use serde_json::Value;
use std::alloc::Global;
use vtep_base::{List, OutOfMemory, Txt};

/// Insertions that were read.
#[derive(Drop)]
pub struct Insertions {
    /// The name of each, in their order.
    pub names: List<Option<Txt>>,
    /// The names that are taken.
    pub taken: NameSet,
}

impl Insertions {
    fn new(alloc: Global) -> Insertions
        ensures { result ≡ no_insertion }
    {
        Insertions {
            names: List::new(alloc),
            taken: NameSet::new(alloc),
        }
    }

    /// Adds an operation, where it is an insertion.
    fn add(&mut self, alloc: Global, operation: Op) -> Result<(), OutOfMemory>
        ensures { OnOk result (self.new ≡ with_insertion self.old operation) }
    {
        match operation {
            Op::Insert {
                table: _table,
                row: _row,
                name,
            } => {
                self.taken.add(alloc, &name)?;
                self.names.push(name)
            }
            _other => Ok(()),
        }
    }
}

/// The insertions before the first operation that can't be read where each name is known.
fn known_insertions(alloc: Global, operations: &[Value]) -> Result<Insertions, OutOfMemory>
    ensures { IfOk result (λ known. known ≡ known_insertions (map view operations.now)) }
{
    let mut known = Insertions::new(alloc);
    'operations: for operation in operations {
        match op_read(alloc, &Known::AnyName, &known.taken, operation) {
            Ok(operation) => known.add(alloc, operation)?,
            Err(Fault::OutOfMemory) => return Err(OutOfMemory),
            Err(Fault::Refused(_)) => return Ok(known),
        }
    }
    Ok(known)
}

/// The operations before the first fault, and that fault.
#[derive(Drop)]
struct ReadSoFar {
    ops: List<Op>,
    fault: Option<OpFault>,
}

/// Adds the name of an insertion.
fn add_name(alloc: Global, earlier: &mut NameSet, operation: &Op) -> Result<(), OutOfMemory>
    ensures { OnOk result (earlier.new ≡ with_name_of earlier.old operation.now) }
{
    match operation {
        Op::Insert { name, .. } => earlier.add(alloc, name),
        _ => Ok(()),
    }
}

fn read_so_far(alloc: Global, known: &Known, operations: &[Value]) -> Result<ReadSoFar, OutOfMemory>
    ensures ops { IfOk result (λ read. read.ops
        ≡ (read_from known.now maps.empty [] 0 (map view operations.now)).ops) }
    ensures fault { IfOk result (λ read. read.fault
        ≡ (read_from known.now maps.empty [] 0 (map view operations.now)).fault) }
{
    let mut ops = List::new(alloc);
    let mut earlier = NameSet::new(alloc);
    let mut index = 0;
    'operations: for operation in operations {
        match op_read(alloc, known, &earlier, operation) {
            Ok(operation) => {
                add_name(alloc, &mut earlier, &operation)?;
                ops.push(operation)?;
            }
            Err(Fault::OutOfMemory) => return Err(OutOfMemory),
            Err(Fault::Refused(word)) => {
                let fault = Some(OpFault { index, word });
                return Ok(ReadSoFar { ops, fault });
            }
        }
        index += 1;
    }
    Ok(ReadSoFar { ops, fault: None })
}

fn read_with(alloc: Global, known: Insertions, operations: &[Value]) -> Result<Ops, OutOfMemory>
    ensures { IfOk result (λ ops. ops ≡ read_with known (map view operations.now)) }
{
    let read = read_so_far(alloc, &Known::OneOf(known.taken), operations)?;
    Ok(Ops {
        ops: read.ops,
        names: known.names,
        fault: read.fault,
        count: operations.len() as u64,
    })
}

/// All but the first of a list; a value that is no list has none.
fn operations(params: &Value) -> &[Value]
    ensures { map view result.now ≡ operations (view params.now) }
{
    match items(params) {
        Some([_, operations @ ..]) => operations,
        _ => &[],
    }
}

/// Reads the operations of a transaction from the params of `transact` (RFC 7047, section 4.1.3), up to the first that can't be
/// read. That one's fault is the first of these that holds.
/// 1. `syntax error`: it is no object, its `op` is unknown, or a member is missing or of a wrong type. `not supported`: its
///    `op` is `assert`.
/// 2. `unknown table`, and then `unknown column`.
/// 3. `permission error`: sessions don't write the table or the column.
/// 4. `duplicate uuid-name`: an earlier insertion has the name.
/// 5. A fault of a value, value by value in the order of `row`, `where`, `mutations` and `rows`: `syntax error` of its notation,
///    `unknown uuid-name`, or `constraint violation` of its range or size.
/// 6. `constraint violation`: a column that never changes is written, or an insertion leaves a column out that it has to give.
///
/// A value may name any insertion before the first operation that has a fault other than an unknown name, also a later one.
pub fn read_ops(alloc: Global, params: &Value) -> Result<Ops, OutOfMemory>
    ensures { IfOk result (λ ops. ops ≡ ops_in (view params.now)) }
{
    let operations = operations(params);
    let known = known_insertions(alloc, operations)?;
    read_with(alloc, known, operations)
}
