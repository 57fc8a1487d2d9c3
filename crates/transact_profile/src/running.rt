//! A transaction on rows.

ghost use Rattle.std.specs.Prelude.{◌≡◌, ◌+◌, ◌++◌, [], None, map, replicate, true, IfOk, OnOk, OnErr};
ghost use Rattle.transact_profile.specs.Refusing.{ReadsAs};
ghost use Rattle.vtep_base.specs.Maps as maps;
ghost use Rattle.transact_profile.specs.Names.{names_from};
ghost use Rattle.transact_profile.specs.Finish.{seen};
ghost use Rattle.transact_profile.specs.Meaning.{Null, run_op, run_from, fault_word, first_word, failed_results, means};

use crate::effects::run_op;
use crate::faults::Fault;
use crate::names::NamedRows;
use crate::operations::{Op, OpFault, Ops};
use crate::outcomes::{OpResult, Outcome};
use crate::room::list_of;
use std::alloc::Global;
use vtep_base::{List, OutOfMemory, Txt, Word};
use vtep_rows::{Database, Rows};

/// The names of the insertions, and the identifiers that their rows take.
fn names_of(alloc: Global, rows: &Rows, names: &[Option<Txt>]) -> Result<NamedRows, OutOfMemory>
    ensures { IfOk result (λ all. all
        ≡ names_from rows.now.made (rows.now.counter + 1) maps.empty names.now) }
{
    let mut all = NamedRows::new(alloc);
    let mut number = rows.counter() + 1;
    'names: for name in names {
        all.add(alloc, name, rows.id(number))?;
        number += 1;
    }
    Ok(all)
}

/// The results up to the first operation that fails, and its word.
#[derive(Drop)]
struct Ran {
    results: List<OpResult>,
    stopped: Option<Word>,
}

fn run_all(
    alloc: Global,
    names: &NamedRows,
    database: &mut Database,
    ops: &[Op],
) -> Result<Ran, OutOfMemory>
    ensures results { IfOk result (λ ran. map seen ran.results
        ≡ (run_from names.now [] database.old.current ops.now).results) }
    ensures stopped { IfOk result (λ ran. ran.stopped
        ≡ (run_from names.now [] database.old.current ops.now).stopped) }
    ensures rows { IfOk result (λ ran. ran.stopped ≡ None → database.new.current
        ≡ (run_from names.now [] database.old.current ops.now).rows) }
    ensures committed { database.new.committed ≡ database.old.committed }
{
    let mut results = list_of(alloc, ops.len())?;
    'ops: for op in ops {
        match run_op(alloc, names, database, op) {
            Ok(outcome) => results.push(outcome)?,
            Err(Fault::OutOfMemory) => return Err(OutOfMemory),
            Err(Fault::Refused(word)) => {
                return Ok(Ran {
                    results,
                    stopped: Some(word),
                });
            }
        }
    }
    Ok(Ran {
        results,
        stopped: None,
    })
}

/// Adds nothing, so many times.
#[tactic(auto, using(crate::proofs::Pushing::null_pushed))]
fn add_nulls(results: &mut List<OpResult>, count: u64) -> Result<(), OutOfMemory>
    ensures { OnOk result (map seen results.new ≡ map seen results.old ++ replicate count Null) }
{
    let mut left = count;
    'left: while left > 0 {
        results.push(OpResult::Null)?;
        left -= 1;
    }
    Ok(())
}

/// Adds the word of the operation that failed, and nothing for each later one.
#[tactic(auto, using(crate::proofs::Pushing::failure_pushed))]
fn add_failure(results: &mut List<OpResult>, word: Word, count: u64) -> Result<(), OutOfMemory>
    ensures { OnOk result (map seen results.new
        ≡ failed_results count word (map seen results.old)) }
{
    results.push(OpResult::Fault(word))?;
    add_nulls(results, count.saturating_sub(results.len() as u64))
}

/// Runs operations in their order, on the current rows of a database (RFC 7047, section 5.2). Where one fails or can't be read
/// it has its word, each later one has nothing, and the rows are as before, also their counter. It costs what the operations
/// touch, also where one fails.
///
/// - `insert` makes a row of the next number, with the default of each column that is not given. It fails with `constraint
///   violation` where all numbers are given.
/// - `select` gives the rows that meet the conditions, by identifier, cut to its columns.
/// - `update` writes the values, and `mutate` does the mutations in order, in each row that meets the conditions. Arithmetic
///   works on each number of the column: division cuts towards zero, and the remainder has the sign of the dividend. It fails
///   with `domain error` at a division by zero, with `range error` beyond 64 bits, and with `constraint violation` where a
///   column does not allow the result. `insert` leaves a key that is there as it is.
/// - `delete` removes the rows that meet the conditions.
/// - `wait` fails with `timed out` where the rows that meet the conditions, cut to its columns, and the rows that it gives are
///   not the same set, or are, as it asks.
/// - `commit` fails with `not supported` where it asks for durability, and `abort` always fails with `aborted`.
///
/// After an `Err` nothing is said of the database.
pub fn transact_on(
    alloc: Global,
    database: &mut Database,
    ops: &Ops,
) -> Result<Outcome, OutOfMemory>
    requires { database.old.current ≡ database.old.committed }
    ensures results { IfOk result (λ outcome. map seen outcome.results
        ≡ (means ops.now database.old.current).results) }
    ensures failed { IfOk result (λ outcome. outcome.failed
        ≡ (means ops.now database.old.current).failed) }
    ensures rows { OnOk result (database.new ≡ record database.old
        { current = (means ops.now database.old.current).rows }) }
{
    let names = names_of(alloc, database.rows(), ops.names.as_slice())?;
    let ran = run_all(alloc, &names, database, ops.ops.as_slice())?;
    let mut results = ran.results;
    match first_word(ran.stopped, ops.fault) {
        None => Ok(Outcome {
            results,
            failed: false,
        }),
        Some(word) => {
            database.roll_back()?;
            add_failure(&mut results, word, ops.count)?;
            Ok(Outcome {
                results,
                failed: true,
            })
        }
    }
}

/// Runs operations in their order, on rows, as `transact_on` does on a database. After an `Err` the rows are as before.
pub fn transact(alloc: Global, rows: &mut Rows, ops: &Ops) -> Result<Outcome, OutOfMemory>
    ensures results { IfOk result (λ outcome. map seen outcome.results
        ≡ (means ops.now rows.old).results) }
    ensures failed { IfOk result (λ outcome. outcome.failed ≡ (means ops.now rows.old).failed) }
    ensures rows { OnOk result (rows.new ≡ (means ops.now rows.old).rows) }
    // A transaction that fails changes nothing.
    ensures kept { IfOk result (λ outcome. outcome.failed ≡ true → rows.new ≡ rows.old) }
    ensures err { OnErr result (rows.new ≡ rows.old) }
{
    let mut database = Database::new(alloc, rows.copy(alloc)?);
    let outcome = transact_on(alloc, &mut database, ops)?;
    *rows = database.into_rows();
    Ok(outcome)
}

fn first_word(stopped: Option<Word>, fault: Option<OpFault>) -> Option<Word>
    ensures { result ≡ first_word stopped (fault_word fault) }
{
    match (stopped, fault) {
        (Some(word), _) => Some(word),
        (None, Some(fault)) => Some(fault.word),
        (None, None) => None,
    }
}
