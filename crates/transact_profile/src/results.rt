//! The result array of a transaction.

ghost use Rattle.std.specs.Prelude.{◌≡◌, ◌++◌, map, IfOk, OnOk};
ghost use Rattle.serde_json.specs.View.{view};
ghost use Rattle.ovsdb_values.specs.Notation.{atom_json};
ghost use Rattle.ovsdb_values.specs.declared.atoms.Atom.TheVariants.{Id};
ghost use Rattle.transact_profile.specs.Finish.{seen, error, reply_json, breach_word, breach_json, finished};

use crate::outcomes::{OpResult, Outcome};
use ovsdb_values::{Atom, AtomSet, Datum, to_json};
use serde_json::{Value, json};
use std::alloc::Global;
use vtep_base::{Kind, OutOfMemory, RowId, Shape, Word};
use vtep_rows::Rule;

fn error_json(alloc: Global, word: Word) -> Result<Value, OutOfMemory>
    ensures { IfOk result (λ v. view v ≡ error word) }
{
    Ok(json!(in alloc; {"error": word.text()})?)
}

fn id_json(alloc: Global, id: RowId) -> Result<Value, OutOfMemory>
    ensures { IfOk result (λ v. view v ≡ atom_json (Id id)) }
{
    let id = Datum::Set(AtomSet::one(alloc, Atom::Id(id))?);
    let shape = Shape {
        key: Kind::Id,
        value: None,
    };
    to_json(alloc, &id, shape)
}

fn result_json(alloc: Global, outcome: &OpResult) -> Result<Value, OutOfMemory>
    ensures { IfOk result (λ v. view v ≡ reply_json (seen outcome.now)) }
{
    match outcome {
        OpResult::Inserted(id) => Ok(json!(in alloc; {"uuid": id_json(alloc, *id)?})?),
        OpResult::Rows(rows) => Ok(json!(in alloc; {"rows": rows.clone()?})?),
        OpResult::Count(count) => Ok(json!(in alloc; {"count": *count})?),
        OpResult::Empty => Ok(json!(in alloc; {})?),
        OpResult::Fault(word) => error_json(alloc, *word),
        OpResult::Null => Ok(Value::Null),
    }
}

fn breach_word(rule: Rule) -> Word
    ensures { result ≡ breach_word rule }
{
    match rule {
        Rule::Limit | Rule::Unique => Word::ConstraintViolation,
        Rule::Reference => Word::ReferentialIntegrityViolation,
    }
}

fn results_json(alloc: Global, results: &[OpResult]) -> Result<Vec<Value>, OutOfMemory>
    ensures { IfOk result (λ items. map view items.items ≡ map reply_json (map seen results.now)) }
{
    let mut items = Vec::with_capacity(alloc, results.len())?;
    'results: for outcome in results {
        items.push(result_json(alloc, outcome)?)?;
    }
    Ok(items)
}

/// Adds the error of a rule that is broken.
fn add_breach(
    alloc: Global,
    items: &mut Vec<Value>,
    breach: Option<Rule>,
) -> Result<(), OutOfMemory>
    ensures { OnOk result (map view items.new.items ≡ map view items.old.items
        ++ breach_json breach) }
{
    if let Some(rule) = breach {
        items.push(error_json(alloc, breach_word(rule))?)?;
    }
    Ok(())
}

/// The result array of a transaction (RFC 7047, section 4.1.3): an object for each operation, and null for each that was not
/// looked at. A commit that breaks a rule adds its error: `referential integrity violation` where a row names one that is not
/// there, and else `constraint violation`.
pub fn finish(alloc: Global, outcome: &Outcome, breach: Option<Rule>) -> Result<Value, OutOfMemory>
    ensures { IfOk result (λ value. view value ≡ finished (map seen outcome.now.results) breach) }
{
    let mut items = results_json(alloc, outcome.results.as_slice())?;
    add_breach(alloc, &mut items, breach)?;
    Ok(Value::Array(items))
}
