//! How a datum is written in JSON.

ghost use Rattle.std.specs.Prelude.{◌≡◌, map, IfOk, Ok};
ghost use Rattle.serde_json.specs.Data.{string};
ghost use Rattle.serde_json.specs.View.{view};
ghost use Rattle.json_notation.specs.Json.{list};
ghost use Rattle.ovsdb_values.specs.Notation.{id_text, pair_json, word_json, atom_json, entry_json, set_json, datum_json, datum_of, IsOf};

use crate::atoms::Atom;
use crate::datums::Datum;
use serde_json::Value;
use std::alloc::Global;
use uuid::Uuid;
use vtep_base::{OutOfMemory, RowId, Shape};

fn string_json(alloc: Global, text: &str) -> Result<Value, OutOfMemory>
    ensures { IfOk result (λ v. view v ≡ string text.now) }
{
    Ok(Value::String(String::from_str(alloc, text)?))
}

fn pair_json(alloc: Global, first: Value, second: Value) -> Result<Value, OutOfMemory>
    ensures { IfOk result (λ v. view v ≡ pair_json (view first) (view second)) }
{
    let mut items = Vec::with_capacity(alloc, 2)?;
    items.push(first)?;
    items.push(second)?;
    Ok(Value::Array(items))
}

fn word_json(alloc: Global, word: &str, value: Value) -> Result<Value, OutOfMemory>
    ensures { IfOk result (λ v. view v ≡ word_json word.now (view value)) }
{
    let word = string_json(alloc, word)?;
    pair_json(alloc, word, value)
}

fn id_json(alloc: Global, id: RowId) -> Result<Value, OutOfMemory>
    ensures { IfOk result (λ v. view v ≡ string (id_text id)) }
{
    let mut buffer = Uuid::encode_buffer();
    let text = Uuid::from_u128(id).hyphenated().encode_lower(&mut buffer);
    string_json(alloc, text)
}

fn atom_json(alloc: Global, atom: &Atom) -> Result<Value, OutOfMemory>
    ensures { IfOk result (λ v. view v ≡ atom_json atom.now) }
{
    match atom {
        Atom::Integer(number) => Ok(Value::from(*number)),
        Atom::Text(text) => string_json(alloc, text.as_str()),
        Atom::Id(id) => word_json(alloc, "uuid", id_json(alloc, *id)?),
        Atom::Named(name) => word_json(alloc, "named-uuid", string_json(alloc, name.as_str())?),
    }
}

fn entry_json(alloc: Global, pair: &(Atom, Atom)) -> Result<Value, OutOfMemory>
    ensures { IfOk result (λ v. view v ≡ entry_json pair.now) }
{
    let first = atom_json(alloc, &pair.0)?;
    let second = atom_json(alloc, &pair.1)?;
    pair_json(alloc, first, second)
}

fn atoms_json(alloc: Global, atoms: &[Atom]) -> Result<Value, OutOfMemory>
    ensures { IfOk result (λ v. view v ≡ list (map atom_json atoms.now)) }
{
    let mut items = Vec::new(alloc);
    'atoms: for atom in atoms {
        items.push(atom_json(alloc, atom)?)?;
    }
    Ok(Value::Array(items))
}

fn entries_json(alloc: Global, pairs: &[(Atom, Atom)]) -> Result<Value, OutOfMemory>
    ensures { IfOk result (λ v. view v ≡ list (map entry_json pairs.now)) }
{
    let mut items = Vec::new(alloc);
    'pairs: for pair in pairs {
        items.push(entry_json(alloc, pair)?)?;
    }
    Ok(Value::Array(items))
}

fn set_json(alloc: Global, atoms: &[Atom]) -> Result<Value, OutOfMemory>
    ensures { IfOk result (λ v. view v ≡ set_json atoms.now) }
{
    if let [atom] = atoms {
        return atom_json(alloc, atom);
    }
    word_json(alloc, "set", atoms_json(alloc, atoms)?)
}

/// Writes a datum in its one canonical form (RFC 7047, section 5.1): a set of one as its atom, every other set as
/// `["set", ..]`, identifiers in lower case, and all in order.
pub fn to_json(alloc: Global, datum: &Datum, shape: Shape) -> Result<Value, OutOfMemory>
    ensures value { IfOk result (λ value. view value ≡ datum_json datum.now) }
    // What is written of a datum of the shape means that datum.
    ensures read_back { IsOf shape datum.now
        → IfOk result (λ value. datum_of shape (view value) ≡ Ok datum.now) }
{
    datum_json(alloc, datum)
}

fn datum_json(alloc: Global, datum: &Datum) -> Result<Value, OutOfMemory>
    ensures { IfOk result (λ value. view value ≡ datum_json datum.now) }
{
    match datum {
        Datum::Set(set) => set_json(alloc, set.as_slice()),
        Datum::Map(map) => word_json(alloc, "map", entries_json(alloc, map.as_slice())?),
    }
}
