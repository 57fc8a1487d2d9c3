//! Maps from atoms to atoms.

ghost use Rattle.std.specs.Prelude.{◌≡◌, not, [], ◌++◌, filter, option_map, IfSome, IfOk, OnOk};
ghost use Rattle.std.specs.List.Sorted.{IsStrictlySortedBy};
ghost use Rattle.std.specs.Map.{keys_of};
ghost use Rattle.ovsdb_values.specs.Atoms.{atom_cmp, map_from};
ghost use Rattle.ovsdb_values.specs.Sets.{has_atom, has_pair, map_of, value_in};

use crate::atom_sets::{AtomSet, contains_atom};
use crate::atoms::Atom;
use std::alloc::Global;
use std::collections::BTreeMap;
use std::marker::Model;
use vtep_base::{List, OutOfMemory};

/// Pairs in the order of their keys, each key once.
#[derive(Debug, Drop)]
pub struct AtomMap {
    pairs: Vec<(Atom, Atom)>,
}

impl Model for AtomMap {
    ghost use Rattle.std.specs.Prelude.{List as Items};
    ghost use Rattle.std.specs.List.Sorted.{IsStrictlySortedBy};
    ghost use Rattle.std.specs.Map.{keys_of};
    ghost use Rattle.ovsdb_values.specs.Atoms.{atom_cmp};
    ghost use Rattle.ovsdb_values.specs.declared.atoms.Atom.{Atom};

    ghost Value = { Items (Atom × Atom) };

    ghost view = { λ m. m.pairs.items };

    ghost invariant = { λ m. IsStrictlySortedBy atom_cmp (keys_of m.pairs.items) };
}

impl AtomMap {
    /// The empty map.
    pub fn new(alloc: Global) -> AtomMap
        ensures { result ≡ [] }
    {
        AtomMap {
            pairs: Vec::new(alloc),
        }
    }

    /// The map of these pairs, or none where a key stands twice.
    pub fn of(alloc: Global, pairs: List<(Atom, Atom)>) -> Result<Option<AtomMap>, OutOfMemory>
        ensures value { IfOk result (λ m. m ≡ map_from [] pairs) }
        ensures ordered { IfOk result
            (λ m. IfSome m (λ ps. IsStrictlySortedBy atom_cmp (keys_of ps))) }
    {
        let mut ordered = BTreeMap::new(alloc);
        'pairs: for (key, value) in pairs.into_vec() {
            if ordered.contains_key(&key) {
                return Ok(None);
            }
            ordered.insert(key, value)?;
        }
        Ok(Some(AtomMap {
            pairs: in_key_order(alloc, ordered)?,
        }))
    }

    /// The map of these pairs, of those with one key the first.
    pub fn merged(alloc: Global, pairs: List<(Atom, Atom)>) -> Result<AtomMap, OutOfMemory>
        ensures { IfOk result (λ m. m ≡ map_of pairs) }
    {
        let mut ordered = BTreeMap::new(alloc);
        'pairs: for (key, value) in pairs.into_vec() {
            if !ordered.contains_key(&key) {
                ordered.insert(key, value)?;
            }
        }
        Ok(AtomMap {
            pairs: in_key_order(alloc, ordered)?,
        })
    }

    /// The pairs in the order of their keys.
    pub fn as_slice(&self) -> &[(Atom, Atom)]
        ensures value { result.now ≡ self.now }
        ensures ordered { IsStrictlySortedBy atom_cmp (keys_of result.now) }
    {
        self.pairs.as_slice()
    }

    /// The value at a key.
    pub fn get(&self, key: &Atom) -> Option<&Atom>
        ensures { option_map (λ value. value.now) result ≡ value_in self.now key.now }
    {
        find_value(self.pairs.as_slice(), key)
    }

    /// The pairs of both maps. A key of both keeps its value here.
    pub fn with_all(&self, alloc: Global, other: &AtomMap) -> Result<AtomMap, OutOfMemory>
        ensures { IfOk result (λ m. m ≡ map_of (self.now ++ other.now)) }
    {
        let mut pairs = List::new(alloc);
        add_copies(&mut pairs, alloc, self.pairs.as_slice())?;
        add_copies(&mut pairs, alloc, other.pairs.as_slice())?;
        AtomMap::merged(alloc, pairs)
    }

    /// The pairs whose keys are not in the set.
    pub fn without_keys(&self, alloc: Global, keys: &AtomSet) -> Result<AtomMap, OutOfMemory>
        ensures { IfOk result (λ m. m ≡ filter (λ p. not (has_atom keys.now p.0)) self.now) }
    {
        Ok(AtomMap {
            pairs: pairs_without_keys(alloc, self.pairs.as_slice(), keys.as_slice())?,
        })
    }

    /// The pairs that are not in the other map.
    pub fn without_all(&self, alloc: Global, other: &AtomMap) -> Result<AtomMap, OutOfMemory>
        ensures { IfOk result (λ m. m ≡ filter (λ p. not (has_pair other.now p)) self.now) }
    {
        Ok(AtomMap {
            pairs: other_pairs(alloc, self.pairs.as_slice(), other.pairs.as_slice())?,
        })
    }

    /// An equal map.
    pub fn copy(&self, alloc: Global) -> Result<AtomMap, OutOfMemory>
        ensures { IfOk result (λ copy. copy ≡ self.now) }
    {
        Ok(AtomMap {
            pairs: copy_pairs(alloc, self.pairs.as_slice())?,
        })
    }
}

impl PartialEq for AtomMap {
    ghost use Rattle.ovsdb_values.specs.Sets.{same_pairs};
    ghost use Rattle.ovsdb_values.specs.Exact.{same_pairs_laws};

    ghost eq = { same_pairs };

    ghost laws = { same_pairs_laws };

    fn eq(&self, other: &AtomMap) -> bool {
        self.pairs.as_slice() == other.pairs.as_slice()
    }
}

fn find_value<'a>(pairs: &'a [(Atom, Atom)], key: &Atom) -> Option<&'a Atom>
    ensures { option_map (λ value. value.now) result ≡ value_in pairs.now key.now }
{
    'pairs: for (own, value) in pairs {
        if key == own {
            return Some(value);
        }
    }
    None
}

fn contains_pair(pairs: &[(Atom, Atom)], pair: &(Atom, Atom)) -> bool
    ensures { result ≡ has_pair pairs.now pair.now }
{
    'pairs: for one in pairs {
        if pair == one {
            return true;
        }
    }
    false
}

fn in_key_order(
    alloc: Global,
    ordered: BTreeMap<Atom, Atom>,
) -> Result<Vec<(Atom, Atom)>, OutOfMemory>
    ensures value { IfOk result (λ pairs. pairs.items ≡ ordered.entries) }
    ensures ordered { IfOk result (λ pairs. IsStrictlySortedBy atom_cmp (keys_of pairs.items)) }
{
    let mut pairs = Vec::with_capacity(alloc, ordered.len())?;
    'ordered: for pair in ordered {
        pairs.push(pair)?;
    }
    Ok(pairs)
}

fn copy_pair(alloc: Global, pair: &(Atom, Atom)) -> Result<(Atom, Atom), OutOfMemory>
    ensures { IfOk result (λ copy. copy ≡ pair.now) }
{
    let key = pair.0.copy(alloc)?;
    let value = pair.1.copy(alloc)?;
    Ok((key, value))
}

fn copy_pairs(alloc: Global, pairs: &[(Atom, Atom)]) -> Result<Vec<(Atom, Atom)>, OutOfMemory>
    ensures { IfOk result (λ copy. copy.items ≡ pairs.now) }
{
    let mut copy = Vec::with_capacity(alloc, pairs.len())?;
    'pairs: for pair in pairs {
        copy.push(copy_pair(alloc, pair)?)?;
    }
    Ok(copy)
}

fn add_copies(
    to: &mut List<(Atom, Atom)>,
    alloc: Global,
    pairs: &[(Atom, Atom)],
) -> Result<(), OutOfMemory>
    ensures { OnOk result (to.new ≡ to.old ++ pairs.now) }
{
    'pairs: for pair in pairs {
        to.push(copy_pair(alloc, pair)?)?;
    }
    Ok(())
}

/// The pairs whose keys are not among these, which keep their order.
fn pairs_without_keys(
    alloc: Global,
    pairs: &[(Atom, Atom)],
    keys: &[Atom],
) -> Result<Vec<(Atom, Atom)>, OutOfMemory>
    ensures { IfOk result (λ rest. rest.items
        ≡ filter (λ p. not (has_atom keys.now p.0)) pairs.now) }
{
    let mut rest = Vec::new(alloc);
    'pairs: for pair in pairs {
        if !contains_atom(keys, &pair.0) {
            rest.push(copy_pair(alloc, pair)?)?;
        }
    }
    rest.shrink_to_fit();
    Ok(rest)
}

/// Those of the pairs that are not among the others, which keep their order.
fn other_pairs(
    alloc: Global,
    pairs: &[(Atom, Atom)],
    others: &[(Atom, Atom)],
) -> Result<Vec<(Atom, Atom)>, OutOfMemory>
    ensures { IfOk result (λ rest. rest.items
        ≡ filter (λ p. not (has_pair others.now p)) pairs.now) }
{
    let mut rest = Vec::new(alloc);
    'pairs: for pair in pairs {
        if !contains_pair(others, pair) {
            rest.push(copy_pair(alloc, pair)?)?;
        }
    }
    rest.shrink_to_fit();
    Ok(rest)
}
