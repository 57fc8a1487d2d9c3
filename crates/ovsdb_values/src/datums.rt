//! Sets and maps as values of columns.

ghost use Rattle.std.specs.Prelude.{◌≡◌, IfOk};
ghost use Rattle.ovsdb_values.specs.Sets.{with_all, without_all};

use crate::atom_maps::AtomMap;
use crate::atom_sets::AtomSet;
use std::alloc::Global;
use vtep_base::OutOfMemory;

/// A set or a map of atoms (RFC 7047, section 3.2), sorted and distinct by atom or key.
#[derive(Debug, Drop)]
pub enum Datum {
    Set(AtomSet),
    Map(AtomMap),
}

impl Datum {
    /// All that is in both: the atoms of two sets, or the pairs of two maps, where a key of both keeps its value here. Where one
    /// is a set and the other a map, this datum.
    pub fn with_all(&self, alloc: Global, other: &Datum) -> Result<Datum, OutOfMemory>
        ensures { IfOk result (λ all. all ≡ with_all self.now other.now) }
    {
        match (self, other) {
            (Datum::Set(set), Datum::Set(more)) => Ok(Datum::Set(set.with_all(alloc, more)?)),
            (Datum::Map(map), Datum::Map(more)) => Ok(Datum::Map(map.with_all(alloc, more)?)),
            _ => self.copy(alloc),
        }
    }

    /// What is left without the other: a set without its atoms, or a map without its keys or its pairs. Of a set and a map, this
    /// datum.
    pub fn without_all(&self, alloc: Global, other: &Datum) -> Result<Datum, OutOfMemory>
        ensures { IfOk result (λ rest. rest ≡ without_all self.now other.now) }
    {
        match (self, other) {
            (Datum::Set(set), Datum::Set(atoms)) => Ok(Datum::Set(set.without_all(alloc, atoms)?)),
            (Datum::Map(map), Datum::Set(keys)) => Ok(Datum::Map(map.without_keys(alloc, keys)?)),
            (Datum::Map(map), Datum::Map(pairs)) => Ok(Datum::Map(map.without_all(alloc, pairs)?)),
            _ => self.copy(alloc),
        }
    }

    /// An equal datum.
    pub fn copy(&self, alloc: Global) -> Result<Datum, OutOfMemory>
        ensures { IfOk result (λ copy. copy ≡ self.now) }
    {
        match self {
            Datum::Set(set) => Ok(Datum::Set(set.copy(alloc)?)),
            Datum::Map(map) => Ok(Datum::Map(map.copy(alloc)?)),
        }
    }
}

impl PartialEq for Datum {
    ghost use Rattle.ovsdb_values.specs.Sets.{same_datum};
    ghost use Rattle.ovsdb_values.specs.Exact.{same_datum_laws};

    ghost eq = { same_datum };

    ghost laws = { same_datum_laws };

    fn eq(&self, other: &Datum) -> bool {
        match (self, other) {
            (Datum::Set(one), Datum::Set(two)) => one == two,
            (Datum::Map(one), Datum::Map(two)) => one == two,
            _ => false,
        }
    }
}
