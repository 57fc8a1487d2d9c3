//! Sets of atoms.

ghost use Rattle.std.specs.Prelude.{◌≡◌, ◌≤◌, not, [], ◌∷◌, ◌++◌, length, filter, Some, IfSome, IfOk, OnOk};
ghost use Rattle.std.specs.List.Sorted.{IsStrictlySortedBy};
ghost use Rattle.ovsdb_values.specs.Atoms.{atom_cmp, set_from};
ghost use Rattle.ovsdb_values.specs.Sets.{has_atom, set_of};

use crate::atoms::Atom;
use std::alloc::Global;
use std::collections::BTreeSet;
use std::marker::Model;
use vtep_base::{List, OutOfMemory};

/// Atoms in order, each once.
#[derive(Debug, Drop)]
pub struct AtomSet {
    atoms: Vec<Atom>,
}

impl Model for AtomSet {
    ghost use Rattle.std.specs.Prelude.{List as Items};
    ghost use Rattle.std.specs.List.Sorted.{IsStrictlySortedBy};
    ghost use Rattle.ovsdb_values.specs.Atoms.{atom_cmp};
    ghost use Rattle.ovsdb_values.specs.declared.atoms.Atom.{Atom};

    ghost Value = { Items Atom };

    ghost view = { λ s. s.atoms.items };

    ghost invariant = { λ s. IsStrictlySortedBy atom_cmp s.atoms.items };
}

impl AtomSet {
    /// The empty set.
    pub fn new(alloc: Global) -> AtomSet
        ensures { result ≡ [] }
    {
        AtomSet {
            atoms: Vec::new(alloc),
        }
    }

    /// The set of one atom.
    pub fn one(alloc: Global, atom: Atom) -> Result<AtomSet, OutOfMemory>
        ensures { IfOk result (λ set. set ≡ atom ∷ []) }
    {
        let mut atoms = Vec::with_capacity(alloc, 1)?;
        atoms.push(atom)?;
        Ok(AtomSet { atoms })
    }

    /// The set of these atoms, or none where an atom stands twice.
    pub fn of(alloc: Global, atoms: List<Atom>) -> Result<Option<AtomSet>, OutOfMemory>
        ensures value { IfOk result (λ set. set ≡ set_from [] atoms) }
        ensures ordered { IfOk result (λ set. IfSome set (IsStrictlySortedBy atom_cmp)) }
    {
        if atoms.len() <= 1 {
            return Ok(Some(few(atoms)));
        }
        let mut ordered = BTreeSet::new(alloc);
        'atoms: for atom in atoms.into_vec() {
            if ordered.contains(&atom) {
                return Ok(None);
            }
            ordered.insert(atom)?;
        }
        Ok(Some(AtomSet {
            atoms: in_order(alloc, ordered)?,
        }))
    }

    /// The set of these atoms, equal ones made one.
    pub fn merged(alloc: Global, atoms: List<Atom>) -> Result<AtomSet, OutOfMemory>
        ensures { IfOk result (λ set. set ≡ set_of atoms) }
    {
        if atoms.len() <= 1 {
            return Ok(few(atoms));
        }
        let mut ordered = BTreeSet::new(alloc);
        'atoms: for atom in atoms.into_vec() {
            ordered.insert(atom)?;
        }
        Ok(AtomSet {
            atoms: in_order(alloc, ordered)?,
        })
    }

    /// The atoms in order.
    pub fn as_slice(&self) -> &[Atom]
        ensures value { result.now ≡ self.now }
        ensures ordered { IsStrictlySortedBy atom_cmp result.now }
    {
        self.atoms.as_slice()
    }

    /// Whether an atom is in the set.
    pub fn contains(&self, atom: &Atom) -> bool
        ensures { result ≡ has_atom self.now atom.now }
    {
        contains_atom(self.atoms.as_slice(), atom)
    }

    /// The atoms of both sets.
    pub fn with_all(&self, alloc: Global, other: &AtomSet) -> Result<AtomSet, OutOfMemory>
        ensures { IfOk result (λ set. set ≡ set_of (self.now ++ other.now)) }
    {
        let mut atoms = List::new(alloc);
        add_copies(&mut atoms, alloc, self.atoms.as_slice())?;
        add_copies(&mut atoms, alloc, other.atoms.as_slice())?;
        AtomSet::merged(alloc, atoms)
    }

    /// The atoms that are not in the other set.
    pub fn without_all(&self, alloc: Global, other: &AtomSet) -> Result<AtomSet, OutOfMemory>
        ensures { IfOk result (λ set. set ≡ filter (λ x. not (has_atom other.now x)) self.now) }
    {
        Ok(AtomSet {
            atoms: other_atoms(alloc, self.atoms.as_slice(), other.atoms.as_slice())?,
        })
    }

    /// An equal set.
    pub fn copy(&self, alloc: Global) -> Result<AtomSet, OutOfMemory>
        ensures { IfOk result (λ copy. copy ≡ self.now) }
    {
        Ok(AtomSet {
            atoms: copy_atoms(alloc, self.atoms.as_slice())?,
        })
    }
}

impl PartialEq for AtomSet {
    ghost use Rattle.ovsdb_values.specs.Sets.{same_atoms};
    ghost use Rattle.ovsdb_values.specs.Exact.{same_atoms_laws};

    ghost eq = { same_atoms };

    ghost laws = { same_atoms_laws };

    fn eq(&self, other: &AtomSet) -> bool {
        self.atoms.as_slice() == other.atoms.as_slice()
    }
}

pub(crate) fn contains_atom(atoms: &[Atom], atom: &Atom) -> bool
    ensures { result ≡ has_atom atoms.now atom.now }
{
    'atoms: for one in atoms {
        if atom == one {
            return true;
        }
    }
    false
}

/// The set of one atom or none, which need no ordering.
fn few(atoms: List<Atom>) -> AtomSet
    requires { length atoms ≤ 1 }
    ensures value { result ≡ atoms }
    ensures ordered { IsStrictlySortedBy atom_cmp result }
    ensures once { set_from [] atoms ≡ Some atoms }
    ensures merged { set_of atoms ≡ atoms }
{
    let mut atoms = atoms.into_vec();
    atoms.shrink_to_fit();
    AtomSet { atoms }
}

fn in_order(alloc: Global, ordered: BTreeSet<Atom>) -> Result<Vec<Atom>, OutOfMemory>
    ensures value { IfOk result (λ atoms. atoms.items ≡ ordered.keys) }
    ensures ordered { IfOk result (λ atoms. IsStrictlySortedBy atom_cmp atoms.items) }
{
    let mut atoms = Vec::with_capacity(alloc, ordered.len())?;
    'ordered: for atom in ordered {
        atoms.push(atom)?;
    }
    Ok(atoms)
}

fn copy_atoms(alloc: Global, atoms: &[Atom]) -> Result<Vec<Atom>, OutOfMemory>
    ensures { IfOk result (λ copy. copy.items ≡ atoms.now) }
{
    let mut copy = Vec::with_capacity(alloc, atoms.len())?;
    'atoms: for atom in atoms {
        copy.push(atom.copy(alloc)?)?;
    }
    Ok(copy)
}

fn add_copies(to: &mut List<Atom>, alloc: Global, atoms: &[Atom]) -> Result<(), OutOfMemory>
    ensures { OnOk result (to.new ≡ to.old ++ atoms.now) }
{
    'atoms: for atom in atoms {
        to.push(atom.copy(alloc)?)?;
    }
    Ok(())
}

/// Those of the atoms that are not among the others, which keep their order.
fn other_atoms(alloc: Global, atoms: &[Atom], others: &[Atom]) -> Result<Vec<Atom>, OutOfMemory>
    ensures { IfOk result (λ rest. rest.items
        ≡ filter (λ x. not (has_atom others.now x)) atoms.now) }
{
    let mut rest = Vec::new(alloc);
    'atoms: for atom in atoms {
        if !contains_atom(others, atom) {
            rest.push(atom.copy(alloc)?)?;
        }
    }
    rest.shrink_to_fit();
    Ok(rest)
}
