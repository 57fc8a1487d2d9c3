//! Values of an OVSDB database: atoms, sets and maps, and their notation in JSON (RFC 7047, sections 3.1, 3.2 and 5.1).
#![tactic(auto)]

ghost use Rattle.std.specs.Prelude.{◌≡◌, Ok, List as Items};
ghost use Rattle.std.specs.Bool.{Decides};
ghost use Rattle.std.specs.List.Sorted.{IsStrictlySortedBy};
ghost use Rattle.std.specs.Map.{keys_of};
ghost use Rattle.vtep_base.specs.declared.shapes.Shape.{Shape};
ghost use Rattle.ovsdb_values.specs.declared.atoms.Atom.{Atom};
ghost use Rattle.ovsdb_values.specs.declared.datums.Datum.{Datum};
ghost use Rattle.ovsdb_values.specs.Atoms.{atom_cmp};
ghost use Rattle.ovsdb_values.specs.Sets.{has_atom, map_of, same_datum, set_of, value_in};
ghost use Rattle.ovsdb_values.specs.Notation.{IsOf, datum_of, datum_json};

mod atom_maps;
mod atom_sets;
mod atoms;
mod datums;
mod reader;
mod writer;

pub use atom_maps::AtomMap;
pub use atom_sets::AtomSet;
pub use atoms::Atom;
pub use datums::Datum;
pub use reader::{atoms_from_json, from_json, pairs_from_json, parse_id};
pub use writer::to_json;

/// Why a value is no set or map of its shape.
#[derive(Clone, Copy, Debug, PartialEq, Eq)]
pub enum NotationFault {
    OutOfMemory,
    /// It is in none of the forms of the shape.
    Notation,
    /// An atom or a key stands twice.
    Repeated,
}

impl From<vtep_base::OutOfMemory> for NotationFault {
    ghost use Rattle.std.specs.Prelude.{◌≡◌};
    ghost use Rattle.ovsdb_values.specs.declared.NotationFault.TheVariants.{OutOfMemory};

    ghost from_gives = { λ _ e. e ≡ OutOfMemory };

    fn from(_error: vtep_base::OutOfMemory) -> NotationFault {
        NotationFault::OutOfMemory
    }
}

/// A law: reading what is written of a datum of a shape gives the datum.
pub fn written_is_read()
    ensures { (shape : Shape) (datum : Datum) → IsOf shape datum → datum_of shape (datum_json datum)
        ≡ Ok datum }
{}

/// Laws: what a set or a map holds is what the list holds that it is made of, in order; of the pairs with one key it has the
/// first. Two values are the same by test exactly where they are equal.
pub fn sets_hold_their_atoms()
    ensures in_order { (atoms : Items Atom) → IsStrictlySortedBy atom_cmp (set_of atoms) }
    ensures members { (atoms : Items Atom) (atom : Atom) → has_atom (set_of atoms) atom
        ≡ has_atom atoms atom }
    ensures keys_in_order { (pairs : Items (Atom × Atom))
        → IsStrictlySortedBy atom_cmp (keys_of (map_of pairs)) }
    ensures values { (pairs : Items (Atom × Atom)) (key : Atom) → value_in (map_of pairs) key
        ≡ value_in pairs key }
    ensures same { (one two : Datum) → Decides (same_datum one two) (one ≡ two) }
{}
