//! Atoms and their order.

ghost use Rattle.std.specs.Prelude.{◌≡◌, IfOk};
ghost use Rattle.ovsdb_values.specs.Atoms.{rank, integer_in, id_in, text_in};

use std::alloc::Global;
use std::cmp::Ordering;
use vtep_base::{OutOfMemory, RowId, Txt};

/// An atom (RFC 7047, section 3.1). Atoms are in the order of their variants; numbers are in the order of their values,
/// texts in that of their bytes, and identifiers in that of their 128 bits.
#[derive(Debug, Drop)]
pub enum Atom {
    Integer(i64),
    Text(Txt),
    /// The identifier of a row.
    Id(RowId),
    /// The name that a request gives to a row that it makes.
    Named(Txt),
}

impl Atom {
    fn rank(&self) -> u8
        ensures { result ≡ rank self.now }
    {
        match self {
            Atom::Integer(_) => 0,
            Atom::Text(_) => 1,
            Atom::Id(_) => 2,
            Atom::Named(_) => 3,
        }
    }

    fn integer(&self) -> i64
        ensures { result ≡ integer_in self.now }
    {
        match self {
            Atom::Integer(number) => *number,
            _ => 0,
        }
    }

    fn id(&self) -> RowId
        ensures { result ≡ id_in self.now }
    {
        match self {
            Atom::Id(id) => *id,
            _ => 0,
        }
    }

    fn text(&self) -> &[u8]
        ensures { result.now ≡ text_in self.now }
    {
        match self {
            Atom::Text(text) | Atom::Named(text) => text.as_slice(),
            _ => b"",
        }
    }

    /// An equal atom.
    pub fn copy(&self, alloc: Global) -> Result<Atom, OutOfMemory>
        ensures { IfOk result (λ copy. copy ≡ self.now) }
    {
        Ok(match self {
            Atom::Integer(number) => Atom::Integer(*number),
            Atom::Text(text) => Atom::Text(Txt::from_str(alloc, text.as_str())?),
            Atom::Id(id) => Atom::Id(*id),
            Atom::Named(name) => Atom::Named(Txt::from_str(alloc, name.as_str())?),
        })
    }
}

impl PartialEq for Atom {
    ghost use Rattle.std.specs.Ordering.{eq_by_cmp};
    ghost use Rattle.std.specs.Cmp.{eq_by_cmp_equiv, partial_equiv_from_equiv};
    ghost use Rattle.ovsdb_values.specs.Atoms.{atom_cmp, atom_total};

    ghost eq = { eq_by_cmp atom_cmp };

    ghost laws = { partial_equiv_from_equiv (eq_by_cmp_equiv atom_total) };

    fn eq(&self, other: &Atom) -> bool {
        self.cmp(other) == Ordering::Equal
    }
}

impl Eq for Atom {
    ghost use Rattle.std.specs.Cmp.{eq_by_cmp_equiv};
    ghost use Rattle.ovsdb_values.specs.Atoms.{atom_total};

    ghost laws = { eq_by_cmp_equiv atom_total };
}

impl PartialOrd for Atom {
    ghost use Rattle.std.proofs.Common.{refl};
    ghost use Rattle.std.specs.Cmp.{partial_order_from_agreeing_total};
    ghost use Rattle.std.specs.Ordering.{as_partial_cmp};
    ghost use Rattle.ovsdb_values.specs.Atoms.{atom_cmp, atom_total};

    ghost partial_cmp = { as_partial_cmp atom_cmp };

    ghost laws = { partial_order_from_agreeing_total atom_cmp atom_total (λ x y. refl) (λ x y. refl) };

    fn partial_cmp(&self, other: &Atom) -> Option<Ordering> {
        Some(self.cmp(other))
    }
}

impl Ord for Atom {
    ghost use Rattle.std.proofs.Common.{rules, refl};
    ghost use Rattle.std.specs.Cmp.Rules.{comparing};
    ghost use Rattle.ovsdb_values.specs.Atoms.{atom_cmp, atom_total};

    ghost cmp = { atom_cmp };

    ghost total = { atom_total };

    ghost matches_partial_cmp = { λ a b. refl };

    ghost matches_eq = { λ a b. refl };

    fn cmp(&self, other: &Atom) -> Ordering {
        let rank = self.rank().cmp(&other.rank());
        let integer = self.integer().cmp(&other.integer());
        let id = self.id().cmp(&other.id());
        let text = self.text().cmp(other.text());
        rank.then(integer).then(id).then(text)
    }
}
