//! The names that values may use.

ghost use Rattle.std.specs.Prelude.{◌≡◌};
ghost use Rattle.transact_profile.specs.Values.{is_known};

use crate::names::NameSet;
use ovsdb_values::Atom;

/// The names that values may use.
#[derive(Drop)]
pub enum Known {
    /// Each: the known insertions are still looked for.
    AnyName,
    /// Those of the known insertions.
    OneOf(NameSet),
}

impl Known {
    pub(crate) fn has(&self, name: &Atom) -> bool
        ensures { result ≡ is_known self.now name.now }
    {
        match self {
            Known::AnyName => true,
            Known::OneOf(names) => names.has(name),
        }
    }
}
