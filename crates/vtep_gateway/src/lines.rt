//! What orders the lines of the text of `show`.

ghost use Rattle.std.specs.Prelude.{◌≡◌, IfOk};

use std::alloc::Global;
use std::cmp::Ordering;
use std::marker::Model;
use vtep_base::{Mac, Name, OutOfMemory, RowId, Txt, Vlan, Vni};

/// The name of a switch. Names are in the order of their bytes.
#[derive(Drop)]
pub struct Label {
    text: Txt,
}

impl Model for Label {
    ghost use Rattle.std.specs.Prelude.{ℕ, List};

    ghost Value = { List ℕ };

    ghost view = { λ l. l.text };
}

impl Label {
    /// A copy of this name.
    pub(crate) fn new(alloc: Global, name: &str) -> Result<Label, OutOfMemory>
        ensures { IfOk result (λ label. label ≡ name.now) }
    {
        Ok(Label {
            text: Txt::from_str(alloc, name)?,
        })
    }
}

impl PartialEq for Label {
    ghost use Rattle.std.specs.Prelude.{◌==◌};
    ghost use Rattle.std.specs.Cmp.Lexicographic.{pointwise};
    ghost use Rattle.std.proofs.Common.{rules};
    ghost use Rattle.std.specs.Cmp.Rules.{comparing};

    ghost eq = { pointwise ◌==◌ };

    ghost laws = { Prim.search (comparing, rules) };

    fn eq(&self, other: &Label) -> bool {
        self.text.as_slice() == other.text.as_slice()
    }
}

impl Eq for Label {
    ghost use Rattle.std.proofs.Common.{rules};
    ghost use Rattle.std.specs.Cmp.Rules.{comparing};

    ghost laws = { Prim.search (comparing, rules) };
}

impl PartialOrd for Label {
    ghost use Rattle.std.proofs.Common.{rules};
    ghost use Rattle.std.specs.Cmp.{partial_order_from_own_ties};
    ghost use Rattle.std.specs.Cmp.Rules.{comparing};
    ghost use Rattle.std.specs.Cmp.Lexicographic.{slice_cmp};
    ghost use Rattle.std.specs.Ordering.{nat_cmp, as_partial_cmp};

    ghost partial_cmp = { as_partial_cmp (slice_cmp nat_cmp) };

    ghost laws = { partial_order_from_own_ties (Prim.search (comparing, rules)) (Prim.search (comparing, rules)) };

    fn partial_cmp(&self, other: &Label) -> Option<Ordering> {
        Some(self.cmp(other))
    }
}

impl Ord for Label {
    ghost use Rattle.std.proofs.Common.{rules};
    ghost use Rattle.std.specs.Cmp.Rules.{comparing};
    ghost use Rattle.std.specs.Cmp.Lexicographic.{slice_cmp};
    ghost use Rattle.std.specs.Ordering.{nat_cmp};

    ghost cmp = { slice_cmp nat_cmp };

    ghost total = { Prim.search (comparing, rules) };

    ghost matches_partial_cmp = { Prim.search (comparing, rules) };

    ghost matches_eq = { Prim.search (comparing, rules) };

    fn cmp(&self, other: &Label) -> Ordering {
        self.text.as_slice().cmp(other.text.as_slice())
    }
}

/// A line of the text, by what it is of. Lines are in the order of this text.
#[derive(Drop, PartialEq, Eq, PartialOrd, Ord)]
pub enum Line {
    /// Of a network.
    Vni(Vni),
    /// Of a VLAN of a port.
    Bind(Name, Vlan),
    /// Of an address of a switch.
    Mac(Label, Mac),
    /// Of a group address of a switch, or of all destinations that are not known.
    Flood(Label, Option<Mac>),
    /// Of an ACL: an empty one.
    Acl(RowId),
}
