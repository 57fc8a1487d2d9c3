//! Laws of the definitions.

ghost use Rattle.std.specs.Prelude.{◌≡◌, ◌↔◌, List, ℕ};
ghost use Rattle.vtep_rows.specs.Rows.{Rows, IsRows};
ghost use Rattle.vtep_rows.specs.Sound.{Sound};
ghost use Rattle.mac_learning.specs.declared.Learnt.{Learnt};
ghost use Rattle.mac_learning.specs.Learning.{IsOnce};
ghost use Rattle.forward_program.specs.declared.facts.Fact.{Fact};
ghost use Rattle.forward_program.specs.declared.facts.Fact.TheVariants as fact;
ghost use Rattle.forward_program.specs.declared.facts.Place.{Place};
ghost use Rattle.forward_program.specs.Built.{IsIn, AreApart, built};
ghost use Rattle.forward_program.specs.Spots.{Entries};
ghost use Rattle.forward_program.specs.Shown.{shown};
ghost use Rattle.forward_program.specs.Joins.{facts_of};

/// The facts that are joined of the entries of sound rows and learnt addresses are those that are
/// built from both, no fact stands twice, and no address of a switch has two places: where it is
/// learnt, no fact says that it is behind another gateway.
pub fn facts_are_built()
    ensures built { (r : Rows) → (l : List Learnt) → IsRows r → Sound r → IsOnce l → (f : Fact)
        → IsIn f (facts_of (shown r l)) ↔ IsIn f (built r l) }
    ensures once { (m : Entries) → AreApart (facts_of m) }
    ensures one_place { (r : Rows) → (l : List Learnt) → IsRows r → Sound r → IsOnce l
        → (switch mac : ℕ) → (a b : Place) → IsIn (fact.Mac switch mac a) (built r l)
        → IsIn (fact.Mac switch mac b) (built r l) → a ≡ b }
{}
