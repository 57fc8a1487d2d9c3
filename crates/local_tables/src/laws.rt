//! Laws of the definitions: a commit keeps the Local tables those of what is learnt and of the
//! switches that are bound, and learning, ageing and ports never break a rule.

ghost use Rattle.std.specs.Prelude.{◌≡◌, ◌<◌, ◌≤◌, ◌^◌, ℕ, List, [], ◌∷◌, ◌++◌, length, true, false, is_some, Some, Ok};
ghost use Rattle.std.specs.List.{list_all};
ghost use Rattle.vtep_base.specs.Maps as maps;
ghost use Rattle.vtep_schema.specs.declared.Table.TheVariants.{UcastMacsLocal, McastMacsLocal, PhysicalPort};
ghost use Rattle.vtep_rows.specs.Row.{Contents, is_row, references};
ghost use Rattle.vtep_rows.specs.Rows.{Rows, Key, row_at, names, inserted, collected, last_number};
ghost use Rattle.vtep_rows.specs.Sound.{Sound};
ghost use Rattle.mac_learning.specs.declared.Learnt.{Learnt};
ghost use Rattle.mac_learning.specs.Learning.{found, put};
ghost use Rattle.forward_program.specs.Built.{IsIn};
ghost use Rattle.forward_program.specs.Follows.{learnt_address};
ghost use Rattle.local_tables.specs.LocalRows.{is_individual, address_row};
ghost use Rattle.local_tables.specs.Followed.{is_bound_there, own_locator, followed, commit};
ghost use Rattle.local_tables.specs.Following.{is_bound, without_all};
ghost use Rattle.local_tables.specs.Follows.{Follows};
ghost use Rattle.local_tables.specs.Local.{IsLocal, IsChanged, IsFixed, IsLearning};

/// Sound rows of which some went are sound where each row that one of them names is still there.
pub fn fewer_rows_stay_sound()
    ensures { (r s : Rows) → Sound r
        → ((k : Key) (row : Contents) → row_at s k ≡ Some row → row_at r k ≡ Some row)
        → ((k : Key) (row : Contents) → row_at s k ≡ Some row
        → list_all (maps.has s.rows) (references row) ≡ true) → Sound s }
{}

/// No row names a row of a Local table.
pub fn no_row_names_local_rows()
    ensures { (row : Contents) (i : ℕ) → is_row row ≡ true → (names row (UcastMacsLocal, i) ≡ false)
        × (names row (McastMacsLocal, i) ≡ false) }
{}

/// A commit of learnt addresses that go, where no row is changed, never breaks a rule.
pub fn ageing_commits()
    ensures { (own : ℕ) (r : Rows) (l gone : List Learnt) → IsChanged own r r l
        → ((e : Learnt) → IsIn e gone → IsIn e l) → commit own r r (without_all gone l)
        ≡ Ok (followed own r r (without_all gone l)) }
{}

/// A commit of an address that is learnt, where no row is changed, never breaks a rule while a row
/// number is left. One row comes, with the own locator, which is there.
pub fn learning_commits()
    ensures commits { (own : ℕ) (r : Rows) (l : List Learnt) (new : Learnt) → IsLearning own r l new
        → r.counter < last_number → length l < 2048 → commit own r r (l ++ new ∷ [])
        ≡ Ok (followed own r r (l ++ new ∷ [])) }
    ensures row { (own : ℕ) (r : Rows) (l : List Learnt) (new : Learnt) (locator : ℕ) → IsLearning own r l new
        → r.counter < last_number → own_locator own r ≡ Some locator
        → (followed own r r (l ++ new ∷ [])).rows ≡ inserted r (address_row (learnt_address new) locator) }
    ensures there { (own : ℕ) (r : Rows) (l : List Learnt) (new : Learnt) → IsLearning own r l new
        → is_some (own_locator own r) ≡ true }
{}

/// What a commit brings about is what is said of it, and nothing else is, of a change of the rows
/// and of any learnt addresses.
pub fn followed_follows()
    ensures follows { (own : ℕ) (old r : Rows) (l learned : List Learnt) → IsChanged own old r l
        → list_all (λ e. is_individual e.mac) learned ≡ true → own < 2 ^ 32
        → (followed own old r learned).rows.counter ≤ last_number
        → Follows own old r learned (followed own old r learned).rows (followed own old r learned).learned }
    ensures only { (own : ℕ) (old r : Rows) (l learned : List Learnt) → IsChanged own old r l
        → list_all (λ e. is_individual e.mac) learned ≡ true → own < 2 ^ 32
        → (followed own old r learned).rows.counter ≤ last_number
        → (after : Rows) (left : List Learnt) → Follows own old r learned after left
        → (after ≡ (followed own old r learned).rows)
        × (left ≡ (followed own old r learned).learned) }
{}

/// The commit of a change keeps the Local tables those of what is learnt and of the bound switches,
/// where its rows are sound: of a change that leaves locators and their sets as they were, and
/// takes no port away that a row names.
pub fn commits_keep_local()
    ensures { (own : ℕ) (old r : Rows) (l : List Learnt) → IsChanged own old r l → own < 2 ^ 32
        → (followed own old r l).rows.counter ≤ last_number → Sound (followed own old r l).rows
        → ((i : ℕ) → row_at (followed own old r l).rows (PhysicalPort, i)
        ≡ row_at r (PhysicalPort, i)) → IsFixed old r
        → IsLocal own (followed own old r l).rows (followed own old r l).learned }
{}

/// Learning a new address adds its row and keeps the Local tables so.
pub fn learning_keeps_local()
    ensures { (own : ℕ) (r : Rows) (l : List Learnt) (new : Learnt) (locator : ℕ)
        → IsLearning own r l new → own_locator own r ≡ Some locator → r.counter < last_number
        → IsLocal own (inserted r (address_row (learnt_address new) locator)) (l ++ new ∷ []) }
{}

/// An address that moves to another binding of its switch changes no row.
pub fn moving_changes_no_row()
    ensures { (own : ℕ) (r : Rows) (l : List Learnt) (new e : Learnt) → IsChanged own r r l
        → found new.switch new.mac l ≡ Some e → is_bound_there r new ≡ true
        → (followed own r r (put new l) ≡ record { rows = r; learned = put new l })
        × IsLocal own r (put new l) }
{}

/// Ageing keeps the Local tables so, where its rows are sound.
pub fn ageing_keeps_local()
    ensures { (own : ℕ) (r : Rows) (l gone : List Learnt) → IsChanged own r r l
        → ((e : Learnt) → IsIn e gone → IsIn e l) → own < 2 ^ 32
        → Sound (followed own r r (without_all gone l)).rows
        → ((i : ℕ) → row_at (followed own r r (without_all gone l)).rows (PhysicalPort, i)
        ≡ row_at r (PhysicalPort, i))
        → IsLocal own (followed own r r (without_all gone l)).rows (without_all gone l) }
{}

/// A commit of a change that binds no switch more, whose rows are sound but for the Local tables,
/// never breaks a rule: so those of ports never do.
pub fn binding_no_more_commits()
    ensures { (own : ℕ) (old r : Rows) (l : List Learnt) → IsChanged own old r l
        → Sound (collected r) → ((s : ℕ) → is_bound r s ≡ true → is_bound old s ≡ true)
        → commit own old r l ≡ Ok (followed own old r l) }
{}
