//! A number that only contracts see. It takes no bytes, and its calls do nothing at run time.

ghost use Rattle.std.specs.Prelude.{◌≡◌, ◌+◌, ℕ};
ghost use Rattle.std.specs.Borrow.{ftrue};

use std::marker::Model;

#[derive(Drop)]
pub(crate) struct Tally {
    pub(crate) ghost number: { ℕ },
}

impl Model for Tally {
    ghost also_owns = { λ _. ftrue };
}

impl Tally {
    pub(crate) fn new() -> Tally
        ensures { result.number ≡ 0 }
    {
        Tally {}
    }

    /// The next number.
    pub(crate) fn next(&self) -> Tally
        ensures { result.number ≡ self.now.number + 1 }
    {
        Tally {}
    }
}
