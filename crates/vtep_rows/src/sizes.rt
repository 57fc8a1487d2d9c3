//! How many rows a table has.

ghost use Rattle.std.specs.Prelude.{◌≡◌, ◌<◌, ◌+◌, ◌-◌, ◌^◌, if◌then◌else◌, nat_lt};
ghost use Rattle.vtep_schema.specs.declared.Table.{Table};
ghost use Rattle.vtep_schema.specs.Tables.{same_table};
ghost use Rattle.vtep_rows.specs.Indexes.{size_at};

use std::marker::Model;
use vtep_schema::Table;

/// A number by table.
#[derive(Drop)]
pub(crate) struct Sizes {
    by_place: [u64; 12],
}

impl Model for Sizes {
    ghost use Rattle.std.specs.Prelude.{ℕ, List};

    ghost Value = { List ℕ };

    ghost view = { λ s. s.by_place };
}

impl Sizes {
    /// 0 for each table.
    pub(crate) fn new() -> Sizes
        ensures { (t : Table) → size_at result t ≡ 0 }
    {
        Sizes { by_place: [0; 12] }
    }

    pub(crate) fn of(&self, table: Table) -> u64
        ensures { result ≡ size_at self.now table }
    {
        self.by_place[table as usize]
    }

    /// One more is within 64 bits.
    pub(crate) fn has_room(&self, table: Table) -> bool
        ensures { result ≡ nat_lt (size_at self.now table) (2 ^ 64 - 1) }
    {
        self.by_place[table as usize] < u64::MAX
    }

    pub(crate) fn raise(&mut self, table: Table)
        requires { size_at self.old table < 2 ^ 64 - 1 }
        ensures { (t : Table) → size_at self.new t
            ≡ (if same_table table t then size_at self.old t + 1 else size_at self.old t) }
    {
        self.by_place[table as usize] += 1;
    }

    pub(crate) fn lower(&mut self, table: Table)
        ensures { (t : Table) → size_at self.new t
            ≡ (if same_table table t then size_at self.old t - 1 else size_at self.old t) }
    {
        let size = self.by_place[table as usize];
        if size > 0 {
            self.by_place[table as usize] = size - 1;
        }
    }
}
