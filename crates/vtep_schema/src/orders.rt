//! The order of tables and of columns: that of their enumerations. It is written out, so that contracts see it as a comparison of
//! places.

ghost use Rattle.std.specs.Prelude.{◌≡◌};
ghost use Rattle.vtep_schema.specs.Tables.{table_place, column_place};

use crate::{Column, Table};
use std::cmp::Ordering;

impl Table {
    fn place(self) -> u8
        ensures { result ≡ table_place self }
    {
        self as u8
    }
}

impl PartialEq for Table {
    ghost use Rattle.std.specs.Ordering.{eq_by_cmp};
    ghost use Rattle.std.specs.Cmp.{eq_by_cmp_equiv, partial_equiv_from_equiv};
    ghost use Rattle.vtep_schema.specs.Tables.{table_cmp};
    ghost use Rattle.vtep_schema.specs.Orders.{table_total};

    ghost eq = { eq_by_cmp table_cmp };

    ghost laws = { partial_equiv_from_equiv (eq_by_cmp_equiv table_total) };

    fn eq(&self, other: &Table) -> bool {
        self.cmp(other) == Ordering::Equal
    }
}

impl Eq for Table {
    ghost use Rattle.std.specs.Cmp.{eq_by_cmp_equiv};
    ghost use Rattle.vtep_schema.specs.Orders.{table_total};

    ghost laws = { eq_by_cmp_equiv table_total };
}

impl PartialOrd for Table {
    ghost use Rattle.std.proofs.Common.{refl};
    ghost use Rattle.std.specs.Cmp.{partial_order_from_agreeing_total};
    ghost use Rattle.std.specs.Ordering.{as_partial_cmp};
    ghost use Rattle.vtep_schema.specs.Tables.{table_cmp};
    ghost use Rattle.vtep_schema.specs.Orders.{table_total};

    ghost partial_cmp = { as_partial_cmp table_cmp };

    ghost laws = { partial_order_from_agreeing_total table_cmp table_total (λ x y. refl) (λ x y. refl) };

    fn partial_cmp(&self, other: &Table) -> Option<Ordering> {
        Some(self.cmp(other))
    }
}

impl Ord for Table {
    ghost use Rattle.std.proofs.Common.{refl};
    ghost use Rattle.vtep_schema.specs.Tables.{table_cmp};
    ghost use Rattle.vtep_schema.specs.Orders.{table_total};

    ghost cmp = { table_cmp };

    ghost total = { table_total };

    ghost matches_partial_cmp = { λ a b. refl };

    ghost matches_eq = { λ a b. refl };

    fn cmp(&self, other: &Table) -> Ordering {
        self.place().cmp(&other.place())
    }
}

impl Column {
    fn place(self) -> u8
        ensures { result ≡ column_place self }
    {
        self as u8
    }
}

impl PartialEq for Column {
    ghost use Rattle.std.specs.Ordering.{eq_by_cmp};
    ghost use Rattle.std.specs.Cmp.{eq_by_cmp_equiv, partial_equiv_from_equiv};
    ghost use Rattle.vtep_schema.specs.Tables.{column_cmp};
    ghost use Rattle.vtep_schema.specs.Orders.{column_total};

    ghost eq = { eq_by_cmp column_cmp };

    ghost laws = { partial_equiv_from_equiv (eq_by_cmp_equiv column_total) };

    fn eq(&self, other: &Column) -> bool {
        self.cmp(other) == Ordering::Equal
    }
}

impl Eq for Column {
    ghost use Rattle.std.specs.Cmp.{eq_by_cmp_equiv};
    ghost use Rattle.vtep_schema.specs.Orders.{column_total};

    ghost laws = { eq_by_cmp_equiv column_total };
}

impl PartialOrd for Column {
    ghost use Rattle.std.proofs.Common.{refl};
    ghost use Rattle.std.specs.Cmp.{partial_order_from_agreeing_total};
    ghost use Rattle.std.specs.Ordering.{as_partial_cmp};
    ghost use Rattle.vtep_schema.specs.Tables.{column_cmp};
    ghost use Rattle.vtep_schema.specs.Orders.{column_total};

    ghost partial_cmp = { as_partial_cmp column_cmp };

    ghost laws = { partial_order_from_agreeing_total column_cmp column_total (λ x y. refl) (λ x y. refl) };

    fn partial_cmp(&self, other: &Column) -> Option<Ordering> {
        Some(self.cmp(other))
    }
}

impl Ord for Column {
    ghost use Rattle.std.proofs.Common.{refl};
    ghost use Rattle.vtep_schema.specs.Tables.{column_cmp};
    ghost use Rattle.vtep_schema.specs.Orders.{column_total};

    ghost cmp = { column_cmp };

    ghost total = { column_total };

    ghost matches_partial_cmp = { λ a b. refl };

    ghost matches_eq = { λ a b. refl };

    fn cmp(&self, other: &Column) -> Ordering {
        self.place().cmp(&other.place())
    }
}
