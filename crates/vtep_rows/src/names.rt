//! How often the rows of a table name a row.

ghost use Rattle.std.specs.Prelude.{◌≡◌, ◌≤◌, ◌+◌, ◌-◌, OnOk, OnErr, length, take, filter_map, flat_map};
ghost use Rattle.vtep_schema.specs.declared.Table.{Table};
ghost use Rattle.vtep_schema.specs.Tables.{column_rule};
ghost use Rattle.vtep_base.specs.Maps as maps;
ghost use Rattle.vtep_rows.specs.Row.{reference, reference_list, pair_references, references_in, references};
ghost use Rattle.vtep_rows.specs.Rows.{Key};
ghost use Rattle.vtep_rows.specs.Tallies.{count_at, raised, lowered};
ghost use Rattle.vtep_rows.specs.Names.{named_by, lowered_all};

use crate::row::Row;
use ovsdb_values::{Atom, Datum};
use std::alloc::Global;
use std::collections::BTreeMap;
use std::marker::Model;
use vtep_base::{OutOfMemory, RowId};
use vtep_schema::{Column, ColumnRule, Domain, Table, column_rule};

/// From the table and identifier of a row, and a table that names it, to a number that is not 0.
#[derive(Drop)]
pub(crate) struct Names {
    by_key: BTreeMap<(Table, RowId, Table), u64>,
}

impl Model for Names {
    ghost use Rattle.std.specs.Prelude.{ℕ};
    ghost use Rattle.vtep_base.specs.Maps as maps;
    ghost use Rattle.vtep_rows.specs.Names.{naming_cmp, names_code};

    ghost Value = { maps.Map naming_cmp ℕ };

    ghost coded = { names_code };

    ghost view = { λ n. maps.of_list n.by_key.entries };
}

impl Names {
    /// Nothing is named.
    pub(crate) fn new(alloc: Global) -> Names
        ensures { result ≡ maps.empty }
    {
        Names {
            by_key: BTreeMap::new(alloc),
        }
    }

    /// How often rows of a table name a row. Takes no memory.
    pub(crate) fn of(&self, table: Table, id: RowId, of: Table) -> u64
        ensures { result ≡ count_at self.now (table, id, of) }
    {
        self.by_key.get(&(table, id, of)).copied().unwrap_or(0)
    }

    /// Once more. After an `Err` the counts are as they were; a count that would pass 64 bits is want of memory.
    fn raise(&mut self, table: Table, id: RowId, of: Table) -> Result<(), OutOfMemory>
        ensures ok { OnOk result (self.new ≡ raised self.old (table, id, of)) }
        ensures err { OnErr result (self.new ≡ self.old) }
    {
        let n = self.of(table, id, of);
        if n == u64::MAX {
            return Err(OutOfMemory);
        }
        self.by_key.insert((table, id, of), n + 1)?;
        Ok(())
    }

    /// Once less. Takes no memory.
    fn lower(&mut self, table: Table, id: RowId, of: Table)
        ensures { self.new ≡ lowered self.old (table, id, of) }
    {
        let n = self.of(table, id, of);
        if n <= 1 {
            self.by_key.remove(&(table, id, of));
        } else {
            let _ = self.by_key.insert((table, id, of), n - 1);
        }
    }

    /// Once more for each key. After an `Err` the counts are as they were.
    pub(crate) fn raise_all(
        &mut self,
        keys: &[(Table, RowId)],
        of: Table,
    ) -> Result<(), OutOfMemory>
        ensures ok { OnOk result ((k : Key) (t : Table) → count_at self.new (k.0, k.1, t)
            ≡ count_at self.old (k.0, k.1, t) + named_by of t k keys.now) }
        ensures err { OnErr result ((k : Key) (t : Table) → count_at self.new (k.0, k.1, t)
            ≡ count_at self.old (k.0, k.1, t)) }
    {
        let mut i: usize = 0;
        'keys: while i < keys.len() {
            let key = &keys[i];
            if self.raise(key.0, key.1, of).is_err() {
                self.lower_first(keys, i, of);
                return Err(OutOfMemory);
            }
            i += 1;
        }
        Ok(())
    }

    /// Once less for each of the first keys. Takes no memory.
    fn lower_first(&mut self, keys: &[(Table, RowId)], n: usize, of: Table)
        requires { n ≤ length keys.now }
        ensures { (k : Key) (t : Table) → count_at self.new (k.0, k.1, t)
            ≡ count_at self.old (k.0, k.1, t) - named_by of t k (take n keys.now) }
    {
        let mut i: usize = 0;
        'keys: while i < n {
            let key = &keys[i];
            self.lower(key.0, key.1, of);
            i += 1;
        }
    }

    /// Once less for each row that a row of a table names. Takes no memory.
    pub(crate) fn lower_row(&mut self, of: Table, row: &Row)
        ensures { self.new ≡ lowered_all self.old of (references row.now) }
    {
        self.lower_fields(of, row.fields());
    }

    fn lower_fields(&mut self, of: Table, fields: &[(Column, Datum)])
        ensures { self.new ≡ lowered_all self.old of (flat_map (λ e. references_in (column_rule e.0) e.1) fields.now) }
    {
        'values: for (column, datum) in fields {
            self.lower_value(of, column_rule(*column), datum);
        }
    }

    fn lower_value(&mut self, of: Table, rule: ColumnRule, datum: &Datum)
        ensures { self.new ≡ lowered_all self.old of (references_in rule datum.now) }
    {
        match datum {
            Datum::Set(set) => self.lower_atoms(of, rule.key, set.as_slice()),
            Datum::Map(map) => self.lower_pairs(of, rule.key, rule.value, map.as_slice()),
        }
    }

    fn lower_atoms(&mut self, of: Table, domain: Domain, atoms: &[Atom])
        ensures { self.new ≡ lowered_all self.old of (filter_map (reference domain) atoms.now) }
    {
        'atoms: for atom in atoms {
            self.lower_atom(of, domain, atom);
        }
    }

    fn lower_pairs(&mut self, of: Table, key: Domain, value: Option<Domain>, pairs: &[(Atom, Atom)])
        ensures { self.new ≡ lowered_all self.old of
            (flat_map (pair_references key value) pairs.now) }
    {
        'pairs: for pair in pairs {
            self.lower_pair(of, key, value, pair);
        }
    }

    fn lower_pair(&mut self, of: Table, key: Domain, value: Option<Domain>, pair: &(Atom, Atom))
        ensures { self.new ≡ lowered_all self.old of (pair_references key value pair.now) }
    {
        self.lower_atom(of, key, &pair.0);
        match value {
            Some(value) => self.lower_atom(of, value, &pair.1),
            None => {}
        }
    }

    fn lower_atom(&mut self, of: Table, domain: Domain, atom: &Atom)
        ensures { self.new ≡ lowered_all self.old of (reference_list (reference domain atom.now)) }
    {
        match (domain, atom) {
            (Domain::Row(table), Atom::Id(id)) => self.lower(table, *id, of),
            _ => {}
        }
    }
}
