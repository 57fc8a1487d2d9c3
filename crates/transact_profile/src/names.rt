//! Names of insertions.

ghost use Rattle.std.specs.Prelude.{◌≡◌, OnOk};
ghost use Rattle.vtep_base.specs.Maps as maps;
ghost use Rattle.ovsdb_values.specs.declared.atoms.Atom.TheVariants.{Named};
ghost use Rattle.transact_profile.specs.Names.{with_name, with_row};

use ovsdb_values::Atom;
use std::alloc::Global;
use std::marker::Model;
use vtep_base::{Ordered, OutOfMemory, RowId, Txt};

/// A set of names, each as the atom that a value holds.
#[derive(Drop)]
pub struct NameSet {
    names: Ordered<Atom, ()>,
}

impl Model for NameSet {
    ghost use Rattle.vtep_base.specs.Maps as maps;
    ghost use Rattle.transact_profile.specs.Names.{NameSet as AllNames, set_code};

    ghost Value = { AllNames };

    ghost coded = { set_code };

    ghost view = { λ s. maps.of_list s.names };
}

impl NameSet {
    /// No name.
    pub(crate) fn new(alloc: Global) -> NameSet
        ensures { result ≡ maps.empty }
    {
        NameSet {
            names: Ordered::new(alloc),
        }
    }

    pub(crate) fn has(&self, name: &Atom) -> bool
        ensures { result ≡ maps.has self.now name.now }
    {
        self.names.has(name)
    }

    fn put(&mut self, name: Txt) -> Result<(), OutOfMemory>
        ensures { OnOk result (self.new ≡ maps.insert self.old (Named name) tt) }
    {
        self.names.put(Atom::Named(name), ())?;
        Ok(())
    }

    /// Adds the name of an insertion, where it has one.
    pub(crate) fn add(&mut self, alloc: Global, name: &Option<Txt>) -> Result<(), OutOfMemory>
        ensures { OnOk result (self.new ≡ with_name self.old name.now) }
    {
        match name {
            Some(name) => {
                let name = Txt::from_str(alloc, name.as_str())?;
                self.put(name)
            }
            None => Ok(()),
        }
    }
}

/// The rows that names stand for.
#[derive(Drop)]
pub(crate) struct NamedRows {
    ids: Ordered<Atom, RowId>,
}

impl Model for NamedRows {
    ghost use Rattle.vtep_base.specs.Maps as maps;
    ghost use Rattle.transact_profile.specs.Names.{Names, names_code};

    ghost Value = { Names };

    ghost coded = { names_code };

    ghost view = { λ n. maps.of_list n.ids };
}

impl NamedRows {
    /// No name stands for a row.
    pub(crate) fn new(alloc: Global) -> NamedRows
        ensures { result ≡ maps.empty }
    {
        NamedRows {
            ids: Ordered::new(alloc),
        }
    }

    pub(crate) fn find(&self, name: &Atom) -> Option<RowId>
        ensures { result ≡ maps.get self.now name.now }
    {
        self.ids.find(name).copied()
    }

    fn put(&mut self, name: Txt, id: RowId) -> Result<(), OutOfMemory>
        ensures { OnOk result (self.new ≡ maps.insert self.old (Named name) id) }
    {
        self.ids.put(Atom::Named(name), id)?;
        Ok(())
    }

    /// Adds the row of an insertion, where it has a name.
    pub(crate) fn add(
        &mut self,
        alloc: Global,
        name: &Option<Txt>,
        id: RowId,
    ) -> Result<(), OutOfMemory>
        ensures { OnOk result (self.new ≡ with_row self.old name.now id) }
    {
        match name {
            Some(name) => {
                let name = Txt::from_str(alloc, name.as_str())?;
                self.put(name, id)
            }
            None => Ok(()),
        }
    }
}
