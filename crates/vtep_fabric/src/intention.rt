//! What the operator wants.

ghost use Rattle.std.specs.Prelude.{◌≡◌, ◌++◌, ◌∷◌, [], length, Ok, Err, OnOk, OnErr, IfErr, ℕ, List, Bool};
ghost use Rattle.std.specs.List.{list_any};
ghost use Rattle.vtep_base.specs.Answers.{OrMemory};
ghost use Rattle.vtep_base.specs.Maps as maps;
ghost use Rattle.fabric_world.specs.Intentions.{nothing, has_vni, is_service, entries_of, intended};
ghost use Rattle.fabric_world.specs.declared.Intent.TheVariants as intent;
ghost use Rattle.vtep_fabric.specs.Fabrics.{refusal_of};

use crate::{FabricFault, refused};
use fabric_world::{Network, WantedEntry};
use std::alloc::Global;
use std::marker::Model;
use vtep_base::{Binding, LineReason, List, Mode, Name, Ordered, OutOfMemory, Vni};

/// The most switches of the intent.
const MOST_SWITCHES: usize = 1024;

/// The most access lists of the intent.
const MOST_ACLS: usize = 256;

/// The most entries of an access list.
const MOST_ENTRIES: usize = 64;

/// The switches by name, the bindings with the names of their switches, the entries of access lists
/// by name, in the order of their lines, and the guarded bindings with the names of their access
/// lists.
#[derive(Drop)]
pub(crate) struct Intention {
    pub(crate) switches: Ordered<Name, Network>,
    pub(crate) bindings: Ordered<Binding, Name>,
    pub(crate) acls: Ordered<Name, List<WantedEntry>>,
    pub(crate) guards: Ordered<Binding, Name>,
}

impl Model for Intention {
    ghost use Rattle.vtep_base.specs.Maps as maps;
    ghost use Rattle.fabric_world.specs.Intentions as intentions;
    ghost use Rattle.fabric_world.specs.Intentions.{intention_code};

    ghost Value = { intentions.Intention };

    ghost coded = { intention_code };

    ghost view = { λ i. record { switches = maps.of_list i.switches; bindings = maps.of_list i.bindings; acls = maps.of_list i.acls; guards = maps.of_list i.guards } };
}

fn is_service(mode: Mode) -> bool
    ensures { result ≡ is_service mode }
{
    match mode {
        Mode::Source => false,
        Mode::Service => true,
    }
}

impl Intention {
    /// Nothing is wanted.
    pub(crate) fn new(alloc: Global) -> Intention
        ensures { result ≡ nothing }
    {
        Intention {
            switches: Ordered::new(alloc),
            bindings: Ordered::new(alloc),
            acls: Ordered::new(alloc),
            guards: Ordered::new(alloc),
        }
    }

    fn has_switch(&self, name: &Name) -> bool
        ensures { result ≡ maps.has self.now.switches name.now }
    {
        self.switches.has(name)
    }

    fn has_vni(&self, vni: Vni) -> bool
        ensures { result ≡ list_any (has_vni vni) self.now.switches.list }
    {
        self.switches
            .walk(None)
            .any(|(_name, network)| network.vni == vni)
    }

    fn switch_count(&self) -> usize
        ensures { result ≡ maps.size self.now.switches }
    {
        self.switches.len()
    }

    fn is_bound(&self, binding: &Binding) -> bool
        ensures { result ≡ maps.has self.now.bindings binding.now }
    {
        self.bindings.has(binding)
    }

    fn has_acl(&self, name: &Name) -> bool
        ensures { result ≡ maps.has self.now.acls name.now }
    {
        self.acls.has(name)
    }

    fn acl_count(&self) -> usize
        ensures { result ≡ maps.size self.now.acls }
    {
        self.acls.len()
    }

    /// The entries of an access list in the order of their lines; none where the list is not there.
    pub(crate) fn entries(&self, name: &Name) -> &[WantedEntry]
        ensures { result.now ≡ entries_of self.now name.now }
    {
        match self.acls.find(name) {
            Some(entries) => entries.as_slice(),
            None => &[],
        }
    }

    fn is_guarded(&self, binding: &Binding) -> bool
        ensures { result ≡ maps.has self.now.guards binding.now }
    {
        self.guards.has(binding)
    }

    fn put_switch(&mut self, name: Name, network: Network) -> Result<(), OutOfMemory>
        ensures ok { OnOk result (self.new
            ≡ record self.old { switches = maps.insert self.old.switches name network }) }
        ensures err { OnErr result (self.new ≡ self.old) }
    {
        self.switches.put(name, network)?;
        Ok(())
    }

    fn put_binding(&mut self, binding: Binding, switch: Name) -> Result<(), OutOfMemory>
        ensures ok { OnOk result (self.new
            ≡ record self.old { bindings = maps.insert self.old.bindings binding switch }) }
        ensures err { OnErr result (self.new ≡ self.old) }
    {
        self.bindings.put(binding, switch)?;
        Ok(())
    }

    /// Takes an access list out and gives its entries, none where it is not there.
    fn take_acl(&mut self, alloc: Global, name: &Name) -> List<WantedEntry>
        ensures entries { result ≡ entries_of self.old name.now }
        ensures taken { self.new ≡ record self.old { acls = maps.remove self.old.acls name.now } }
    {
        match self.acls.remove(name) {
            Some(entries) => entries,
            None => List::new(alloc),
        }
    }

    fn put_acl(&mut self, name: Name, entries: List<WantedEntry>) -> Result<(), OutOfMemory>
        ensures { OnOk result (self.new
            ≡ record self.old { acls = maps.insert self.old.acls name entries }) }
    {
        self.acls.put(name, entries)?;
        Ok(())
    }

    /// Adds an entry to an access list, and makes the list where it is not there. After an `Err`
    /// the list may be gone.
    fn push_entry(
        &mut self,
        alloc: Global,
        name: Name,
        entry: WantedEntry,
    ) -> Result<(), OutOfMemory>
        ensures { OnOk result (self.new ≡ record self.old
            { acls = maps.insert self.old.acls name (entries_of self.old name ++ entry ∷ []) }) }
    {
        let mut entries = self.take_acl(alloc, &name);
        entries.push(entry)?;
        self.put_acl(name, entries)?;
        Ok(())
    }

    fn put_guard(&mut self, binding: Binding, name: Name) -> Result<(), OutOfMemory>
        ensures ok { OnOk result (self.new
            ≡ record self.old { guards = maps.insert self.old.guards binding name }) }
        ensures err { OnErr result (self.new ≡ self.old) }
    {
        self.guards.put(binding, name)?;
        Ok(())
    }

    fn remove_guard(&mut self, binding: &Binding)
        ensures { self.new ≡ record self.old { guards = maps.remove self.old.guards binding.now } }
    {
        let _ = self.guards.remove(binding);
    }

    /// Adds a switch. It is refused where its name or its VNI is there, where as many are as may
    /// be, and where a service node is to replicate for it, since there is none.
    pub(crate) fn add_switch(&mut self, name: Name, network: Network) -> Result<(), FabricFault>
        ensures ok { OnOk result ((knows : List ℕ → Bool)
            → intended knows self.old (intent.Switch name network.vni network.mode) ≡ Ok self.new) }
        ensures refused { IfErr result (λ f. OrMemory (refusal_of f) (λ why. (knows : List ℕ → Bool)
            → intended knows self.old (intent.Switch name network.vni network.mode) ≡ Err why)) }
        ensures kept { OnErr result (self.new ≡ self.old) }
    {
        if self.has_switch(&name) {
            return Err(refused(1, LineReason::Repeated));
        }
        if self.has_vni(network.vni) {
            return Err(refused(2, LineReason::Repeated));
        }
        if self.switch_count() >= MOST_SWITCHES {
            return Err(refused(0, LineReason::Limit));
        }
        if is_service(network.mode) {
            return Err(refused(0, LineReason::Use));
        }
        Ok(self.put_switch(name, network)?)
    }

    /// Binds a VLAN of a port to a switch. It is refused where the switch or the gateway is
    /// unknown, and where that VLAN of that port is bound.
    pub(crate) fn bind(
        &mut self,
        switch: Name,
        binding: Binding,
        is_known: bool,
    ) -> Result<(), FabricFault>
        ensures ok { OnOk result ((knows : List ℕ → Bool) → knows binding.gateway ≡ is_known
            → intended knows self.old
            (intent.Bind switch binding.gateway binding.port binding.vlan) ≡ Ok self.new) }
        ensures refused { IfErr result (λ f. OrMemory (refusal_of f) (λ why. (knows : List ℕ → Bool)
            → knows binding.gateway ≡ is_known
            → intended knows self.old
            (intent.Bind switch binding.gateway binding.port binding.vlan) ≡ Err why)) }
        ensures kept { OnErr result (self.new ≡ self.old) }
    {
        if !self.has_switch(&switch) {
            return Err(refused(1, LineReason::Unknown));
        }
        if !is_known {
            return Err(refused(2, LineReason::Unknown));
        }
        if self.is_bound(&binding) {
            return Err(refused(3, LineReason::Repeated));
        }
        Ok(self.put_binding(binding, switch)?)
    }

    /// Adds an entry to an access list, and makes the list where it is not there. It is refused
    /// where as many lists or entries are as may be. Where no memory is found, the list may be
    /// gone.
    pub(crate) fn add_entry(
        &mut self,
        alloc: Global,
        name: Name,
        entry: WantedEntry,
    ) -> Result<(), FabricFault>
        ensures ok { OnOk result ((knows : List ℕ → Bool) → intended knows self.old
            (intent.Acl name entry.sequence entry.direction entry.action entry.fields)
            ≡ Ok self.new) }
        ensures refused { IfErr result (λ f. OrMemory (refusal_of f) (λ why. (knows : List ℕ → Bool)
            → intended knows self.old
            (intent.Acl name entry.sequence entry.direction entry.action entry.fields) ≡ Err why)) }
        ensures kept { IfErr result (λ f. OrMemory (refusal_of f) (λ why. self.new ≡ self.old)) }
    {
        if !self.has_acl(&name) && self.acl_count() >= MOST_ACLS {
            return Err(refused(0, LineReason::Limit));
        }
        if self.entries(&name).len() >= MOST_ENTRIES {
            return Err(refused(0, LineReason::Limit));
        }
        Ok(self.push_entry(alloc, name, entry)?)
    }

    /// Has an access list guard a VLAN of a port. It is refused where the gateway is unknown, where
    /// that VLAN of that port is guarded, and where the list is unknown.
    pub(crate) fn guard(
        &mut self,
        binding: Binding,
        name: Name,
        is_known: bool,
    ) -> Result<(), FabricFault>
        ensures ok { OnOk result ((knows : List ℕ → Bool) → knows binding.gateway ≡ is_known
            → intended knows self.old
            (intent.Guard binding.gateway binding.port binding.vlan name) ≡ Ok self.new) }
        ensures refused { IfErr result (λ f. OrMemory (refusal_of f) (λ why. (knows : List ℕ → Bool)
            → knows binding.gateway ≡ is_known
            → intended knows self.old
            (intent.Guard binding.gateway binding.port binding.vlan name) ≡ Err why)) }
        ensures kept { OnErr result (self.new ≡ self.old) }
    {
        if !is_known {
            return Err(refused(1, LineReason::Unknown));
        }
        if self.is_guarded(&binding) {
            return Err(refused(2, LineReason::Repeated));
        }
        if !self.has_acl(&name) {
            return Err(refused(4, LineReason::Unknown));
        }
        Ok(self.put_guard(binding, name)?)
    }

    /// Takes the guard of a VLAN of a port away. It is refused where the gateway is unknown, and
    /// where that VLAN of that port is not guarded.
    pub(crate) fn unguard(&mut self, binding: Binding, is_known: bool) -> Result<(), FabricFault>
        ensures ok { OnOk result ((knows : List ℕ → Bool) → knows binding.gateway ≡ is_known
            → intended knows self.old
            (intent.Unguard binding.gateway binding.port binding.vlan) ≡ Ok self.new) }
        ensures refused { IfErr result (λ f. OrMemory (refusal_of f) (λ why. (knows : List ℕ → Bool)
            → knows binding.gateway ≡ is_known
            → intended knows self.old
            (intent.Unguard binding.gateway binding.port binding.vlan) ≡ Err why)) }
        ensures kept { OnErr result (self.new ≡ self.old) }
    {
        if !is_known {
            return Err(refused(1, LineReason::Unknown));
        }
        if !self.is_guarded(&binding) {
            return Err(refused(2, LineReason::Unknown));
        }
        self.remove_guard(&binding);
        Ok(())
    }
}
