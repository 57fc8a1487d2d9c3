//! Which switch each VLAN of each port is bound to.
#![tactic(auto)]

ghost use Rattle.std.specs.Prelude.{◌≡◌, IfOk, OnOk, OnErr};
ghost use Rattle.std.specs.Iterator.{YieldsFirst, item_count};
ghost use Rattle.vtep_base.specs.Maps as maps;
ghost use Rattle.vlan_bindings.specs.Places.{place_cmp, places_of};

use std::alloc::Global;
use std::marker::Model;
use vtep_base::{Name, Ordered, OutOfMemory, RowId, Vlan, Walk};

/// A finite map from ports and VLANs to switches, which are named by their rows.
#[derive(Drop)]
pub struct Bindings {
    switches: Ordered<(Name, Vlan), RowId>,
}

impl Model for Bindings {
    ghost use Rattle.std.specs.Prelude.{ℕ};
    ghost use Rattle.vtep_base.specs.Maps as maps;
    ghost use Rattle.vlan_bindings.specs.Places.{place_cmp, places_code};

    ghost Value = { maps.Map place_cmp ℕ };

    ghost coded = { places_code };

    ghost view = { λ b. maps.of_list b.switches };
}

impl Bindings {
    /// Nothing is bound.
    pub fn new(alloc: Global) -> Bindings
        ensures { result ≡ maps.empty }
    {
        Bindings {
            switches: Ordered::new(alloc),
        }
    }

    /// Binds a VLAN of a port to a switch, and gives the switch that it was bound to.
    pub fn put(
        &mut self,
        port: &Name,
        vlan: Vlan,
        switch: RowId,
    ) -> Result<Option<RowId>, OutOfMemory>
        ensures before { IfOk result (λ before. before ≡ maps.get self.old (port.now, vlan)) }
        ensures ok { OnOk result (self.new ≡ maps.insert self.old (port.now, vlan) switch) }
        ensures err { OnErr result (self.new ≡ self.old) }
    {
        self.switches.put((*port, vlan), switch)
    }

    /// Takes the binding of a VLAN of a port away, and gives its switch. Takes no memory.
    pub fn remove(&mut self, port: &Name, vlan: Vlan) -> Option<RowId>
        ensures before { result ≡ maps.get self.old (port.now, vlan) }
        ensures removed { self.new ≡ maps.remove self.old (port.now, vlan) }
    {
        self.switches.remove(&(*port, vlan))
    }

    /// The switch that a VLAN of a port is bound to. Takes no memory.
    pub fn find(&self, port: &Name, vlan: Vlan) -> Option<RowId>
        ensures { result ≡ maps.get self.now (port.now, vlan) }
    {
        self.switches.find(&(*port, vlan)).copied()
    }

    /// The ports and VLANs that are bound to a switch, by name and then by VLAN. Takes no memory.
    pub fn members(&self, switch: RowId) -> Members<'_>
        ensures { places_of result.switch result.rest ≡ places_of switch self.now.list }
    {
        Members {
            rest: self.switches.walk(None),
            switch,
        }
    }
}

/// The ports and VLANs that are bound to one switch, in order.
#[derive(Drop)]
pub struct Members<'a> {
    rest: Walk<'a, (Name, Vlan), RowId>,
    switch: RowId,
}

impl<'a> Iterator for Members<'a> {
    type Item = (Name, Vlan);

    ghost next_gives = { YieldsFirst (λ s. places_of s.switch s.rest) };

    ghost remaining = { item_count (λ s. places_of s.switch s.rest) };

    fn next(&mut self) -> Option<(Name, Vlan)> {
        'others: while let Some((place, switch)) = self.rest.next() {
            if *switch == self.switch {
                return Some(*place);
            }
        }
        None
    }
}
