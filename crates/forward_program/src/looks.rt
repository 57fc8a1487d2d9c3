//! What the forwarding state says, read off its entries.

ghost use Rattle.std.specs.Prelude.{◌≡◌, ◌==◌, ◌≤◌, ◌<◌, ◌+◌, List, length, vec_len, option_map, vec_capacity, MatchResult, Some, IfOk, OnOk, OnErr, ◌↔◌, false};
ghost use Rattle.std.specs.List.{filter_map, list_any};
ghost use Rattle.std.specs.Option.{option_to_list};
ghost use Rattle.std.specs.Ordering.{nat_cmp};
ghost use Rattle.std.specs.BTreeSet.{insert_key};
ghost use Rattle.locator_sets.specs.Locators.{with_each};
ghost use Rattle.vtep_rows.specs.Rows.{Rows as AllRows, IsRows};
ghost use Rattle.vtep_rows.specs.Sound.{Sound};
ghost use Rattle.forward_program.specs.declared.facts.Fact.{Fact as SomeFact};
ghost use Rattle.forward_program.specs.declared.facts.Place.{Place as SomePlace};
ghost use Rattle.forward_program.specs.Built.{IsIn, AreApart, acl_rows, names_acl, built};
ghost use Rattle.forward_program.specs.Shown.{shown};
ghost use Rattle.mac_learning.specs.declared.Learnt.{Learnt};
ghost use Rattle.mac_learning.specs.Learning.{IsOnce};
ghost use Rattle.forward_program.specs.Joins.{part_step, step_of, is_bound_at, bound_at, network_at, vni_at, mode_at, address_at, addresses_at, locators_at, place_by, place_at, found_at, flood_at, part_fact, rules_at, lists_acl, is_listed_at, fact_at, facts_of};
ghost use Rattle.forward_program.specs.Inserts.{InsertsAt};

use crate::facts::{Fact, Place};
use crate::fib::Fib;
use crate::held::{Held, Lists};
use crate::spots::{Part, Spot};
use acl_rules::Rules;
use replication::targets;
use std::alloc::Global;
use std::cmp::Ordering;
use vtep_base::{Ipv4, Ledger, List, Mac, Mode, Name, OutOfMemory, RowId, Vlan, Vni};

/// What an entry is behind a switch.
#[derive(Clone, Copy)]
pub enum Step {
    Itself,
    Member(Name, Vlan, Lists),
    Other,
}

impl Step {
    fn of_part(part: &Part, held: &Held) -> Step
        ensures { result ≡ part_step part.now held.now }
    {
        match part {
            Part::Itself => Step::Itself,
            Part::Member(port, vlan) => match held {
                Held::Lists(lists) => Step::Member(*port, *vlan, *lists),
                _ => Step::Itself,
            },
            _ => Step::Other,
        }
    }

    pub(crate) fn of(switch: RowId, spot: &Spot, held: &Held) -> Step
        ensures { result ≡ step_of switch (spot.now, held.now) }
    {
        match spot {
            Spot::Switch(id, part) => {
                if *id == switch {
                    Step::of_part(part, held)
                } else {
                    Step::Other
                }
            }
            _ => Step::Other,
        }
    }
}

/// Where an address stands among ascending ones, or else where it would.
fn place_of(addresses: &[Ipv4], ip: Ipv4) -> Result<usize, usize>
    ensures { MatchResult result (λ i. insert_key nat_cmp addresses.now ip ≡ addresses.now)
        (λ i. InsertsAt addresses.now ip i) }
{
    let mut i: usize = 0;
    'addresses: while i < addresses.len() {
        match ip.cmp(&addresses[i]) {
            Ordering::Less => return Err(i),
            Ordering::Equal => return Ok(i),
            Ordering::Greater => {}
        }
        i += 1;
    }
    Err(i)
}

/// Puts an address at its place among ascending ones, where it stands once.
pub(crate) fn put_address(addresses: &mut Vec<Ipv4>, ip: Ipv4) -> Result<(), OutOfMemory>
    ensures ok { OnOk result (addresses.new.items ≡ insert_key nat_cmp addresses.old.items ip) }
    ensures len { vec_len addresses.new ≤ vec_len addresses.old + 1 }
    ensures capacity { vec_capacity addresses.old ≤ vec_capacity addresses.new }
    ensures full { OnErr result (vec_capacity addresses.old ≤ vec_len addresses.old) }
{
    match place_of(addresses.as_slice(), ip) {
        Ok(_) => {}
        Err(at) => addresses.insert(at, ip)?,
    }
    Ok(())
}

fn is_acl(id: Option<RowId>, acl: RowId) -> bool
    ensures { result ≡ list_any (λ row. row == acl) (option_to_list id) }
{
    match id {
        Some(id) => id == acl,
        None => false,
    }
}

impl Lists {
    fn names(&self, acl: RowId) -> bool
        ensures { result ≡ names_acl acl self.now }
    {
        is_acl(self.all, acl) || is_acl(self.own, acl)
    }
}

/// Whether it is a VLAN of a port whose lists name an ACL.
fn lists_acl(acl: RowId, spot: &Spot, held: &Held) -> bool
    ensures { result ≡ lists_acl acl (spot.now, held.now) }
{
    match spot {
        Spot::Port(..) => match held {
            Held::Bound { lists, .. } => lists.names(acl),
            _ => false,
        },
        _ => false,
    }
}

fn acl_list(alloc: Global, lists: &Lists) -> Result<List<RowId>, OutOfMemory>
    ensures { IfOk result (λ rows. rows ≡ acl_rows lists.now) }
{
    let mut rows = List::new(alloc);
    if let Some(acl) = lists.all {
        rows.push(acl)?;
    }
    if let Some(acl) = lists.own {
        rows.push(acl)?;
    }
    Ok(rows)
}

impl<L: Ledger> Fib<L> {
    pub(crate) fn is_bound(&self, switch: RowId) -> bool
        ensures { result ≡ is_bound_at self.now.entries switch }
    {
        'members: for (spot, held) in self.entries.walk(Some(&Spot::Switch(switch, Part::Itself))) {
            match Step::of(switch, spot, held) {
                Step::Itself => {}
                Step::Member(..) => return true,
                Step::Other => return false,
            }
        }
        false
    }

    fn address(&self, locator: RowId) -> Option<Ipv4>
        ensures { result ≡ address_at self.now.entries locator }
    {
        match self.entries.find(&Spot::Locator(locator)) {
            Some(Held::Address(ip)) => Some(*ip),
            _ => None,
        }
    }

    pub(crate) fn network(&self, vni: Vni) -> Option<RowId>
        ensures { result ≡ network_at self.now.entries vni }
    {
        match self.entries.find(&Spot::Vni(vni)) {
            Some(Held::Of(switch)) => {
                if self.is_bound(*switch) {
                    Some(*switch)
                } else {
                    None
                }
            }
            _ => None,
        }
    }

    pub(crate) fn place(&self, switch: RowId, mac: Mac) -> Option<Place>
        ensures { result ≡ place_at self.now.entries switch mac }
    {
        match self.entries.find(&Spot::Switch(switch, Part::Host(mac))) {
            Some(Held::Host { here, there }) => self.place_by(*here, *there),
            _ => None,
        }
    }

    fn place_by(&self, here: Option<(Name, Vlan)>, there: Option<RowId>) -> Option<Place>
        ensures { result ≡ place_by self.now.entries here there }
    {
        match here {
            Some((port, vlan)) => Some(Place::Here { port, vlan }),
            None => Some(Place::There(self.address(there?)?)),
        }
    }

    /// Where an address is: a learnt one, or one of a bound switch behind another gateway. Takes no
    /// memory.
    pub fn find(&self, switch: RowId, mac: Mac) -> Option<Place>
        requires going { self.now.broken ≡ false }
        ensures place { result ≡ found_at self.now.entries switch mac }
        // Of sound rows it is the place that is built from the rows and the learnt addresses.
        ensures built { (r : AllRows) → (l : List Learnt) → IsRows r → Sound r → IsOnce l
            → self.now.entries ≡ shown r l → (place : SomePlace) → (result ≡ Some place)
            ↔ IsIn (Fact.Mac switch mac place) (built r l) }
    {
        self.found(switch, mac)
    }

    fn found(&self, switch: RowId, mac: Mac) -> Option<Place>
        ensures { result ≡ found_at self.now.entries switch mac }
    {
        let place = self.place(switch, mac)?;
        if place.is_here() || self.is_bound(switch) {
            Some(place)
        } else {
            None
        }
    }

    pub(crate) fn bound(&self, port: Name, vlan: Vlan) -> Option<(RowId, Lists)>
        ensures { option_map (λ b. record { switch = b.0; lists = b.1 }) result
            ≡ bound_at self.now.entries (port, vlan) }
    {
        match self.entries.find(&Spot::Port(port, vlan)) {
            Some(Held::Bound { switch, lists }) => Some((*switch, *lists)),
            _ => None,
        }
    }

    pub(crate) fn vni(&self, switch: RowId) -> Option<Vni>
        ensures { result ≡ vni_at self.now.entries switch }
    {
        match self.entries.find(&Spot::Switch(switch, Part::Itself)) {
            Some(Held::Switch { vni, .. }) => *vni,
            _ => None,
        }
    }

    pub(crate) fn mode(&self, switch: RowId) -> Mode
        ensures { result ≡ mode_at self.now.entries switch }
    {
        match self.entries.find(&Spot::Switch(switch, Part::Itself)) {
            Some(Held::Switch { mode, .. }) => *mode,
            _ => Mode::Service,
        }
    }

    fn locators(&self, set: RowId) -> &[RowId]
        ensures locators { result.now ≡ locators_at self.now.entries set }
        ensures few { length result.now ≤ 64 }
    {
        match self.entries.find(&Spot::Set(set)) {
            Some(Held::Members(locators)) => locators.as_slice(),
            _ => &[],
        }
    }

    /// Puts the addresses of a set at their places among ascending ones.
    pub(crate) fn put_addresses(
        &self,
        set: RowId,
        addresses: &mut Vec<Ipv4>,
    ) -> Result<(), OutOfMemory>
        ensures ok { OnOk result (addresses.new.items ≡ with_each addresses.old.items
            (filter_map (address_at self.now.entries) (locators_at self.now.entries set))) }
        ensures len { vec_len addresses.new ≤ vec_len addresses.old + 64 }
        ensures capacity { vec_capacity addresses.old ≤ vec_capacity addresses.new }
        ensures full { OnErr result (vec_capacity addresses.old < vec_len addresses.old + 64) }
    {
        'locators: for locator in self.locators(set) {
            if let Some(ip) = self.address(*locator) {
                put_address(addresses, ip)?;
            }
        }
        Ok(())
    }

    fn flood_targets(
        &self,
        alloc: Global,
        switch: RowId,
        group: &Option<Mac>,
    ) -> Result<List<Ipv4>, OutOfMemory>
        ensures { IfOk result (λ list. list ≡ flood_at self.now.entries switch group.now) }
    {
        let set = match self
            .entries
            .find(&Spot::Switch(switch, Part::Group(*group)))
        {
            Some(Held::Set(set)) => *set,
            _ => return Ok(List::new(alloc)),
        };
        let mut addresses = Vec::new(alloc);
        self.put_addresses(set, &mut addresses)?;
        let targets = targets(self.mode(switch), addresses.as_slice());
        Ok(List::from_vec(Vec::from_slice(alloc, targets)?))
    }

    fn flood_fact(
        &self,
        alloc: Global,
        switch: RowId,
        group: &Option<Mac>,
    ) -> Result<Option<Fact>, OutOfMemory>
        ensures { IfOk result
            (λ fact. fact ≡ part_fact self.now.entries switch (Part.Group group.now)) }
    {
        if !self.is_bound(switch) {
            return Ok(None);
        }
        let addresses = self.flood_targets(alloc, switch, group)?;
        if addresses.is_empty() {
            return Ok(None);
        }
        Ok(Some(Fact::Flood {
            switch,
            group: *group,
            addresses,
        }))
    }

    fn mac_fact(&self, switch: RowId, mac: Mac) -> Option<Fact>
        ensures { result ≡ part_fact self.now.entries switch (Part.Host mac) }
    {
        let place = self.found(switch, mac)?;
        Some(Fact::Mac { switch, mac, place })
    }

    fn bind_fact(&self, alloc: Global, port: Name, vlan: Vlan) -> Result<Option<Fact>, OutOfMemory>
        ensures { IfOk result (λ fact. fact ≡ fact_at self.now.entries (Spot.Port port vlan)) }
    {
        match self.entries.find(&Spot::Port(port, vlan)) {
            Some(Held::Bound { switch, lists }) => Ok(Some(Fact::Bind {
                port,
                vlan,
                switch: *switch,
                lists: acl_list(alloc, lists)?,
            })),
            _ => Ok(None),
        }
    }

    fn vni_fact(&self, vni: Vni) -> Option<Fact>
        ensures { result ≡ fact_at self.now.entries (Spot.Vni vni) }
    {
        let switch = self.network(vni)?;
        Some(Fact::Vni { vni, switch })
    }

    /// The entries of an ACL.
    pub(crate) fn rules(&self, acl: RowId) -> Option<&Rules>
        ensures { option_map (λ rules. rules.now) result ≡ rules_at self.now.entries acl }
    {
        match self.entries.find(&Spot::Acl(acl)) {
            Some(Held::Rules(rules)) => Some(rules.rules()),
            _ => None,
        }
    }

    /// Whether the lists of a VLAN of a port name an ACL.
    fn is_listed(&self, acl: RowId) -> bool
        ensures { result ≡ is_listed_at self.now.entries acl }
    {
        'entries: for (spot, held) in self.entries.walk(None) {
            if lists_acl(acl, spot, held) {
                return true;
            }
        }
        false
    }

    fn acl_fact(&self, alloc: Global, acl: RowId) -> Result<Option<Fact>, OutOfMemory>
        ensures { IfOk result (λ fact. fact ≡ fact_at self.now.entries (Spot.Acl acl)) }
    {
        if !self.is_listed(acl) {
            return Ok(None);
        }
        match self.rules(acl) {
            Some(rules) => {
                let entries = List::from_vec(Vec::from_slice(alloc, rules.entries())?);
                Ok(Some(Fact::Acl { acl, entries }))
            }
            None => Ok(None),
        }
    }

    /// The fact of a place.
    fn fact(&self, alloc: Global, spot: &Spot) -> Result<Option<Fact>, OutOfMemory>
        ensures { IfOk result (λ fact. fact ≡ fact_at self.now.entries spot.now) }
    {
        match spot {
            Spot::Port(port, vlan) => self.bind_fact(alloc, *port, *vlan),
            Spot::Switch(switch, Part::Group(group)) => self.flood_fact(alloc, *switch, group),
            Spot::Switch(switch, Part::Host(mac)) => Ok(self.mac_fact(*switch, *mac)),
            Spot::Vni(vni) => Ok(self.vni_fact(*vni)),
            Spot::Acl(acl) => self.acl_fact(alloc, *acl),
            _ => Ok(None),
        }
    }

    fn list_facts(&self, alloc: Global) -> Result<List<Fact>, OutOfMemory>
        ensures { IfOk result (λ facts. facts ≡ facts_of self.now.entries) }
    {
        let mut facts = List::new(alloc);
        'entries: for (spot, _) in self.entries.walk(None) {
            if let Some(fact) = self.fact(alloc, spot)? {
                facts.push(fact)?;
            }
        }
        Ok(facts)
    }

    /// Every fact once, in the order of their places.
    pub fn facts(&self, alloc: Global) -> Result<List<Fact>, OutOfMemory>
        requires going { self.now.broken ≡ false }
        ensures order { IfOk result (λ facts. facts ≡ facts_of self.now.entries) }
        ensures once { IfOk result AreApart }
        // Of sound rows they are those that are built from the rows and the learnt addresses.
        ensures built { (r : AllRows) → (l : List Learnt) → IsRows r → Sound r → IsOnce l
            → self.now.entries ≡ shown r l
            → IfOk result (λ facts. (f : SomeFact) → IsIn f facts ↔ IsIn f (built r l)) }
    {
        self.list_facts(alloc)
    }
}
