//! Which addresses a set of tunnel locators has now (vtep(5), Physical_Locator and Physical_Locator_Set).
#![tactic(auto)]

ghost use Rattle.std.specs.Prelude.{◌≡◌, [], not, ◌==◌, option_map, filter, filter_map, IfOk, OnOk, OnErr};
ghost use Rattle.std.specs.Ordering.{nat_cmp};
ghost use Rattle.std.specs.List.Sorted.{IsStrictlySortedBy};
ghost use Rattle.vtep_base.specs.Maps as maps;
ghost use Rattle.locator_sets.specs.Locators.{addresses_of, other_addresses};

use std::alloc::Global;
use std::collections::BTreeSet;
use std::marker::Model;
use vtep_base::{Ipv4, List, Ordered, OutOfMemory, RowId};

/// Locators with their addresses, and sets of locators. Each is named by its row. A set may name locators that have no address
/// now.
#[derive(Drop)]
pub struct Locators {
    alloc: Global,
    addresses: Ordered<RowId, Ipv4>,
    sets: Ordered<RowId, List<RowId>>,
}

impl Model for Locators {
    ghost use Rattle.vtep_base.specs.Maps as maps;
    ghost use Rattle.locator_sets.specs.Locators as locators;
    ghost use Rattle.locator_sets.specs.Locators.{locators_code};

    ghost Value = { locators.Locators };

    ghost coded = { locators_code };

    ghost view = { λ l. record { addresses = maps.of_list l.addresses; sets = maps.of_list l.sets } };
}

impl Locators {
    /// No locator, and no set.
    pub fn new(alloc: Global) -> Locators
        ensures { result ≡ record { addresses = maps.empty; sets = maps.empty } }
    {
        Locators {
            alloc,
            addresses: Ordered::new(alloc),
            sets: Ordered::new(alloc),
        }
    }

    /// Gives a locator an address, in place of the one that it had. After an `Err` all is as it was.
    pub fn put(&mut self, id: RowId, ip: Ipv4) -> Result<(), OutOfMemory>
        ensures ok { OnOk result (self.new
            ≡ record self.old { addresses = maps.insert self.old.addresses id ip }) }
        ensures err { OnErr result (self.new ≡ self.old) }
    {
        self.addresses.put(id, ip)?;
        Ok(())
    }

    /// Gives a set these locators, in place of those that it had. After an `Err` all is as it was.
    pub fn put_set(&mut self, id: RowId, members: &[RowId]) -> Result<(), OutOfMemory>
        ensures ok { OnOk result (self.new
            ≡ record self.old { sets = maps.insert self.old.sets id members.now }) }
        ensures err { OnErr result (self.new ≡ self.old) }
    {
        let members = List::from_vec(Vec::from_slice(self.alloc, members)?);
        self.sets.put(id, members)?;
        Ok(())
    }

    /// Takes a locator's address away, and says whether it had one. Takes no memory.
    pub fn remove(&mut self, id: RowId) -> bool
        ensures there { result ≡ maps.has self.old.addresses id }
        ensures removed { self.new
            ≡ record self.old { addresses = maps.remove self.old.addresses id } }
    {
        self.addresses.remove(&id).is_some()
    }

    /// Takes a set away, and says whether it was there. Takes no memory.
    pub fn remove_set(&mut self, id: RowId) -> bool
        ensures there { result ≡ maps.has self.old.sets id }
        ensures removed { self.new ≡ record self.old { sets = maps.remove self.old.sets id } }
    {
        self.sets.remove(&id).is_some()
    }

    /// The addresses of a set but for the gateway's own, ascending, each once. A set that is not there gives none, and a locator
    /// that has no address now adds none.
    pub fn addresses(&self, alloc: Global, set: RowId, own: Ipv4) -> Result<List<Ipv4>, OutOfMemory>
        ensures value { IfOk result (λ list. list ≡ addresses_of self.now set own) }
        ensures ascending { IfOk result (IsStrictlySortedBy nat_cmp) }
    {
        match self.sets.find(&set) {
            Some(members) => self.in_order(alloc, members.as_slice(), own),
            None => Ok(List::new(alloc)),
        }
    }

    fn in_order(
        &self,
        alloc: Global,
        members: &[RowId],
        own: Ipv4,
    ) -> Result<List<Ipv4>, OutOfMemory>
        ensures value { IfOk result
            (λ list. list ≡ other_addresses (maps.get self.now.addresses) own members.now) }
        ensures ascending { IfOk result (IsStrictlySortedBy nat_cmp) }
    {
        let mut ordered = BTreeSet::new(alloc);
        'members: for member in members {
            if let Some(ip) = self.addresses.find(member) {
                if *ip != own {
                    ordered.insert(*ip)?;
                }
            }
        }
        collect(alloc, ordered)
    }
}

fn collect(alloc: Global, ordered: BTreeSet<Ipv4>) -> Result<List<Ipv4>, OutOfMemory>
    ensures value { IfOk result (λ list. list ≡ ordered.keys) }
    ensures ascending { IfOk result (IsStrictlySortedBy nat_cmp) }
{
    let mut list = Vec::with_capacity(alloc, ordered.len())?;
    'ordered: for ip in ordered {
        list.push(ip)?;
    }
    Ok(List::from_vec(list))
}
