//! The addresses that a gateway has learnt, in the order of learning.
#![tactic(auto)]

ghost use Rattle.std.specs.Prelude.{◌≡◌, ◌≤◌, ◌+◌, [], false, not, length, is_some, Some, None, option_copied, IfOk, OnOk, OnErr};
ghost use Rattle.std.specs.Map.Iter.{ShowsInOrder, deref};
ghost use Rattle.mac_learning.specs.declared.Learn.TheVariants as learn;
ghost use Rattle.mac_learning.specs.Learning.{entry, found, learns_by, learns, after, is_old, old_at, kept_at, without, is_bound_at, unbound, IsOnce};

use indexmap::IndexMap;
use indexmap::map::Values;
use std::alloc::Global;
use std::marker::Model;
use vtep_base::{List, Mac, Name, OutOfMemory, RowId, Vlan};

/// Where an address of a switch was last seen.
#[derive(Clone, Copy, Debug, PartialEq, Eq)]
pub struct Learnt {
    /// The switch, named by its row.
    pub switch: RowId,
    /// The address.
    pub mac: Mac,
    /// The port.
    pub port: Name,
    /// The VLAN of the port; 0 for frames without tag.
    pub vlan: Vlan,
    /// The second of the gateway's clock at which it was last seen.
    pub seen: u64,
}

/// What `learn` did.
#[derive(Clone, Copy, Debug, PartialEq, Eq)]
pub enum Learn {
    /// The address is new: it stands at the end.
    Learnt,
    /// The address was known at another port or VLAN: its entry names this one, at its place in the list.
    Moved,
    /// The address was known there: its time alone is another.
    Same,
    /// The address is new, and as many are learnt as may be: nothing is another.
    Full,
}

/// How long an entry stays without being seen, in seconds.
const LIFETIME: u64 = 300;

/// The learnt addresses in the order of learning, each switch and address once, and how many there may be.
#[derive(Drop)]
pub struct Learned {
    entries: IndexMap<(RowId, u64), Learnt>,
    limit: u64,
}

/// The learnt addresses in their order.
pub type Entries<'a> = Values<'a, (RowId, u64), Learnt>;

impl Model for Learned {
    ghost use Rattle.mac_learning.specs.Learning.{Learning};

    ghost Value = { Learning };

    ghost use Rattle.std.specs.Map.{values_of};
    ghost use Rattle.mac_learning.specs.Keyed.{IsKept};

    ghost view = { λ l. record { entries = values_of l.entries.entries; limit = l.limit } };

    ghost invariant = { λ l. IsKept l.entries.entries l.limit };
}

/// The number of an address.
fn number(mac: Mac) -> u64
    ensures { result ≡ mac }
{
    let [a, b, c, d, e, f] = mac.bytes();
    u64::from_be_bytes([0, 0, a, b, c, d, e, f])
}

impl Learnt {
    /// Whether it was seen 300 seconds before `now` or earlier.
    fn is_old(&self, now: u64) -> bool
        ensures { result ≡ is_old now self.now }
    {
        now.saturating_sub(self.seen) >= LIFETIME
    }

    fn is_bound_at(&self, port: &Name, vlan: Vlan, switch: RowId) -> bool
        ensures { result ≡ is_bound_at port.now vlan switch self.now }
    {
        self.port == *port && self.vlan == vlan && self.switch == switch
    }

    /// Notes where and when it was seen.
    fn see(&mut self, port: &Name, vlan: Vlan, now: u64) -> Learn
        ensures answer { result ≡ learns_by false
            (record self.old { port = port.now; vlan = vlan; seen = now }) (Some self.old) }
        ensures seen { self.new ≡ record self.old { port = port.now; vlan = vlan; seen = now } }
    {
        self.seen = now;
        if self.port == *port && self.vlan == vlan {
            return Learn::Same;
        }
        self.port = *port;
        self.vlan = vlan;
        Learn::Moved
    }
}

impl Learned {
    /// Nothing is learnt, and `limit` addresses may be.
    pub fn new(alloc: Global, limit: u64) -> Learned
        ensures entries { result.entries ≡ [] }
        ensures limit { result.limit ≡ limit }
    {
        Learned {
            entries: IndexMap::new(alloc),
            limit,
        }
    }

    /// Learns that an address of a switch was seen at a port and VLAN, `now`. Only a new address takes memory.
    pub fn learn(
        &mut self,
        switch: RowId,
        mac: Mac,
        port: &Name,
        vlan: Vlan,
        now: u64,
    ) -> Result<Learn, OutOfMemory>
        ensures answer { IfOk result
            (λ did. did ≡ learns self.old (entry switch mac port.now vlan now)) }
        ensures ok { OnOk result (self.new ≡ after self.old (entry switch mac port.now vlan now)) }
        ensures err { OnErr result (self.new ≡ self.old) }
        ensures only_new { OnErr result
            (learns self.old (entry switch mac port.now vlan now) ≡ learn.Learnt) }
    {
        let key = (switch, number(mac));
        let Some(index) = self.entries.get_index_of(&key) else {
            let new = Learnt {
                switch,
                mac,
                port: *port,
                vlan,
                seen: now,
            };
            return self.add(key, new);
        };
        let (_, known) = self.entries.pair_mut(index);
        Ok(known.see(port, vlan, now))
    }

    /// Takes the entries away that were seen 300 seconds before `now` or earlier, and gives them.
    /// After an `Err` the list is as it was.
    pub fn age(&mut self, alloc: Global, now: u64) -> Result<List<Learnt>, OutOfMemory>
        ensures aged { IfOk result (λ aged. aged ≡ old_at now self.old.entries) }
        ensures kept { OnOk result
            (self.new ≡ record self.old { entries = kept_at now self.old.entries }) }
        ensures err { OnErr result (self.new ≡ self.old) }
    {
        let aged = self.old_entries(alloc, now)?;
        self.entries.retain(
            |_key: &(RowId, u64), entry: &mut Learnt| -> bool
                ensures { (result ≡ not (is_old now entry.old)) × (entry.new ≡ entry.old) }
            { !entry.is_old(now) },
        );
        Ok(aged)
    }

    /// Takes the entry of an address away, and says whether there was one. Takes no memory.
    pub fn evict(&mut self, switch: RowId, mac: Mac) -> bool
        ensures answer { result ≡ is_some (found switch mac self.old.entries) }
        ensures gone { self.new
            ≡ record self.old { entries = without switch mac self.old.entries } }
    {
        self.entries.shift_remove(&(switch, number(mac))).is_some()
    }

    /// Takes the entries of a switch at a port and VLAN away, and counts them. Takes no memory.
    pub fn unbind(&mut self, port: &Name, vlan: Vlan, switch: RowId) -> u64
        ensures answer { result + length self.new.entries ≡ length self.old.entries }
        ensures gone { self.new
            ≡ record self.old { entries = unbound port.now vlan switch self.old.entries } }
    {
        let before = self.entries.len();
        self.entries.retain(
            |_key: &(RowId, u64), entry: &mut Learnt| -> bool
                ensures { (result ≡ not (is_bound_at port.entry.now vlan switch entry.old))
                    × (entry.new ≡ entry.old) }
            { !entry.is_bound_at(port, vlan, switch) },
        );
        (before - self.entries.len()) as u64
    }

    /// The entry of an address. Takes no memory.
    pub fn find(&self, switch: RowId, mac: Mac) -> Option<&Learnt>
        ensures { option_copied result ≡ found switch mac self.now.entries }
    {
        self.entries.get(&(switch, number(mac)))
    }

    /// The entries in the order of learning. Takes no memory.
    pub fn entries(&self) -> Entries<'_>
        ensures rest { result ≡ self.now.entries }
        ensures runs { ShowsInOrder (deref {X = Learnt}) }
        ensures once { IsOnce self.now.entries }
        ensures within { length self.now.entries ≤ self.now.limit }
    {
        self.entries.values()
    }

    /// The same list with the same limit.
    pub fn copy(&self) -> Result<Learned, OutOfMemory>
        ensures { IfOk result (λ copy. copy ≡ self.now) }
    {
        Ok(Learned {
            entries: self.entries.clone()?,
            limit: self.limit,
        })
    }

    /// Adds a new address where there is room.
    fn add(&mut self, key: (RowId, u64), new: Learnt) -> Result<Learn, OutOfMemory>
        requires under_own_key { key ≡ (new.switch, new.mac) }
        requires is_new { found new.switch new.mac self.old.entries ≡ None }
        ensures answer { IfOk result (λ did. did ≡ learns self.old new) }
        ensures ok { OnOk result (self.new ≡ after self.old new) }
        ensures err { OnErr result (self.new ≡ self.old) }
        ensures only_new { OnErr result (learns self.old new ≡ learn.Learnt) }
    {
        if self.entries.len() as u64 >= self.limit {
            return Ok(Learn::Full);
        }
        self.entries.insert(key, new)?;
        Ok(Learn::Learnt)
    }

    /// The entries that were seen 300 seconds before `now` or earlier.
    fn old_entries(&self, alloc: Global, now: u64) -> Result<List<Learnt>, OutOfMemory>
        ensures { IfOk result (λ old. old ≡ old_at now self.now.entries) }
    {
        let mut old = List::new(alloc);
        'entries: for entry in self.entries.values() {
            if entry.is_old(now) {
                old.push(*entry)?;
            }
        }
        Ok(old)
    }
}
