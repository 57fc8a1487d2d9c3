//! Finite maps whose writes are counted.

ghost use Rattle.std.specs.Prelude.{◌≡◌, ◌+◌, ◌<◌, ◌^◌, [], length, option_copied, IfOk, OnOk, OnErr};
ghost use Rattle.std.specs.Map.Iter.{ShowsInOrder, deref_pair};
ghost use Rattle.vtep_base.specs.Maps as maps;

use crate::answers::OutOfMemory;
use crate::ordered::{Ordered, Walk};
use crate::tally::Tally;
use std::alloc::Global;
use std::cmp::Ord;
use std::marker::{Model, PhantomData};

/// The name of a counter. It has no function, so code for any ledger can't make one.
pub trait Ledger: Drop {}

/// The ledger that the program uses.
#[derive(Drop)]
pub struct Plain;

impl Ledger for Plain {}

/// How many writes were counted under a ledger. Contracts see the number; it takes no bytes.
#[derive(Drop)]
pub struct Steps<L: Ledger> {
    of: PhantomData<L>,
    count: Tally,
}

impl<L: Ledger> Model for Steps<L> {
    ghost use Rattle.std.specs.Prelude.{ℕ};

    ghost Value = { ℕ };

    ghost view = { λ s. s.count.number };
}

impl<L: Ledger> Steps<L> {
    /// No write yet.
    pub fn new(_ledger: L) -> Steps<L>
        ensures { result ≡ 0 }
    {
        Steps {
            of: PhantomData,
            count: Tally::new(),
        }
    }

    /// One more.
    pub fn tick(&mut self)
        ensures { self.new ≡ self.old + 1 }
    {
        self.count = self.count.next();
    }
}

/// A finite map from keys to values whose writes are counted under a ledger. Contracts see the list of its entries.
#[derive(Drop)]
pub struct Counted<L: Ledger, K: Ord, V> {
    of: PhantomData<L>,
    entries: Ordered<K, V>,
}

impl<L: Ledger, K: Ord, V> Model for Counted<L, K, V> {
    ghost use Rattle.std.specs.Prelude.{List};

    ghost Value = { List (K × V) };

    ghost view = { λ m. m.entries };
}

impl<L: Ledger, K: Ord, V> Counted<L, K, V> {
    /// The empty map.
    pub fn new(alloc: Global) -> Counted<L, K, V>
        ensures { result ≡ [] }
    {
        Counted {
            of: PhantomData,
            entries: Ordered::new(alloc),
        }
    }

    /// Gives a key a value, and gives the value that it had. Each `Ok` is one step. After an `Err` the map and the count are as
    /// they were.
    pub fn put(&mut self, key: K, value: V, steps: &mut Steps<L>) -> Result<Option<V>, OutOfMemory>
    where
        K: Drop,
        V: Drop,
        ensures before { IfOk result
            (λ before. before ≡ maps.get (maps.map_by K.cmp self.old) key) }
        ensures ok { OnOk result (maps.map_by K.cmp self.new
            ≡ maps.insert (maps.map_by K.cmp self.old) key value) }
        ensures counted { OnOk result (steps.new ≡ steps.old + 1) }
        ensures err { OnErr result (self.new ≡ self.old) }
        ensures uncounted { OnErr result (steps.new ≡ steps.old) }
    {
        let before = self.entries.put(key, value)?;
        steps.tick();
        Ok(before)
    }

    /// Takes a key and its value away, and gives the value. It is one step, also where the key was not there. Takes no memory.
    pub fn remove(&mut self, key: &K, steps: &mut Steps<L>) -> Option<V>
    where
        K: Drop,
        ensures before { result ≡ maps.get (maps.map_by K.cmp self.old) key.now }
        ensures removed { maps.map_by K.cmp self.new
            ≡ maps.remove (maps.map_by K.cmp self.old) key.now }
        ensures counted { steps.new ≡ steps.old + 1 }
    {
        steps.tick();
        self.entries.remove(key)
    }

    /// The value of a key. Takes no memory.
    pub fn find(&self, key: &K) -> Option<&V>
        ensures { option_copied result ≡ maps.get (maps.map_by K.cmp self.now) key.now }
    {
        self.entries.find(key)
    }

    /// The pairs whose key is not below `from`, or all pairs, in ascending order. Takes no memory.
    pub fn walk(&self, from: Option<&K>) -> Walk<'_, K, V>
        ensures rest { result ≡ maps.not_below K.cmp (option_copied from.entry)
            (maps.map_by K.cmp self.now) }
        ensures runs { ShowsInOrder (deref_pair {K = K} {X = V}) }
        ensures fits { length result < 2 ^ 63 }
    {
        self.entries.walk(from)
    }
}
