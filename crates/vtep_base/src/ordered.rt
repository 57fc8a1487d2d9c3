//! Finite maps in the order of their keys.

ghost use Rattle.std.specs.Prelude.{◌≡◌, ◌<◌, ◌^◌, ◌==◌, ◌&&◌, [], length, option_copied, IfOk, OnOk, OnErr};
ghost use Rattle.std.specs.Cmp.{on_per, and_per};
ghost use Rattle.std.specs.Cmp.Lexicographic.{pointwise, lists_per};
ghost use Rattle.std.specs.Map.Iter.{ShowsInOrder, GivesInOrder, deref_pair};
ghost use Rattle.std.specs.BTreeMap.Range.{IsLeBy, IsLtBy, entries_between};
ghost use Rattle.vtep_base.specs.Maps as maps;

use crate::answers::OutOfMemory;
use std::alloc::Global;
use std::cmp::Ord;
use std::collections::BTreeMap;
use std::collections::btree_map::IntoValues;
pub use std::collections::btree_map::Range as Walk;
use std::marker::Model;
use std::ops::{Bound, RangeBounds};

/// A finite map from keys to values, in the ascending order of its keys. Contracts see the list of its entries.
#[derive(Drop)]
pub struct Ordered<K: Ord, V> {
    tree: BTreeMap<K, V>,
}

impl<K: Ord, V> Model for Ordered<K, V> {
    ghost use Rattle.std.specs.Prelude.{List};
    ghost use Rattle.std.specs.List.Sorted.{IsStrictlySortedBy};
    ghost use Rattle.std.specs.Map.{keys_of};

    ghost Value = { List (K × V) };

    ghost view = { λ m. m.tree.entries };

    ghost invariant = { λ m. IsStrictlySortedBy K.cmp (keys_of m.tree.entries) };
}

impl<K: Ord, V> Ordered<K, V> {
    /// The empty map.
    pub fn new(alloc: Global) -> Ordered<K, V>
        ensures { result ≡ [] }
    {
        Ordered {
            tree: BTreeMap::new(alloc),
        }
    }

    /// How many keys have a value.
    pub fn len(&self) -> usize
        ensures { result ≡ maps.size (maps.map_by K.cmp self.now) }
    {
        self.tree.len()
    }

    /// Whether no key has a value.
    pub fn is_empty(&self) -> bool
        ensures { result ≡ (maps.size (maps.map_by K.cmp self.now) == 0) }
    {
        self.len() == 0
    }

    /// The value of a key.
    pub fn find(&self, key: &K) -> Option<&V>
        ensures { option_copied result ≡ maps.get (maps.map_by K.cmp self.now) key.now }
    {
        self.tree.get(key)
    }

    /// Whether a key has a value.
    pub fn has(&self, key: &K) -> bool
        ensures { result ≡ maps.has (maps.map_by K.cmp self.now) key.now }
    {
        self.tree.contains_key(key)
    }

    /// Gives a key a value, and gives the value that it had. After an `Err` the map is as it was.
    pub fn put(&mut self, key: K, value: V) -> Result<Option<V>, OutOfMemory>
    where
        K: Drop,
        V: Drop,
        ensures before { IfOk result
            (λ before. before ≡ maps.get (maps.map_by K.cmp self.old) key) }
        ensures ok { OnOk result (maps.map_by K.cmp self.new
            ≡ maps.insert (maps.map_by K.cmp self.old) key value) }
        ensures err { OnErr result (self.new ≡ self.old) }
    {
        Ok(self.tree.insert(key, value)?)
    }

    /// Takes a key and its value away, and gives the value. Takes no memory.
    pub fn remove(&mut self, key: &K) -> Option<V>
    where
        K: Drop,
        ensures before { result ≡ maps.get (maps.map_by K.cmp self.old) key.now }
        ensures removed { maps.map_by K.cmp self.new
            ≡ maps.remove (maps.map_by K.cmp self.old) key.now }
    {
        self.tree.remove(key)
    }

    /// The pairs whose key is not below `from`, or all pairs, in ascending order. Takes no memory.
    pub fn walk(&self, from: Option<&K>) -> Walk<'_, K, V>
        ensures rest { result ≡ maps.not_below K.cmp (option_copied from.entry)
            (maps.map_by K.cmp self.now) }
        ensures runs { ShowsInOrder (deref_pair {K = K} {X = V}) }
        ensures fits { length result < 2 ^ 63 }
    {
        let first = match from {
            Some(key) => Bound::Included(key),
            None => Bound::Unbounded,
        };
        self.tree.range((first, Bound::Unbounded))
    }

    /// The pairs whose key is in a range, in ascending order. Takes no memory.
    pub fn range<R: RangeBounds<K>>(&self, range: R) -> Walk<'_, K, V>
        requires forward { R.is_forward range (IsLeBy K.cmp) (IsLtBy K.cmp) }
        ensures rest { R.has_bounds range
            → result ≡ entries_between K.cmp (R.start_bound range) (R.end_bound range) (maps.map_by K.cmp self.now).list }
        ensures runs { ShowsInOrder (deref_pair {K = K} {X = V}) }
        ensures fits { length result < 2 ^ 63 }
    {
        self.tree.range(range)
    }

    /// The values, in ascending order of their keys. Takes no memory.
    pub fn into_values(self) -> IntoValues<K, V>
        ensures rest { result ≡ maps.values (maps.map_by K.cmp self) }
        ensures runs { GivesInOrder V }
        ensures fits { length result < 2 ^ 63 }
    {
        self.tree.into_values()
    }
}

impl<K: Ord, V: PartialEq> PartialEq for Ordered<K, V> {
    ghost eq = { λ m n. pointwise (λ e f. K.eq e.0 f.0 && V.eq e.1 f.1) (maps.map_by K.cmp m).list (maps.map_by K.cmp n).list };

    ghost laws = { on_per (λ m. (maps.map_by K.cmp m).list) (lists_per (and_per (on_per (λ e. e.0) K.PartialEq.laws) (on_per (λ e. e.1) V.laws))) };

    fn eq(&self, other: &Ordered<K, V>) -> bool {
        self.tree == other.tree
    }
}
