//! Lists of entries in order.

ghost use Rattle.std.specs.Prelude.{◌≡◌, ◌==◌, ◌≤◌, ◌↔◌, ℕ, List, map, length, insert, nat_eq, true, find, position, option_copied, IsTrue, IfOk, IsPermutation};
ghost use Rattle.std.specs.List.{IsDistinct, list_any};
ghost use Rattle.vtep_base.specs.declared.shapes.Direction.{Direction};
ghost use Rattle.ether_frames.specs.declared.fields.Headers.{Headers};
ghost use Rattle.acl_rules.specs.declared.entry.Entry.{Entry};
ghost use Rattle.acl_rules.specs.Matching.{matches};
ghost use Rattle.acl_rules.specs.Permits.{before, placed, in_order, permits, is_permit, Permits, IsOrdered, repeat_no_id};

use crate::entry::Entry;
use ether_frames::Headers;
use std::alloc::Global;
use std::marker::Model;
use vtep_base::{Action, Direction, OutOfMemory, RowId};

/// Entries in the order of sequence and then of identifier. Contracts see the list.
#[derive(Debug, Drop)]
pub struct Rules {
    entries: Vec<Entry>,
}

impl Model for Rules {
    ghost use Rattle.std.specs.Prelude.{List};
    ghost use Rattle.acl_rules.specs.declared.entry.Entry.{Entry};
    ghost use Rattle.acl_rules.specs.Permits.{IsOrdered};

    ghost Value = { List Entry };

    ghost view = { λ r. r.entries.items };

    ghost invariant = { λ r. IsOrdered r.entries.items };
}

impl Entry {
    /// Whether it comes before another: by a lesser sequence, or by the same and a lesser identifier.
    fn is_before(&self, other: &Entry) -> bool
        ensures { result ≡ before self.now other.now }
    {
        self.sequence < other.sequence || self.sequence == other.sequence && self.id < other.id
    }

    fn is_permit(&self) -> bool
        ensures { result ≡ is_permit self.now.action }
    {
        matches!(self.action, Action::Permit)
    }
}

/// The place of the first entry that another is before.
fn first_behind(sorted: &[Entry], entry: &Entry) -> Option<usize>
    ensures { result ≡ position (before entry.now) sorted.now }
{
    sorted.iter().position(|other| entry.is_before(other))
}

/// Where an entry goes among entries in order.
fn place_among(sorted: &[Entry], entry: &Entry) -> usize
    ensures within { result ≤ length sorted.now }
    ensures place { insert sorted.now result entry.now ≡ placed entry.now sorted.now }
{
    first_behind(sorted, entry).unwrap_or(sorted.len())
}

/// The first entry that matches.
fn first_that_matches<'a>(
    entries: &'a [Entry],
    headers: &Headers,
    direction: Direction,
) -> Option<&'a Entry>
    ensures { option_copied result
        ≡ find (λ e. matches e direction headers.now) entries.entry.now }
{
    entries
        .iter()
        .find(|entry| entry.matches(headers, direction))
}

/// What the first entry that matches says.
fn first_says(entries: &[Entry], headers: &Headers, direction: Direction) -> bool
    ensures { result ≡ permits entries.now headers.now direction }
{
    match first_that_matches(entries, headers, direction) {
        Some(entry) => entry.is_permit(),
        None => true,
    }
}

fn has_id(entries: &[Entry], id: RowId) -> bool
    ensures { result ≡ list_any (λ e. id == e.id) entries.now }
{
    entries.iter().any(|entry| entry.id == id)
}

/// Whether no two entries have one identifier, as rules ask. It compares each with each.
pub fn ids_are_distinct(entries: &[Entry]) -> bool
    ensures { IsTrue result ↔ IsDistinct nat_eq (map (λ e. e.id) entries.now) }
{
    repeat_no_id(entries)
}

fn repeat_no_id(entries: &[Entry]) -> bool
    ensures { result ≡ repeat_no_id entries.now }
{
    'entries: for (place, entry) in entries.iter().enumerate() {
        let (_, behind) = entries.split_at(place + 1);
        if has_id(behind, entry.id) {
            return false;
        }
    }
    true
}

impl Rules {
    /// These entries in order. `ids_are_distinct` tests what it asks.
    pub fn of(alloc: Global, entries: &[Entry]) -> Result<Rules, OutOfMemory>
        requires distinct { IsDistinct nat_eq (map (λ e. e.id) entries.now) }
        ensures entries { IfOk result (λ rules. rules ≡ in_order entries.now) }
        ensures permutation { IfOk result (λ rules. IsPermutation entries.now rules) }
    {
        let mut sorted = Vec::with_capacity(alloc, entries.len())?;
        'entries: for entry in entries {
            let place = place_among(&sorted, entry);
            sorted.insert(place, *entry)?;
        }
        Ok(Rules { entries: sorted })
    }

    /// The entries in order. Takes no memory.
    pub fn entries(&self) -> &[Entry]
        ensures entries { result.now ≡ self.now }
        ensures ordered { IsOrdered result.now }
    {
        self.entries.as_slice()
    }

    /// Whether a frame with these headers may pass this way: what the least entry that matches says, by sequence and then by
    /// identifier; yes, where none matches. Takes no memory.
    pub fn permits(&self, headers: &Headers, direction: Direction) -> bool
        ensures value { result ≡ permits self.now headers.now direction }
        ensures least { IsTrue result ↔ Permits self.now headers.now direction }
    {
        first_says(self.entries.as_slice(), headers, direction)
    }
}

/// Rules of at most 64 entries, as an access list has them.
#[derive(Debug, Drop)]
pub struct FewRules {
    rules: Rules,
}

impl Model for FewRules {
    ghost use Rattle.std.specs.Prelude.{List, ◌≤◌, length};
    ghost use Rattle.acl_rules.specs.declared.entry.Entry.{Entry};

    ghost Value = { List Entry };

    ghost view = { λ r. r.rules };

    ghost invariant = { λ r. length r.rules ≤ 64 };
}

impl FewRules {
    /// These rules.
    pub fn new(rules: Rules) -> FewRules
        requires { length rules ≤ 64 }
        ensures { result ≡ rules }
    {
        FewRules { rules }
    }

    /// The rules. Takes no memory.
    pub fn rules(&self) -> &Rules
        ensures value { result.now ≡ self.now }
        ensures few { length result.now ≤ 64 }
    {
        &self.rules
    }
}

/// A law: entries in order permit what the least matching entry of the set permits, however they were given.
pub fn least_entry_decides()
    ensures { (entries : List Entry) (headers : Headers) (direction : Direction)
        → IsDistinct nat_eq (map (λ e. e.id) entries)
        → (permits (in_order entries) headers direction ≡ true) ↔ Permits entries headers direction }
{}
