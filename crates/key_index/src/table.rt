//! The table that finds keys by their hash.
//!
//! A search goes from the slot of a key's hash on to the first free one, but never further than `LONGEST_SEARCH` slots.
//! No more than half of the slots are taken, so hardly any key in a million is further off, unless somebody chose the
//! keys for their hashes, whose seed is known. A key that finds no slot within that reach goes into an ordered map. So
//! whatever the keys are, one is found by a bounded number of slots and one search of the map at most.
//!
//! The invariant, `IsIndexed`: each key's place is reached before a free slot, or else the map has a place of the key.
//! Only `push` changes slots and map, and what was found stays found.

ghost use Rattle.std.specs.Prelude.{◌≡◌, ◌<◌, ◌≤◌, ◌+◌, ◌^◌, ◌∷◌, ◌++◌, ◌⊎◌, [], ℕ, List, Some, IfSome, IfNone, IfOk, OnOk, OnErr, length, map, slice_get};
ghost use Rattle.std.specs.Bool.{OnTrue};
ghost use Rattle.std.specs.List.Sorted.{IsPermutation, IsSorted};
ghost use Rattle.key_index.specs.Keys.{key_at, key_cmp};
ghost use Rattle.key_index.specs.Index.{IsIndexed, IsLate, IsReached, hash as hashed, late_place, probe as probed, reach as reached};

use crate::list::KeyList;
use crate::order::{in_order, write_places};
use std::alloc::{AllocError, Global};
use std::collections::BTreeMap;
use std::hash::{FoldHasher, Hasher};
use std::marker::Model;

/// Half of a key's hash, and the place after that key's. 0 is the place of no key.
#[derive(Clone, Copy, Drop)]
pub(crate) struct Slot {
    tag: u32,
    next: u32,
}

const FREE: Slot = Slot { tag: 0, next: 0 };

/// The most slots that a search looks at.
const LONGEST_SEARCH: usize = 64;

/// Keys in the order in which they came.
#[derive(Drop)]
pub struct KeyTable {
    slots: Vec<Slot>,
    keys: KeyList,
    /// The keys that found no slot, each with its place.
    late: BTreeMap<Vec<u8>, usize>,
}

impl Model for KeyTable {
    ghost use Rattle.std.specs.Prelude.{ℕ, List};

    ghost Value = { List (List ℕ) };

    ghost view = { λ t. t.keys };

    ghost use Rattle.key_index.specs.Index.{IsIndexed};

    ghost invariant = { λ t. IsIndexed t.slots.items t.late t.keys };
}

impl KeyTable {
    /// No keys. Takes no memory.
    pub fn new(alloc: Global) -> KeyTable
        ensures { result ≡ [] }
    {
        KeyTable {
            slots: Vec::new(alloc),
            keys: KeyList::new(alloc),
            late: BTreeMap::new(alloc),
        }
    }

    /// The number of keys.
    pub fn len(&self) -> usize
        ensures { result ≡ length self.now }
    {
        self.keys.len()
    }

    /// The key at a place.
    pub fn get(&self, at: usize) -> &[u8]
        requires { at < length self.now }
        ensures { slice_get self.now at ≡ Some result.now }
    {
        self.keys.get(at)
    }

    /// The place of a key, if it has one.
    pub fn find(&self, key: &[u8]) -> Option<usize>
        ensures found { IfSome result (λ place. slice_get self.now place ≡ Some key.now) }
        ensures absent { IfNone result ((place : ℕ) → slice_get self.now place ≡ Some key.now → ⊥) }
    {
        self.find_hashed(hash_of(key), NO_GUESS, key)
    }

    /// The place of a key, if it has one, for a caller that has the key's hash, by [`hash_of`], and may expect the key
    /// at a place that [`KeyTable::guess`] gave: there it is looked for first.
    pub fn find_hashed(&self, hash: u64, guess: usize, key: &[u8]) -> Option<usize>
        requires { hash ≡ hashed key.now }
        ensures found { IfSome result (λ place. slice_get self.now place ≡ Some key.now) }
        ensures absent { IfNone result ((place : ℕ) → slice_get self.now place ≡ Some key.now → ⊥) }
    {
        if self.keys.is(guess, key) {
            return Some(guess);
        }
        let tag = (hash >> 32) as u32;
        let size = self.slots.len();
        for step in 0..reach(size) {
            let slot = self.slots[probe(size, hash, step)];
            if slot.next == 0 {
                return find_late(&self.late, &self.keys, key);
            }
            let place = slot.next as usize - 1;
            if slot.tag == tag && self.keys.is(place, key) {
                return Some(place);
            }
        }
        find_late(&self.late, &self.keys, key)
    }

    /// Guesses at the places of keys, of which each has a hash, by [`hash_of`], and a last byte. A guess may be wrong,
    /// or no place at all. In a large table a look-up waits for far memory twice, for a slot and for a key. Here it is
    /// the slots of all keys that are read first, and then their keys, and nothing that is read waits for anything else
    /// of the same turn; so what [`KeyTable::find_hashed`] reads later is near by then. The number of guesses is the
    /// length of the shortest of the three lists.
    pub fn guess(&self, hashes: &[u64], lasts: &[u8], guesses: &mut [usize]) {
        let size = self.slots.len();
        for (guess, hash) in guesses.iter_mut().zip(hashes) {
            *guess = if size == 0 {
                NO_GUESS
            } else {
                guess_in(self.slots[probe(size, *hash, 0)], *hash)
            };
        }
        for (guess, last) in guesses.iter_mut().zip(lasts) {
            if !self.keys.ends_with(*guess, *last) {
                *guess = NO_GUESS;
            }
        }
    }

    /// Puts places in the order of their keys. A place of no key comes first. If there is memory for it, the places are
    /// sorted by 16 bytes of their keys, those after the front that all keys have in common, so that hardly any key is
    /// looked at twice; without the memory it only takes longer.
    pub fn sort(&self, places: &mut Vec<usize>)
        ensures permutation { IsPermutation places.old.items places.new.items }
        ensures sorted { IsSorted key_cmp (map (key_at self.now) places.new.items) }
    {
        match in_order(*places.allocator(), &self.keys, places) {
            Ok(entries) => write_places(&entries, places),
            Err(_) => places.sort_unstable_by(|a, b| self.keys.cmp(*a, *b)),
        }
    }

    /// Puts a key after the others. It doesn't check whether the key is there already.
    pub fn push(&mut self, alloc: Global, key: &[u8]) -> Result<(), AllocError>
        ensures ok { OnOk result (self.new ≡ self.old ++ key.now ∷ []) }
        ensures err { OnErr result (self.new ≡ self.old) }
    {
        self.push_hashed(alloc, hash_of(key), key)
    }

    /// Puts a key after the others, for a caller that has the key's hash, by [`hash_of`].
    pub fn push_hashed(&mut self, alloc: Global, hash: u64, key: &[u8]) -> Result<(), AllocError>
        requires { hash ≡ hashed key.now }
        ensures ok { OnOk result (self.new ≡ self.old ++ key.now ∷ []) }
        ensures err { OnErr result (self.new ≡ self.old) }
    {
        self.make_room(alloc)?;
        let place = self.keys.len();
        enter(
            &mut self.slots,
            &mut self.late,
            &self.keys,
            alloc,
            hash,
            key,
            place,
        )?;
        self.keys.push(key)
    }

    /// Takes all keys out, and keeps the memory for those that come next. The time is that of the memory.
    pub fn clear(&mut self)
        ensures { self.new ≡ [] }
    {
        for slot in self.slots.iter_mut() {
            *slot = FREE;
        }
        self.keys.clear();
        self.late.clear();
    }

    /// Makes sure that no more than half of the slots are taken.
    fn make_room(&mut self, alloc: Global) -> Result<(), AllocError>
        ensures { self.new ≡ self.old }
    {
        if self.keys.len() >= self.slots.len() / 2 {
            let size = self.slots.len().saturating_mul(4).max(FIRST_SLOTS);
            self.slots = index_of(alloc, &self.keys, &mut self.late, size)?;
        }
        Ok(())
    }
}

const FIRST_SLOTS: usize = 1024;

const MOST_KEYS: usize = u32::MAX as usize;

/// The hash of a key, by which a table finds it.
pub fn hash_of(key: &[u8]) -> u64
    ensures { result ≡ hashed key.now }
{
    let mut hasher = FoldHasher::default();
    hasher.write(key);
    hasher.finish()
}

/// The place that stands for no guess: no key has it.
const NO_GUESS: usize = usize::MAX;

/// The place in a slot, if it may be that of a key with this hash.
fn guess_in(slot: Slot, hash: u64) -> usize {
    if slot.next == 0 || slot.tag != (hash >> 32) as u32 {
        return NO_GUESS;
    }
    slot.next as usize - 1
}

/// The slot that a search for a hash comes to after this many steps.
fn probe(size: usize, hash: u64, step: usize) -> usize
    requires { step < size }
    ensures place { result ≡ probed size hash step }
    ensures within { result < size }
{
    let mask = size - 1;
    (hash as usize & mask).wrapping_add(step) & mask
}

/// How many slots a search looks at.
fn reach(size: usize) -> usize
    ensures reach { result ≡ reached size }
    ensures within { result ≤ size }
{
    size.min(LONGEST_SEARCH)
}

/// The place of a key in the ordered map, if it has one there.
#[inline(never)]
fn find_late(late: &BTreeMap<Vec<u8>, usize>, keys: &KeyList, key: &[u8]) -> Option<usize>
    ensures there { IfSome result (λ place. late_place late.now key.now ≡ Some place) }
    ensures found { IfSome result (λ place. slice_get keys.now place ≡ Some key.now) }
    ensures absent { IfNone result (IsLate late.now keys.now key.now → ⊥) }
{
    let place = *late.get(key)?;
    if keys.is(place, key) {
        Some(place)
    } else {
        None
    }
}

/// Gives a key that comes at this place a slot, or else puts it into the ordered map, if it is not there.
fn enter(
    slots: &mut Vec<Slot>,
    late: &mut BTreeMap<Vec<u8>, usize>,
    keys: &KeyList,
    alloc: Global,
    hash: u64,
    key: &[u8],
    place: usize,
) -> Result<(), AllocError>
    requires { hash ≡ hashed key.now }
    ensures entered { OnOk result (IsReached slots.new.items (hashed key.now) place ⊎ ((late_place late.new key.now ≡ Some place) ⊎ IsLate late.new keys.now key.now)) }
    ensures kept { (other at : ℕ) → IsReached slots.old.items other at → IsReached slots.new.items other at }
    ensures late_kept { (other : List ℕ) → IsLate late.old keys.now other → IsLate late.new keys.now other }
{
    if put(slots, hash, place) {
        return Ok(());
    }
    if let Some(_place) = find_late(late, keys, key) {
        return Ok(());
    }
    let copy = Vec::from_slice(alloc, key)?;
    match late.insert(copy, place) {
        Ok(_) => Ok(()),
        Err(_) => Err(AllocError),
    }
}

/// Puts a place into the first free slot within reach, if there is one.
fn put(slots: &mut Vec<Slot>, hash: u64, place: usize) -> bool
    ensures reached { OnTrue result (IsReached slots.new.items hash place) }
    ensures kept { (other at : ℕ) → IsReached slots.old.items other at → IsReached slots.new.items other at }
{
    if place >= MOST_KEYS {
        return false;
    }
    let size = slots.len();
    for step in 0..reach(size) {
        let at = probe(size, hash, step);
        if slots[at].next == 0 {
            slots[at] = Slot {
                tag: (hash >> 32) as u32,
                next: place as u32 + 1,
            };
            return true;
        }
    }
    false
}

/// A table of this many slots for these keys. Those that find none go into the ordered map.
fn index_of(
    alloc: Global,
    keys: &KeyList,
    late: &mut BTreeMap<Vec<u8>, usize>,
    size: usize,
) -> Result<Vec<Slot>, AllocError>
    ensures indexed { IfOk result (λ slots. IsIndexed slots.items late.new keys.now) }
    ensures late_kept { (other : List ℕ) → IsLate late.old keys.now other → IsLate late.new keys.now other }
{
    let mut slots = vec![in alloc; FREE; size]?;
    for place in 0..keys.len() {
        let key = keys.get(place);
        enter(&mut slots, late, keys, alloc, hash_of(key), key, place)?;
    }
    Ok(slots)
}
