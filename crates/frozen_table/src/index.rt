//! The entries of a partition, and where the key of each is found: a hash table with chains, all of whose links go to
//! earlier entries. It is built in the order of the entries, and never changes.

ghost use Rattle.std.specs.Prelude.{◌≡◌, ◌<◌, ◌^◌, ℕ, Some, IfNone, IfOk, IfSome, get_or, length, slice_get};
ghost use Rattle.dshash_core.specs.Key.{hash_of};
ghost use Rattle.dshash_core.specs.Listing.{pairs_of};
ghost use Rattle.frozen_table.specs.Places.{IsIndexed, keys_of, slot_of as slot_in};

use dshash_core::{CellObject, Entry, hash_key};
use std::alloc::{AllocError, Global};
use std::marker::Model;

/// Entries with the places of their keys. Contracts see the list of keys and states.
#[derive(Drop)]
pub(crate) struct Index<O: CellObject> {
    entries: Vec<Entry<O>>,
    /// For each slot the place after that of the last entry there, or 0 if there is none.
    heads: Vec<u32>,
    /// For each entry the place after that of the last one before it in the same slot, or 0 if there is none.
    nexts: Vec<u32>,
}

impl<O: CellObject> Model for Index<O> {
    ghost use Rattle.std.specs.Prelude.{ℕ, List};
    ghost use Rattle.std.specs.Coded.{coded×, coded_ℕ, coded_list};
    ghost use Rattle.dshash_core.specs.Listing.{pairs_of};
    ghost use Rattle.frozen_table.specs.Places.{IsIndexed, keys_of};

    ghost Value = { List (List ℕ × O.State) };

    ghost coded = { coded_list (coded× (coded_list coded_ℕ) O.State.code) };

    ghost view = { λ x. pairs_of x.entries.items };

    ghost invariant = { λ x. IsIndexed (keys_of (pairs_of x.entries.items)) x.heads.items x.nexts.items };
}

/// More entries than this have no index.
const MOST_ENTRIES: usize = 0x7fff_ffff;

impl<O: CellObject> Index<O> {
    /// The index of these entries. It takes 4 bytes an entry, and from 8 to 16 for its slots.
    pub(crate) fn of(alloc: Global, entries: Vec<Entry<O>>) -> Result<Index<O>, AllocError>
        ensures { IfOk result (λ x. x ≡ pairs_of entries.items) }
    {
        if entries.len() > MOST_ENTRIES {
            return Err(AllocError);
        }
        let slots = (entries.len() * 2).next_power_of_two();
        let mut heads = vec![in alloc; 0u32; slots]?;
        let nexts = link_all::<O>(alloc, &entries, &mut heads)?;
        Ok(Index {
            entries,
            heads,
            nexts,
        })
    }

    /// The state of an entry with this key, whose hash is known, if there is one.
    pub(crate) fn find(&self, hash: u32, key: &[u64]) -> Option<O::State>
        requires { hash ≡ hash_of key.now }
        ensures found { IfSome result (λ state. (place : ℕ) × (slice_get self.now place ≡ Some (key.now, state))) }
        ensures absent { IfNone result ((place : ℕ) (state : O.State) → slice_get self.now place ≡ Some (key.now, state) → ⊥) }
    {
        let slot = slot_of(hash, self.heads.len());
        let mut at = self.heads[slot];
        while at != 0 {
            let place = at as usize - 1;
            let entry = &self.entries[place];
            if entry.key.words() == key {
                return Some(entry.state);
            }
            at = self.nexts[place];
        }
        None
    }

    /// The entries, in the order in which they came.
    pub(crate) fn entries(&self) -> &[Entry<O>]
        ensures { pairs_of result.now ≡ self.now }
    {
        self.entries.as_slice()
    }
}

/// The slot of a hash, of this many.
#[tactic(auto, unfolding(crate::specs::Places::slot_of))]
fn slot_of(hash: u32, slots: usize) -> usize
    requires { 0 < slots }
    ensures is { result ≡ slot_in slots hash }
    ensures within { result < slots }
{
    hash as usize & (slots - 1)
}

/// Puts each entry at the head of its slot, and gives what was at the head before.
fn link_all<O: CellObject>(
    alloc: Global,
    entries: &Vec<Entry<O>>,
    heads: &mut Vec<u32>,
) -> Result<Vec<u32>, AllocError>
    requires few { length entries.now.items < 2 ^ 31 }
    requires slots { 0 < length heads.old.items }
    requires empty { (slot : ℕ) → get_or heads.old.items slot 0 ≡ 0 }
    ensures same { length heads.new.items ≡ length heads.old.items }
    ensures linked { IfOk result (λ nexts. IsIndexed (keys_of (pairs_of entries.now.items)) heads.new.items nexts.items) }
{
    let slots = heads.len();
    let mut nexts = Vec::with_capacity(alloc, entries.len())?;
    for place in 0..entries.len() {
        let slot = slot_of(hash_key(entries[place].key.words()), slots);
        nexts.push(heads[slot])?;
        heads[slot] = place as u32 + 1;
    }
    Ok(nexts)
}
