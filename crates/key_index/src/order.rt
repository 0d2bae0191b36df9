//! Places in the order of their keys.
//!
//! A place is sorted together with 16 bytes of its key as one number: those after the front that all keys have in
//! common. Unequal numbers decide the order of two keys (`AreNumbered`), so each key is read once for its number, and
//! again only if two numbers are equal.

ghost use Rattle.std.specs.Prelude.{◌≡◌, IfOk, length, map};
ghost use Rattle.std.specs.List.Sorted.{IsPermutation, IsSorted};
ghost use Rattle.std.specs.Ordering.{nat_cmp, ordering_then};
ghost use Rattle.key_index.specs.Keys.{key_at, key_cmp};
ghost use Rattle.key_index.specs.Order.{AreNumbered, key_of, place_of};

use crate::list::KeyList;
use std::alloc::{AllocError, Global};
use std::cmp::Ordering;

/// A place, and 16 bytes of its key as a number.
#[derive(Clone, Copy)]
pub(crate) struct Entry {
    bytes: u128,
    place: usize,
}

/// The places in the order of their keys. It takes 32 bytes a place.
pub(crate) fn in_order(
    alloc: Global,
    keys: &KeyList,
    places: &[usize],
) -> Result<Vec<Entry>, AllocError>
    ensures permutation { IfOk result (λ entries. IsPermutation places.now (map place_of entries.items)) }
    ensures sorted { IfOk result (λ entries. IsSorted key_cmp (map (key_of keys.now) entries.items)) }
{
    let mut entries = entries_of(alloc, keys, places)?;
    entries.sort_unstable_by(|a, b| compare(keys, a, b));
    Ok(entries)
}

/// Each place with the number of its key.
fn entries_of(alloc: Global, keys: &KeyList, places: &[usize]) -> Result<Vec<Entry>, AllocError>
    ensures places { IfOk result (λ entries. map place_of entries.items ≡ places.now) }
    ensures numbers { IfOk result (λ entries. AreNumbered keys.now entries.items) }
{
    let from = keys.common_front().len();
    let mut entries = Vec::with_capacity(alloc, places.len())?;
    for place in places {
        entries.push(Entry {
            bytes: keys.bytes_from(*place, from),
            place: *place,
        })?;
    }
    Ok(entries)
}

/// How two entries compare: by their numbers, and by their keys if these are equal.
fn compare(keys: &KeyList, a: &Entry, b: &Entry) -> Ordering
    ensures { result ≡ ordering_then (nat_cmp a.now.bytes b.now.bytes) (key_cmp (key_of keys.now a.now) (key_of keys.now b.now)) }
{
    match a.bytes.cmp(&b.bytes) {
        Ordering::Equal => keys.cmp(a.place, b.place),
        unequal => unequal,
    }
}

/// Writes the places of entries.
pub(crate) fn write_places(entries: &[Entry], places: &mut [usize])
    requires { length places.old ≡ length entries.now }
    ensures { places.new ≡ map place_of entries.now }
{
    for at in 0..entries.len() {
        places[at] = entries[at].place;
    }
}
