//! Listing a partition: each key with its state.

ghost use Rattle.std.specs.Prelude.{◌≡◌, ℕ, ◌<◌, List, ◌++◌, map, length, IfOk, OnOk};
ghost use Rattle.dshash_core.specs.Chains.{Item};
ghost use Rattle.dshash_core.specs.Hung.{Holds, chain_of};
ghost use Rattle.dshash_core.specs.Cells.{all_items, entry_of};
ghost use Rattle.dshash_core.specs.Listing.{pairs_of};

use crate::buckets::Buckets;
use crate::object::CellObject;
use region_words::Region;
use std::alloc::{AllocError, Global};
use std::marker::Model;

/// A key: a list of words.
#[derive(Drop)]
pub struct KeyWords {
    words: Vec<u64>,
}

impl Model for KeyWords {
    ghost use Rattle.std.specs.Prelude.{ℕ, List};

    ghost Value = { List ℕ };

    ghost view = { λ k. k.words.items };
}

impl KeyWords {
    /// The key of these words.
    pub(crate) fn of(words: Vec<u64>) -> KeyWords
        ensures { result ≡ words.items }
    {
        KeyWords { words }
    }

    /// The key's words, in order.
    pub fn words(&self) -> &[u64]
        ensures { result.now ≡ self.now }
    {
        self.words.as_slice()
    }
}

/// A key and its state.
#[derive(Drop)]
pub struct Entry<O: CellObject> {
    pub key: KeyWords,
    pub state: O::State,
}

/// Reads the entry of an item.
fn read_entry<O: CellObject>(
    buckets: &mut Buckets,
    alloc: Global,
    r: &Region,
    buffer: &mut [u64],
    item: u64,
) -> Result<Entry<O>, AllocError>
    requires here { buckets.old.region ≡ r.now }
    requires item { (it : Item) × Holds buckets.old it × (it.at ≡ item) }
    requires buffer { length buffer.old ≡ O.VALUE_WORDS }
    requires values { buckets.old.layout.value_words ≡ O.VALUE_WORDS }
    ensures same { buckets.new ≡ buckets.old }
    ensures entry { IfOk result (λ e. (it : Item) → Holds buckets.old it → it.at ≡ item → (e.key, e.state) ≡ entry_of O.decoded it) }
{
    let mut words = vec![in alloc; 0u64; buckets.key_words() as usize]?;
    buckets.read_key(r, item, words.as_mut_slice());
    buckets.read_value(r, item, buffer);
    Ok(Entry {
        key: KeyWords { words },
        state: O::decode(buffer),
    })
}

/// Adds the entries of a bucket's chain.
fn list_chain<O: CellObject>(
    buckets: &mut Buckets,
    alloc: Global,
    r: &Region,
    buffer: &mut [u64],
    bucket: u64,
    entries: &mut Vec<Entry<O>>,
) -> Result<(), AllocError>
    requires here { buckets.old.region ≡ r.now }
    requires bucket { bucket < length buckets.old.chains }
    requires buffer { length buffer.old ≡ O.VALUE_WORDS }
    requires values { buckets.old.layout.value_words ≡ O.VALUE_WORDS }
    ensures same { buckets.new ≡ buckets.old }
    ensures entries { OnOk result (pairs_of entries.new.items ≡ pairs_of entries.old.items ++ map (entry_of O.decoded) (chain_of buckets.old bucket)) }
{
    let mut item = buckets.first(r, bucket);
    while item != 0 {
        let entry = read_entry::<O>(buckets, alloc, r, buffer, item)?;
        entries.push(entry)?;
        item = buckets.next(r, bucket, item);
    }
    Ok(())
}

/// The entries of all chains, which are this many. `buffer` is memory for a value.
fn list_chains<O: CellObject>(
    buckets: &mut Buckets,
    alloc: Global,
    r: &Region,
    buffer: &mut [u64],
    count: u64,
) -> Result<Vec<Entry<O>>, AllocError>
    requires here { buckets.old.region ≡ r.now }
    requires buffer { length buffer.old ≡ O.VALUE_WORDS }
    requires values { buckets.old.layout.value_words ≡ O.VALUE_WORDS }
    ensures same { buckets.new ≡ buckets.old }
    ensures entries { IfOk result (λ v. pairs_of v.items ≡ map (entry_of O.decoded) (all_items buckets.old.chains)) }
{
    let mut entries = Vec::with_capacity(alloc, count as usize)?;
    for bucket in 0..buckets.len() {
        list_chain::<O>(buckets, alloc, r, buffer, bucket, &mut entries)?;
    }
    Ok(entries)
}

/// The same, and takes the memory for a value.
pub(crate) fn list_all<O: CellObject>(
    buckets: &mut Buckets,
    alloc: Global,
    r: &Region,
    count: u64,
) -> Result<Vec<Entry<O>>, AllocError>
    requires here { buckets.old.region ≡ r.now }
    requires values { buckets.old.layout.value_words ≡ O.VALUE_WORDS }
    ensures same { buckets.new ≡ buckets.old }
    ensures entries { IfOk result (λ v. pairs_of v.items ≡ map (entry_of O.decoded) (all_items buckets.old.chains)) }
{
    let mut value = vec![in alloc; 0u64; O::VALUE_WORDS]?;
    list_chains::<O>(buckets, alloc, r, value.as_mut_slice(), count)
}
