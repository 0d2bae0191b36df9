//! A partition that gets what its calls lack: an item, or a move to the next size.

ghost use Rattle.std.specs.Prelude.{◌≡◌, ℕ, ◌+◌, ◌/◌, ◌<◌, ◌≤◌};
ghost use Rattle.std.specs.Coded.{Coded-set};
ghost use Rattle.atomic_table.specs.Seated.{table_id_coded};
ghost use Rattle.dshash_core.specs.Cells.{buckets_of};

use super::number::{Number, NumberCall};
use super::store::Store;
use dshash_core::{CellObject, CoreOut, Entry, Partition, bucket_count};
use dshash_resize::move_partition;
use region_words::{Chunk, Region};
use std::alloc::{AllocError, Global};

/// A partition of numbers under keys of one word, and the words that it may still have.
#[derive(Drop)]
pub struct Growing {
    region: Region,
    store: Store,
    numbers: Partition<Number>,
    moves: Vec<(u32, u64)>,
    ghost store_here: { store.part.region ≡ region } by { Coded-set table_id_coded store.part.region region },
    ghost numbers_here: { numbers.region ≡ region } by { Coded-set table_id_coded numbers.region region },
    ghost keys: { numbers.key_words ≡ 1 },
    ghost items: { numbers.item_bytes ≡ 32 },
}

/// Moves a partition to the next size; its former slice is handed out.
pub fn grow<O: CellObject>(p: &mut Partition<O>, r: &Region, slice: Chunk) -> Chunk
    requires here { (p.old.region ≡ r.now) × (slice.part.region ≡ r.now) }
    requires small { p.old.size < 20 }
    requires room { buckets_of (p.old.size + 1) ≤ slice.bytes / 8 }
    ensures grown { p.new ≡ record p.old { slice = slice.at; words = slice.bytes / 8; size = p.old.size + 1 } }
{
    let size = p.size() + 1;
    move_partition(p, r, size, slice)
}

impl Growing {
    /// An empty partition in a region of 10,000 words.
    pub fn new(alloc: Global) -> Result<Growing, AllocError> {
        let (region, part) = Region::new(alloc, 10_000)?;
        let mut store = Store::of_region(&region, part, 10_000);
        let Some(slice) = store.take(&region, 1) else {
            return Err(AllocError);
        };
        let numbers = Partition::new(&region, slice, 1, 32);
        Ok(Growing {
            region,
            store,
            numbers,
            moves: Vec::new(alloc),
        })
    }

    pub fn partition(&self) -> &Partition<Number> {
        &self.numbers
    }

    /// The sizes that were too small, each with the number of keys then.
    pub fn moves(&self) -> &[(u32, u64)] {
        self.moves.as_slice()
    }

    pub fn list(&mut self, alloc: Global) -> Result<Vec<Entry<Number>>, AllocError> {
        self.numbers.list(alloc, &self.region)
    }

    /// Makes a call, with what it lacks. None where words or memory are used up.
    pub fn call(&mut self, key: u64, call: NumberCall) -> Option<Option<u64>> {
        let key = [key];
        let mut spare = None;
        for _ in 0..4 {
            match self.numbers.try_call(&self.region, &key, &call, spare) {
                CoreOut::Done { reply, .. } => return Some(reply),
                CoreOut::NeedItem => spare = Some(self.store.take(&self.region, 4)?),
                CoreOut::TooFull { size, spare: back } => {
                    self.moves.push((size, self.numbers.count())).ok()?;
                    let slice = self.store.take(&self.region, bucket_count(size + 1))?;
                    grow(&mut self.numbers, &self.region, slice);
                    spare = back;
                }
            }
        }
        None
    }
}
