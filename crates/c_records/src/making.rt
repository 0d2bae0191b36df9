//! How a table is made, and how a further caller comes to it.

ghost use Rattle.std.specs.Prelude.{◌≡◌, ◌+◌, ◌≤◌, ◌<◌, IfOk, IfErr};
ghost use Rattle.c_records.specs.Made.{IsFirst, IsFurther};
ghost use Rattle.c_table.specs.Made.{IsRefused};

use crate::caller::Caller;
use crate::shared::{Share, Shared};
use c_table::{Code, Reserve};
use dshash_parts::{Dshash, cut_slices};
use region_words::Region;
use std::alloc::{AllocError, Global};
use std::sync::Arc;

/// The most callers of a table.
const MOST_CALLERS: u32 = 4096;

/// The words of a table besides its callers': one that is no place, and a slice of each partition.
const OWN_WORDS: u64 = 129;

/// The most words of a region.
const MOST_WORDS: u64 = 67_108_864;

/// An empty table for this many callers in its own region, with this many words for them, and this seed.
#[tactic(auto, using(word_map::proofs::Maps::answers, std::proofs::lemmas::Bool::Decides::nat_tests))]
fn assemble(alloc: Global, callers: u32, words: u64, seed: u64) -> Result<Caller, AllocError>
    requires callers { 1 ≤ callers }
    requires few { words + 129 ≤ 67108864 }
    ensures { IfOk result (λ c. IsFirst callers words seed c) }
{
    let (region, mut part) = Region::new(alloc, (words + OWN_WORDS) as usize)?;
    let slices = cut_slices(alloc, &region, &mut part, 1)?;
    let reserve = Reserve::of_part(part, OWN_WORDS, words);
    let (table, mut others) = Dshash::on_slices_with_seed(
        alloc, &region, slices, seed, 1, callers,
    )?;
    let Some(pass) = others.pop() else {
        unreachable!()
    };
    let shared = Arc::new(alloc, Shared { region, table })?;
    Ok(Caller {
        share: Share {
            shared,
            pass,
            others,
            reserve,
            items: Vec::new(alloc),
            slices: Vec::new(alloc),
        },
    })
}

/// An empty table of records under keys of one word, for this many callers, and the first of them, which has all words
/// that are brought: each new key takes 20, and a partition that grows to `n` buckets `n`. It takes memory for the
/// words, the locks and the passes. The seed is that of the hashes that say a key's bucket, 0 for none: draw one if
/// strangers choose the keys, and keep it from them.
pub fn new_table(alloc: Global, callers: u32, words: u64, seed: u64) -> Result<Caller, Code>
    ensures made { IfOk result (λ c. IsFirst callers words seed c) }
    ensures refused { IfErr result (λ code. IsRefused callers words code) }
{
    if callers == 0 || callers > MOST_CALLERS {
        return Err(Code::BadCallers);
    }
    if words > MOST_WORDS - OWN_WORDS {
        return Err(Code::BadSize);
    }
    match assemble(alloc, callers, words, seed) {
        Ok(caller) => Ok(caller),
        Err(_) => Err(Code::NoMemory),
    }
}

impl Caller {
    /// A further caller, which gets this many of this one's words.
    pub fn share(&mut self, alloc: Global, words: u64) -> Result<Caller, Code>
        ensures { IsFurther words self.old self.new result }
    {
        let share = &mut self.share;
        if share.others.is_empty() {
            return Err(Code::BadCallers);
        }
        if words == 0 || share.reserve.left() < words {
            return Err(Code::NoSpace);
        }
        let Ok(shared) = Arc::try_clone(&share.shared) else {
            return Err(Code::NoMemory);
        };
        let Some(pass) = share.others.pop() else {
            unreachable!()
        };
        let Some(chunk) = share.reserve.cut(&shared.region, words) else {
            unreachable!()
        };
        Ok(Caller {
            share: Share {
                shared,
                pass,
                others: Vec::new(alloc),
                reserve: Reserve::of_chunk(chunk),
                items: Vec::new(alloc),
                slices: Vec::new(alloc),
            },
        })
    }
}
