//! The plan descriptor: a plan as words of a segment, so that all participants of a query find it there.
//!
//! It is written once, by the holder of a chunk, before the segment is frozen; from then on nobody changes its words,
//! and everybody reads the same plan. What each word means is said in `specs/Descriptor`. Version 2 is written, and
//! version 1, which has no filter and no places, is still read.

#![tactic(auto)]

ghost use Rattle.std.specs.Prelude.{◌≡◌, ◌+◌, ◌<◌, ◌≤◌, ℕ, IfErr, IfOk, IsSome, None, OnOk, Some, take, true};
ghost use Rattle.par_model.specs.Plain.{is_plain};
ghost use Rattle.par_model.specs.Plan.{Plan};
ghost use Rattle.plan_descriptor.specs.Descriptor.{IsDescriptor, IsWritable, bad_word, descriptor_in, plan_words, size_of};
ghost use Rattle.plan_descriptor.specs.Planned.{HasPlan};
ghost use Rattle.shm_toc.specs.Table.{word_of};
ghost use Rattle.word_map.specs.WordMap.{WordMap, at as word_at, values_from};

mod reading;
mod words;

use par_model::BoundPlan;
use reading::decode;
use region_words::{Chunk, Frozen, Region};
use rel_pointer::RelPtr;
use shm_toc::FrozenToc;
use words::{has_room, plan_word};

/// The key under which a table of contents has the place of the plan's descriptor.
pub const PLAN_KEY: u64 = 1;

/// A descriptor's word that is not allowed: its number, counted from the descriptor's first word.
#[derive(Clone, Copy, Debug, PartialEq, Eq)]
pub struct BadDescriptor {
    pub at: u64,
}

/// Writes the plan into a chunk of 256 bytes, as a descriptor of version 2: 32 stores. The plan has at most one filter,
/// and that is of numbers.
pub fn write_plan(plan: &BoundPlan, r: &Region, chunk: &mut Chunk)
    requires here { chunk.old.part.region ≡ r.now }
    requires room { chunk.old.bytes ≡ 256 }
    requires plain { is_plain plan.now ≡ true }
    ensures words { descriptor_in chunk.new.part.words chunk.new.at ≡ plan_words 2 plan.now }
    ensures plan { IsWritable plan.now }
    ensures place { (chunk.new.at ≡ chunk.old.at) × (chunk.new.bytes ≡ chunk.old.bytes) }
    ensures region { chunk.new.part.region ≡ chunk.old.part.region }
{
    has_room(plan);
    'words: for place in 0..32 {
        let word = plan_word(plan, place);
        chunk.store(r, place, word);
    }
}

/// The plan whose descriptor lies from this place on: 28 frozen words, or 32 if the first of them is 2.
/// `BadDescriptor` names the least word that is not allowed. It takes no memory; it loads each word once, and the first
/// one twice.
pub fn read_plan(toc: &mut FrozenToc, r: &Region, at: RelPtr) -> Result<BoundPlan, BadDescriptor>
    requires here { toc.old.region ≡ r.now }
    requires has { (k : ℕ) → k < size_of (word_of toc.old.words at) → IsSome (word_at toc.old.words (at + k)) }

    // What is read is the descriptor of what it gives, and each plan that was written is given back.
    ensures descriptor { IfOk result (λ plan. IsDescriptor (descriptor_in toc.old.words at) plan) }
    ensures reads_back { (plan : Plan) → IsWritable plan → IsDescriptor (descriptor_in toc.old.words at) plan → result ≡ Ok plan }

    ensures refused { IfErr result (λ e. bad_word (descriptor_in toc.old.words at) ≡ Some e.at) }
    ensures whole { OnOk result (bad_word (descriptor_in toc.old.words at) ≡ None) }
    ensures same { toc.new ≡ toc.old }
{
    let mut frozen = toc.share(r);
    frozen.is_small();
    let at = at.word();
    let size = if frozen.load(r, at) == 2 { 32 } else { 28 };
    let words = copied(&mut frozen, r, at, size);
    decode(&words[..size])
}

/// The plan that lies in the table of contents, under [`PLAN_KEY`]. It is the one that was written there, and so the
/// same for all that read it. It takes no memory; it walks the table's entries up to that key and loads each word of
/// the descriptor.
pub fn plan_in(toc: &mut FrozenToc, r: &Region) -> BoundPlan
    requires here { toc.old.region ≡ r.now }
    requires plan { (plan : Plan) × HasPlan toc.old.words plan }
    ensures plan { (plan : Plan) → HasPlan toc.old.words plan → result ≡ plan }
    ensures same { toc.new ≡ toc.old }
{
    let Some(at) = toc.lookup(r, PLAN_KEY) else {
        unreachable!()
    };
    let Ok(plan) = read_plan(toc, r, at) else {
        unreachable!()
    };
    plan
}

/// A table of contents has at most one plan.
pub fn has_one_plan()
    ensures { (words : WordMap) (p q : Plan) → HasPlan words p → HasPlan words q → p ≡ q }
{}

/// The words from a place on, and zeros past them.
fn copied(frozen: &mut Frozen, r: &Region, at: u64, size: usize) -> [u64; 32]
    requires here { frozen.old.region ≡ r.now }
    requires has { (k : ℕ) → k < size → IsSome (word_at frozen.old.words (at + k)) }
    requires size { size ≤ 32 }
    ensures { take size result ≡ values_from frozen.old.words at size }
{
    frozen.is_small();
    let mut words = [0; 32];
    'words: for k in 0..size {
        words[k] = frozen.load(r, at + k as u64);
    }
    words
}
