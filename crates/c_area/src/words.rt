//! The words of a caller's own chunks: no other caller touches them, so none of these calls is a turn at the area.

ghost use Rattle.std.specs.Prelude.{◌≡◌, ℕ, ◌+◌, ◌*◌, ◌<◌, ◌≤◌, ◌^◌, ◌⊎◌, Some, IsSome, IfOk, IfErr, IfSome, is_some, length, slice_index};
ghost use Rattle.std.specs.Option.{option_map};
ghost use Rattle.std_alloc.specs.Arc.{arc_value};
ghost use Rattle.word_map.specs.WordMap.{at as word_at};
ghost use Rattle.dsa_area.specs.Sizes.{page_bytes};
ghost use Rattle.c_area.specs.Shares.{IsShare, chunk_of};
ghost use Rattle.c_area.specs.Tries.{HasWords, LacksWords, Reads, Writes, IsNext};

use crate::blocks::PAGE_BYTES;
use crate::caller::{Caller, find};
use crate::code::Code;
use crate::shared::{Extent, Share};
use region_words::{Part, Region};

/// The words that are asked for, if the caller's chunk has them.
fn reach(share: &Share, number: u64, from: u64, count: usize) -> Result<Extent, Code>
    ensures has { IfOk result (λ e. HasWords share.now number from count e) }
    ensures lacks { IfErr result (λ code. LacksWords share.now number from count code) }
{
    let Some(e) = find(share, number) else {
        return Err(Code::Stranger);
    };
    if from > e.words || count as u64 > e.words - from {
        return Err(Code::NoWord);
    }
    Ok(e)
}

/// Loads words in a row.
fn load_row(part: &mut Part, r: &Region, at: u64, out: &mut [u64])
    requires here { part.old.region ≡ r.now }
    requires owns { (k : ℕ) → at ≤ k → k < at + length out.old → IsSome (word_at part.old.words k) }
    ensures same { part.new ≡ part.old }
    ensures count { length out.new ≡ length out.old }
    ensures found { (i : ℕ) → i < length out.old → word_at part.old.words (at + i) ≡ Some (slice_index out.new i) }
{
    part.is_small();
    for (i, x) in out.iter_mut().enumerate() {
        *x = part.load(r, at + i as u64);
    }
}

/// Stores words in a row.
fn store_row(part: &mut Part, r: &Region, at: u64, words: &[u64])
    requires here { part.old.region ≡ r.now }
    requires owns { (k : ℕ) → at ≤ k → k < at + length words.now → IsSome (word_at part.old.words k) }
    ensures here { part.new.region ≡ part.old.region }
    ensures keys { (k : ℕ) → is_some (word_at part.new.words k) ≡ is_some (word_at part.old.words k) }
    ensures stored { (i : ℕ) → i < length words.now → word_at part.new.words (at + i) ≡ Some (slice_index words.now i) }
    ensures rest { (k : ℕ) → (k < at) ⊎ (at + length words.now ≤ k) → word_at part.new.words k ≡ word_at part.old.words k }
{
    part.is_small();
    for (i, x) in words.iter().enumerate() {
        part.store(r, at + i as u64, *x);
    }
}

/// Reads words of a chunk.
fn read_words(share: &mut Share, number: u64, from: u64, out: &mut [u64]) -> Code
    requires share { IsShare share.old }
    ensures share { IsShare share.new }
    ensures reads { Reads share.old share.new number from out.old out.new result }
{
    match reach(share, number, from, out.len()) {
        Ok(e) => {
            share.words.is_small();
            load_row(&mut share.words, &share.shared.region, e.at + from, out);
            Code::Done
        }
        Err(code) => code,
    }
}

/// Writes words of a chunk.
fn write_words(share: &mut Share, number: u64, from: u64, words: &[u64]) -> Code
    requires share { IsShare share.old }
    ensures share { IsShare share.new }
    ensures writes { Writes share.old share.new number from words.now result }
{
    match reach(share, number, from, words.len()) {
        Ok(e) => {
            share.words.is_small();
            store_row(&mut share.words, &share.shared.region, e.at + from, words);
            Code::Done
        }
        Err(code) => code,
    }
}

impl Caller {
    /// Reads words of a chunk, from its word `from` on: as many as `out` has room for. A load a word.
    pub fn read(&mut self, number: u64, from: u64, out: &mut [u64]) -> Code
        ensures { Reads self.old self.new number from out.old out.new result }
    {
        read_words(&mut self.share, number, from, out)
    }

    /// Writes words of a chunk, from its word `from` on. A store a word.
    pub fn write(&mut self, number: u64, from: u64, words: &[u64]) -> Code
        ensures { Writes self.old self.new number from words.now result }
    {
        write_words(&mut self.share, number, from, words)
    }

    /// How many words the chunk of this number has.
    pub fn words_of(&self, number: u64) -> Option<u64>
        ensures words { result ≡ option_map (λ e. e.words) (chunk_of self.now number) }
        ensures few { IfSome result (λ n. n ≤ 2 ^ 26) }
    {
        self.share.words.is_small();
        match find(&self.share, number) {
            Some(e) => Some(e.words),
            None => None,
        }
    }

    /// The number of the next chunk, from this number on. It looks at each number up to the greatest that there was.
    pub fn next(&self, from: u64) -> Option<u64>
        ensures { IsNext self.now from result }
    {
        let chunks = &self.share.chunks;
        for number in from..chunks.capacity() as u64 {
            if chunks.contains(number as usize) {
                return Some(number);
            }
        }
        None
    }

    /// The bytes of all pages of the area, granted or not. They never change.
    pub fn size(&self) -> u64
        ensures { result ≡ page_bytes * (arc_value self.now.shared).pages }
    {
        PAGE_BYTES * u64::from(self.share.shared.pages)
    }
}
