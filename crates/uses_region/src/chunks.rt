//! Bytes are stored in the words of a chunk.

ghost use Rattle.std.specs.Prelude.{◌≡◌, ℕ, ◌+◌, ◌<◌, ◌≤◌, Some, length};
ghost use Rattle.word_map.specs.WordMap.{at as word_at};
ghost use Rattle.rel_pointer.specs.Bytes.{word_count, packed};

use region_words::{Chunk, Region};
use rel_pointer::{pack, words_of};

/// The words of some bytes are stored in a chunk, one by one.
#[tactic(auto, using(word_map::proofs::Maps::answers, std::proofs::lemmas::Bool::Decides::nat_tests))]
pub fn store_bytes(r: &Region, chunk: &mut Chunk, bytes: &[u8])
    requires here { chunk.old.part.region ≡ r.now }
    requires room { length bytes.now ≤ chunk.old.bytes }
    ensures here { chunk.new.part.region ≡ chunk.old.part.region }
    ensures place { (chunk.new.at ≡ chunk.old.at) × (chunk.new.bytes ≡ chunk.old.bytes) }
    ensures stored { (n : ℕ) → n < word_count (length bytes.now) → word_at chunk.new.part.words (chunk.old.at + n) ≡ Some (packed bytes.now n) }
{
    let count = words_of(bytes.len() as u64);
    for n in 0..count {
        chunk.store(r, n, pack(bytes, n));
    }
}
