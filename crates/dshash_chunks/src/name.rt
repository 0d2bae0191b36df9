//! The name of a chunk, as what the map has under a key: its place and its length, two words.

ghost use Rattle.std.specs.Prelude.{◌≡◌};

use dshash_core::CellObject;
use region_words::Chunk;

/// The place of a chunk and its length in bytes.
#[derive(Clone, Copy, Debug, PartialEq, Eq)]
pub struct ChunkName {
    pub at: u64,
    pub bytes: u64,
}

/// A chunk's name under a key. The type has no fields; the states are `ChunkName`.
pub struct Names;

/// What is asked of the name under a key. The reply is the name that was there, if any.
#[derive(Clone, Copy, Debug, PartialEq, Eq)]
pub enum NameCall {
    /// This name is put there.
    Put(ChunkName),
    /// Nothing changes.
    Get,
    /// The key goes.
    Take,
}

impl ChunkName {
    /// The name of a chunk.
    #[inline]
    pub fn of(chunk: &Chunk) -> ChunkName
        ensures { (result.at ≡ chunk.now.at) × (result.bytes ≡ chunk.now.bytes) }
    {
        ChunkName {
            at: chunk.at.word(),
            bytes: chunk.bytes,
        }
    }
}

impl CellObject for Names {
    ghost use Rattle.std.specs.Prelude.{[], ◌∷◌, slice_index, refl};
    ghost use Rattle.dshash_chunks.specs.Named.{stepped};

    const VALUE_WORDS: usize = 2;

    type State = ChunkName;

    type Call = NameCall;

    type Reply = Option<ChunkName>;

    ghost VALUE_WORDS = { 2 };

    ghost stepped = { stepped };

    ghost is_value = { λ n. Unit {0} };

    ghost encoded = { λ n. n.at ∷ n.bytes ∷ [] };

    ghost decoded = { λ words. record { at = slice_index words 0; bytes = slice_index words 1 } };

    ghost reads_back = { λ n h. refl };

    fn step(state: Option<&ChunkName>, call: &NameCall) -> (Option<ChunkName>, Option<ChunkName>) {
        let next = match call {
            NameCall::Put(name) => Some(*name),
            NameCall::Get => state.copied(),
            NameCall::Take => None,
        };
        (next, state.copied())
    }

    fn reads(call: &NameCall) -> bool {
        match call {
            NameCall::Get => true,
            NameCall::Put(_) | NameCall::Take => false,
        }
    }

    fn encode(state: &ChunkName, out: &mut [u64]) {
        out[0] = state.at;
        out[1] = state.bytes;
    }

    fn decode(words: &[u64]) -> ChunkName {
        ChunkName {
            at: words[0],
            bytes: words[1],
        }
    }
}
