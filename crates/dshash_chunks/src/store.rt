//! The words of all chunks of a partition, in one part: a chunk is cut off it by its name, or joined to it.

ghost use Rattle.std.specs.Prelude.{◌≡◌, ℕ, ◌+◌, ◌/◌, ◌%◌, ◌<◌, ◌≤◌, IfSome, IsSome};
ghost use Rattle.std.specs.Option.{option_map};
ghost use Rattle.word_map.specs.WordMap.{at as word_at, rest_of, union, Disjoint};
ghost use Rattle.region_words.specs.Parts.{owned};
ghost use Rattle.dshash_chunks.specs.Held.{held, held_in};
ghost use Rattle.dshash_chunks.specs.Stored.{IsCuttable, without};

use crate::name::ChunkName;
use region_words::{Chunk, Part, Region};

/// Cuts the chunk of this name off.
#[inline]
pub(crate) fn cut(store: &mut Part, r: &Region, name: ChunkName) -> Chunk
    requires here { store.old.region ≡ r.now }
    requires name { IsCuttable store.old.words name }
    ensures rest { store.new ≡ owned store.old.region (rest_of store.old.words name.at (name.bytes / 8)) }
    ensures chunk { held_in result ≡ held store.old.words name }
    ensures here { result.part.region ≡ store.old.region }
{
    store.split_chunk(r, name.at, name.bytes / 8)
}

/// Joins a chunk, whose words were none of the store's.
#[inline]
pub(crate) fn lay(store: &mut Part, r: &Region, chunk: Chunk)
    requires here { (store.old.region ≡ r.now) × (chunk.part.region ≡ r.now) }
    ensures both { store.new ≡ owned store.old.region (union store.old.words chunk.part.words) }
    ensures apart { Disjoint store.old.words chunk.part.words }
{
    let Chunk {
        at: _,
        bytes: _,
        part,
    } = chunk;
    store.join(r, part);
}

/// Cuts the chunk of this name off, if there is one.
#[inline]
pub(crate) fn cut_if(store: &mut Part, r: &Region, name: Option<ChunkName>) -> Option<Chunk>
    requires here { store.old.region ≡ r.now }
    requires name { IfSome name (IsCuttable store.old.words) }
    ensures rest { store.new ≡ owned store.old.region (without store.old.words name) }
    ensures chunk { option_map held_in result ≡ option_map (held store.old.words) name }
    ensures here { IfSome result (λ c. c.part.region ≡ store.old.region) }
{
    match name {
        Some(name) => Some(cut(store, r, name)),
        None => None,
    }
}
