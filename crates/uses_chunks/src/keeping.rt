//! A caller that keeps a number in a chunk under a key, and raises it there.

ghost use Rattle.std.specs.Prelude.{◌≡◌, ◌≤◌, ℕ, List, ◌^◌, ◌∷◌, [], IfErr, IfOk, IfSome};
ghost use Rattle.std.specs.Option.{option_map};
ghost use Rattle.lock_book.specs.Shown.{number_of, seen_of};
ghost use Rattle.dshash_core.specs.Cells.{partition_of};
ghost use Rattle.dshash_core.specs.Key.{hash_of};
ghost use Rattle.dshash_chunks.specs.Held.{held_in, stepped};
ghost use Rattle.dshash_chunks.specs.declared.held.Held.{Held};
ghost use Rattle.dshash_chunks.specs.declared.held.ChunkCalls.TheVariants as chunk_call;
ghost use Rattle.dshash_chunks.specs.declared.held.ChunkReplies.TheVariants as said;
ghost use Rattle.dshash_parts.specs.Lookups.{IsFound};
ghost use Rattle.dshash_parts.specs.Promises.{IsLastCall};
ghost use Rattle.uses_chunks.specs.Grown.{grown};
ghost use Rattle.uses_chunks.specs.Ready.{IsReady};

use crate::growing::Growing;
use chunk_table::{ChunkPass, ChunkTable};
use dsa_area::{Area, AreaPass};
use region_words::{Chunk, Region};
use std::sync::Wait;

/// Keeps a number under a key, in a new chunk of this many bytes, which is the table's from then on. The chunk that was
/// there, if any. None if the area has no room; then the new chunk goes back.
pub fn keep<R: Wait>(
    rt: &R,
    table: &ChunkTable<Growing>,
    r: &Region,
    area: &Area,
    pass: &mut ChunkPass<Growing>,
    apass: &mut AreaPass,
    key: u64,
    bytes: u64,
    number: u64,
) -> Option<Option<Chunk>>
    requires ready { IsReady r.now area.now table.now pass.old apass.old }
    requires some { (8 ≤ bytes) × (bytes ≤ 2 ^ 30) }
    ensures ready { IsReady r.now area.now table.now pass.new apass.new }
    ensures here { IfSome result (λ before. IfSome before (λ c. c.part.region ≡ r.now)) }
    ensures put { IfSome result (λ before. (held : Held) × (rest : List ℕ) × (held.words ≡ number ∷ rest) × IsLastCall (number_of pass.old) (key ∷ []) (chunk_call.Put held) (said.Was (option_map held_in before)) (seen_of pass.new (partition_of (hash_of (key ∷ []))))) }
{
    let Ok(chunk) = area.alloc(rt, r, apass, bytes) else {
        return None;
    };
    let chunk = numbered(r, chunk, number);
    match table.put_chunk(rt, r, area, pass, apass, &[key], chunk) {
        Ok(before) => Some(before),
        Err(why) => {
            let _refused = area.free(rt, r, apass, why.chunk);
            None
        }
    }
}

/// The chunk with a number in its first word.
fn numbered(r: &Region, chunk: Chunk, number: u64) -> Chunk
    requires here { chunk.part.region ≡ r.now }
    requires some { 8 ≤ chunk.bytes }
    ensures here { result.part.region ≡ r.now }
    ensures words { (rest : List ℕ) × ((held_in result).words ≡ number ∷ rest) }
{
    let mut chunk = chunk;
    chunk.store(r, 0, number);
    chunk
}

/// Adds to the number under a key, where it is. The number that was there.
pub fn raise<R: Wait>(
    rt: &R,
    table: &ChunkTable<Growing>,
    r: &Region,
    pass: &mut ChunkPass<Growing>,
    key: u64,
    by: u64,
) -> Option<u64>
    requires ready { (a : _) × (p : _) × IsReady r.now a table.now pass.old p }
    ensures ready { (a : _) (p : _) → IsReady r.now a table.now pass.old p → IsReady r.now a table.now pass.new p }
    ensures found { IsFound (stepped grown) (seen_of pass.new) (key ∷ []) (chunk_call.With by) (said.Did result) }
{
    table.with_chunk(rt, r, pass, &[key], &by)
}
