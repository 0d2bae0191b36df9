//! A partition under a lock.

ghost use Rattle.std.specs.Prelude.{◌≡◌, ◌/◌, ◌≤◌};
ghost use Rattle.std.specs.FinMap as fin;
ghost use Rattle.dshash_core.specs.Cells.{IsRoomy, buckets_of};
ghost use Rattle.dshash_core.specs.Outcome.{IsMoved};
ghost use Rattle.dshash_chunks.specs.Held.{stepped};
ghost use Rattle.dshash_parts.specs.Asked.{name_of, state_of};
ghost use Rattle.dshash_parts.specs.Legal.{AreOurs, LeavesOver, MayTurn, PartitionLegal};
ghost use Rattle.chunk_table.specs.Asked.{call_of, chosen_of, reply_of, AskFits, AnswerFits, MayAsk};

use crate::asks::{ChunkAnswer, ChunkAsk};
use crate::histories::ChunkStates;
use dshash_chunks::{ChunkCalls, ChunkObject, ChunkPartition, ChunkReplies, Held};
use dshash_parts::{PartitionCalls, PartitionName, PartitionReplies};
use lock_book::Kept;
use region_words::{Chunk, Region};
use std::snapshot::Snapshot;

/// The partition of this number.
#[derive(Drop)]
pub struct Locked<W: ChunkObject> {
    pub number: u32,
    pub partition: ChunkPartition<W>,
}

impl<W: ChunkObject + Send> Kept for Locked<W>
where
    W::Call: Send,
    W::Reply: Send,
{
    type Env = Region;

    type In = ChunkAsk<W>;

    type Out = ChunkAnswer<W>;

    type Name = PartitionName;

    type State = ChunkStates;

    type Call = PartitionCalls<ChunkCalls<W::Call>>;

    type Reply = PartitionReplies<Held, ChunkReplies<W::Reply>>;

    ghost name = { λ v. name_of v.number v.partition };

    ghost state = { λ v. state_of v.partition };

    ghost call = { call_of };

    ghost reply = { reply_of };

    ghost chosen = { chosen_of };

    ghost env_fits = { λ n r. r ≡ n.region };

    ghost in_fits = { λ n caller ask. AskFits n ask × MayAsk W.may n.number caller ask };

    ghost out_fits = { AnswerFits };

    // a partition doesn't know whose keys it has: that they are its own follows from its history
    ghost legal = { λ n caller before call reply after. AreOurs n.number before.cells → PartitionLegal (stepped W.worked) n.number before call reply after × MayTurn W.may caller call };

    #[inline(always)]
    fn apply(&mut self, r: &Region, ask: ChunkAsk<W>) -> ChunkAnswer<W> {
        let partition = &mut self.partition;
        match ask {
            ChunkAsk::Put(hash, key, chunk, spare) => {
                ChunkAnswer::Placed(partition.try_put(r, hash, key.words(), chunk, spare))
            }
            ChunkAsk::Take(hash, key) => {
                ChunkAnswer::Out(partition.try_take(r, hash, key.words()))
            }
            ChunkAsk::With(hash, key, call) => {
                ChunkAnswer::Did(partition.try_with(r, hash, key.words(), &call))
            }
            ChunkAsk::Look => ChunkAnswer::Size(partition.size(), partition.count()),
            ChunkAsk::Grow(size, slice) => ChunkAnswer::LeftOver(grow(partition, r, size, slice)),
            ChunkAsk::List(alloc) => {
                let entries = partition.list(alloc, r);
                ChunkAnswer::Listed(entries, Snapshot::of(partition))
            }
            ChunkAsk::Draw(words) => match partition.take_any(r, words) {
                Some(taken) => ChunkAnswer::Drawn(taken),
                None => ChunkAnswer::Size(partition.size(), partition.count()),
            },
        }
    }
}

/// Moves a partition to a size, if it has a smaller one. Returns the slice that is left over.
fn grow<W: ChunkObject>(
    partition: &mut ChunkPartition<W>,
    r: &Region,
    size: u32,
    slice: Chunk,
) -> Chunk
    requires here { (partition.old.region ≡ r.now) × (slice.part.region ≡ r.now) }
    requires size { size ≤ 20 }
    requires room { buckets_of size ≤ slice.bytes / 8 }
    ensures moved { IsMoved partition.old.size partition.old.cells size partition.new.size partition.new.cells }
    ensures same { partition.new ≡ record partition.old { slice = partition.new.slice; words = partition.new.words; size = partition.new.size } }
    ensures roomy { IsRoomy partition.new.size (fin.len partition.new.cells) }
    ensures here { result.part.region ≡ r.now }
    ensures left { LeavesOver partition.old.size size result.bytes }
{
    if partition.size() < size {
        partition.move_to(r, size, slice)
    } else {
        slice
    }
}
