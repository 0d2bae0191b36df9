//! A partition under a lock.

ghost use Rattle.std.specs.Prelude.{◌≡◌, ◌/◌, ◌≤◌};
ghost use Rattle.std.specs.FinMap as fin;
ghost use Rattle.dshash_core.specs.Cells.{IsRoomy, buckets_of};
ghost use Rattle.dshash_core.specs.Outcome.{IsMoved};
ghost use Rattle.dshash_parts.specs.Asked.{name_of, state_of, call_of, chosen_of, reply_of, AskFits, AnswerFits, MayAsk};
ghost use Rattle.dshash_parts.specs.Legal.{AreOurs, LeavesOver, MayTurn, PartitionLegal};

use crate::asks::{TableAnswer, TableAsk};
use crate::histories::{PartitionCalls, PartitionName, PartitionReplies, PartitionStates};
use dshash_core::{CellObject, Partition};
use dshash_resize::move_partition;
use lock_book::Kept;
use region_words::{Chunk, Region};

/// The partition of this number.
#[derive(Drop)]
pub struct Numbered<O: CellObject> {
    pub number: u32,
    pub partition: Partition<O>,
}

impl<O: CellObject + Send> Kept for Numbered<O>
where
    O::State: Send,
    O::Call: Send,
    O::Reply: Send,
{
    type Env = Region;

    type In = TableAsk<O>;

    type Out = TableAnswer<O>;

    type Name = PartitionName;

    type State = PartitionStates<O>;

    type Call = PartitionCalls<O::Call>;

    type Reply = PartitionReplies<O::State, O::Reply>;

    ghost name = { λ v. name_of v.number v.partition };

    ghost state = { λ v. state_of v.partition };

    ghost call = { call_of };

    ghost reply = { reply_of };

    ghost chosen = { chosen_of };

    ghost env_fits = { λ n r. r ≡ n.region };

    ghost in_fits = { λ n caller ask. AskFits n ask × MayAsk O.stepped O.may n.number caller ask };

    ghost out_fits = { AnswerFits };

    // a partition doesn't know whose keys it has: that they are its own follows from its history
    ghost legal = { λ n caller before call reply after. AreOurs n.number before.cells → PartitionLegal O.stepped n.number before call reply after × MayTurn O.may caller call };

    #[inline(always)]
    fn apply(&mut self, r: &Region, ask: TableAsk<O>) -> TableAnswer<O> {
        let partition = &mut self.partition;
        match ask {
            TableAsk::Make(hash, key, call, spare) => {
                TableAnswer::Came(partition.try_call_with_hash(r, hash, key.words(), &call, spare))
            }
            TableAsk::MakeWithin(longest, hash, key, call, spare) => {
                match partition.try_call_within(r, hash, key.words(), &call, spare, longest) {
                    Ok(out) => TableAnswer::Came(out),
                    Err(spare) => TableAnswer::Long(partition.seed(), longest, spare),
                }
            }
            TableAsk::Look => TableAnswer::Size(partition.size(), partition.count()),
            TableAsk::Grow(size, slice) => TableAnswer::LeftOver(grow(partition, r, size, slice)),
            TableAsk::List(alloc) => TableAnswer::Entries(partition.list(alloc, r)),
            TableAsk::Take(call, words) => match partition.take_any(r, &call, words) {
                Some(taken) => TableAnswer::Took(taken),
                None => TableAnswer::Size(partition.size(), partition.count()),
            },
        }
    }
}

/// Moves a partition to a size, if it has a smaller one. Returns the slice that is left over.
fn grow<O: CellObject>(partition: &mut Partition<O>, r: &Region, size: u32, slice: Chunk) -> Chunk
    requires here { (partition.old.region ≡ r.now) × (slice.part.region ≡ r.now) }
    requires size { size ≤ 20 }
    requires room { buckets_of size ≤ slice.bytes / 8 }
    ensures moved { IsMoved partition.old.size partition.old.cells size partition.new.size partition.new.cells }
    ensures same { partition.new ≡ record partition.old { slice = partition.new.slice; words = partition.new.words; size = partition.new.size } }
    ensures roomy { IsRoomy partition.new.size (fin.len partition.new.cells) }
    ensures here { result.part.region ≡ r.now }
    ensures left { LeavesOver partition.old.size size result.bytes }
{
    if partition.size() < size {
        move_partition(partition, r, size, slice)
    } else {
        slice
    }
}
