//! The first row of a batch that is refused. The pieces are read for it only if one of the participants met a refused row.

ghost use Rattle.std.specs.Prelude.{◌≤◌, ◌^◌, All, IfSome, IsNone, drop, length};
ghost use Rattle.par_model.specs.Columns.{HasColumns};
ghost use Rattle.partial_agg.specs.Rows.{IsAccepted, header_width};
ghost use Rattle.split_run.specs.Causes.{AllAccepted, IsFirstOfAll, IsFirstRefused, IsLow, SomeRefused};
ghost use Rattle.split_run.specs.Pieces.{HaveColumns};

use csv_rows::{RowStore, rows_as};
use par_model::{BoundPlan, Refusal};
use partial_agg::{BlockAnswer, refusal};
use row_windows::Window;
use std::alloc::Global;

/// What the participants answer together if one of them stopped for this reason: whichever refused row that one met, the
/// first of the batch is named.
pub fn first_cause(
    alloc: Global,
    pieces: &[Window],
    plan: &BoundPlan,
    why: BlockAnswer,
) -> BlockAnswer
    requires many { length pieces.now ≤ 2 ^ 32 }
    requires columns { HaveColumns plan.now pieces.now }
    requires cause { SomeRefused plan.now pieces.now why }
    ensures first { IsFirstOfAll plan.now pieces.now result }
    ensures low { IsLow result }
{
    match why {
        BlockAnswer::Memory => BlockAnswer::Memory,
        BlockAnswer::Row { .. } => first_in_pieces(alloc, pieces, plan),
    }
}

/// The first refused row of pieces of which one has some, with its number over all of them. It takes the memory of one
/// piece's store, and the time of reading the pieces up to it.
fn first_in_pieces(alloc: Global, pieces: &[Window], plan: &BoundPlan) -> BlockAnswer
    requires many { length pieces.now ≤ 2 ^ 32 }
    requires columns { HaveColumns plan.now pieces.now }
    requires refused { AllAccepted plan.now pieces.now → ⊥ }
    ensures first { IsFirstOfAll plan.now pieces.now result }
    ensures low { IsLow result }
{
    let mut before = 0u64;
    for piece in pieces {
        let Ok(store) = rows_as(alloc, piece.reading(), piece.table()) else {
            return BlockAnswer::Memory;
        };
        match first_refused(&store, plan) {
            Some((row, Refusal { cause, item })) => {
                return BlockAnswer::Row {
                    row: before + row,
                    cause,
                    item,
                };
            }
            None => before += store.count(),
        }
    }
    unreachable!()
}

/// The first row that is refused, with its cause. Takes no memory, and the time of reading the rows up to it.
fn first_refused(rows: &RowStore, plan: &BoundPlan) -> Option<(u64, Refusal)>
    requires columns { HasColumns plan.now (header_width rows.now) }
    ensures first { IfSome result (λ found. IsFirstRefused plan.now rows.now found.0 found.1) }
    ensures none { IsNone result → All (IsAccepted plan.now (header_width rows.now)) (drop 1 rows.now) }
{
    for before in 0..rows.count() {
        match refusal(rows, before + 1, plan) {
            Some(why) => return Some((before + 1, why)),
            None => {}
        }
    }
    None
}
