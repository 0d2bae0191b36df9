//! The text of the table of all rows.

ghost use Rattle.std.specs.Prelude.{◌≡◌, ◌≤◌, ◌^◌, ◌∷◌, ℕ, List, IfOk, length};
ghost use Rattle.par_model.specs.Named.{bound_plan};
ghost use Rattle.par_model.specs.Outcome.{IsAnswer};
ghost use Rattle.result_text.specs.Pieces.{joined};
ghost use Rattle.result_text.specs.Printable.{IsBoundFrom};
ghost use Rattle.row_blocks.specs.Blocks.{Table};
ghost use Rattle.gather_law.specs.Shares.{AreShared};

use crate::together::put_together;
use par_model::BoundPlan;
use partial_agg::GroupMap;
use plan_spec::Plan;
use result_text::text_in_threads;
use std::alloc::{AllocError, Global};
use std::thread::Threads;

/// The text of the table of all rows, by the maps of participants that share them, in pieces, one after another. The maps
/// are put together ([`put_together`]), and at most as many threads as there were maps, the caller's among them, make the
/// lines ([`text_in_threads`]). With one map all is done in the caller's thread.
pub fn table_text<R: Threads + Sync>(
    rt: &R,
    alloc: Global,
    plan: &Plan,
    bound: &BoundPlan,
    maps: Vec<GroupMap>,
) -> Result<Vec<Vec<u8>>, AllocError>
    requires bound { IsBoundFrom plan.now.plan bound.now }
    requires rows { (width : ℕ) × (rows : Table) × (length rows ≤ 2 ^ 50) × AreShared bound.now width rows maps.items }
    ensures { IfOk result (λ pieces. (header : List (List ℕ)) (width : ℕ) (rows : Table) → bound.now ≡ bound_plan header plan.now.plan → length rows ≤ 2 ^ 50 → AreShared bound.now width rows maps.items
        → IsAnswer plan.now.plan (header ∷ rows) (joined pieces.items)) }
{
    let threads = maps.len();
    let whole = put_together(rt, alloc, maps)?;
    text_in_threads(rt, alloc, plan, bound, &whole.into_groups(), threads)
}
