//! The table of a whole text, from the maps of its tiles: what the last of many machines does with what the others
//! sent. That the maps are those of the tiles is the caller's to know; from then on the text is the one of a pass over the whole.

#![tactic(auto)]

ghost use Rattle.std.specs.Prelude.{◌++◌, ℕ, List, IfOk};
ghost use Rattle.std.specs.List.{concat};
ghost use Rattle.csv_rows.specs.Records.{records_of};
ghost use Rattle.par_model.specs.Outcome.{IsAnswer};
ghost use Rattle.result_text.specs.Pieces.{joined};
ghost use Rattle.part_text.specs.Whole.{ArePartsOf};

use par_model::BoundPlan;
use partial_agg::GroupMap;
use plan_spec::Plan;
use split_run::table_text;
use std::alloc::{AllocError, Global};
use std::thread::Threads;

/// The text of the table of a whole text in pieces, one after another, from the maps of its tiles: each was made by itself, by
/// anybody, of one tile after the header. The maps are used up. At most as many threads as there are maps work, the caller's among
/// them; time and memory are those of [`table_text`].
pub fn text_of_parts<R: Threads + Sync>(
    rt: &R,
    alloc: Global,
    plan: &Plan,
    bound: &BoundPlan,
    maps: Vec<GroupMap>,
) -> Result<Vec<Vec<u8>>, AllocError>
    requires { (header : List ℕ) × (tiles : List (List ℕ)) × ArePartsOf plan.now.plan bound.now header tiles maps.items }
    ensures { IfOk result (λ pieces. (header : List ℕ) (tiles : List (List ℕ)) → ArePartsOf plan.now.plan bound.now header tiles maps.items
        → IsAnswer plan.now.plan (records_of (header ++ concat tiles)) (joined pieces.items)) }
{
    match table_text(rt, alloc, plan, bound, maps) {
        Ok(pieces) => Ok(pieces),
        Err(why) => Err(why),
    }
}
