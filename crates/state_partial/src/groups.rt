//! The groups of all rows.

ghost use Rattle.std.specs.Prelude.{◌≤◌, ◌^◌, IfOk, ℕ, length};
ghost use Rattle.par_model.specs.Plan.{Plan};
ghost use Rattle.partial_agg.specs.Groups.{AreGroups};
ghost use Rattle.row_blocks.specs.Blocks.{Table};
ghost use Rattle.stream_groups.specs.Gathering.{AreGathered, HasGathered};

use split_run::put_together;
use state_runs::AllGroups;
use std::alloc::{AllocError, Global};
use std::thread::Threads;
use stream_groups::Gathered;

/// All groups: in one map if they are few, or in the maps of the parts of their keys.
pub(crate) fn gathered_groups<R: Threads + Sync>(
    rt: &R,
    alloc: Global,
    gathered: Gathered,
) -> Result<AllGroups, AllocError>
    requires { (plan : Plan) × AreGathered plan gathered }
    ensures { IfOk result (λ map. (plan : Plan) (width : ℕ) (rows : Table) → length rows ≤ 2 ^ 50 → HasGathered plan width rows gathered → AreGroups plan rows map) }
{
    match gathered {
        Gathered::Near(maps) => {
            let map = put_together(rt, alloc, maps)?;
            AllGroups::of_map(alloc, map)
        }
        Gathered::Parted(parts) => {
            let maps = parts.finish(rt, alloc)?;
            Ok(AllGroups::of_parts(maps))
        }
    }
}
