//! The groups of the rows, block by block.

ghost use Rattle.std.specs.Prelude.{◌≡◌, [], IfErr, IfOk, OnOk};
ghost use Rattle.par_model.specs.Columns.{HasColumns};
ghost use Rattle.partial_agg.specs.Rows.{header_width};
ghost use Rattle.group_query.specs.Grouping.{ListsGroups, NamesRefused};
ghost use Rattle.table_query.specs.Refused.{refused_in};

use csv_rows::RowStore;
use par_model::BoundPlan;
use partial_agg::{BLOCK_ROWS, BlockAnswer, GroupMap, Groups};
use std::alloc::Global;

/// The groups of all rows, in the order of their keys. The blocks go one after the other, so a refused row that stops
/// it is the first of all.
pub(crate) fn groups_of(
    alloc: Global,
    rows: &RowStore,
    plan: &BoundPlan,
) -> Result<Groups, BlockAnswer>
    requires columns { HasColumns plan.now (header_width rows.now) }
    ensures groups { IfOk result (λ groups. ListsGroups plan.now rows.now groups) }
    ensures none_refused { OnOk result (refused_in plan.now rows.now ≡ []) }
    ensures first { IfErr result (λ answer. NamesRefused plan.now rows.now answer) }
{
    let mut groups = GroupMap::new(alloc);
    for block in 0..rows.count().div_ceil(BLOCK_ROWS) {
        match groups.add_block(rows, plan, block) {
            Ok(()) => {}
            Err(answer) => return Err(answer),
        }
    }
    Ok(groups.into_groups())
}
