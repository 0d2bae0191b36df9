//! Whether workers pay.
//!
//! A worker sends each of its groups to the leader, which looks it up once more. If groups have few rows each, the leader
//! so takes nearly as many groups off the queues as there are rows, and one by one these cost it more than rows of its
//! own. How many groups there are is estimated from a sample.

ghost use Rattle.par_model.specs.Columns.{HasColumns};
ghost use Rattle.partial_agg.specs.Rows.{header_width};
ghost use Rattle.row_blocks.specs.Blocks.{AreBlocks};

use csv_rows::RowStore;
use par_model::BoundPlan;
use partial_agg::GroupMap;
use row_blocks::{BLOCK_ROWS, count_blocks};
use std::alloc::Global;

/// The blocks of a sample, from all over the table.
const SAMPLED: u64 = 32;

/// The fewest blocks of a table for which a sample is taken: 524,288 rows.
const FEWEST_BLOCKS: u64 = 2048;

/// The fewest rows of a group for which workers pay.
const FEWEST_ROWS: u64 = 8;

/// Whether it pays to start workers, if this many are asked for: not if the groups of a large table have few rows each, by
/// a sample of 8,192 rows.
pub(crate) fn workers_pay(alloc: Global, rows: &RowStore, plan: &BoundPlan, workers: u32) -> bool
    requires { HasColumns plan.now (header_width rows.now) }
{
    let blocks = count_blocks(rows);
    if workers == 0 || blocks < FEWEST_BLOCKS || plan.hash {
        return true;
    }
    match sampled_groups(alloc, rows, plan, blocks) {
        Some(groups) => has_few_groups(groups, blocks),
        None => true,
    }
}

/// How many groups a sample of the rows has, of a table of this many blocks; none if these rows have no answer.
fn sampled_groups(alloc: Global, rows: &RowStore, plan: &BoundPlan, blocks: u64) -> Option<u64>
    requires blocks { AreBlocks rows.now blocks }
    requires columns { HasColumns plan.now (header_width rows.now) }
{
    let step = blocks / SAMPLED;
    let mut groups = GroupMap::new(alloc);
    for number in 0..SAMPLED {
        let block = number.saturating_mul(step);
        if block >= blocks {
            return None;
        }
        match groups.add_block(rows, plan, block) {
            Ok(()) => {}
            Err(_) => return None,
        }
    }
    Some(groups.len() as u64)
}

/// Whether the groups of a table have many rows each, if this many groups are those of a sample. If all groups are of one
/// size, n rows of g groups meet one that is there already about n * n / 2g times.
fn has_few_groups(groups: u64, blocks: u64) -> bool {
    let rows = SAMPLED * BLOCK_ROWS;
    let met = rows.saturating_sub(groups);
    met.saturating_mul(2 * BLOCK_ROWS).saturating_mul(blocks) >= FEWEST_ROWS * rows * rows
}
