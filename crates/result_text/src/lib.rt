//! The text of the table that answers a query: the header, and a line for each group.
//!
//! The groups come in the order of their encoded keys, in which a short column comes before a long one. The table is in
//! the order of the columns themselves, so a list of references is sorted, column by column, unless all keys have
//! columns of the same lengths: then the two orders are the same. Each line is put together in one record, whose memory
//! serves for all lines, and the crate `csv` writes it and decides all quotes.

#![tactic(auto)]

ghost use Rattle.std.specs.Prelude.{◌≡◌, ◌∷◌, ℕ, List, IfOk};
ghost use Rattle.par_model.specs.Named.{bound_plan};
ghost use Rattle.par_model.specs.Outcome.{IsAnswer};
ghost use Rattle.partial_agg.specs.Groups.{AreGroups, GroupsByKey};
ghost use Rattle.partial_agg.specs.Listed.{listed};
ghost use Rattle.result_text.specs.Pieces.{joined};
ghost use Rattle.result_text.specs.Printable.{ArePrintable, IsBoundFrom};
ghost use Rattle.csv.specs.Writing.{default_writer, row_text};
ghost use Rattle.par_model.specs.Table.{table_header};
ghost use Rattle.result_text.specs.Text.{IsTextOf};

mod decimal;
mod laws;
mod lines;
mod order;
mod parts;
mod table;
mod values;

use crate::parts::lines_in_threads;
use crate::table::TableWriter;
use crate::values::group_count;
pub use laws::parts_answer;
pub use lines::push_line;
pub use order::{GroupRef, compare_columns, in_order, split_column};
use par_model::BoundPlan;
use partial_agg::Groups;
pub use parts::{Part, behind};
use plan_spec::Plan;
use std::alloc::{AllocError, Global};
use std::thread::Threads;

/// The text of the table of some groups, under the plan that they were made by and its columns. The groups are only
/// read. An error means that memory ran out. It takes memory for the text and 24 bytes a group; the time is that of the
/// text, and of n log n comparisons of the keys of n groups.
pub fn text_of(
    alloc: Global,
    plan: &Plan,
    bound: &BoundPlan,
    groups: &Groups,
) -> Result<Vec<u8>, AllocError>
    requires bound { IsBoundFrom plan.now.plan bound.now }
    requires printable { ArePrintable bound.now groups.now }
    ensures text { IfOk result (λ text. IsTextOf plan.now.plan bound.now groups.now text.items) }

    // If the groups are those of some rows under a header, the text answers the plan over them.
    ensures answer { IfOk result (λ text. (header : List (List ℕ)) (rows : List (List (List ℕ))) (m : GroupsByKey)
        → bound.now ≡ bound_plan header plan.now.plan → AreGroups bound.now rows m → groups.now ≡ listed m → IsAnswer plan.now.plan (header ∷ rows) text.items) }
{
    let refs = in_order(alloc, groups, group_count(bound))?;
    let mut table = TableWriter::new(alloc);
    table.write_header(plan, bound)?;
    table.write_groups(bound, groups, &refs)?;
    table.into_text()
}

/// The text of [`text_of`] in pieces, one after the other, made by at most this many threads, the caller's among them.
/// It takes the memory that [`text_of`] takes; the text is never in one list. The lines are shared out, not the sort.
pub fn text_in_threads<R: Threads + Sync>(
    rt: &R,
    alloc: Global,
    plan: &Plan,
    bound: &BoundPlan,
    groups: &Groups,
    threads: usize,
) -> Result<Vec<Vec<u8>>, AllocError>
    requires bound { IsBoundFrom plan.now.plan bound.now }
    requires printable { ArePrintable bound.now groups.now }
    ensures text { IfOk result (λ pieces. IsTextOf plan.now.plan bound.now groups.now (joined pieces.items)) }

    // If the groups are those of some rows under a header, the text answers the plan over them.
    ensures answer { IfOk result (λ pieces. (header : List (List ℕ)) (rows : List (List (List ℕ))) (m : GroupsByKey)
        → bound.now ≡ bound_plan header plan.now.plan → AreGroups bound.now rows m → groups.now ≡ listed m → IsAnswer plan.now.plan (header ∷ rows) (joined pieces.items)) }
{
    let paying = threads.min(groups.len() / FEWEST_GROUPS);
    let columns = group_count(bound);
    if columns == 0 || paying < 2 {
        let text = text_of(alloc, plan, bound, groups)?;
        return behind(alloc, text, Vec::new(alloc));
    }
    let refs = in_order(alloc, groups, columns)?;
    let mut table = TableWriter::new(alloc);
    table.write_header(plan, bound)?;
    let header = table.into_text()?;
    let parts = lines_in_threads(rt, alloc, bound, groups, &refs, paying)?;
    behind(alloc, header, parts)
}

/// The fewest groups for which one more thread pays.
const FEWEST_GROUPS: usize = 2048;

/// Only the line of a table's header.
pub fn header_text(alloc: Global, plan: &Plan, bound: &BoundPlan) -> Result<Vec<u8>, AllocError>
    requires bound { IsBoundFrom plan.now.plan bound.now }
    ensures { IfOk result (λ text. text.items ≡ row_text default_writer (table_header plan.now.plan)) }
{
    let mut table = TableWriter::new(alloc);
    table.write_header(plan, bound)?;
    table.into_text()
}
