//! The reason that stands for a row that is refused, with the name of the column of which its line speaks.

ghost use Rattle.group_query.specs.Stops.{Restates, RestatesGather};

use gather_run::GatherAnswer;
use par_model::Refusal;
use partial_agg::BlockAnswer;
use plan_spec::Plan;
use std::alloc::Global;
use table_query::{Stop, stop_of_row};

/// The reason to stop that stands for an answer on a block.
pub(crate) fn stop_of_block(alloc: Global, plan: &Plan, answer: BlockAnswer) -> Stop
    ensures { Restates plan.now.plan answer result }
{
    match answer {
        BlockAnswer::Memory => Stop::Memory,
        BlockAnswer::Row { row, cause, item } => stop_of_row(
            alloc,
            plan,
            row,
            Refusal { cause, item },
        ),
    }
}

/// The reason to stop that stands for an answer of `gather`.
pub(crate) fn stop_of_gather(alloc: Global, plan: &Plan, answer: GatherAnswer) -> Stop
    ensures { RestatesGather plan.now.plan answer result }
{
    match answer {
        GatherAnswer::Memory => Stop::Memory,
        GatherAnswer::Row { row, cause, item } => stop_of_row(
            alloc,
            plan,
            row,
            Refusal { cause, item },
        ),
    }
}
