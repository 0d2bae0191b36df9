//! The reason that stands for a row that is refused, with the name of the column of which its line speaks.

ghost use Rattle.order_query.specs.Stops.{RestatesMerge};

use gather_merge::MergeAnswer;
use par_model::Refusal;
use plan_spec::Plan;
use std::alloc::Global;
use table_query::{Stop, stop_of_row};

/// The reason to stop that stands for an answer of `merge`.
pub(crate) fn stop_of_merge(alloc: Global, plan: &Plan, answer: MergeAnswer) -> Stop
    ensures { RestatesMerge plan.now.plan answer result }
{
    match answer {
        MergeAnswer::Memory => Stop::Memory,
        MergeAnswer::Row { row, cause } => stop_of_row(
            alloc,
            plan,
            row,
            Refusal { cause, item: 0 },
        ),
    }
}
