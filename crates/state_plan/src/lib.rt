//! The plan that the head of a file of partial states names: that of its words, over the columns of its header.

#![tactic(auto)]

mod file_plan;
mod plan;
mod words;

pub use file_plan::{FilePlan, PlanFault, header_of};
pub use plan::plan_of;
