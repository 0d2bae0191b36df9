//! What the files of all parts come to: the text of the table, or the first refused row.

#![tactic(auto)]

mod finishing;
mod ranged;

pub use finishing::{FinishFault, Finished, finish};
pub use ranged::finish_range;
