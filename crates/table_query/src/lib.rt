//! A query over one table, up to its rows: the words, the records of the source, and the plan over their columns; and
//! why such a query has no answer, with its status and its line.
//!
//! The causes come in one order: the words, the reading and its limit, the header, the number of rows, the columns, the
//! rows, and the writing. The first that holds ends the query. What is made of the rows, their groups or their order,
//! is the task of the crates above, which name a refused row by [`stop_of_row`].

#![tactic(auto)]

mod input;
mod names;
mod reading;
mod stop;
mod wanted;

pub use input::{Ready, prepare};
pub use names::{refusal_text, stop_of_row};
pub use reading::{Alone, InThreads, Reading};
pub use stop::Stop;
pub use wanted::Wanted;
