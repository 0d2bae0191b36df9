//! A table as a caller that is no Rattle program keeps it: handles of plain bytes, calls that try once, and a code for
//! each answer.
//!
//! A program in C can keep its part of a table between calls only as bytes that lend nothing, and nothing holds it to
//! what `dshash_parts` asks of a caller. So each caller of a table keeps here what it needs for that (`shared`): a
//! share of the table with its region, its pass, and its own words, from which items and slices are cut (`reserve`), so
//! that no call asks anything of an area. A `Handle` owns one caller through a bare pointer, or nothing. Each call of a
//! handle looks at run time whether it may be made, asks nothing of its caller, and answers by a `Code` that says why.
//! No call waits.

#![tactic(auto)]

mod caller;
mod code;
mod handle;
mod looking;
mod making;
mod reserve;
mod shared;
mod word;

pub use caller::{Caller, make_places, take_slice};
pub use code::Code;
pub use handle::{Handle, open, share};
pub use making::new_table;
pub use reserve::Reserve;
pub use shared::{Share, Shared};
pub use word::{Word, WordCall};
