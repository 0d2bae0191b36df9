//! The groups of a source of separated bytes of any length, or why there are none.
//!
//! The bytes are read window by window, whole records each. The windows of a batch are shared out to the participants, and
//! if there are workers the caller's thread fills the next batch meanwhile. Each participant has a map of the groups of its
//! rows; when these are many the keys are parted, and from then on each part has one map (`part_run`). Only the groups, two
//! batches, the rows of one window a participant, and with parts some rows that wait for theirs, are in memory.
//!
//! The first fault ends it: a read that failed, no header, a column that it lacks or has twice, a record that is too long,
//! and a refused row, as they come on the way through the input. A [`Stop`] says which, and has a status and a line: a row
//! is named by its number and by the line in which it begins, as an editor counts lines.
//!
//! Fields are read as the plan says (`csv_rows::Reading`). A [`Separated`] source exchanges the comma and the separator, so
//! windows are cut and scanned by commas, and the records of a window are those of the input.
//!
//! What finds the header, binds a plan to it and says of a row or a record why it ends a query is public too
//! ([`first_window`], [`bind`], [`row_says`], [`place_in_lines`], [`stop_of_window`]), for a crate that reads rows in another
//! way and gives the same reasons.

#![tactic(auto)]

mod adding;
mod batch;
mod filling;
mod gathered;
mod input;
mod place;
mod progress;
mod reading;
mod refused;
mod rows;
mod separated;
mod stop;
mod taken;
mod twice;
mod useful;
mod words;

pub use filling::{First, first_window, more_feeds, stop_of_window};
pub use gathered::{Gathered, all_groups, may_part};
pub use input::read_input;
pub use place::{Place, place_in_lines};
pub use progress::{Progress, SoFar, Untold};
pub use reading::{ReadGroups, read_groups};
pub use refused::row_says;
pub use rows::bind;
pub use separated::Separated;
pub use stop::{LONG_RECORD, RefusedRow, Stop};
pub use taken::Taken;
pub use useful::useful_workers;
pub use words::read_words;
