//! From the bytes of a source to a store of their records.
//!
//! [`read_all`] takes all bytes that a [`Source`](par_io::Source) has left; [`rows`] cuts them into records, as RFC
//! 4180 has them, by a scan for commas and line feeds if there are no quotes, and otherwise through the crate `csv`,
//! and [`rows_in_threads`] does so in several threads; [`RowStore`] keeps the records in a few lists of numbers, with
//! no allocation for a record or a field.
//!
//! Threads share out the bytes: these are cut before line feeds that are outside quotes, and each part is read into a
//! piece of the store. A thread waits for another one only at that one's end.

#![tactic(auto)]

mod cleaning;
mod cut;
mod exchanging;
mod input;
mod lines;
mod masks;
mod piece;
mod pieces;
mod place;
mod plain;
mod reading;
mod records;
mod row_ends;
mod scan;
mod split;
mod store;

pub use cleaning::Reading;
pub use cut::without_mark;
pub use exchanging::exchange;
pub use input::{MOST_BYTES, ReadAnswer, read_all};
pub use par_model::read_number;
pub use place::{Place, past_others, past_quote, scanned};
pub use records::{MOST_RECORDS, RowsAnswer, rows, rows_as, rows_in_threads};
pub use store::{NearRows, Record, RowStore};
