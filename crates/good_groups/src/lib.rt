//! The groups of the rows of a source that a plan does not refuse, if few of the others are left out.
//!
//! A [`Sieve`](sieve::Sieve) is a source over the one of the input. It gives the header and the lines whose rows are good
//! (`good_rows`), so that the rows are gathered as ever, by any workers. It counts the rows that it leaves out, keeps what is
//! to be said of the first one, and fails once they are too many. What it has counted is known afterwards by the type of the
//! sieve, which names what the source had left when the reading began (`origin`).

#![tactic(auto)]

mod bytes;
mod origin;
mod piece;
mod reading;
mod sieve;
mod sifter;
mod tally;

pub use reading::{GoodGroups, LeftOut, read_good};
