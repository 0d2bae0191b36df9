//! What a join of two tables is, and the half of it that needs no shared table: which rows are refused, the chains of
//! the left rows of each key, and the pairs of the right rows that follow these chains.
//!
//! A row is known by its number. A cell keeps the last row that came with its key (`LastRow`), and a participant that
//! puts a row in is given the row before, which is the row's link. So the links make a chain of all rows of a key, no
//! matter which participant put them in (`specs/Law.antt`). From the links and the rows that no cell took, `chain_all`
//! makes the chains of all left rows. It keeps the last row of a key only if a row of it was not taken; where another
//! chain begins is asked of the table (`Lasts`). Then nothing is written any more, and participants follow the chains of
//! the right rows' keys (`find_pairs`). The pairs are sorted at last, so they are in order no matter which participant
//! found them.

#![tactic(auto)]

mod chaining;
mod chains;
mod last_row;
mod lasts;
mod laws;
mod pairing;
mod pairs;
mod refused;

pub use chaining::chain_all;
pub use chains::{Chains, Link};
pub use last_row::LastRow;
pub use lasts::{Lasts, NoTable};
pub use laws::{cells_are_chains, pairs_are_join};
pub use pairing::{MOST_PAIRS, NoPairs, find_pairs};
pub use pairs::{Pair, Pairs};
pub use par_model::LONGEST_KEY;
pub use refused::{Refused, first_refused};
