//! The groups of a table of any length, window by window, by participants that share each window's rows.
//!
//! Each participant keeps its own map over all windows. The rows of a window are shared out by blocks that the
//! participants draw, each block once; each adds the rows of its blocks to its map ([`add_rows`]). So the maps are always
//! those of shares of all rows so far, no matter who drew a block (`AreShared` of `gather_law`), and no group goes from one
//! participant to another before the last row. Then the maps are put together, by halves in separate threads
//! ([`put_together`]), and the text of the table is made from all groups ([`table_text`]).

#![tactic(auto)]

mod found;
mod hands;
mod piece;
mod pieces;
mod refused;
mod texts;
mod together;

pub use pieces::{add_pieces, begin};
pub use refused::first_cause;
pub use texts::table_text;
pub use together::put_together;
