//! What was counted so far.

use stream_groups::RefusedRow;

/// The rows so far and the line feeds before the line at hand, how many rows were left out, and the first row that is
/// refused, if there is one.
#[derive(Drop)]
pub(crate) struct Tally {
    pub(crate) rows: u64,
    pub(crate) feeds: u64,
    pub(crate) count: u64,
    pub(crate) first: Option<RefusedRow>,
}
