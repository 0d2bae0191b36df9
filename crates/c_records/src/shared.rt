//! What the callers of a table share, and what each owns.

use crate::value::Record;
use c_table::Reserve;
use dshash_parts::{DsPass, Dshash};
use region_words::{Chunk, Region};
use std::sync::Arc;

/// What all callers share.
#[derive(Drop)]
pub struct Shared {
    pub(crate) region: Region,
    pub(crate) table: Dshash<Record>,
}

/// What one caller has.
#[derive(Drop)]
pub struct Share {
    pub(crate) shared: Arc<Shared>,
    pub(crate) pass: DsPass<Record>,
    /// The passes of callers that have no share yet.
    pub(crate) others: Vec<DsPass<Record>>,
    pub(crate) reserve: Reserve,
    /// Items that hold no key.
    pub(crate) items: Vec<Chunk>,
    /// Slices that no partition has.
    pub(crate) slices: Vec<Chunk>,
}
