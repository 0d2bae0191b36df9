//! What the callers of an area share, and what each owns.

use crate::locked::LockedArea;
use lock_book::{Pass, Shelf};
use region_words::{Part, Region};
use slab::Slab;
use std::sync::Arc;

/// What all callers share.
#[derive(Drop)]
pub struct Shared {
    pub(crate) region: Region,
    /// How many pages there are.
    pub(crate) pages: u32,
    pub(crate) shelf: Shelf<LockedArea>,
}

/// Words in a row: the number of the first one, and how many they are.
#[derive(Clone, Copy, Debug)]
pub struct Extent {
    /// The number of the first word.
    pub at: u64,
    /// How many words.
    pub words: u64,
}

/// What one caller has.
#[derive(Drop)]
pub struct Share {
    pub(crate) shared: Arc<Shared>,
    pub(crate) pass: Pass<LockedArea>,
    /// The passes of callers that have no share yet.
    pub(crate) others: Vec<Pass<LockedArea>>,
    /// The words of its chunks.
    pub(crate) words: Part,
    /// Which words each of its chunks has, by the chunk's number.
    pub(crate) chunks: Slab<Extent>,
}
