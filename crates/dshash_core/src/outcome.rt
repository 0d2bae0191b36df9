//! What a call of a partition answers.

use crate::object::CellObject;
use region_words::Chunk;

/// What became of a call.
#[derive(Drop)]
pub enum CoreOut<O: CellObject> {
    /// The call was made. `unused` is the spare item, if the call did not take it, `freed` the item of a key that it
    /// removed.
    Done {
        reply: O::Reply,
        unused: Option<Chunk>,
        freed: Option<Chunk>,
    },
    /// The call would insert and brought no spare item: nothing has changed.
    NeedItem,
    /// The call would insert and the partition, of this size, has to grow first: nothing has changed, and the spare
    /// item is handed back.
    TooFull {
        size: u32,
        spare: Option<Chunk>,
    },
}
