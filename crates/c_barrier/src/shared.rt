//! What one caller of a barrier owns.

use par_barrier::{Barrier, BarrierPass};
use std::sync::Arc;

/// What one caller has.
#[derive(Drop)]
pub struct Share {
    pub(crate) barrier: Arc<Barrier>,
    pub(crate) pass: BarrierPass,
    /// The passes of callers that have no share yet.
    pub(crate) others: Vec<BarrierPass>,
}
