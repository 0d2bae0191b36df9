//! What the participants share, and what each owns while it works. All tokens are values that move into a worker's
//! thread and come back as its result, so none of them borrows anything.

use agg_table::{HashPart, HashSeat};
use mq_handle::{Receiver, Sender};
use region_words::Region;
use scan_claim::{ClaimSeat, Claims};
use shm_toc::FrozenToc;

/// What all participants see.
#[derive(Drop)]
pub struct Shared {
    /// The region in which the table of contents and the rings of the queues lie.
    pub region: Region,
    /// The counter that hands out the blocks.
    pub claims: Claims,
    /// The table of groups that all share, if the plan has one.
    pub hash: Option<HashPart>,
}

/// What one participant owns while it works.
#[derive(Drop)]
pub struct Seats {
    /// The participant's number: 0 for the lead, and from 1 on for the workers.
    pub number: u32,
    /// Its share of the table of contents.
    pub toc: FrozenToc,
    /// Its seat at the counter of blocks.
    pub claim: ClaimSeat,
    /// Its passes of the table of groups, if there is one.
    pub hash: Option<HashSeat>,
}

/// A worker's ends of its two queues.
#[derive(Drop)]
pub struct WorkerEnds {
    pub errors: Sender,
    pub tuples: Sender,
}

/// The lead's ends of a worker's two queues.
#[derive(Drop)]
pub struct LeaderEnds {
    pub errors: Receiver,
    pub tuples: Receiver,
}

/// All that a worker's thread owns.
#[derive(Drop)]
pub struct Hand {
    pub seats: Seats,
    pub ends: WorkerEnds,
}
