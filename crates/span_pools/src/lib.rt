//! The superblocks of one size class, and their objects (the part of dsa.c's spans and pools).
//!
//! A superblock is a run of 16 pages with its control records, cut into objects of one size. All that is known of it is
//! in the region: its bit among the class's bits, its record, and a list through the first words of the free objects
//! that were used before. So a pool takes no memory; besides the region it keeps how many of its objects are free.
//! `specs/Legal.antt` has the state, the calls and their replies, which the layers above cite.

#![tactic(auto)]

mod batch;
mod find;
mod histories;
mod laws;
mod layout;
mod marks;
mod objects;
mod pool;

pub use histories::{PoolCalls, PoolName, PoolReplies, PoolStates};
pub use laws::live_objects_stay;
pub use layout::Layout;
pub use pool::Pool;
