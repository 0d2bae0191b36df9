//! A ring of words that one sender and one receiver share, as in shm_mq.c.
//!
//! The first three words of the ring's part of a chunk are the count of words written, the count of words read and the
//! flag; the cells come after them. `ring_rule`'s `specs/Ring.antt` says who may change which word and when. The counts
//! and the flag are atomic words; a cell is plain memory, which the sender and the receiver have in turn. Each call of
//! an end is one load or one store of one of these words, so a reader of the contracts knows what the other end can see
//! between any two calls. An end knows of the other only what it has loaded, and what it learnt by `meet`. No call but
//! `sleep` waits, and none takes memory or refuses. Who sleeps is advice, of which no clause speaks (`sleeping`).

#![tactic(auto)]

mod bursts;
mod done;
mod making;
mod meeting;
mod place;
mod receiver;
mod sender;
mod site;
mod sleeping;

pub use done::{RingDone, home};
pub use making::{Ring, is_ring_size};
pub use meeting::meet;
pub use receiver::RingRx;
pub use sender::RingTx;
