//! A queue as a caller that is no Rattle program keeps it: handles of plain bytes, calls that try once, and a code for
//! each answer.
//!
//! A caller in C can keep a queue between calls only as bytes that lend nothing, and nothing holds it to what
//! `mq_handle` asks of a caller. So each side of a queue keeps here what it needs for that: the region of its words,
//! the message of which a part is on the ring, and whether it has left (`outbox`, `inbox`). `end` is a side of either
//! kind, and a `Handle` owns one through a bare pointer, or nothing. Each call of a handle looks at run time whether it
//! may be made, asks nothing of its caller, and answers by a `Code` that says why. No call waits.

#![tactic(auto)]

mod code;
mod end;
mod handle;
mod inbox;
mod outbox;
mod queue;

pub use code::Code;
pub use end::End;
pub use handle::{Handle, open};
pub use inbox::Inbox;
pub use outbox::Outbox;
pub use queue::{meet, new_queue};
