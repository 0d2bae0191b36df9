//! An area as a caller that is no Rattle program keeps it: handles of plain bytes, calls that try once, and a code for
//! each answer.
//!
//! A program in C can keep its part of an area between calls only as bytes that lend nothing, and nothing holds it to
//! what the crates below ask of a caller. So each caller of an area keeps here what it needs for that (`shared`): a
//! share of the area with its region, its pass, the words of its chunks, and which chunks these are. A `Handle` owns one
//! caller through a bare pointer, or nothing. Each call of a handle looks at run time whether it may be made, asks
//! nothing of its caller, and answers by a `Code` that says why. No call waits.
//!
//! The pages and the pools of the area are one value under one lock (`arena`, `locked`), and not under a lock each as
//! in `dsa_area`: so a request is one turn, made whole or not at all, and a try that finds another caller there has
//! changed nothing. The chunks have the sizes of `dsa_area`'s.

#![tactic(auto)]

mod arena;
mod blocks;
mod caller;
mod code;
mod handle;
mod histories;
mod locked;
mod making;
mod opening;
mod shared;
mod words;

pub use caller::{Caller, Grant};
pub use code::Code;
pub use free_pages::Usage;
pub use handle::{Handle, open, share};
pub use histories::{AreaCalls, AreaName, AreaReplies, AreaStates};
pub use making::new_area;
pub use shared::{Extent, Share, Shared};
