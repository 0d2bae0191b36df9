//! A barrier as a caller that is no Rattle program keeps it: handles of plain bytes, calls that try once, and a code for
//! each answer.
//!
//! A program in C can keep its part of a barrier between calls only as bytes that lend nothing, and nothing holds it to
//! what `par_barrier` asks of a caller. So each caller keeps here what it needs for that (`shared`): a share of the
//! barrier, and its pass. A `Handle` owns one caller through a bare pointer, or nothing. Each call of a handle looks at
//! run time whether it may be made, asks nothing of its caller, and answers by a `Code` that says why. No call waits,
//! neither for its turn nor for the end of a phase.

#![tactic(auto)]

mod caller;
mod code;
mod handle;
mod making;
mod shared;

pub use caller::Caller;
pub use code::Code;
pub use handle::{Handle, open, share};
pub use making::new_barrier;
pub use shared::Share;
