//! What a file of partial states has after its head: its groups in blocks, and a foot that says where each block begins.

#![tactic(auto)]

mod body;
mod end;
mod index;

pub use body::{BodyFault, BodyRead, read_body};
pub use end::{MOST_FOOT, push_end};
pub use index::Index;
