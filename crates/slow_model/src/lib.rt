//! The definitions of a refused row and of a group's aggregates as plain slow programs. `proofs/Worked` computes what
//! the definitions say of small inputs whose answers are known.

#![tactic(auto)]

pub mod slow;
pub mod slow_group;

pub use slow::slow_refusal;
pub use slow_group::slow_state;
