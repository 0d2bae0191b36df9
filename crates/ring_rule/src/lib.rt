//! The rules of a ring of words that one sender and one receiver share, as facts about plain lists.
//!
//! There is nothing to run here. `specs/Ring.antt` says what each end knows and which rules tie the two, and who may
//! change which word and when; `specs/Ends.antt` what an end knows after each of its steps; `specs/Frames.antt` how
//! messages lie in words. The lemmas of `proofs/` say that each step of an end keeps the rules, for tokens of any kind.

#![tactic(auto)]

mod laws;

pub use laws::{a_count_is_fixed, frames_are_told_apart, whole_messages_are_fixed};
