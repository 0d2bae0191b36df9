//! What a program over comma-separated bytes says about itself and about its input: its page of help and its version, the
//! word of a command line that is not understood, and what a file is that is no comma-separated text.

#![tactic(auto)]

mod front;
mod help;
mod kind;
mod peeked;
mod refused;
mod wrong;

pub use help::{Asked, HELP, VERSION, asked_of, tell};
pub use kind::{Kind, kind_of};
pub use peeked::Peeked;
pub use refused::{refuse_input, refuse_words};
pub use wrong::{Expected, MOST_WORDS, Name, Wrong, wrong_word};
