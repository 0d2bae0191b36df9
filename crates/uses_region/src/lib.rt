//! Callers of the region, of its rings and queues, and of the table of contents: what their calling pages show, and the
//! tests of their crates.

#![tactic(auto)]

#[cfg(test)]
mod chunks;
#[cfg(test)]
mod contents;
#[cfg(test)]
mod halves;
#[cfg(test)]
mod handles;
#[cfg(test)]
mod rings;
#[cfg(test)]
mod shares;
#[cfg(test)]
mod tests;

#[cfg(test)]
pub use chunks::store_bytes;
#[cfg(test)]
pub use halves::{both_halves, count_up, swap_halves};
#[cfg(test)]
pub use rings::{at_once, hand_over, send_word, try_take};
#[cfg(test)]
pub use shares::{load_twice, look_up, look_up_twice};
