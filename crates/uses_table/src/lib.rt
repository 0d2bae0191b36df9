//! Callers of `dshash_parts` and `dshash_scan`: numbers that two threads put into the shared hash table, a cache of texts
//! under names whose owners alone may change them, and leases that run out round after round of a clock. The crate also
//! has the tests of the crates of the table and of what is in its cells. No other crate depends on it.

#![tactic(auto)]

#[cfg(test)]
mod aging;
#[cfg(test)]
mod cache;
#[cfg(test)]
mod crowded;
#[cfg(test)]
mod doubling;
#[cfg(test)]
mod groups;
mod lease;
#[cfg(test)]
mod numbers;
#[cfg(test)]
mod objects;
#[cfg(test)]
mod one;
#[cfg(test)]
mod parts;
#[cfg(test)]
mod replacing;
#[cfg(test)]
mod states;
#[cfg(test)]
mod tests;
mod text;

#[cfg(test)]
pub use aging::{Round, tick_one};
#[cfg(test)]
pub use cache::{forget, keep, own_name, recall, remember};
pub use lease::{Lease, LeaseCall};
#[cfg(test)]
pub use replacing::replace_if;
pub use text::{Text, TextCall};
