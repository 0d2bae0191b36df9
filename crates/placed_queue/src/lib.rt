//! A queue that is one value in place: no pointer lies in it, so processes may have its memory at different addresses.
//!
//! What was sent through a queue is its history, which only grows. Its length is a word (`history`), and a send is one
//! compare-exchange on it. The items themselves lie in cells (`queue`), each in a letter that says at which place of
//! the history it stands. So a receiver that finds the letter it waits for knows that it is the next item, whoever put
//! it there, and a sender that was overtaken by another one learns it by the exchange. An end of a queue (`sender`,
//! `receiver`) is a number and two flags, with no pointer either; each call is handed the queue.

#![tactic(auto)]

mod history;
mod item;
mod letter;
mod queue;
mod receiver;
mod sender;

pub use history::{Add, Law, Look, Nothing};
pub use item::{Item, MOST_BYTES, Text};
pub use letter::Letter;
pub use queue::Queue;
pub use receiver::{ReceiveAnswer, Receiver};
pub use sender::{SendAnswer, Sender};
