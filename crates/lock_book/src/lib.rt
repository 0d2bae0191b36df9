//! Locked values of one kind, each with a history that appears only in the proofs.
//!
//! A shelf has a list of values, each with its own lock. A caller has a pass; a call waits for its turn at one value,
//! is applied to it, and is from then on an entry of that value's history. A turn may also have several calls, an entry
//! each (`several`). The lock is two words of an `atomic_table` and one slot (`table`), and its invariant is `Ruled` of
//! specs/Ruled: each value has one legal history, of which each pass has seen a beginning with all its own calls.

#![tactic(auto)]

mod close;
mod gather;
mod joined;
mod kept;
mod laws;
mod meet;
mod news;
mod noted;
mod open;
mod several;
mod shelf;
mod steps;
mod table;
mod trying;
mod turn;
mod two;
mod view;

pub use close::Closed;
pub use joined::Joined;
pub use kept::Kept;
pub use laws::calls_of_all;
pub use several::Turn;
pub use shelf::{Pass, Shelf};
pub use two::two_of;
pub use view::Entry;
