//! Values that are loaded when they are asked for, each by one caller: the others sleep until it is there.
//!
//! For each key it keeps a cell, which is empty, in a load, or has a value. A cell changes only under its lock: `get`
//! makes an empty cell's load that of its caller, only this caller ends it, by `put` or by `give_up`, and `remove` empties
//! a cell that has a value. So at each moment one caller at most loads a key. A caller that finds a key in a load sleeps
//! until the load has ended, and looks: it gets the value, or learns that the load failed. No error is kept for it, no
//! list of those that wait, and no value is evicted.
//!
//! `values` says what is loaded. `history` is what the history of a key's cell is made of, `cell` the cell under its
//! lock, and `found` what a caller finds under a key. `loader` has the calls, `waiting` the wait for another's load,
//! `close` how a loader ends, and `laws` what is true of every history of a cell. It is a shelf of `lock_book` with a
//! cell for each key.

#![tactic(auto)]

mod cell;
mod close;
mod found;
mod history;
mod laws;
mod loader;
mod values;
mod waiting;

pub use close::ClosedLoader;
pub use found::{Found, Load};
pub use history::{CellCall, CellReply, CellState};
pub use laws::{gets_what_was_put, loads_alone, loads_once};
pub use loader::{Loader, LoaderPass};
pub use values::Values;
