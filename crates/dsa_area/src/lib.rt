//! A shared area (the part of dsa.c): chunks of a region's words, granted and taken back by many callers at once.
//!
//! A request of up to 8,192 bytes is an object of the least size class that holds it, a larger one is whole pages. The
//! one `Pages` is on a shelf of `lock_book`, and the 36 pools on another, so each has its own lock; a call takes them
//! one after the other, each as a separate event. What calls did is said by the histories of the pages and of the pools
//! (`specs/Shown.antt`): a call adds the events that `specs/Requests.antt` names, and nothing else.
//!
//! `pages` and `pools` are the locked values, `at_pages` and `at_pools` one event at each; `objects` and `whole` are
//! the requests of the two kinds over these, and `requests` chooses between them; `batches` are many objects in one
//! turn at a pool, and `trims` what lies idle. `open`, `meet` and `close` are how an area begins, how passes exchange what they have seen, and how
//! it ends.

#![tactic(auto)]

mod area;
mod at_pages;
mod at_pools;
mod batches;
mod close;
mod laws;
mod meet;
mod objects;
mod open;
mod pages;
mod pools;
mod requests;
mod sizes;
mod trims;
mod whole;

pub use area::{Area, AreaPass};
pub use close::ClosedArea;
pub use free_pages::{Usage, area_words};
pub use laws::live_objects_are_taken;
pub use requests::{NoSpace, Stranger};
pub use sizes::chunk_bytes;
