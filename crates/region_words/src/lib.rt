//! A region of words that all threads see, and the tokens by which a thread may touch them.
//!
//! A `Part` owns words: only its holder reads and changes them, so contracts see it as a finite map. `Part::split` and
//! `Part::join` cut and put together parts, `Part::freeze` makes words that change no more and that any number of
//! `Frozen` tokens share. A `Chunk` is a part whose words lie in a row, a `Run` has the words of whole pages. Who may
//! change which word and when is the rule of `region_rule`; each call here is one step of it on the table that holds
//! the words, and no call but `Region::new` takes memory or refuses.

#![tactic(auto)]

mod chunk;
mod frozen;
mod laws;
mod part;
mod region;

pub use chunk::{Chunk, Run};
pub use frozen::Frozen;
pub use laws::{same_chunk, same_run};
pub use part::Part;
pub use region::Region;
