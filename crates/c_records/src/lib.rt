//! A table of records as a caller that is no Rattle program keeps it: as `c_table`, with up to 16 words under a key.
//!
//! A state of `dshash_parts` takes a fixed number of words, so a table of longer values is one of another object, and its
//! items are longer. What does not depend on the object is `c_table`'s: the codes, the words that a caller brings
//! (`Reserve`), and the places and slices that are kept of them. A `Record` is a struct of C's that is kept as a whole. Each
//! call of a handle looks at run time whether it may be made, asks nothing of its caller, and answers by a `Code` that says
//! why. No call waits.

#![tactic(auto)]

mod caller;
mod handle;
mod looking;
mod making;
mod shared;
mod value;

pub use caller::Caller;
pub use handle::{Handle, open, share};
pub use making::new_table;
pub use shared::{Share, Shared};
pub use value::{RECORD_WORDS, Record, RecordCall};
