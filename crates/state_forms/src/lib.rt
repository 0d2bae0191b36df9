//! The forms of `parstream` over files of partial states: `parstream combine` and `parstream finalize`, by the words of a command line.

#![tactic(auto)]

mod forms;

pub use forms::{Form, form_of, run_form};
