//! The text of a finished table in another form: fields divided by tabs, lines of JSON, or columns that are aligned.
//!
//! Each form is read off the table's text row by row, into one buffer that is used again, so memory is the text that is
//! given back and a row; and each is a function of the table's records, which `specs/` has.

#![tactic(auto)]

mod aligned;
mod between;
mod form;
mod json;
mod laws;
mod number;
mod row;
mod sizes;
mod tsv;

pub use form::{FORMS, Form, form_of, formed};
pub use laws::values_are_numbers;
