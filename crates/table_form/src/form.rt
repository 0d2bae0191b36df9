//! The forms that a table is written in, by their names.

ghost use Rattle.std.specs.Prelude.{◌≡◌, ◌∷◌, ℕ, List, IfOk};
ghost use Rattle.par_model.specs.Table.{table_text};
ghost use Rattle.table_form.specs.Forms.{form_in, form_text};

use crate::aligned::as_aligned;
use crate::json::as_json;
use crate::tsv::as_tsv;
use std::alloc::{AllocError, Global};

/// How a table is written.
#[derive(Clone, Copy, Debug, PartialEq, Eq)]
pub enum Form {
    /// As it is: fields divided by commas, in quotes if they need them.
    Csv,
    /// Fields divided by tabs.
    Tsv,
    /// An object of JSON a row, each a line.
    Json,
    /// Columns of equal width, for a reader.
    Aligned,
}

/// The names of the forms, as a message lists them.
pub const FORMS: &str = "csv, tsv, json or aligned";

/// The form of this name.
pub fn form_of(name: &[u8]) -> Option<Form>
    ensures { result ≡ form_in name.now }
{
    if name == b"csv".as_slice() {
        Some(Form::Csv)
    } else if name == b"tsv".as_slice() {
        Some(Form::Tsv)
    } else if name == b"json".as_slice() {
        Some(Form::Json)
    } else if name == b"aligned".as_slice() {
        Some(Form::Aligned)
    } else {
        None
    }
}

/// The text of a table in a form. The first `keys` columns are texts, and the others are numbers or nulls. An error means that
/// memory ran out. The time is linear in the two texts; memory is the text that is given back, and a row.
pub fn formed(alloc: Global, text: &[u8], form: Form, keys: usize) -> Result<Vec<u8>, AllocError>
    ensures { IfOk result (λ out. (header : List (List ℕ)) (rows : List (List (List ℕ))) → text.now ≡ table_text (header ∷ rows) → out.items ≡ form_text form keys header rows) }
{
    match form {
        Form::Csv => Vec::from_slice(alloc, text),
        Form::Tsv => as_tsv(alloc, text),
        Form::Json => as_json(alloc, text, keys),
        Form::Aligned => as_aligned(alloc, text, keys),
    }
}
