//! A row on its own, as plain vectors of bytes: the form that the slow definitions are run on.

ghost use Rattle.std.specs.Prelude.{◌≡◌, ◌<◌, length};
ghost use Rattle.par_model.specs.Record.{field_of};

use std::marker::Model;

/// The bytes of a field.
#[derive(Debug, Drop)]
pub struct Field {
    bytes: Vec<u8>,
}

impl Model for Field {
    ghost use Rattle.std.specs.Prelude.{List, ℕ};

    ghost Value = { List ℕ };

    ghost view = { λ f. f.bytes.items };
}

impl Field {
    /// A field of these bytes, which it owns from then on.
    pub fn new(bytes: Vec<u8>) -> Field
        ensures { result ≡ bytes.items }
    {
        Field { bytes }
    }
}

/// The fields of a row.
#[derive(Debug, Drop)]
pub struct Row {
    fields: Vec<Field>,
}

impl Model for Row {
    ghost use Rattle.std.specs.Prelude.{List, ℕ};

    ghost Value = { List (List ℕ) };

    ghost view = { λ r. r.fields.items };
}

impl Row {
    /// A row of these fields, which it owns from then on.
    pub fn new(fields: Vec<Field>) -> Row
        ensures { result ≡ fields.items }
    {
        Row { fields }
    }

    /// How many fields it has.
    pub fn width(&self) -> usize
        ensures { result ≡ length self.now }
    {
        self.fields.len()
    }

    /// The bytes of the field in a column.
    pub fn field(&self, column: u32) -> &[u8]
        requires { column < length self.now }
        ensures { result.now ≡ field_of self.now column }
    {
        let field = &self.fields[column as usize];
        field.bytes.as_slice()
    }
}
