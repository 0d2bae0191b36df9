//! How the fields of a text are read: which byte parts them, whether white space around them counts, and which texts
//! are read as nothing.

ghost use Rattle.std.specs.Prelude.{◌≡◌, []};
ghost use Rattle.csv_rows.specs.Readings.{cleaned, is_among, is_plain, keeps_all, plain, trimmed_if};

use memchr::memchr;
use par_model::Text;

/// How the fields of a text are read. Of [`Reading::plain`] they are parted by commas and are what lies between.
#[derive(Clone, Copy, Debug)]
pub struct Reading {
    /// The byte that parts fields.
    pub separator: u8,
    /// Whether white space at both ends of a field is left out.
    pub trim: bool,
    /// The texts that are read as nothing, between commas; no field is one of them but for the empty one if there is no text.
    pub nulls: Text,
}

impl Reading {
    /// Commas, white space kept, no text that is read as nothing.
    pub fn plain() -> Reading
        ensures { result ≡ plain }
    {
        Reading {
            separator: b',',
            trim: false,
            nulls: no_text(),
        }
    }

    /// Whether a reading is that of [`Reading::plain`].
    pub fn is_plain(&self) -> bool
        ensures { result ≡ is_plain self.now }
    {
        self.separator == b',' && self.keeps_all()
    }

    /// Whether fields are read as they are.
    pub(crate) fn keeps_all(&self) -> bool
        ensures { result ≡ keeps_all self.now }
    {
        !self.trim && self.nulls.bytes().is_empty()
    }

    /// A field as it is read: without white space at its ends, if that is left out, and then nothing if it is one of the
    /// texts that are read as nothing. In time linear in the field and these texts.
    pub(crate) fn cleaned<'a>(&self, field: &'a [u8]) -> &'a [u8]
        ensures { result.now ≡ cleaned self.now field.now }
    {
        let field = trimmed_if(self.trim, field);
        if is_among(field, self.nulls.bytes()) {
            return &field[..0];
        }
        field
    }
}

/// The text of no bytes.
fn no_text() -> Text
    ensures { result ≡ [] }
{
    match Text::of(&[]) {
        Some(text) => text,
        None => unreachable!(),
    }
}

/// A field without white space at its ends, if that is left out.
fn trimmed_if(trim: bool, field: &[u8]) -> &[u8]
    ensures { result.now ≡ trimmed_if trim field.now }
{
    if trim {
        return field.trim_ascii();
    }
    field
}

/// Whether a field is one of the texts between commas.
fn is_among(field: &[u8], texts: &[u8]) -> bool
    ensures { result ≡ is_among field.now texts.now }
{
    if field.len() > texts.len() {
        return false;
    }
    let mut rest = texts;
    'texts: while let Some(count) = memchr(b',', rest) {
        if field == &rest[..count] {
            return true;
        }
        rest = &rest[count + 1..];
    }
    field == rest
}
