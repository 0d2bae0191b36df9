//! What is said of a name that a header lacks: the fields that it has.

ghost use Rattle.std.specs.Prelude.{◌≡◌, ◌≤◌, ◌++◌, IfOk, codes, length, map, string_bytes, take};
ghost use Rattle.std.specs.List.{concat, list_any};
ghost use Rattle.shown_text.specs.Header.{field_text, may_part, missing_text, parting_help, rest_text};

use crate::escaped::put_shown;
use crate::width::put_number;
use csv_rows::Record;
use std::alloc::{AllocError, Global};

/// The most fields of a header that are named.
pub const MOST_FIELDS: u32 = 8;

/// What a line says of a name that a header lacks: how many fields the header has, and the first of them, at most
/// [`MOST_FIELDS`]; they and the name are as [`shown`](crate::shown) makes them. A header of one field with a tab, a
/// semicolon or a bar in it may have another separator, and the line says which option to see. It takes at most 1,620 bytes.
pub fn missing_text(alloc: Global, name: &[u8], header: &Record<'_>) -> Result<String, AllocError>
    ensures { IfOk result (λ text. string_bytes text ≡ missing_text name.now header.now) }
{
    let width = header.width();
    let mut text = String::from_str(alloc, "no column ")?;
    put_shown(&mut text, name)?;
    text.push_str("; the header has ")?;
    put_number(&mut text, width)?;
    text.push_str(":")?;
    put_fields(&mut text, header, width.min(MOST_FIELDS))?;
    text.push_str(rest(width))?;
    text.push_str(help(header))?;
    Ok(text)
}

/// Puts the first fields of a header.
fn put_fields(text: &mut String, header: &Record<'_>, count: u32) -> Result<(), AllocError>
    requires { count ≤ length header.now }
    ensures { IfOk result (λ _. string_bytes text.new ≡ string_bytes text.old ++ concat (map field_text (take count header.now))) }
{
    for at in 0..count {
        put_field(text, header.field(at))?;
    }
    Ok(())
}

/// Puts a field after a space.
fn put_field(text: &mut String, field: &[u8]) -> Result<(), AllocError>
    ensures { IfOk result (λ _. string_bytes text.new ≡ string_bytes text.old ++ field_text field.now) }
{
    text.push_str(" ")?;
    put_shown(text, field)
}

/// What comes after the fields that are named.
fn rest(width: u32) -> &'static str
    ensures { result.now ≡ rest_text width }
{
    if width > MOST_FIELDS { " .." } else { "" }
}

/// What may help: a header of one field may have another separator.
fn help(header: &Record<'_>) -> &'static str
    ensures { result.now ≡ parting_help header.now }
{
    if header.width() == 1 && has_parting(header.field(0)) {
        "; see --separator"
    } else {
        ""
    }
}

/// Whether a field has a byte that may part fields instead of a comma.
fn has_parting(field: &[u8]) -> bool
    ensures { result ≡ list_any may_part field.now }
{
    field.iter().any(|byte| may_part(*byte))
}

/// Whether a byte may part fields instead of a comma.
fn may_part(byte: u8) -> bool
    ensures { result ≡ may_part byte }
{
    byte == b'\t' || byte == b';' || byte == b'|'
}
