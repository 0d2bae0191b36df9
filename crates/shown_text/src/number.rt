//! What is said of a field that is no number.

ghost use Rattle.std.specs.Prelude.{◌≡◌, ◌++◌, IfOk, string_bytes};
ghost use Rattle.std.specs.Char.{is_ascii_whitespace};
ghost use Rattle.std.specs.List.{list_all, list_any};
ghost use Rattle.shown_text.specs.Number.{digits_help, help_text, is_digit, is_point, kind_text, number_text};

use crate::escaped::put_shown;
use crate::width::put_number;
use std::alloc::{AllocError, Global};

/// What a line says of a field that is no number of at most this many places, with the name of its column: both as
/// [`shown`](crate::shown) makes them; and, if the field is of such a form, what may help. It takes at most 430 bytes.
pub fn number_text(
    alloc: Global,
    name: &[u8],
    places: u32,
    field: &[u8],
) -> Result<String, AllocError>
    ensures { IfOk result (λ text. string_bytes text ≡ number_text name.now places field.now) }
{
    let mut text = String::from_str(alloc, "column ")?;
    put_shown(&mut text, name)?;
    put_kind(&mut text, places)?;
    put_shown(&mut text, field)?;
    text.push_str(help(places, field))?;
    Ok(text)
}

/// Puts what a field is not that is no number of at most this many places.
fn put_kind(text: &mut String, places: u32) -> Result<(), AllocError>
    ensures { IfOk result (λ _. string_bytes text.new ≡ string_bytes text.old ++ kind_text places) }
{
    if places == 0 {
        return text.push_str(" is not an integer: ");
    }
    if places == 1 {
        return text.push_str(" is not a decimal with at most 1 place: ");
    }
    text.push_str(" is not a decimal with at most ")?;
    put_number(text, places)?;
    text.push_str(" places: ")?;
    Ok(())
}

/// What may help: a field without a digit may be blank, or a word for a null.
fn help(places: u32, field: &[u8]) -> &'static str
    ensures { result.now ≡ help_text places field.now }
{
    if has_digit(field) {
        digits_help(places, field)
    } else if is_blank(field) {
        "; see --trim"
    } else {
        "; see --null"
    }
}

/// What may help if a field has digits: one of nothing else is too large, and one with a point may be a decimal.
fn digits_help(places: u32, field: &[u8]) -> &'static str
    ensures { result.now ≡ digits_help places field.now }
{
    if are_digits(field) {
        "; it does not fit in 64 bits"
    } else if places == 0 && has_point(field) {
        "; see --decimals"
    } else {
        ""
    }
}

/// Whether a field has a digit.
fn has_digit(field: &[u8]) -> bool
    ensures { result ≡ list_any is_digit field.now }
{
    field.iter().any(|byte| is_digit(*byte))
}

/// Whether a field has digits only.
fn are_digits(field: &[u8]) -> bool
    ensures { result ≡ list_all is_digit field.now }
{
    field.iter().all(|byte| is_digit(*byte))
}

/// Whether a field has white space only.
fn is_blank(field: &[u8]) -> bool
    ensures { result ≡ list_all is_ascii_whitespace field.now }
{
    field.iter().all(|byte| byte.is_ascii_whitespace())
}

fn is_digit(byte: u8) -> bool
    ensures { result ≡ is_digit byte }
{
    byte >= b'0' && byte <= b'9'
}

/// Whether a field has a point.
fn has_point(field: &[u8]) -> bool
    ensures { result ≡ list_any is_point field.now }
{
    field.iter().any(|byte| is_point(*byte))
}

fn is_point(byte: u8) -> bool
    ensures { result ≡ is_point byte }
{
    byte == b'.'
}
