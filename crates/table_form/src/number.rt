//! Whether a text is a number of JSON.

ghost use Rattle.std.specs.Prelude.{◌≡◌, ◌==◌, ◌&&◌, ◌||◌, ◌≤◌, length, not, slice_index};
ghost use Rattle.std.specs.Char.{is_ascii_digit};
ghost use Rattle.std.specs.List.{list_all, position_or_len};
ghost use Rattle.par_model.specs.Number.{is_point};
ghost use Rattle.table_form.specs.Number.{are_digits, is_json_number, is_unsigned, is_whole, without_minus};

use crate::row::{begins_with, without_first};

/// Whether a text is a number of JSON without an exponent.
pub(crate) fn is_number(text: &[u8]) -> bool
    ensures { result ≡ is_json_number text.now }
{
    is_unsigned(without_minus(text))
}

/// Whether a text is a number without a sign.
fn is_unsigned(size: &[u8]) -> bool
    ensures { result ≡ is_unsigned size.now }
{
    let at = point_place(size);
    if at == size.len() {
        return is_whole(size);
    }
    let (whole, rest) = size.split_at(at);
    is_pointed(whole, without_first(rest))
}

/// Whether these are the digits before a point and after it.
fn is_pointed(whole: &[u8], part: &[u8]) -> bool
    ensures { result ≡ (is_whole whole.now && are_digits part.now) }
{
    is_whole(whole) && are_digits(part)
}

/// Where the first point is, or the end of the bytes.
fn point_place(size: &[u8]) -> usize
    ensures place { result ≡ position_or_len is_point size.now }
    ensures within { result ≤ length size.now }
{
    size.iter().take_while(|byte| **byte != b'.').count()
}

/// A text without its minus sign, if it has one.
fn without_minus(text: &[u8]) -> &[u8]
    ensures { result.now ≡ without_minus text.entry.now }
{
    match text {
        [b'-', size @ ..] => size,
        _ => text,
    }
}

/// Whether bytes are digits without a zero before others.
fn is_whole(bytes: &[u8]) -> bool
    ensures { result ≡ is_whole bytes.now }
{
    are_digits(bytes) && has_front(bytes)
}

/// Whether there is only one byte, or the first is no zero.
fn has_front(bytes: &[u8]) -> bool
    ensures { result ≡ ((length bytes.now == 1) || not (slice_index bytes.now 0 == 48)) }
{
    bytes.len() == 1 || !begins_with(bytes, b'0')
}

/// Whether bytes are one or more digits.
fn are_digits(bytes: &[u8]) -> bool
    ensures { result ≡ are_digits bytes.now }
{
    !bytes.is_empty() && all_digits(bytes)
}

/// Whether all bytes are digits.
fn all_digits(bytes: &[u8]) -> bool
    ensures { result ≡ list_all is_ascii_digit bytes.now }
{
    bytes.iter().all(|byte| byte.is_ascii_digit())
}
