//! Bytes of the input or of a command line as a line may show them: nothing in them reaches a terminal as a command.

ghost use Rattle.std.specs.Prelude.{◌≡◌, ◌<◌, ◌≤◌, ◌++◌, ◌∷◌, [], IfOk, IfSome, is_some, length, min, option_map, slice_index, string_bytes, take};
ghost use Rattle.std.specs.Char.{digit_char};
ghost use Rattle.shown_text.specs.Shown.{byte_text, end_text, front_text, is_control, is_mark, is_order_mark, is_text_front, plain_size, shown_after, shown_text, step};

use std::alloc::{AllocError, Global};
use std::str;

/// The most bytes of a field that are shown.
pub const MOST_SHOWN: usize = 40;

/// The first bytes of a field, at most [`MOST_SHOWN`], in double quotes, with two points after them if it has more. A
/// character past ASCII is shown as it is, unless it is a control character, can't be seen, or changes the order of
/// reading. Of the other
/// bytes, those that print are shown, quotes and backslashes after a backslash, and all others as `\\x` and two digits. It
/// takes at most 164 bytes.
pub fn shown(alloc: Global, field: &[u8]) -> Result<String, AllocError>
    ensures { IfOk result (λ text. string_bytes text ≡ shown_text field.now) }
{
    let mut text = String::new(alloc);
    put_shown(&mut text, field)?;
    Ok(text)
}

/// Puts what [`shown`] makes of a field at the end of a text. If memory runs out a part of it may be there.
pub fn put_shown(text: &mut String, field: &[u8]) -> Result<(), AllocError>
    ensures { IfOk result (λ _. string_bytes text.new ≡ string_bytes text.old ++ shown_text field.now) }
{
    text.push_str("\"")?;
    put_escaped(text, first_bytes(field))?;
    text.push_str(end_quote(field))?;
    Ok(())
}

/// The bytes of a field that are shown.
fn first_bytes(field: &[u8]) -> &[u8]
    ensures { result.now ≡ take (min (length field.now) MOST_SHOWN) field.now }
{
    &field[..field.len().min(MOST_SHOWN)]
}

/// What ends what is shown of a field.
fn end_quote(field: &[u8]) -> &'static str
    ensures { result.now ≡ end_text field.now }
{
    if field.len() > MOST_SHOWN {
        "\".."
    } else {
        "\""
    }
}

/// Puts what is shown of all these bytes at the end of a text, without quotes. If memory runs out a part of it may be there. It
/// takes at most four bytes for each.
pub fn put_escaped(text: &mut String, bytes: &[u8]) -> Result<(), AllocError>
    ensures { IfOk result (λ _. string_bytes text.new ≡ string_bytes text.old ++ shown_after 0 bytes.now) }
{
    let mut rest = bytes;
    'fronts: while !rest.is_empty() {
        let size = put_front(text, rest)?;
        rest = &rest[size..];
    }
    Ok(())
}

/// Puts what is shown of the front of bytes, and returns how many bytes that was.
fn put_front(text: &mut String, bytes: &[u8]) -> Result<usize, AllocError>
    requires { 0 < length bytes.now }
    ensures text { IfOk result (λ _. string_bytes text.new ≡ string_bytes text.old ++ front_text bytes.now) }
    ensures size { IfOk result (λ size. size ≡ step bytes.now) }
    ensures some { IfOk result (λ size. 0 < size) }
    ensures within { IfOk result (λ size. size ≤ length bytes.now) }
{
    match plain_front(bytes) {
        Some(front) => {
            text.push_str(front)?;
            Ok(front.len())
        }
        None => {
            put_byte(text, bytes[0])?;
            Ok(1)
        }
    }
}

/// The character past ASCII that bytes begin with, if it is shown as it is.
fn plain_front(bytes: &[u8]) -> Option<&str>
    requires { 0 < length bytes.now }
    ensures front { option_map (λ front. front.now) result ≡ option_map (λ size. take size bytes.now) (plain_size bytes.now) }
    ensures size { option_map (λ front. length front.now) result ≡ plain_size bytes.now }
    ensures some { IfSome result (λ front. 0 < length front.now) }
    ensures within { IfSome result (λ front. length front.now ≤ length bytes.now) }
{
    if bytes[0] < 128 || (is_control(bytes) || (is_mark(bytes) || is_order_mark(bytes))) {
        return None;
    }
    if let Some(front) = text_front(bytes, 2) {
        return Some(front);
    }
    if let Some(front) = text_front(bytes, 3) {
        return Some(front);
    }
    text_front(bytes, 4)
}

/// The first few of some bytes, if they are text.
#[tactic(auto, using(crate::proofs::Texts::is_text, crate::proofs::Texts::is_no_text))]
fn text_front(bytes: &[u8], size: usize) -> Option<&str>
    ensures some { is_some result ≡ is_text_front size bytes.now }
    ensures front { IfSome result (λ front. front.now ≡ take size bytes.now) }
    ensures size { IfSome result (λ front. length front.now ≡ size) }
    ensures within { IfSome result (λ front. size ≤ length bytes.now) }
{
    if bytes.len() < size {
        return None;
    }
    match str::from_utf8(&bytes[..size]) {
        Ok(front) => Some(front),
        Err(_) => None,
    }
}

/// Whether bytes of UTF-8 begin with one of the control characters U+0080 to U+009F, or with a space or a hyphen that can't
/// be told from others or be seen.
fn is_control(bytes: &[u8]) -> bool
    ensures { result ≡ is_control bytes.now }
{
    let second = byte_at(bytes, 1);
    byte_at(bytes, 0) == 0xc2 && (second <= 0xa0 || second == 0xad)
}

/// Whether bytes of UTF-8 begin with a character that can't be seen, changes the order of reading, or begins another line.
fn is_mark(bytes: &[u8]) -> bool
    ensures { result ≡ is_mark bytes.now }
{
    let second = byte_at(bytes, 1);
    let third = byte_at(bytes, 2);
    byte_at(bytes, 0) == 0xe2
        && ((second == 0x80
            && ((third >= 0x8b && third <= 0x8f) || (third >= 0xa8 && third <= 0xae)))
            || (second == 0x81 && (third >= 0xa0 && third <= 0xa9)))
}

/// Whether bytes of UTF-8 begin with the mark of an order of bytes.
fn is_order_mark(bytes: &[u8]) -> bool
    ensures { result ≡ is_order_mark bytes.now }
{
    byte_at(bytes, 0) == 0xef && (byte_at(bytes, 1) == 0xbb && byte_at(bytes, 2) == 0xbf)
}

/// The byte at a place, or 0 past the end.
fn byte_at(bytes: &[u8], at: usize) -> u8
    ensures { result ≡ slice_index bytes.now at }
{
    match bytes.get(at) {
        Some(byte) => *byte,
        None => 0,
    }
}

/// Puts a byte that is shown by itself.
fn put_byte(text: &mut String, byte: u8) -> Result<(), AllocError>
    ensures { IfOk result (λ _. string_bytes text.new ≡ string_bytes text.old ++ byte_text byte) }
{
    if byte == b'"' {
        text.push_str("\\\"")
    } else if byte == b'\\' {
        text.push_str("\\\\")
    } else if byte >= 32 && byte <= 126 {
        put_ascii(text, byte)
    } else {
        text.push_str("\\x")?;
        put_digit(text, byte / 16)?;
        put_digit(text, byte % 16)
    }
}

/// Puts a character of ASCII.
#[tactic(auto, using(std::proofs::lemmas::Str::encode_ascii))]
fn put_ascii(text: &mut String, byte: u8) -> Result<(), AllocError>
    requires { byte < 128 }
    ensures { IfOk result (λ _. string_bytes text.new ≡ string_bytes text.old ++ (byte ∷ [])) }
{
    text.push(char::from(byte))
}

/// Puts a digit of base 16.
fn put_digit(text: &mut String, digit: u8) -> Result<(), AllocError>
    requires { digit < 16 }
    ensures { IfOk result (λ _. string_bytes text.new ≡ string_bytes text.old ++ (digit_char digit ∷ [])) }
{
    if digit < 10 {
        put_ascii(text, b'0' + digit)
    } else {
        put_ascii(text, b'a' - 10 + digit)
    }
}
