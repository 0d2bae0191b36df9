//! Which fields are numbers: decimal digits after an optional sign, with a point among them if the number may have
//! places, and with spaces at either end. A number with places is held in units of its last place: `-1.5` is -150 in
//! units of a hundredth.
//!
//! A field is read in place, with no copy and no check of its encoding: a byte that is none of these, such as any byte
//! of a character beyond ASCII, makes it no number.
//!
//! Nearly every number has at most eighteen digits, all places that it may have, and no space around it. Eighteen digits
//! write a number below 10^18, which fits with either sign, so for these there is a short way: loops that look for no
//! space and test no step against overflow. If it finds anything else, the general way decides.

ghost use Rattle.std.specs.Prelude.{◌≡◌, ◌<◌, ◌≤◌, ◌+◌, ◌-◌, ◌^◌, ◌&&◌, ℕ, IfSome, None, Some, if◌then◌else◌, length, nat_le, replicate, true};
ghost use Rattle.std.specs.Char.{is_ascii_digit};
ghost use Rattle.std.specs.List.{after_first, before_first, list_all, position_or_len, prefix_len, suffix_len};
ghost use Rattle.std.specs.Str.Parse.{digits_value_after, starts_with_minus, without_leading_sign};
ghost use Rattle.par_model.specs.Number.{decimal_of, integer_of, is_point, is_space, number_of, without_spaces};
ghost use Rattle.par_model.specs.Magnitude.{has_places, magnitude_of, short_magnitude_of, short_scaled_of, with_sign};

/// The size of the least number of 64 signed bits.
const LARGEST: u64 = 0x8000_0000_0000_0000;

/// How many digits the short way reads at most.
const SHORT: usize = 18;

/// The number of a field in units of 10^-`places`, if it is one: any number of spaces, an optional `+` or `-`, one or
/// more ASCII digits, any number of spaces. If there are places, there may be a point, with one to `places` of the digits
/// after it. The value has 64 signed bits. Its time is linear in the bytes and the places, and shortest if there are at
/// most eighteen digits, `places` of them after the point, and no space.
pub fn read_number(field: &[u8], places: u32) -> Option<i64>
    ensures { result ≡ decimal_of places field.now }
{
    if places == 0 {
        read_integer(field)
    } else {
        read_decimal(field, places)
    }
}

/// The number of a field that may have places.
fn read_decimal(field: &[u8], places: u32) -> Option<i64>
    requires { 0 < places }
    ensures { result ≡ decimal_of places field.now }
{
    let (is_minus, digits) = split_sign(field);
    match short_scaled(digits, places as usize) {
        Some(size) => Some(signed_size(is_minus, size)),
        None => number(trimmed(field), places as usize),
    }
}

/// The integer of a field, if it is one: any number of spaces, an optional `+` or `-`, one or more ASCII digits, any
/// number of spaces, with a value of 64 signed bits. Its time is linear in the bytes, and shortest for only one to
/// eighteen digits, with or without a sign.
pub fn read_integer(field: &[u8]) -> Option<i64>
    ensures { result ≡ integer_of field.now }
{
    let (is_minus, digits) = split_sign(field);
    match short_magnitude(digits) {
        Some(size) => Some(signed_size(is_minus, size)),
        None => number(trimmed(field), 0),
    }
}

/// The number that one to eighteen digits write, if there is nothing else.
fn short_magnitude(digits: &[u8]) -> Option<u64>
    ensures value { result ≡ short_magnitude_of digits.now }
    ensures within { IfSome result (λ size. size < 10 ^ 18) }
{
    if digits.is_empty() || digits.len() > SHORT {
        return None;
    }
    more_short(0, digits)
}

/// The number that digits with all their places write, eighteen at most, if there is nothing else.
fn short_scaled(digits: &[u8], places: usize) -> Option<u64>
    requires { 0 < places }
    ensures value { result ≡ short_scaled_of places digits.now }
    ensures within { IfSome result (λ size. size < 10 ^ 18) }
{
    if digits.len() > SHORT + 1 || digits.len() < 2 || digits.len() - 2 < places {
        return None;
    }
    let at = digits.len() - 1 - places;
    if digits[at] != b'.' {
        return None;
    }
    let whole = more_short(0, &digits[..at])?;
    more_short(whole, &digits[at + 1..])
}

/// The number that digits write after those that write `before`, if there is nothing else, without a test against
/// overflow.
fn more_short(before: u64, digits: &[u8]) -> Option<u64>
    requires few { length digits.now ≤ 18 }
    requires small { before < 10 ^ (18 - length digits.now) }
    ensures value { result ≡ (if list_all is_ascii_digit digits.now then Some (digits_value_after 10 before digits.now) else None) }
    ensures within { (k : ℕ) → before < 10 ^ k → IfSome result (λ size. size < 10 ^ (k + length digits.now)) }
{
    let mut value = before;
    'digits: for digit in digits {
        // A byte below `0` wraps around, so one test says whether a byte is a digit.
        let unit = u64::from(*digit).wrapping_sub(u64::from(b'0'));
        if unit > 9 {
            return None;
        }
        value = value * 10 + unit;
    }
    Some(value)
}

/// The number that a size is with a minus sign, or without one.
fn signed_size(is_minus: bool, size: u64) -> i64
    requires { size < 2 ^ 63 }
    ensures { Some result ≡ with_sign is_minus (Some size) }
{
    if is_minus {
        -(size as i64)
    } else {
        size as i64
    }
}

/// The bytes between the spaces at either end.
fn trimmed(field: &[u8]) -> &[u8]
    ensures { result.now ≡ without_spaces field.now }
{
    let start = spaces_before(field);
    let end = field.len() - spaces_after(field);
    if start > end {
        return &[];
    }
    &field[start..end]
}

fn spaces_before(field: &[u8]) -> usize
    ensures { result ≡ prefix_len is_space field.now }
{
    field.iter().take_while(|byte| **byte == b' ').count()
}

fn spaces_after(field: &[u8]) -> usize
    ensures count { result ≡ suffix_len is_space field.now }
    ensures within { result ≤ length field.now }
{
    field.iter().rev().take_while(|byte| **byte == b' ').count()
}

/// The number that a sign and digits write.
fn number(text: &[u8], places: usize) -> Option<i64>
    ensures { result ≡ number_of places text.now }
{
    let (is_minus, digits) = split_sign(text);
    signed(is_minus, digits, places)
}

/// Whether a text begins with a minus, and what comes after its sign.
fn split_sign(text: &[u8]) -> (bool, &[u8])
    ensures is_minus { result.0 ≡ starts_with_minus text.now }
    ensures digits { result.1.now ≡ without_leading_sign text.now }
{
    match text {
        [b'-', digits @ ..] => (true, digits),
        [b'+', digits @ ..] => (false, digits),
        digits => (false, digits),
    }
}

/// The number of 64 signed bits that digits write after a sign.
fn signed(is_minus: bool, digits: &[u8], places: usize) -> Option<i64>
    ensures { result ≡ with_sign is_minus (magnitude_of places digits.now) }
{
    let size = magnitude(digits, places)?;
    if !is_minus {
        return i64::try_from(size).ok();
    }
    if size == LARGEST {
        return Some(i64::MIN);
    }
    Some(-(size as i64))
}

/// The number that digits write in units of 10^-`places`, if there are digits and nothing else but a point that may be
/// there, and the number is at most 2^63.
fn magnitude(digits: &[u8], places: usize) -> Option<u64>
    ensures value { result ≡ magnitude_of places digits.now }
    ensures within { IfSome result (λ size. size ≤ 2 ^ 63) }
{
    let (whole, decimals) = split_point(digits);
    if !has_places(digits, whole, decimals, places) {
        return None;
    }
    let front = more_magnitude(0, whole)?;
    let all = more_magnitude(front, decimals)?;
    with_zeros(all, places - decimals.len())
}

/// What comes before the first point, and what after it: nothing, if there is no point.
fn split_point(digits: &[u8]) -> (&[u8], &[u8])
    ensures whole { result.0.now ≡ before_first is_point digits.now }
    ensures decimals { result.1.now ≡ after_first is_point digits.now }
{
    let at = point_place(digits);
    if at == digits.len() {
        return (digits, &[]);
    }
    (&digits[..at], &digits[at + 1..])
}

/// Where the first point is, or the end of the digits.
fn point_place(digits: &[u8]) -> usize
    ensures place { result ≡ position_or_len is_point digits.now }
    ensures within { result ≤ length digits.now }
{
    digits.iter().take_while(|byte| **byte != b'.').count()
}

/// Whether there is no point and something before it, or a point and one to `places` bytes after it.
fn has_places(digits: &[u8], whole: &[u8], decimals: &[u8], places: usize) -> bool
    requires whole { whole.now ≡ before_first is_point digits.now }
    requires decimals { decimals.now ≡ after_first is_point digits.now }
    ensures places { result ≡ has_places places digits.now }
    ensures few { has_places places digits.now ≡ true → length decimals.now ≤ places }
{
    if whole.len() == digits.len() {
        !digits.is_empty()
    } else {
        !decimals.is_empty() && decimals.len() <= places
    }
}

/// The number that digits write after those that write `before`, if there is nothing else, and it is at most 2^63.
fn more_magnitude(before: u64, digits: &[u8]) -> Option<u64>
    requires { before ≤ 2 ^ 63 }
    ensures value { result ≡ (if list_all is_ascii_digit digits.now && nat_le (digits_value_after 10 before digits.now) (2 ^ 63) then Some (digits_value_after 10 before digits.now) else None) }
    ensures within { IfSome result (λ size. size ≤ 2 ^ 63) }
{
    let mut value = before;
    'digits: for digit in digits {
        if !digit.is_ascii_digit() || value > LARGEST / 10 {
            return None;
        }
        value = value * 10 + u64::from(*digit - b'0');
    }
    (value <= LARGEST).then_some(value)
}

/// A number with this many zeros after it, if it is at most 2^63.
fn with_zeros(before: u64, count: usize) -> Option<u64>
    requires { before ≤ 2 ^ 63 }
    ensures value { result ≡ (if nat_le (digits_value_after 10 before (replicate count 48)) (2 ^ 63) then Some (digits_value_after 10 before (replicate count 48)) else None) }
    ensures within { IfSome result (λ size. size ≤ 2 ^ 63) }
{
    let mut value = before;
    for _zero in 0..count {
        if value > LARGEST / 10 {
            return None;
        }
        value *= 10;
    }
    Some(value)
}
