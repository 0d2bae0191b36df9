//! Numbers as the digits that write them, which may be any number of digits.

ghost use Rattle.std.specs.Prelude.{◌≡◌, ◌≢◌, ◌==◌, ◌&&◌, ◌<◌, ◌≤◌, ◌^◌, ◌-◌, ◌*◌, ◌+◌, ◌++◌, ℕ, IfSome, drop, is_some, length, min, not, replicate, slice_index, take, true};
ghost use Rattle.std.specs.Char.{is_ascii_digit};
ghost use Rattle.std.specs.List.{list_all};
ghost use Rattle.std.specs.Ordering.{int_cmp, nat_cmp};
ghost use Rattle.std.specs.Str.Parse.{digits_value, digits_value_after, starts_with_minus, without_leading_sign};
ghost use Rattle.table_order.specs.Digits.{IsSound, size_in, units_in};
ghost use Rattle.table_order.specs.Entries.{rank_of_size};
ghost use Rattle.table_order.specs.Numbers.{is_number, is_tail, part_of, size_of, tail_of, whole_of};

use std::cmp::Ordering;

/// A number: whether it is below zero, its digits before the point without zeros at the front, and those after the point.
#[derive(Clone, Copy)]
pub(crate) struct Number<'a> {
    minus: bool,
    whole: &'a [u8],
    part: &'a [u8],
}

impl<'a> Number<'a> {
    /// The number that a text writes with this many places, if it writes one.
    pub(crate) fn of(text: &'a [u8], places: usize) -> Option<Number<'a>>
        ensures some { is_some result ≡ is_number places text.entry.now }
        ensures sound { IfSome result (IsSound places) }
        ensures size { IfSome result (λ n. size_in n ≡ size_of places (without_leading_sign text.entry.now)) }
        ensures minus { IfSome result (λ n. n.minus ≡ (starts_with_minus text.entry.now && not (size_in n == 0))) }
    {
        let digits = without_sign(text);
        let (whole, tail) = split_point(digits, places);
        if whole.is_empty() || !are_digits(whole) || !is_tail(tail, places) {
            return None;
        }
        Some(Number::from_digits(has_minus(text), whole, without_first(tail)))
    }

    /// The number of these digits.
    fn from_digits(minus: bool, whole: &'a [u8], part: &'a [u8]) -> Number<'a>
        requires whole { list_all is_ascii_digit whole.now ≡ true }
        requires part { list_all is_ascii_digit part.now ≡ true }
        ensures sound { IsSound (length part.entry.now) result }
        ensures size { size_in result ≡ digits_value 10 (whole.entry.now ++ part.entry.now) }
        ensures minus { result.minus ≡ (minus && not (size_in result == 0)) }
    {
        let whole = without_zeros(whole);
        Number {
            minus: minus && !are_zero(whole, part),
            whole,
            part,
        }
    }

    /// Its size in units of its last place, or the greatest number of 64 bits if it is greater.
    fn size(&self) -> u64
        requires { IsSound (length self.now.part.now) self.now }
        ensures { result ≡ min (size_in self.now) (2 ^ 64 - 1) }
    {
        push_digits(push_digits(0, self.whole), self.part)
    }

    /// Its rank among numbers.
    pub(crate) fn rank(&self) -> u64
        requires { IsSound (length self.now.part.now) self.now }
        ensures { result ≡ rank_of_size self.now.minus (size_in self.now) }
    {
        if self.minus {
            HALF - self.size().min(HALF)
        } else {
            HALF + self.size().min(HALF - 1)
        }
    }

    /// How two numbers with the same number of places compare.
    pub(crate) fn compare(&self, other: &Number<'_>) -> Ordering
        requires sound { IsSound (length self.now.part.now) self.now }
        requires other { IsSound (length self.now.part.now) other.now }
        ensures { result ≡ int_cmp (units_in self.now) (units_in other.now) }
    {
        match (self.minus, other.minus) {
            (false, false) => self.compare_sizes(other),
            (true, true) => other.compare_sizes(self),
            (true, false) => Ordering::Less,
            (false, true) => Ordering::Greater,
        }
    }

    /// How their sizes compare.
    fn compare_sizes(&self, other: &Number<'_>) -> Ordering
        requires sound { IsSound (length self.now.part.now) self.now }
        requires other { IsSound (length self.now.part.now) other.now }
        ensures { result ≡ nat_cmp (size_in self.now) (size_in other.now) }
    {
        match self.whole.len().cmp(&other.whole.len()) {
            Ordering::Equal => {}
            unequal => return unequal,
        }
        match self.whole.cmp(other.whole) {
            Ordering::Equal => self.part.cmp(other.part),
            unequal => unequal,
        }
    }
}

/// 2^63, the rank of zero.
const HALF: u64 = 0x8000_0000_0000_0000;

/// A text without its sign, if it has one.
fn without_sign(text: &[u8]) -> &[u8]
    ensures { result.now ≡ without_leading_sign text.entry.now }
{
    match text {
        [b'-' | b'+', digits @ ..] => digits,
        _ => text,
    }
}

/// Whether a text begins with a minus sign.
fn has_minus(text: &[u8]) -> bool
    ensures { result ≡ starts_with_minus text.now }
{
    text.starts_with(b"-")
}

/// The bytes before the point of digits with this many places, and those from the point on.
fn split_point(digits: &[u8], places: usize) -> (&[u8], &[u8])
    ensures whole { result.0.now ≡ whole_of places digits.entry.now }
    ensures tail { result.1.now ≡ tail_of places digits.entry.now }
{
    let tail = if places == 0 {
        0
    } else {
        places.saturating_add(1)
    };
    digits.split_at(digits.len().saturating_sub(tail))
}

/// Whether all bytes are digits.
fn are_digits(bytes: &[u8]) -> bool
    ensures { result ≡ list_all is_ascii_digit bytes.now }
{
    bytes.iter().all(|byte| byte.is_ascii_digit())
}

/// Whether the bytes from the point on are a point and digits; without places there need be none.
fn is_tail(tail: &[u8], places: usize) -> bool
    ensures { result ≡ is_tail places tail.now }
{
    if places == 0 {
        return true;
    }
    match tail {
        [b'.', part @ ..] => are_digits(part),
        _ => false,
    }
}

/// Digits without the zeros at their front.
fn without_zeros(digits: &[u8]) -> &[u8]
    ensures front { slice_index result.now 0 ≢ 48 }
    ensures zeros { (zeros : ℕ) × (digits.entry.now ≡ replicate zeros 48 ++ result.now) }
{
    for (at, digit) in digits.iter().enumerate() {
        if *digit != b'0' {
            return &digits[at..];
        }
    }
    &[]
}

/// Bytes without the first of them.
fn without_first(bytes: &[u8]) -> &[u8]
    ensures { result.now ≡ drop 1 bytes.entry.now }
{
    match bytes {
        [] => &[],
        [_, more @ ..] => more,
    }
}

/// Whether digits without zeros at the front, and other digits after them, write zero.
fn are_zero(whole: &[u8], part: &[u8]) -> bool
    requires whole { list_all is_ascii_digit whole.now ≡ true }
    requires part { list_all is_ascii_digit part.now ≡ true }
    requires front { slice_index whole.now 0 ≢ 48 }
    ensures { result ≡ (digits_value 10 (whole.now ++ part.now) == 0) }
{
    whole.is_empty() && without_zeros(part).is_empty()
}

/// The number that some digits write after others that write `size`, or the greatest number of 64 bits if it is greater.
fn push_digits(size: u64, digits: &[u8]) -> u64
    requires { list_all is_ascii_digit digits.now ≡ true }
    ensures { (all : ℕ) → size ≡ min all (2 ^ 64 - 1) → result ≡ min (digits_value_after 10 all digits.now) (2 ^ 64 - 1) }
{
    let mut size = size;
    for digit in digits {
        size = size
            .saturating_mul(10)
            .saturating_add(u64::from(digit.saturating_sub(b'0')));
    }
    size
}
