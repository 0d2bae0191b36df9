//! The text of a number with places, and averages: rounded half away from zero, with four places more than the numbers.
//!
//! A sum of 128 bits is exact here, since at most 2^50 numbers of 64 bits leave room for the four places and one bit more.

ghost use Rattle.std.specs.Prelude.{◌≡◌, ◌<◌, ◌≤◌, ◌+◌, ◌*◌, ◌%◌, ◌^◌, ◌/◌, ◌++◌, OnOk, drop, length, unsigned_abs};
ghost use Rattle.std.specs.Fmt.{sign_text};
ghost use Rattle.std.specs.Int.{is_negative};
ghost use Rattle.par_model.specs.Decimal as decimal;
ghost use Rattle.result_text.specs.Printable.{MOST_TEXT_PLACES};

use std::alloc::AllocError;

/// Puts a number of units of 10^-`places` at the end of a text.
pub(crate) fn push_number(text: &mut Vec<u8>, n: i128, places: u32) -> Result<(), AllocError>
    requires { places ≤ MOST_TEXT_PLACES }
    ensures { OnOk result (text.new.items ≡ text.old.items ++ decimal.number_text places n) }
{
    let unit = power_of_ten(places);
    let size = n.unsigned_abs();
    push_sign(text, n.is_negative())?;
    text.extend_from_slice(itoa::Buffer::new().format(size / unit).as_bytes())?;
    push_places(text, size, places, unit)
}

/// A minus sign, if there is one.
fn push_sign(text: &mut Vec<u8>, minus: bool) -> Result<(), AllocError>
    ensures { OnOk result (text.new.items ≡ text.old.items ++ sign_text minus) }
{
    if minus {
        text.push(b'-')?;
    }
    Ok(())
}

/// Puts a point and the places of a number at the end of a text, or nothing if there are none. With the unit added they
/// are the digits after the first one, with all their zeros.
fn push_places(text: &mut Vec<u8>, size: u128, places: u32, unit: u128) -> Result<(), AllocError>
    requires few { places ≤ MOST_TEXT_PLACES }
    requires unit { unit ≡ 10 ^ places }
    requires within { unit ≤ 10 ^ MOST_TEXT_PLACES }
    requires some { 0 < unit }
    ensures { OnOk result (text.new.items ≡ text.old.items ++ decimal.places_text places size) }
{
    if places == 0 {
        return Ok(());
    }
    let mut digits = itoa::Buffer::new();
    text.push(b'.')?;
    text.extend_from_slice(after_first(digits.format(unit + size % unit)))?;
    Ok(())
}

/// The bytes of a text after the first one.
fn after_first(text: &str) -> &[u8]
    requires { 1 ≤ length text.now }
    ensures { result.now ≡ drop 1 text.now }
{
    &text.as_bytes()[1..]
}

/// A power of ten.
fn power_of_ten(exponent: u32) -> u128
    requires { exponent ≤ MOST_TEXT_PLACES }
    ensures power { result ≡ 10 ^ exponent }
    ensures within { result ≤ 10 ^ MOST_TEXT_PLACES }
    ensures some { 0 < result }
{
    let mut power = 1;
    for _step in 0..exponent {
        power *= 10;
    }
    power
}

/// The average of `count` numbers that have this sum, in ten-thousandths of their unit.
pub(crate) fn average(sum: i128, count: u64) -> i128
    requires some { 0 < count }
    requires few { count ≤ 2 ^ 50 }
    requires near { unsigned_abs sum ≤ 2 ^ 63 * count }
    ensures { result ≡ decimal.average sum count }
{
    let size = rounded(sum.unsigned_abs(), count) as i128;
    if sum.is_negative() { -size } else { size }
}

/// The quotient in ten-thousandths, rounded half up.
fn rounded(size: u128, count: u64) -> u128
    requires some { 0 < count }
    requires few { count ≤ 2 ^ 50 }
    requires near { size ≤ 2 ^ 63 * count }
    ensures value { result ≡ decimal.rounded (10000 * size) count }
    ensures within { result < 2 ^ 80 }
{
    let count = u128::from(count);
    (2 * (10_000 * size) + count) / (2 * count)
}
