//! Numbers in as few bytes as they need: seven bits a byte, the lowest first, and the highest bit of a byte says that
//! another one comes.
//!
//! Only the shortest form of a number is one, so that equal numbers are equal bytes. Signed numbers go as 0, -1, 1, -2, 2.

ghost use Rattle.std.specs.Prelude.{◌≡◌, ◌<◌, ◌+◌, ◌-◌, ◌*◌, ◌^◌, ◌++◌, ℕ, ℤ, List, FitsSigned, IfSome, MatchOption, OnOk, ◌≤◌};
ghost use Rattle.std.specs.Int.{w128};
ghost use Rattle.state_file.specs.Number.{GoesOnAs, folded, number_bytes, sevens};

use std::alloc::AllocError;

/// How many bytes of a number can have another one after them.
const MOST_MORE: u32 = 18;

/// How many bytes of a number of at most nine bytes can, without the first one.
const SHORT_MORE: u32 = 7;

/// Puts a number at the end of some bytes: at most 19 bytes.
pub fn push_number(out: &mut Vec<u8>, n: u128) -> Result<(), AllocError>
    ensures { OnOk result (out.new.items ≡ out.old.items ++ number_bytes n) }
{
    push_sevens(out, n, MOST_MORE)
}

/// The same for a signed number.
pub fn push_signed(out: &mut Vec<u8>, n: i128) -> Result<(), AllocError>
    ensures { OnOk result (out.new.items ≡ out.old.items ++ number_bytes (folded n)) }
{
    push_number(out, folded(n))
}

/// The number that some bytes begin with, and the bytes after it. Bytes that begin with no number, one of more than 128
/// bits, or one in a longer form than it needs give none.
pub fn read_number(bytes: &[u8]) -> Option<(u128, &[u8])>
    ensures read { IfSome result (λ found. bytes.now ≡ number_bytes found.0 ++ found.1.now) }
    ensures written { (n : ℕ) (rest : List ℕ) → n < 2 ^ 128 → bytes.now ≡ number_bytes n ++ rest → MatchOption result ⊥ (λ found. (found.0 ≡ n) × (found.1.now ≡ rest)) }
{
    match read_short(bytes) {
        Some((n, rest)) => Some((u128::from(n), rest)),
        None => read_sevens(bytes, MOST_MORE),
    }
}

/// The same for a signed number.
pub fn read_signed(bytes: &[u8]) -> Option<(i128, &[u8])>
    ensures read { IfSome result (λ found. bytes.now ≡ number_bytes (folded found.0) ++ found.1.now) }
    ensures written { (n : ℤ) (rest : List ℕ) → FitsSigned w128 n → bytes.now ≡ number_bytes (folded n) ++ rest → MatchOption result ⊥ (λ found. (found.0 ≡ n) × (found.1.now ≡ rest)) }
{
    match read_number(bytes) {
        Some((n, rest)) => Some((unfolded(n), rest)),
        None => None,
    }
}

/// Puts a number of at most `more + 1` bytes at the end.
fn push_sevens(out: &mut Vec<u8>, n: u128, more: u32) -> Result<(), AllocError>
    requires { n < 128 ^ (more + 1) }
    ensures { OnOk result (out.new.items ≡ out.old.items ++ sevens more n) }
{
    if n < 128 {
        out.push(n as u8)?;
        Ok(())
    } else {
        out.push(128 + (n % 128) as u8)?;
        push_sevens(out, n / 128, more - 1)
    }
}

/// The number that some bytes begin with, and the bytes after it, if it has at most nine bytes. None tells nothing.
fn read_short(bytes: &[u8]) -> Option<(u64, &[u8])>
    ensures { IfSome result (λ found. bytes.now ≡ number_bytes found.0 ++ found.1.now) }
{
    let Some((first, rest)) = bytes.split_first() else {
        return None;
    };
    let first = *first;
    if first < 128 {
        return Some((u64::from(first), rest));
    }
    read_on(rest, seven_bits(first), 128, SHORT_MORE)
}

/// The seven bits of a byte after which another one comes.
fn seven_bits(byte: u8) -> u64
    requires { 128 ≤ byte }
    ensures is { result ≡ byte - 128 }
    ensures few { result < 128 }
{
    u64::from(byte - 128)
}

/// The number that has these bits below `worth`, and above them the number of at most `more + 1` bytes that some bytes begin
/// with, and the bytes after it. None tells nothing.
fn read_on(bytes: &[u8], low: u64, worth: u64, more: u32) -> Option<(u64, &[u8])>
    requires low { low < worth }
    requires short { worth * 128 ^ (more + 1) ≤ 2 ^ 63 }
    ensures { IfSome result (λ found. GoesOnAs bytes.now low worth more found.0 found.1.now) }
{
    let Some((first, rest)) = bytes.split_first() else {
        return None;
    };
    let first = *first;
    if first == 0 {
        return None;
    }
    if first < 128 {
        return Some((low + u64::from(first) * worth, rest));
    }
    if more == 0 {
        return None;
    }
    read_on(rest, low + seven_bits(first) * worth, worth * 128, more - 1)
}

/// The number of at most `more + 1` bytes that some bytes begin with, and the bytes after it.
fn read_sevens(bytes: &[u8], more: u32) -> Option<(u128, &[u8])>
    ensures read { IfSome result (λ found. bytes.now ≡ sevens more found.0 ++ found.1.now) }
    ensures written { (n : ℕ) (rest : List ℕ) → n < 2 ^ 128 → n < 128 ^ (more + 1) → bytes.now ≡ sevens more n ++ rest → MatchOption result ⊥ (λ found. (found.0 ≡ n) × (found.1.now ≡ rest)) }
{
    let Some((first, rest)) = bytes.split_first() else {
        return None;
    };
    let first = *first;
    if first < 128 {
        return Some((u128::from(first), rest));
    }
    if more == 0 {
        return None;
    }
    match read_sevens(rest, more - 1) {
        Some((high, rest)) => match with_low(high, first - 128) {
            Some(n) => Some((n, rest)),
            None => None,
        },
        None => None,
    }
}

/// A number that has these bits above its lowest seven, unless they are none or too many.
fn with_low(high: u128, low: u8) -> Option<u128>
    requires { low < 128 }
    ensures is { IfSome result (λ n. (n ≡ high * 128 + low) × (0 < high) × (low < 128)) }
    ensures none { 0 < high → high * 128 + low < 2 ^ 128 → result ≡ Some (high * 128 + low) }
{
    if high == 0 || high >= 1 << 121 {
        None
    } else {
        Some(high * 128 + u128::from(low))
    }
}

/// A signed number as one without a sign.
fn folded(n: i128) -> u128
    ensures { result ≡ folded n }
{
    if n < 0 {
        2 * (-(n + 1)).cast_unsigned() + 1
    } else {
        2 * n.cast_unsigned()
    }
}

/// The signed number that is folded to this one.
fn unfolded(n: u128) -> i128
    ensures { folded result ≡ n }
{
    let half = (n / 2).cast_signed();
    if n % 2 == 0 { half } else { -half - 1 }
}
