//! All the bytes of a source, read into the growing buffer itself.
//!
//! A read goes to the room after the bytes read so far, which is made a piece at a time; so a byte is copied only if
//! the buffer moves to grow, and at most one byte is read past the limit.

ghost use Rattle.std.specs.Prelude.{◌≡◌, ◌<◌, ◌≤◌, ◌+◌, ◌^◌, ℕ, List, IfOk, IfErr, IfSome, OnOk, OnErr, take, drop, length, vec_len};
ghost use Rattle.std.specs.Io.KnownBytes.{Consumes, IsAtEnd, Keeps};
ghost use Rattle.par_io.specs.Faults.{HasCause, Rose};
ghost use Rattle.par_io.specs.Reads.{ReadsCount};
ghost use Rattle.par_io.specs.declared.whole.NotWhole.TheVariants as why;

use crate::Source;
use std::alloc::{AllocError, Global};

/// How much room is made for a read.
const PIECE: usize = 131_072;

/// Why a source was not read whole: a read failed, it had more bytes than the most that were asked for, or memory ran
/// out.
#[derive(Debug, Drop)]
pub enum NotWhole {
    ReadFault,
    TooLong,
    Memory,
}

/// Reads all that the source has left, if that is at most this many bytes. Each read takes at least a byte, so it
/// returns, after at most one byte more than that. On `Err` a part was read and is lost. The time is linear in the
/// bytes, and so is the memory, at most twice the bytes and a piece of 128 KiB.
pub fn read_whole<S: Source>(
    alloc: Global,
    source: &mut S,
    most: usize,
) -> Result<Vec<u8>, NotWhole>
    requires most { most < 2 ^ 63 }
    ensures whole { IfOk result (λ v. IfSome (S.left source.old) (λ bytes. v.items ≡ bytes)) }
    ensures end { OnOk result (IsAtEnd (S.left source.new)) }
    ensures within { IfOk result (λ v. vec_len v ≤ most) }

    // Why it answers an error, and how much it has read then.
    ensures read_fault { result ≡ Err why.ReadFault → Rose (S.faults source.old) (S.faults source.new) }
    ensures too_long { result ≡ Err why.TooLong → ReadsCount (S.left source.old) (S.left source.new) (most + 1) }
    ensures part { OnErr result ((count : ℕ) × ReadsCount (S.left source.old) (S.left source.new) count × (count ≤ most + 1)) }
    ensures fault_within { result ≡ Err why.ReadFault → (count : ℕ) × ReadsCount (S.left source.old) (S.left source.new) count × (count ≤ most) }
    ensures faults { S.faults source.old ≤ S.faults source.new }
{
    let mut bytes = Vec::new(alloc);
    let mut filled = 0;
    'reads: while filled <= most {
        let count = read_more(source, &mut bytes, filled, most)?;
        if count == 0 {
            bytes.truncate(filled);
            return Ok(bytes);
        }
        filled += count;
    }
    Err(NotWhole::TooLong)
}

/// One read into the room after the bytes that are filled, and how many it gave. The room is made first, so that no
/// byte is lost if memory runs out.
fn read_more<S: Source>(
    source: &mut S,
    bytes: &mut Vec<u8>,
    filled: usize,
    most: usize,
) -> Result<usize, NotWhole>
    requires most { most < 2 ^ 63 }
    requires filled { filled ≤ vec_len bytes.old }
    requires bytes { vec_len bytes.old ≤ most + 1 }
    requires room { filled ≤ most }
    ensures front { take filled bytes.new.items ≡ take filled bytes.old.items }
    ensures most { vec_len bytes.new ≤ most + 1 }
    ensures fits { IfOk result (λ n. filled + n ≤ vec_len bytes.new) }
    ensures read { IfOk result (λ n. Consumes (S.left source.old) (S.left source.new) (take n (drop filled bytes.new.items))) }
    ensures end { IfOk result (λ n. n ≡ 0 → IsAtEnd (S.left source.new)) }
    ensures kept { OnErr result (Keeps (S.left source.old) (S.left source.new)) }
    ensures faults { S.faults source.old ≤ S.faults source.new }
    ensures read_fault { result ≡ Err why.ReadFault → Rose (S.faults source.old) (S.faults source.new) }
    ensures within { IfErr result (λ e. (e ≡ why.TooLong) → ⊥) }
{
    if make_room(bytes, filled, most).is_err() {
        return Err(NotWhole::Memory);
    }
    read_at(source, bytes.as_mut_slice(), filled)
}

/// Makes the buffer longer than the bytes that are filled, by zeros.
fn make_room(bytes: &mut Vec<u8>, filled: usize, most: usize) -> Result<(), AllocError>
    requires most { most < 2 ^ 63 }
    requires filled { filled ≤ vec_len bytes.old }
    requires bytes { vec_len bytes.old ≤ most + 1 }
    requires room { filled ≤ most }
    ensures front { take filled bytes.new.items ≡ take filled bytes.old.items }
    ensures most { vec_len bytes.new ≤ most + 1 }
    ensures room { OnOk result (filled < vec_len bytes.new) }
    ensures filled { filled ≤ vec_len bytes.new }
{
    if filled < bytes.len() {
        return Ok(());
    }
    bytes.resize((filled + PIECE).min(most + 1), 0)
}

/// One read into a buffer from this place on.
fn read_at<S: Source>(source: &mut S, buf: &mut [u8], at: usize) -> Result<usize, NotWhole>
    requires { at < length buf.old }
    ensures front { take at buf.new ≡ take at buf.old }
    ensures fits { IfOk result (λ n. at + n ≤ length buf.new) }
    ensures read { IfOk result (λ n. Consumes (S.left source.old) (S.left source.new) (take n (drop at buf.new))) }
    ensures end { IfOk result (λ n. n ≡ 0 → IsAtEnd (S.left source.new)) }
    ensures kept { OnErr result (Keeps (S.left source.old) (S.left source.new)) }
    ensures cause { HasCause (S.faults source.old) (S.faults source.new) result }
    ensures why { IfErr result (λ e. e ≡ why.ReadFault) }
{
    source.read(&mut buf[at..]).map_err(|_| NotWhole::ReadFault)
}
