//! All the bytes of an input.

ghost use Rattle.std.specs.Prelude.{◌≡◌, ◌≤◌, ◌+◌, ℕ, List, IfOk, IfSome, OnOk, OnErr, vec_len};
ghost use Rattle.std.specs.Io.KnownBytes.{IsAtEnd};
ghost use Rattle.par_io.specs.Faults.{Rose};
ghost use Rattle.par_io.specs.Reads.{ReadsCount};
ghost use Rattle.csv_rows.specs.declared.input.ReadAnswer.TheVariants as answer;

use par_io::{NotWhole, Source, read_whole};
use std::alloc::Global;

/// The most bytes that an input has: 64 MiB.
pub const MOST_BYTES: usize = 67_108_864;

/// Why a source gave no input: a read failed, there were more bytes than [`MOST_BYTES`], or memory
/// ran out.
#[derive(Debug, Drop)]
pub enum ReadAnswer {
    ReadFault,
    TooManyBytes,
    Memory,
}

/// Reads all that the source has left. Each read takes at least a byte, so it returns, after at
/// most one byte more than [`MOST_BYTES`]. On `Err` a part was read and is lost. The time is linear
/// in the bytes, and so is the memory, at most twice the bytes and a piece.
pub fn read_all<S: Source>(alloc: Global, source: &mut S) -> Result<Vec<u8>, ReadAnswer>
    ensures whole { IfOk result (λ v. IfSome (S.left source.old) (λ bytes. v.items ≡ bytes)) }
    ensures end { OnOk result (IsAtEnd (S.left source.new)) }
    ensures within { IfOk result (λ v. vec_len v ≤ MOST_BYTES) }

    // Why it answers an error, and how much it has read then.
    ensures read_fault { result ≡ Err answer.ReadFault → Rose (S.faults source.old) (S.faults source.new) }
    ensures too_many { result ≡ Err answer.TooManyBytes → ReadsCount (S.left source.old) (S.left source.new) (MOST_BYTES + 1) }
    ensures part { OnErr result ((count : ℕ) × ReadsCount (S.left source.old) (S.left source.new) count × (count ≤ MOST_BYTES + 1)) }
    ensures fault_within { result ≡ Err answer.ReadFault → (count : ℕ) × ReadsCount (S.left source.old) (S.left source.new) count × (count ≤ MOST_BYTES) }
    ensures faults { S.faults source.old ≤ S.faults source.new }
{
    match read_whole(alloc, source, MOST_BYTES) {
        Ok(bytes) => Ok(bytes),
        Err(NotWhole::ReadFault) => Err(ReadAnswer::ReadFault),
        Err(NotWhole::TooLong) => Err(ReadAnswer::TooManyBytes),
        Err(NotWhole::Memory) => Err(ReadAnswer::Memory),
    }
}
