//! The end of a file of states: its foot, the foot's length, the last bytes.

ghost use Rattle.std.specs.Prelude.{◌≡◌, ◌<◌, ◌≤◌, ◌^◌, ◌++◌, ℕ, List, IfErr, IfOk, IfSome, MatchOption, MatchResult, OnOk, length};
ghost use Rattle.std.specs.Int.{to_le_bytes, w32};
ghost use Rattle.state_body.specs.Body.{end_bytes, last_bytes};
ghost use Rattle.state_body.specs.Faults.{IsNoEnd, IsNoLength};

use crate::body::BodyFault;
use state_file::{push_section, read_bytes, read_section, read_u32};
use std::alloc::AllocError;

/// The most bytes of a foot.
pub const MOST_FOOT: u32 = 1 << 28;

/// The last bytes of a file.
const LAST: [u8; 8] = *b"\nstates\n";

/// How many bytes come after a foot: its length, and the last bytes.
const END_BYTES: usize = 12;

/// Puts a foot, its length and the last bytes at the end of some bytes.
#[tactic(auto, unfolding(crate::specs::Body::end_bytes))]
pub fn push_end(out: &mut Vec<u8>, foot: &[u8]) -> Result<(), AllocError>
    requires { length foot.now ≤ 2 ^ 28 }
    ensures { OnOk result (out.new.items ≡ out.old.items ++ end_bytes foot.now) }
{
    push_section(out, foot)?;
    out.extend_from_slice(&(foot.len() as u32).to_le_bytes())?;
    out.extend_from_slice(&LAST)?;
    Ok(())
}

/// The bytes after the end that some bytes begin with, if it is that of this foot.
pub(crate) fn read_end<'a>(bytes: &'a [u8], foot: &[u8]) -> Result<&'a [u8], BodyFault>
    ensures read { IfOk result (λ rest. (bytes.now ≡ end_bytes foot.now ++ rest.now) × (length foot.now ≤ 2 ^ 28)) }
    ensures written { (rest : List ℕ) → length foot.now ≤ 2 ^ 28 → bytes.now ≡ end_bytes foot.now ++ rest → MatchResult result (λ left. left.now ≡ rest) (λ why. ⊥) }
    ensures refused { IfErr result (IsNoEnd foot.now bytes.now) }
{
    match read_section(bytes, MOST_FOOT) {
        Ok((part, after)) => {
            if part == foot {
                read_length(after, foot.len())
            } else {
                Err(BodyFault::OtherFoot)
            }
        }
        Err(why) => Err(BodyFault::Foot { why }),
    }
}

/// The bytes after this length and the last bytes of a file, if some bytes begin with them.
fn read_length(bytes: &[u8], size: usize) -> Result<&[u8], BodyFault>
    requires { size ≤ 2 ^ 28 }
    ensures read { IfOk result (λ rest. bytes.now ≡ (to_le_bytes w32 size ++ last_bytes) ++ rest.now) }
    ensures written { (rest : List ℕ) → bytes.now ≡ (to_le_bytes w32 size ++ last_bytes) ++ rest → MatchResult result (λ left. left.now ≡ rest) (λ why. ⊥) }
    ensures refused { IfErr result (IsNoLength size bytes.now) }
{
    if bytes.len() < END_BYTES {
        return Err(BodyFault::Cut);
    }
    match read_last(bytes) {
        Some((found, rest)) => {
            if found as usize == size {
                Ok(rest)
            } else {
                Err(BodyFault::End)
            }
        }
        None => Err(BodyFault::End),
    }
}

/// The number of four bytes that comes before the last bytes of a file, if some bytes begin with these, and the bytes after them.
fn read_last(bytes: &[u8]) -> Option<(u32, &[u8])>
    ensures read { IfSome result (λ found. bytes.now ≡ (to_le_bytes w32 found.0 ++ last_bytes) ++ found.1.now) }
    ensures written { (n : ℕ) (rest : List ℕ) → n < 2 ^ 32 → bytes.now ≡ (to_le_bytes w32 n ++ last_bytes) ++ rest → MatchOption result ⊥ (λ found. (found.0 ≡ n) × (found.1.now ≡ rest)) }
{
    let Some((size, after)) = read_u32(bytes) else {
        return None;
    };
    match read_bytes(after, LAST.len()) {
        Some((last, rest)) => {
            if last == LAST.as_slice() {
                Some((size, rest))
            } else {
                None
            }
        }
        None => None,
    }
}
