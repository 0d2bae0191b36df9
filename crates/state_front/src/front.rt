//! What a file begins with: the first line, and the head.
//!
//! The head is looked at only after its length and its checksum are found right.

ghost use Rattle.std.specs.Prelude.{◌≡◌, ◌<◌, ◌≤◌, ◌^◌, ◌++◌, ℕ, Err, IfErr, IfOk, List, MatchResult, OnOk, length};
ghost use Rattle.state_front.specs.Front.{IsFront, IsNoFront, IsNoPart, front_bytes};
ghost use Rattle.state_front.specs.declared.front.FrontWrite.TheVariants as variant;
ghost use Rattle.state_front.specs.declared.title.FrontFault.TheVariants as fault;
ghost use Rattle.state_head.specs.Head.{IsHead, Preface, head_bytes, preface_of};

pub use crate::title::FrontFault;
use crate::title::{NAME, VERSION, read_title};
use state_file::{push_section, read_section};
use state_head::{Head, push_head, read_head};
use std::alloc::{AllocError, Global};

/// The most bytes of a head.
const MOST_HEAD: u32 = 1 << 28;

/// Why the front of a file is not written: memory ran out, or the head would have more than 2^28 bytes.
#[derive(Clone, Copy, Debug, PartialEq, Eq)]
pub enum FrontWrite {
    Memory,
    Long,
}

impl From<AllocError> for FrontWrite {
    ghost from_gives = { λ _ e. e ≡ variant.Memory };

    fn from(_error: AllocError) -> FrontWrite {
        FrontWrite::Memory
    }
}

/// What a file begins with, how many bytes that are, and the bytes after it.
#[derive(Drop)]
pub struct FrontRead<'a> {
    pub head: Head<'a>,
    pub at: u64,
    pub rest: &'a [u8],
}

/// Puts the first line and a head at the end of some bytes. It takes memory for the head.
pub fn push_front(alloc: Global, out: &mut Vec<u8>, head: &Head<'_>) -> Result<(), FrontWrite>
    ensures front { OnOk result (out.new.items ≡ out.old.items ++ front_bytes (preface_of head.now)) }
    ensures short { OnOk result (length (head_bytes (preface_of head.now)) ≤ 2 ^ 28) }

    // When the error comes that is not of memory. Nothing is written then.
    ensures long { result ≡ Err variant.Long → 2 ^ 28 < length (head_bytes (preface_of head.now)) }
    ensures same { result ≡ Err variant.Long → out.new.items ≡ out.old.items }
{
    let mut part = Vec::new(alloc);
    push_head(&mut part, head)?;
    if part.len() > MOST_HEAD as usize {
        return Err(FrontWrite::Long);
    }
    out.extend_from_slice(&NAME)?;
    out.extend_from_slice(&VERSION)?;
    push_section(out, part.as_slice())?;
    Ok(())
}

/// The head that a file begins with. It takes memory for the cover, and lends the rest.
pub fn read_front<'a>(alloc: Global, bytes: &'a [u8]) -> Result<FrontRead<'a>, FrontFault>
    ensures read { IfOk result (λ found. (bytes.now ≡ front_bytes (preface_of found.head) ++ found.rest.now) × IsFront (preface_of found.head) × (found.at ≡ length (front_bytes (preface_of found.head)))) }
    ensures written { (p : Preface) (rest : List ℕ) → IsFront p → bytes.now ≡ front_bytes p ++ rest → MatchResult result (λ found. (preface_of found.head ≡ p) × (found.rest.now ≡ rest)) (λ why. why ≡ fault.Memory) }

    // When each error comes.
    ensures refused { IfErr result (IsNoFront bytes.now) }
{
    let after = read_title(bytes)?;
    match read_section(after, MOST_HEAD) {
        Ok((part, rest)) => {
            let head = read_part(alloc, part)?;
            let at = (bytes.len() - rest.len()) as u64;
            Ok(FrontRead { head, at, rest })
        }
        Err(why) => Err(FrontFault::Section { why }),
    }
}

/// The head that these bytes are.
fn read_part<'a>(alloc: Global, part: &'a [u8]) -> Result<Head<'a>, FrontFault>
    ensures read { IfOk result (λ head. (part.now ≡ head_bytes (preface_of head)) × IsHead (preface_of head)) }
    ensures written { (p : Preface) → IsHead p → part.now ≡ head_bytes p → MatchResult result (λ head. preface_of head ≡ p) (λ why. why ≡ fault.Memory) }
    ensures refused { IfErr result (IsNoPart part.now) }
{
    match read_head(alloc, part) {
        Ok(Some(head)) => Ok(head),
        Ok(None) => Err(FrontFault::NoHead),
        Err(_) => Err(FrontFault::Memory),
    }
}
