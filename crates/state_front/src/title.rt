//! The first line of a file of states, which says the version of its format.

ghost use Rattle.std.specs.Prelude.{◌≡◌, ◌++◌, ℕ, List, IfErr, IfOk, IfSome, MatchOption, MatchResult};
ghost use Rattle.state_front.specs.Front.{IsNoTitle, name_bytes, version_bytes};

use state_file::{SectionRead, read_bytes};

/// What the files of each version begin with.
pub(crate) const NAME: [u8; 17] = *b"parstream states ";

/// The rest of the first line.
pub(crate) const VERSION: [u8; 2] = *b"1\n";

/// Why bytes do not begin as a file of states does: memory ran out; the name is not there; another version is; no section of a head
/// is, as `why` says; its bytes are no head.
#[derive(Clone, Copy, Debug, PartialEq, Eq)]
pub enum FrontFault {
    Memory,
    NoStates,
    OtherVersion,
    Section { why: SectionRead },
    NoHead,
}

/// The bytes after the first line.
pub(crate) fn read_title(bytes: &[u8]) -> Result<&[u8], FrontFault>
    ensures read { IfOk result (λ rest. bytes.now ≡ name_bytes ++ (version_bytes ++ rest.now)) }
    ensures written { (rest : List ℕ) → bytes.now ≡ name_bytes ++ (version_bytes ++ rest) → MatchResult result (λ left. left.now ≡ rest) (λ why. ⊥) }
    ensures refused { IfErr result (IsNoTitle bytes.now) }
{
    let Some(after) = skip(bytes, &NAME) else {
        return Err(FrontFault::NoStates);
    };
    match skip(after, &VERSION) {
        Some(rest) => Ok(rest),
        None => Err(FrontFault::OtherVersion),
    }
}

/// The bytes after these, if some bytes begin with them.
fn skip<'a>(bytes: &'a [u8], front: &[u8]) -> Option<&'a [u8]>
    ensures read { IfSome result (λ rest. bytes.now ≡ front.now ++ rest.now) }
    ensures written { (rest : List ℕ) → bytes.now ≡ front.now ++ rest → MatchOption result ⊥ (λ left. left.now ≡ rest) }
{
    match read_bytes(bytes, front.len()) {
        Some((part, rest)) => { if part == front { Some(rest) } else { None } }
        None => None,
    }
}
