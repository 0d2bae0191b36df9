//! What the files of all parts of one table say alike: the words of the plan, the header, how many sources there are.

ghost use Rattle.std.specs.Prelude.{◌≡◌, ◌<◌, ◌^◌, ◌++◌, ℕ, List, IfSome, MatchOption, OnOk};
ghost use Rattle.state_file.specs.Number.{number_bytes};
ghost use Rattle.state_head.specs.Head.{IsSubject, Subject, subject_bytes, subject_of};

use crate::words::{PlanWords, push_words, read_words};
use state_file::{push_number, push_text, read_count, read_text};
use std::alloc::AllocError;

/// The most bytes that a header has.
const MOST_HEADER: u64 = 1 << 28;

/// The most sources.
const MOST_SOURCES: u64 = u32::MAX as u64;

/// What the files of all parts of one table say alike: the words of the plan, the text of the header, how many sources there are.
#[derive(Clone, Copy)]
pub struct Whole<'a> {
    pub words: PlanWords<'a>,
    pub header: &'a [u8],
    pub sources: u32,
}

/// Puts what all files say alike at the end of some bytes.
#[tactic(auto, unfolding(crate::specs::Head::subject_bytes))]
pub fn push_whole(out: &mut Vec<u8>, whole: Whole<'_>) -> Result<(), AllocError>
    ensures { OnOk result (out.new.items ≡ out.old.items ++ subject_bytes (subject_of whole.entry)) }
{
    push_words(out, whole.words)?;
    push_text(out, whole.header)?;
    push_number(out, u128::from(whole.sources))
}

/// The words, the header and the number of sources that some bytes begin with, and the bytes after them.
pub fn read_whole(bytes: &[u8]) -> Option<(Whole<'_>, &[u8])>
    ensures read { IfSome result (λ found. (bytes.now ≡ subject_bytes (subject_of found.0) ++ found.1.now) × IsSubject (subject_of found.0)) }
    ensures written { (subject : Subject) (rest : List ℕ) → IsSubject subject → bytes.now ≡ subject_bytes subject ++ rest → MatchOption result ⊥ (λ found. (subject_of found.0 ≡ subject) × (found.1.now ≡ rest)) }
{
    let Some((words, after)) = read_words(bytes) else {
        return None;
    };
    let Some((header, after)) = read_text(after, MOST_HEADER) else {
        return None;
    };
    match read_sources(after) {
        Some((sources, rest)) => {
            let whole = Whole {
                words,
                header,
                sources,
            };
            Some((whole, rest))
        }
        None => None,
    }
}

/// The number of sources, from 1 to 2^32 - 1, that some bytes begin with, and the bytes after it.
fn read_sources(bytes: &[u8]) -> Option<(u32, &[u8])>
    ensures read { IfSome result (λ found. (bytes.now ≡ number_bytes found.0 ++ found.1.now) × (0 < found.0) × (found.0 < 2 ^ 32)) }
    ensures written { (n : ℕ) (rest : List ℕ) → 0 < n → n < 2 ^ 32 → bytes.now ≡ number_bytes n ++ rest → MatchOption result ⊥ (λ found. (found.0 ≡ n) × (found.1.now ≡ rest)) }
{
    match read_count(bytes, MOST_SOURCES) {
        Some((n, rest)) => { if n > 0 { Some((n as u32, rest)) } else { None } }
        None => None,
    }
}
