//! What a file of states is of: the words of a plan, and a range of keys. No option takes an empty word and no key of a column
//! is empty, so an empty text is one that was not given.

ghost use Rattle.std.specs.Prelude.{◌≡◌, ◌≤◌, ◌++◌, ℕ, List, IfSome, MatchOption, OnOk, length};
ghost use Rattle.state_head.specs.Words.{AreKeys, AreWords, Keys, Words, keys_bytes, keys_of, pair_bytes, words_bytes, words_of};

use state_file::{push_text, read_text};
use std::alloc::AllocError;

/// The most bytes that the word of an option has.
const MOST_WORD: u64 = 1 << 20;

/// The most bytes that a key has.
const MOST_KEY: u64 = 248;

/// The words of `--group`, `--agg`, `--where` and `--decimals`, each empty if no such option was given.
#[derive(Clone, Copy)]
pub struct PlanWords<'a> {
    pub group: &'a [u8],
    pub agg: &'a [u8],
    /// Those of `--where`, which may come several times: each as a text, one after another.
    pub filter: &'a [u8],
    pub decimals: &'a [u8],
}

/// The encoded key from which on, and that below which, there are groups, each empty if there is no such bound.
#[derive(Clone, Copy)]
pub struct KeyRange<'a> {
    pub low: &'a [u8],
    pub high: &'a [u8],
}

/// Puts the words of a plan at the end of some bytes.
pub fn push_words(out: &mut Vec<u8>, words: PlanWords<'_>) -> Result<(), AllocError>
    ensures { OnOk result (out.new.items ≡ out.old.items ++ words_bytes (words_of words.entry)) }
{
    push_pair(out, words.group, words.agg)?;
    push_pair(out, words.filter, words.decimals)
}

/// The words of a plan, of at most 2^20 bytes each, that some bytes begin with, and the bytes after them.
pub fn read_words(bytes: &[u8]) -> Option<(PlanWords<'_>, &[u8])>
    ensures read { IfSome result (λ found. (bytes.now ≡ words_bytes (words_of found.0) ++ found.1.now) × AreWords (words_of found.0)) }
    ensures written { (words : Words) (rest : List ℕ) → AreWords words → bytes.now ≡ words_bytes words ++ rest → MatchOption result ⊥ (λ found. (words_of found.0 ≡ words) × (found.1.now ≡ rest)) }
{
    let Some((group, agg, after)) = read_pair(bytes, MOST_WORD) else {
        return None;
    };
    match read_pair(after, MOST_WORD) {
        Some((filter, decimals, rest)) => {
            let words = PlanWords {
                group,
                agg,
                filter,
                decimals,
            };
            Some((words, rest))
        }
        None => None,
    }
}

/// Puts a range of keys at the end of some bytes.
pub fn push_range(out: &mut Vec<u8>, range: KeyRange<'_>) -> Result<(), AllocError>
    ensures { OnOk result (out.new.items ≡ out.old.items ++ keys_bytes (keys_of range.entry)) }
{
    push_pair(out, range.low, range.high)
}

/// The range of keys, of at most 248 bytes each, that some bytes begin with, and the bytes after it.
pub fn read_range(bytes: &[u8]) -> Option<(KeyRange<'_>, &[u8])>
    ensures read { IfSome result (λ found. (bytes.now ≡ keys_bytes (keys_of found.0) ++ found.1.now) × AreKeys (keys_of found.0)) }
    ensures written { (keys : Keys) (rest : List ℕ) → AreKeys keys → bytes.now ≡ keys_bytes keys ++ rest → MatchOption result ⊥ (λ found. (keys_of found.0 ≡ keys) × (found.1.now ≡ rest)) }
{
    match read_pair(bytes, MOST_KEY) {
        Some((low, high, rest)) => Some((KeyRange { low, high }, rest)),
        None => None,
    }
}

/// Puts two texts at the end of some bytes.
#[tactic(auto, unfolding(crate::specs::Words::pair_bytes))]
fn push_pair(out: &mut Vec<u8>, a: &[u8], b: &[u8]) -> Result<(), AllocError>
    ensures { OnOk result (out.new.items ≡ out.old.items ++ pair_bytes a.now b.now) }
{
    push_text(out, a)?;
    push_text(out, b)
}

/// The two texts, of at most this many bytes each, that some bytes begin with, and the bytes after them.
fn read_pair(bytes: &[u8], most: u64) -> Option<(&[u8], &[u8], &[u8])>
    ensures read { IfSome result (λ found. (bytes.now ≡ pair_bytes found.0.now found.1.now ++ found.2.now) × (length found.0.now ≤ most) × (length found.1.now ≤ most)) }
    ensures written { (a b rest : List ℕ) → length a ≤ most → length b ≤ most → bytes.now ≡ pair_bytes a b ++ rest
        → MatchOption result ⊥ (λ found. (found.0.now ≡ a) × (found.1.now ≡ b) × (found.2.now ≡ rest)) }
{
    let Some((a, after)) = read_text(bytes, most) else {
        return None;
    };
    match read_text(after, most) {
        Some((b, rest)) => Some((a, b, rest)),
        None => None,
    }
}
