//! A block: some groups, one after another.
//!
//! Nothing that is read is taken on trust: each group has to be one that rows can give. A block is looked at as a whole before
//! any group of it counts, and its groups are read again, one by one, by `state_groups::read_group`.

ghost use Rattle.std.specs.Prelude.{◌≡◌, ◌<◌, ◌≤◌, ◌+◌, ◌^◌, ◌++◌, ℕ, List, All, IfErr, IfOk, IfSome, MatchOption, MatchResult, length};
ghost use Rattle.state_blocks.specs.Blocks.{Group, IsTuple, StopsAfter, block_bytes, tuple_bytes};
ghost use Rattle.state_file.specs.Section.{section};

use par_model::{AggState, NO_VALUES};
use state_file::{read_bytes, read_u32};
use state_groups::read_group;

/// How many bytes a section's checksum has.
const SUM_BYTES: usize = 4;

/// How many groups these bytes are, each with a key of this many columns and a slot for each kind, or how many they begin with if
/// they go on with no group.
pub fn read_block(bytes: &[u8], columns: u32, kinds: &[bool]) -> Result<u64, u64>
    requires { length kinds.now ≤ 8 }
    ensures read { IfOk result (λ n. (block : List Group) × (bytes.now ≡ block_bytes kinds.now block) × All (IsTuple columns kinds.now) block × (length block ≡ n)) }
    ensures written { (block : List Group) → All (IsTuple columns kinds.now) block → bytes.now ≡ block_bytes kinds.now block → MatchResult result (λ n. n ≡ length block) (λ n. ⊥) }
    ensures few { MatchResult result (λ n. n ≤ length bytes.now) (λ n. n < length bytes.now) }

    // When an error comes.
    ensures stops { IfErr result (StopsAfter columns kinds.now bytes.now) }
{
    let mut state = AggState {
        rows: 0,
        slots: [NO_VALUES; 8],
    };
    let mut rest = bytes;
    for at in 0..bytes.len() {
        if rest.is_empty() {
            return Ok(at as u64);
        }
        let Some((_key, after)) = read_group(rest, columns, kinds, &mut state) else {
            return Err(at as u64);
        };
        rest = after;
    }
    Ok(bytes.len() as u64)
}

/// The key of the group that some bytes begin with.
pub fn read_first<'a>(bytes: &'a [u8], columns: u32, kinds: &[bool]) -> Option<&'a [u8]>
    requires { length kinds.now ≤ 8 }
    ensures read { IfSome result (λ key. (g : Group) × (rest : List ℕ) × IsTuple columns kinds.now g × (bytes.now ≡ tuple_bytes kinds.now g ++ rest) × (key.now ≡ g.key)) }
    ensures written { (g : Group) (rest : List ℕ) → IsTuple columns kinds.now g → bytes.now ≡ tuple_bytes kinds.now g ++ rest → MatchOption result ⊥ (λ key. key.now ≡ g.key) }
{
    let mut state = AggState {
        rows: 0,
        slots: [NO_VALUES; 8],
    };
    match read_group(bytes, columns, kinds, &mut state) {
        Some((key, _rest)) => Some(key),
        None => None,
    }
}

/// The bytes of the section that some bytes begin with, and the bytes after it, if a section is there that was read before: its
/// checksum is not looked at again.
pub fn split_block(bytes: &[u8]) -> Option<(&[u8], &[u8])>
    ensures written { (part rest : List ℕ) → length part < 2 ^ 32 → bytes.now ≡ section part ++ rest → MatchOption result ⊥ (λ found. (found.0.now ≡ part) × (found.1.now ≡ rest)) }
    ensures long { IfSome result (λ found. length found.0.now + length found.1.now + 8 ≡ length bytes.now) }
{
    let Some((size, after)) = read_u32(bytes) else {
        return None;
    };
    let Some((part, after)) = read_bytes(after, size as usize) else {
        return None;
    };
    match read_bytes(after, SUM_BYTES) {
        Some((_sum, rest)) => Some((part, rest)),
        None => None,
    }
}
