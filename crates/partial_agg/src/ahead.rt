//! What is known of a block's rows ahead of them: the hashes of their keys, and where the groups of these may lie.
//!
//! In a large map a row waits for far memory several times, one after the other: for the slot of its key, for the key
//! itself, and for the state. A look-ahead goes over the block once for each of these, and no read of one pass over the
//! block waits for another, so the waits of many rows go by at once. It only guesses where a group lies, and each guess
//! is tested when it is used, so no contract speaks of guesses. A hash is that of the row's key (`AreHashed`), and is
//! not made again.

ghost use Rattle.std.specs.Prelude.{◌≡◌, ◌+◌, ◌^◌, ◌<◌, ◌≤◌, ℕ, List, IfSome, length};
ghost use Rattle.csv_rows.specs.Records.{record_at};
ghost use Rattle.key_index.specs.Index.{hash as key_hash};
ghost use Rattle.par_model.specs.Columns.{HasColumns};
ghost use Rattle.par_model.specs.Plan.{Plan};
ghost use Rattle.partial_agg.specs.Status.{AreHashed, IsHashOf, IsKeptBy};

use crate::row::{RowBuffer, RowStatus};
use crate::states::StateList;
use csv_rows::{NearRows, Record};
use key_index::{KeyTable, hash_of};
use par_model::BoundPlan;

/// The fewest keys for which it pays: a table of fewer is near.
const FEWEST_KEYS: usize = 8192;

/// The most rows that it looks for.
const MOST_ROWS: usize = 256;

/// The place at which no key is expected.
pub(crate) const NO_GUESS: usize = usize::MAX;

/// The hash of a row's key, and the place at which the key may be expected.
#[derive(Clone, Copy)]
pub(crate) struct Clue {
    pub(crate) hash: u64,
    pub(crate) guess: usize,
}

/// The clue to each row of a block.
#[derive(Drop)]
pub(crate) struct Clues {
    hashes: [u64; MOST_ROWS],
    guesses: [usize; MOST_ROWS],
}

/// Whether there are so many keys that a look-up waits for far memory.
pub(crate) fn are_far(keys: &KeyTable) -> bool {
    keys.len() >= FEWEST_KEYS
}

/// Looks for the keys of this many rows, if they are looked for ahead.
#[inline(never)]
pub(crate) fn look_ahead(
    keys: &KeyTable,
    states: &StateList,
    rows: &NearRows<'_>,
    first: u64,
    count: u64,
    width: u32,
    plan: &BoundPlan,
) -> Option<Clues>
    requires rows { first + count ≤ length rows.now }
    requires fits { first + count < 2 ^ 64 }
    requires few { count ≤ 256 }
    requires columns { HasColumns plan.now width }
    ensures { IfSome result (λ clues. AreHashed plan.now width rows.now first count clues.hashes) }
{
    if !are_far(keys) {
        return None;
    }
    let mut lasts = [0; MOST_ROWS];
    let hashes = hashes_of(rows, first, count, width, plan, &mut lasts);
    let mut guesses = [NO_GUESS; MOST_ROWS];
    keys.guess(&hashes, &lasts, &mut guesses);
    for guess in &mut guesses {
        if states.is_blank(*guess) {
            *guess = NO_GUESS;
        }
    }
    Some(Clues { hashes, guesses })
}

/// The clue to a row of the block, if they were looked for.
pub(crate) fn clue_at(clues: &Option<Clues>, at: u64) -> Option<Clue>
    requires { at < 256 }

    // The hash is that of the row's key, whatever the rows are.
    ensures { (plan : Plan) (width : ℕ) (rows : List (List (List ℕ))) (first count : ℕ) → at < count → IfSome clues.now (λ clues. AreHashed plan width rows first count clues.hashes)
        → IfSome result (λ clue. IsHashOf plan width (record_at rows (first + at)) clue.hash) }
{
    match clues {
        None => None,
        Some(clues) => Some(Clue {
            hash: clues.hashes[at as usize],
            guess: clues.guesses[at as usize],
        }),
    }
}

/// The clue to a key of which none was looked for.
pub(crate) fn clue_or_hash(clue: Option<Clue>, key: &[u8]) -> Clue
    requires { IfSome clue (λ clue. clue.hash ≡ key_hash key.now) }
    ensures { result.hash ≡ key_hash key.now }
{
    match clue {
        Some(clue) => clue,
        None => Clue {
            hash: hash_of(key),
            guess: NO_GUESS,
        },
    }
}

/// The hashes of the keys of this many rows, and the last byte of each key, zeros for a row that has no key.
fn hashes_of(
    rows: &NearRows<'_>,
    first: u64,
    count: u64,
    width: u32,
    plan: &BoundPlan,
    lasts: &mut [u8; MOST_ROWS],
) -> [u64; MOST_ROWS]
    requires rows { first + count ≤ length rows.now }
    requires fits { first + count < 2 ^ 64 }
    requires few { count ≤ 256 }
    requires columns { HasColumns plan.now width }
    ensures { AreHashed plan.now width rows.now first count result }
{
    let mut hashes = [0; MOST_ROWS];
    let mut buffer = RowBuffer::new();
    for at in 0..count {
        let (hash, last) = hash_row(&mut buffer, &rows.find(first + at), width, plan);
        hashes[at as usize] = hash;
        lasts[at as usize] = last;
    }
    hashes
}

/// The hash of a row's key and the key's last byte, zeros for a row that has no key.
fn hash_row(buffer: &mut RowBuffer, row: &Record<'_>, width: u32, plan: &BoundPlan) -> (u64, u8)
    requires { HasColumns plan.now width }
    ensures { IsHashOf plan.now width row.now result.0 }
{
    match buffer.read_key(row, width, plan) {
        RowStatus::Refused(_) => (0, 0),
        RowStatus::LeftOut => (0, 0),
        RowStatus::Kept => {
            let key = buffer.key.bytes();
            (hash_of(key), *key.last().unwrap_or(&0))
        }
    }
}
