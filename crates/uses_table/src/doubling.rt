//! A partition of numbers that grows: its sizes and how many keys it holds at each, and a thousand keys through its
//! moves.

mod growing;
mod number;
mod store;

use dshash_core::{hash_key, partition_of_hash};
use growing::Growing;
use number::NumberCall;
use std::alloc::{AllocError, Global};
use std::test::Fail;

/// The first keys of one word that belong to the partition of that number.
fn keys_of(alloc: Global, partition: u32, count: usize) -> Result<Vec<u64>, AllocError> {
    let mut keys = Vec::new(alloc);
    for key in 0..200_000u64 {
        if keys.len() < count && partition_of_hash(hash_key(&[key])) == partition {
            keys.push(key)?;
        }
    }
    Ok(keys)
}

/// What is done with each key.
#[derive(Clone, Copy)]
enum Turn {
    Put,
    PutAgain,
    Take,
}

/// Whether a key's calls of a turn are answered as they have to be.
fn is_answered(numbers: &mut Growing, key: u64, turn: Turn) -> bool {
    match turn {
        Turn::Put => numbers.call(key, NumberCall::Put(key)) == Some(None),
        Turn::PutAgain => numbers.call(key, NumberCall::Put(!key)) == Some(Some(key)),
        Turn::Take => {
            numbers.call(key, NumberCall::Get) == Some(Some(!key))
                && numbers.call(key, NumberCall::Delete) == Some(Some(!key))
                && numbers.call(key, NumberCall::Get) == Some(None)
        }
    }
}

/// Whether the calls of a turn are answered as they have to be, for each of these keys.
fn are_answered(numbers: &mut Growing, keys: &[u64], turn: Turn) -> bool {
    for key in keys {
        if !is_answered(numbers, *key, turn) {
            return false;
        }
    }
    true
}

/// The sizes that a partition leaves, each with the number of keys that it has then.
const MOVES: [(u32, u64); 11] = [
    (7, 1),
    (8, 2),
    (9, 4),
    (10, 7),
    (11, 13),
    (12, 25),
    (13, 49),
    (14, 97),
    (15, 193),
    (16, 385),
    (17, 769),
];

/// Whether a thousand keys that are there are put again, listed, read and deleted.
fn goes_round(numbers: &mut Growing, alloc: Global, keys: &[u64]) -> Result<bool, AllocError> {
    let is_put = are_answered(numbers, keys, Turn::PutAgain);
    let listed = numbers.list(alloc)?.len();
    Ok(is_put && listed == 1000 && are_answered(numbers, keys, Turn::Take))
}

/// It grows when it has three quarters as many keys as buckets and one more.
#[test]
fn a_partition_grows_and_is_emptied(rt: HostRuntime) -> Result<(), Fail> {
    let keys = keys_of(rt.alloc(), 77, 1000)?;
    let mut numbers = Growing::new(rt.alloc())?;
    assert!(rt; are_answered(&mut numbers, keys.as_slice(), Turn::Put));
    assert!(rt; numbers.moves() == MOVES.as_slice());
    assert!(rt; numbers.partition().size() == 18 && numbers.partition().count() == 1000);
    let round = goes_round(&mut numbers, rt.alloc(), keys.as_slice());
    assert!(rt; matches!(round, Ok(true)));
    assert!(rt; numbers.partition().count() == 0);
    Ok(())
}
