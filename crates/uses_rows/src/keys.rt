//! What no clause says: that the calls succeed, and that keys which were chosen to collide cost little more than
//! others.

ghost use Rattle.std.specs.Prelude.{◌≡◌, IfOk, Some, slice_get};

use key_index::KeyTable;
use std::alloc::{AllocError, Global};
use std::test::Fail;

/// The place of a key, which is put after the others if it is not there: the caller of CALLING.md.
fn place_of(keys: &mut KeyTable, alloc: Global, key: &[u8]) -> Result<usize, AllocError>
    ensures place { IfOk result (λ place. slice_get keys.new place ≡ Some key.now) }
{
    match keys.find(key) {
        Some(place) => Ok(place),
        None => {
            let place = keys.len();
            keys.push(alloc, key)?;
            Ok(place)
        }
    }
}

/// Keys, and the places that they come to one after the other.
const PLACES: [(&[u8], usize); 6] = [
    (b"pear", 0),
    (b"", 1),
    (b"fig", 2),
    (b"pear", 0),
    (b"pear\0", 3),
    (b"fig", 2),
];

/// Whether each key comes to its place.
fn come_to_places(keys: &mut KeyTable, alloc: Global) -> Result<bool, AllocError> {
    for (key, place) in PLACES {
        if place_of(keys, alloc, key)? != place {
            return Ok(false);
        }
    }
    Ok(keys.len() == 4 && keys.find(b"plum").is_none())
}

#[test]
fn places_of_keys(rt: HostRuntime) -> Result<(), Fail> {
    let mut keys = KeyTable::new(rt.alloc());
    assert!(rt; come_to_places(&mut keys, rt.alloc())?);
    Ok(())
}

/// How many keys collide: without a bound on a search they would take minutes.
const COLLIDING: u64 = 250_000;

/// A key whose hash is 0, whatever the number: the hash ends with a product, of which the last eight bytes of the key
/// and a constant of the hasher make one factor, here 0.
fn colliding_key(number: u64) -> [u8; 16] {
    let mut key = [0; 16];
    key[..8].copy_from_slice(&number.to_be_bytes());
    key[8..].copy_from_slice(&0x9e37_79b9_7f4a_7c15_u64.to_le_bytes());
    key
}

#[test]
fn keys_of_one_hash(rt: HostRuntime) -> Result<(), Fail> {
    let mut keys = KeyTable::new(rt.alloc());
    for number in 0..COLLIDING {
        keys.push(rt.alloc(), &colliding_key(number))?;
    }
    for number in 0..COLLIDING {
        let found = keys.find(&colliding_key(number));
        assert!(rt; found == Some(number as usize), "{number}");
    }
    assert!(rt; keys.find(&colliding_key(COLLIDING)).is_none());
    Ok(())
}
