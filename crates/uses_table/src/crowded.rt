//! Keys with one hash: a table whose calls have a bound takes this many of them and no more, and other keys still. A table
//! with a seed, in which they have hashes of their own, takes them all.

ghost use Rattle.dshash_parts.specs.Uses.{IsAtHome};

use crate::one::table_for_one;
use dsa_area::{Area, AreaPass};
use dshash_numbers::{Number, NumberCall};
use dshash_parts::{DsPass, Dshash, NoRoom};
use region_words::Region;
use std::alloc::Global;
use std::sync::Wait;
use std::test::Fail;

/// How many words a key has.
const KEY_WORDS: usize = 7;

/// Two words that FNV-1a takes from its first value back to it, so all keys that are made of them have one hash.
const WORDS: [u64; 2] = [0x776c_716f_756c_6165, 0x656e_7377_6b75_6e69];

/// The key of that number below 128: for each bit one of the two words.
fn key_of(number: u64) -> [u64; KEY_WORDS] {
    let mut key = [WORDS[0]; KEY_WORDS];
    let mut bits = number;
    for word in key.iter_mut() {
        if bits % 2 == 1 {
            *word = WORDS[1];
        }
        bits /= 2;
    }
    key
}

/// Puts the keys of the numbers below `count`, with a bound of 64. Says how many were new, and for how many the chain was
/// too long.
fn put_all<R: Wait>(
    rt: &R,
    table: &Dshash<Number>,
    r: &Region,
    area: &Area,
    pass: &mut DsPass<Number>,
    apass: &mut AreaPass,
    count: u64,
) -> (u64, u64)
    requires home { IsAtHome r.now area.now table.now 7 pass.old apass.old }
    ensures home { IsAtHome r.now area.now table.now 7 pass.new apass.new }
{
    let mut new = 0u64;
    let mut crowded = 0u64;
    for number in 0..count {
        let call = NumberCall::Put(number);
        match table.call_within(rt, r, area, pass, apass, &key_of(number), &call, 64) {
            Ok(None) => new = new.saturating_add(1),
            Err(NoRoom::Chain) => crowded = crowded.saturating_add(1),
            Ok(Some(_)) | Err(NoRoom::Space(_)) => {}
        }
    }
    (new, crowded)
}

/// What is answered of a hundred keys that have one hash without a seed.
#[derive(Clone, Copy, PartialEq)]
struct Answered {
    /// How many were new, and for how many the chain was too long.
    first: (u64, u64),
    /// The same if they are put again.
    again: (u64, u64),
    /// Whether another key is new then.
    other: bool,
    /// Whether the last of the keys is new to a call without a bound.
    free: bool,
}

/// Puts another key with a bound, and the last of the hundred without one. Says of each whether it was new.
fn put_others<R: Wait>(
    rt: &R,
    table: &Dshash<Number>,
    r: &Region,
    area: &Area,
    pass: &mut DsPass<Number>,
    apass: &mut AreaPass,
) -> (bool, bool)
    requires home { IsAtHome r.now area.now table.now 7 pass.old apass.old }
    ensures home { IsAtHome r.now area.now table.now 7 pass.new apass.new }
{
    let call = NumberCall::Put(1);
    let other = table.call_within(rt, r, area, pass, apass, &[1; KEY_WORDS], &call, 64);
    let free = table.call(rt, r, area, pass, apass, &key_of(99), &call);
    (matches!(other, Ok(None)), matches!(free, Ok(None)))
}

/// What a new table with this seed answers.
fn answered_with<R: Wait>(rt: &R, alloc: Global, seed: u64) -> Result<Answered, Fail> {
    let (region, area, table, mut pass, mut apass) = table_for_one(rt, alloc, 512, seed, 7)?;
    let first = put_all(rt, &table, &region, &area, &mut pass, &mut apass, 100);
    let again = put_all(rt, &table, &region, &area, &mut pass, &mut apass, 100);
    let (other, free) = put_others(rt, &table, &region, &area, &mut pass, &mut apass);
    Ok(Answered {
        first,
        again,
        other,
        free,
    })
}

#[test]
fn a_chain_takes_64_keys(rt: HostRuntime) -> Result<(), Fail> {
    let answered = answered_with(&rt, rt.alloc(), 0)?;
    assert!(rt;
        answered
            == Answered {
                first: (64, 36),
                again: (0, 36),
                other: true,
                free: true
            }
    );
    Ok(())
}

#[test]
fn a_seed_parts_keys_of_one_hash(rt: HostRuntime) -> Result<(), Fail> {
    let answered = answered_with(&rt, rt.alloc(), 0x5eed_f00d)?;
    assert!(rt;
        answered
            == Answered {
                first: (100, 0),
                again: (0, 0),
                other: true,
                free: false
            }
    );
    Ok(())
}
