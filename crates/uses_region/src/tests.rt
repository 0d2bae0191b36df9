//! Runs: two threads in two halves, at the two ends of a ring, and on shares of frozen words; a ring at the end of its
//! counts.

ghost use Rattle.std.specs.Prelude.{◌≡◌, ◌+◌, ◌<◌, ℕ, IsSome};
ghost use Rattle.word_map.specs.WordMap.{at as word_at};

use crate::{at_once, both_halves, hand_over, load_twice, look_up_twice, store_bytes, swap_halves};
use mq_ring::{Ring, RingRx, RingTx, home};
use region_words::Region;
use rel_pointer::RelPtr;
use shm_toc::Toc;
use std::test::Fail;

#[test]
#[tactic(auto, using(word_map::proofs::Maps::answers, std::proofs::lemmas::Bool::Decides::nat_tests))]
fn two_threads_have_a_half_each(rt: HostRuntime) -> Result<(), Fail> {
    let (region, part) = Region::new(rt.alloc(), 64)?;
    let (mut part, all) = swap_halves(&rt, &region, part, 1000);
    assert!(rt; all);
    assert_eq!(rt; part.load(&region, 0), 992);
    assert_eq!(rt; part.load(&region, 7), 999);
    assert_eq!(rt; part.load(&region, 31), 991);
    assert_eq!(rt; part.load(&region, 32), 992);
    assert_eq!(rt; part.load(&region, 63), 991);
    Ok(())
}

/// The ring lies in the first seven of eight words, and its counts pass 2^64.
#[test]
#[tactic(auto, using(crate::proofs::Frames::framed, word_map::proofs::Maps::answers, std::proofs::lemmas::Bool::Decides::nat_tests))]
fn a_ring_passes_the_end_of_its_counts(rt: HostRuntime) -> Result<(), Fail> {
    let (region, mut part) = Region::new(rt.alloc(), 16)?;
    let chunk = part.split_chunk(&region, 1, 8);
    let (mut tx, mut rx) = Ring::create(&region, chunk, 4, u64::MAX - 1, 64);
    tx.put(&region, 10);
    tx.put(&region, 0x6867666564636261);
    tx.put(&region, 0x3231);
    tx.publish(&region);
    let ready = rx.look_written(&region);
    assert!(rt; ready == 3);
    assert_eq!(rt; rx.take(&region), 10);
    assert_eq!(rt; rx.take(&region), 0x6867666564636261);
    assert_eq!(rt; rx.take(&region), 0x3231);
    rx.publish_read(&region);
    assert_eq!(rt; tx.look_read(&region), 4);
    let mut chunk = home(tx, rx, &region).into_chunk(&region);
    assert!(rt; chunk.bytes == 64);
    assert_eq!(rt; chunk.load(&region, 0), 1);
    Ok(())
}

/// What the receiver's thread doesn't find in time is handed over after both threads are done.
#[test]
#[tactic(auto, using(crate::proofs::Frames::framed, word_map::proofs::Maps::answers, std::proofs::lemmas::Bool::Decides::nat_tests))]
fn a_word_goes_from_thread_to_thread(rt: HostRuntime) -> Result<(), Fail> {
    let (region, mut part) = Region::new(rt.alloc(), 16)?;
    let chunk = part.split_chunk(&region, 1, 7);
    let (tx, rx) = Ring::create(&region, chunk, 4, 0, 64);
    let (mut tx, mut rx, early) = at_once(&rt, &region, tx, rx, 10);
    let word = match early {
        Some(word) => word,
        None => hand_over(&region, &mut tx, &mut rx),
    };
    assert_eq!(rt; word, 10);
    Ok(())
}

#[test]
#[tactic(auto, using(word_map::proofs::Maps::answers, std::proofs::lemmas::Bool::Decides::nat_tests))]
fn bytes_are_stored_and_words_are_shared(rt: HostRuntime) -> Result<(), Fail> {
    let (region, mut part) = Region::new(rt.alloc(), 64)?;
    let mut chunk = part.split_chunk(&region, 8, 2);
    store_bytes(&region, &mut chunk, b"abcdefgh12");
    assert_eq!(rt; chunk.load(&region, 0), 0x6867666564636261);
    assert_eq!(rt; chunk.load(&region, 1), 0x3231);
    part.store(&region, 40, 8);
    let mut frozen = part.split(&region, 40, 1).freeze(&region, 40, 1);
    assert!(rt; load_twice(&rt, &region, &mut frozen, 40) == (8, 8));
    Ok(())
}

#[test]
#[tactic(auto, using(word_map::proofs::Maps::answers, std::proofs::lemmas::Bool::Decides::nat_tests))]
fn both_halves_are_read_back(rt: HostRuntime) -> Result<(), Fail> {
    let (region, mut part) = Region::new(rt.alloc(), 64)?;
    assert!(rt; both_halves(&region, &mut part) == (7, 8));
    Ok(())
}

#[test]
#[tactic(auto, using(word_map::proofs::Maps::answers, std::proofs::lemmas::Bool::Decides::nat_tests))]
fn a_key_is_looked_up_by_two_threads(rt: HostRuntime) -> Result<(), Fail> {
    let (region, part) = Region::new(rt.alloc(), 12)?;
    let mut toc = Toc::create(&region, part, 12, 1601);
    assert!(rt; toc.insert(&region, 5, RelPtr::of(8)).is_ok());
    let mut toc = toc.freeze(&region);
    let (one, other) = look_up_twice(&rt, &region, &mut toc, 1601, 5);
    assert!(rt; one == Some(RelPtr::of(8)) && other == Some(RelPtr::of(8)));
    Ok(())
}
