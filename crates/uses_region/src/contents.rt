//! A table of the estimated size that is filled in a loop, and a caller of all calls.

ghost use Rattle.std.specs.Prelude.{◌≡◌, ◌/◌, ◌<◌, ◌≤◌, ◌^◌, ℕ, Some, IsSome, All, length};
ghost use Rattle.word_map.specs.WordMap.{at as word_at, HasJust};
ghost use Rattle.shm_toc.specs.Table.{estimated, table_of};

use region_words::{Part, Region};
use rel_pointer::RelPtr;
use shm_toc::{FrozenToc, Toc, estimate, serves_in_any_order};
use std::test::Fail;

/// Writes a word into a chunk, and reads it through a share of the frozen table.
fn word_by_its_key(r: &Region, part: Part) -> Option<u64>
    requires here { part.region ≡ r.now }
    requires owns { HasJust part.words 0 12 }
    ensures { result ≡ Some 7 }
{
    let mut toc = Toc::create(r, part, 12, 1601);
    let Ok(mut chunk) = toc.allocate(r, 8) else {
        return None;
    };
    chunk.store(r, 0, 7);
    let at = chunk.at;
    let Ok(()) = toc.insert(r, 5, at) else {
        return None;
    };
    toc.keep(r, chunk);
    let mut toc = toc.freeze(r);
    let share = toc.share(r);
    let Ok(mut toc) = FrozenToc::attach(share, r, 1601) else {
        return None;
    };
    let at = toc.lookup(r, 5)?;
    Some(toc.load(r, at))
}

/// A new region's words, and the part of the first `words` of them.
fn first_words(r: &Region, part: &mut Part, words: u64) -> Part
    requires here { part.old.region ≡ r.now }
    requires owns { (k : ℕ) → k < words → IsSome (word_at part.old.words k) }
    ensures here { result.region ≡ r.now }
    ensures owns { HasJust result.words 0 words }
{
    part.split(r, 0, words)
}

/// Makes a table of the estimated size and fills it: a chunk of each size, and after it the chunk's place under the
/// size's number. No call refuses, since the table provides for all that is still to come.
fn table_of_chunks(r: &Region, part: Part, sizes: &[u64], magic: u64) -> Toc
    requires here { part.region ≡ r.now }
    requires owns { HasJust part.words 0 (estimated sizes.now (length sizes.now) / 8) }
    requires small { estimated sizes.now (length sizes.now) ≤ 2 ^ 29 }
    requires sizes { All (λ bytes. (1 ≤ bytes) × (bytes ≤ 2 ^ 40)) sizes.now }
    ensures here { result.region ≡ r.now }
    ensures entries { length (table_of result.words).entries ≡ length sizes.now }
{
    serves_in_any_order();
    let mut toc = Toc::create(r, part, estimate(sizes, sizes.len() as u64) / 8, magic);
    for i in 0..sizes.len() {
        let Ok(chunk) = toc.allocate(r, sizes[i]) else {
            unreachable!()
        };
        let Ok(()) = toc.insert(r, i as u64, chunk.at) else {
            unreachable!()
        };
        toc.keep(r, chunk);
    }
    toc
}

#[test]
fn a_word_is_read_through_a_share(rt: HostRuntime) -> Result<(), Fail> {
    let (region, mut part) = Region::new(rt.alloc(), 64)?;
    let words = first_words(&region, &mut part, 12);
    assert!(rt; word_by_its_key(&region, words) == Some(7));
    Ok(())
}

#[test]
fn a_table_is_filled_in_a_loop(rt: HostRuntime) -> Result<(), Fail> {
    assert_eq!(rt; estimate(&[10, 32, 33], 2), 192);
    let sizes = [40, 8, 100];
    let (region, mut part) = Region::new(rt.alloc(), 64)?;
    let words = first_words(&region, &mut part, 40);
    let mut toc = table_of_chunks(&region, words, &sizes, 9).freeze(&region);
    assert!(rt; toc.lookup(&region, 0) == Some(RelPtr::of(32)));
    assert!(rt; toc.lookup(&region, 1) == Some(RelPtr::of(28)));
    assert!(rt; toc.lookup(&region, 2) == Some(RelPtr::of(12)));
    assert!(rt; toc.lookup(&region, 3) == None);
    Ok(())
}
