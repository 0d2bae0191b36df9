//! Pages that are granted and given back, and callers that prove what they need of the contracts.

ghost use Rattle.std.specs.Prelude.{◌≡◌, ℕ, ◌+◌, ◌*◌, ◌<◌, ◌≤◌, ◌^◌, [], true, IfOk, IsSome};
ghost use Rattle.word_map.specs.WordMap.{at as word_at};
ghost use Rattle.free_pages.specs.Area.{area_size, front, head_words, page_words};
ghost use Rattle.free_pages.specs.PagesView.{pages_view};

use free_pages::{HEAD_WORDS, NoRun, PAGE_WORDS, Pages, control_words, front};
use region_words::{Part, Region};
use rel_pointer::RelPtr;
use std::alloc::{AllocError, Global};
use std::test::Fail;

/// The pages of an area that begins at word `base`, whose words the part has.
fn area_at(r: &Region, part: &mut Part, base: u64, pages: u32) -> Pages
    requires here { part.old.region ≡ r.now }
    requires small { base + area_size pages ≤ 2 ^ 26 }
    requires owns { (k : ℕ) → base ≤ k → k < base + area_size pages → IsSome (word_at part.old.words k) }
    ensures pages { result ≡ pages_view r.now (base + head_words + front pages) pages [] }
    ensures region { part.new.region ≡ part.old.region }
    ensures rest { (k : ℕ) → base + area_size pages ≤ k → word_at part.new.words k ≡ word_at part.old.words k }
{
    let count = u64::from(pages);
    let first = base + HEAD_WORDS + front(count);
    let control = part.split(r, base, HEAD_WORDS + control_words(count));
    let words = part.split(r, first, PAGE_WORDS * count);
    Pages::new(r, RelPtr::of(first), pages, words, control)
}

/// A run that is granted is taken back at once, and the pages are as before.
fn out_and_back(r: &Region, pages: &mut Pages, n: u32, control: bool) -> bool
    requires here { pages.old.region ≡ r.now }
    requires some { 1 ≤ n }
    ensures accepted { result ≡ true }
    ensures same { pages.new ≡ pages.old }
{
    match pages.take(r, n, control) {
        Ok(run) => match pages.give(r, run) {
            Ok(_) => true,
            Err(_) => false,
        },
        Err(_) => true,
    }
}

/// Pages that come after in the region do not take a run that isn't theirs.
fn no_run_of_others(
    r: &Region,
    pages: &mut Pages,
    others: &mut Pages,
    n: u32,
    control: bool,
) -> bool
    requires here { (pages.old.region ≡ r.now) × (others.old.region ≡ r.now) }
    requires behind { pages.old.first + page_words * pages.old.state.pages ≤ others.old.first }
    requires some { 1 ≤ n }
    ensures refused { result ≡ true }
    ensures same { others.new ≡ others.old }
{
    match pages.take(r, n, control) {
        Ok(run) => others.give(r, run).is_err(),
        Err(_) => true,
    }
}

/// The longest free run while a run is out, what is said of one page more then, and the longest free run after the run
/// came back.
fn while_out(r: &Region, pages: &mut Pages, n: u32) -> Option<(u32, Option<NoRun>, u32)>
    requires here { pages.old.region ≡ r.now }
    requires some { 1 ≤ n }
{
    let run = pages.take(r, n, true).ok()?;
    let left = pages.largest(r);
    let refused = pages.take(r, 1, false).err();
    pages.give(r, run).ok()?;
    Some((left, refused, pages.largest(r)))
}

/// Grants a run of `n` pages and one of `m`, and gives the first back first: the longest free run after each step.
fn longest_after(r: &Region, pages: &mut Pages, n: u32, m: u32) -> Option<[u32; 4]>
    requires here { pages.old.region ≡ r.now }
    requires some { (1 ≤ n) × (1 ≤ m) }
{
    let one = pages.take(r, n, false).ok()?;
    let first = pages.largest(r);
    let two = pages.take(r, m, true).ok()?;
    let second = pages.largest(r);
    pages.give(r, one).ok()?;
    let third = pages.largest(r);
    pages.give(r, two).ok()?;
    Some([first, second, third, pages.largest(r)])
}

/// A region and all its words.
fn words_of(alloc: Global, words: usize) -> Result<(Region, Part), AllocError>
    requires { (1 ≤ words) × (words ≤ 2 ^ 26) }
    ensures region { IfOk result (λ r. r.1.region ≡ r.0) }
    ensures owns { IfOk result (λ r. (k : ℕ) → k < words → IsSome (word_at r.1.words k)) }
{
    Region::new(alloc, words)
}

/// Pages may go to another thread, as they do behind a lock.
fn sent<T: Send>(value: T) -> T
    ensures { result ≡ value }
{
    value
}

#[test]
fn all_pages_are_granted_at_once(rt: HostRuntime) -> Result<(), Fail> {
    let (region, mut part) = words_of(rt.alloc(), 17000)?;
    let mut pages = sent(area_at(&region, &mut part, 1, 16));
    let mut others = area_at(&region, &mut part, 8500, 16);
    assert_eq!(rt; pages.largest(&region), 16);
    assert!(rt; out_and_back(&region, &mut pages, 16, false));
    assert!(rt; no_run_of_others(&region, &mut pages, &mut others, 16, true));
    match while_out(&region, &mut others, 16) {
        Some((left, Some(refused), after)) => {
            assert_eq!(rt;
                (left, refused.wanted, refused.largest, after),
                (0, 1, 0, 16)
            );
        }
        _ => assert!(rt; false),
    }
    Ok(())
}

#[test]
fn runs_that_touch_are_one_again(rt: HostRuntime) -> Result<(), Fail> {
    let (region, mut part) = words_of(rt.alloc(), 8600)?;
    let mut pages = area_at(&region, &mut part, 1, 16);
    assert_eq!(rt;
        longest_after(&region, &mut pages, 3, 5),
        Some([13, 8, 8, 16])
    );
    Ok(())
}
