//! The run words: how runs of pages are found, cut, marked and joined. `heads` is the place of page 0's run word.
//!
//! Each function keeps `IsRuns`: the run words part the pages into runs. Only `grant` and `release` change which runs
//! are granted.

ghost use Rattle.std.specs.Prelude.{◌≡◌, ℕ, ◌+◌, ◌*◌, ◌/◌, ◌%◌, ◌<◌, ◌≤◌, ◌^◌, ◌⊎◌, IsSome, Some, ◌==◌, cond, true, false, List};
ghost use Rattle.word_map.specs.WordMap.{at as word_at};
ghost use Rattle.free_pages.specs.Legal.{IsFree, IsLargest, Adds, Granted};
ghost use Rattle.free_pages.specs.Runs.{IsRuns, IsFilled, KeepsHeads, granted_in, granted_at, run_word};

use region_words::{Part, Region};

/// The run of page `at` takes in the free run of page `next`, which follows it.
fn fuse(runs: &mut Part, r: &Region, heads: u64, pages: u64, at: u64, next: u64, len: u64)
    requires here { runs.old.region ≡ r.now }
    requires small { heads + pages < 2 ^ 27 }
    requires runs { IsRuns runs.old.words heads pages }
    requires first { (0 < len) × (at + len ≡ next) × (run_word runs.old.words heads at ≡ 4 * len) }
    requires second { (next < pages) × (run_word runs.old.words heads next % 4 ≡ 0) }
    ensures region { runs.new.region ≡ runs.old.region }
    ensures runs { IsRuns runs.new.words heads pages }
    ensures granted { granted_in runs.new.words heads pages ≡ granted_in runs.old.words heads pages }
    ensures before { (k : ℕ) → k < at → run_word runs.new.words heads k ≡ run_word runs.old.words heads k }
    ensures longer { run_word runs.new.words heads at ≡ 4 * (len + run_word runs.old.words heads next / 4) }
{
    let more = runs.load(r, heads + next) / 4;
    runs.store(r, heads + next, 0);
    runs.store(r, heads + at, 4 * (len + more));
}

/// The free run of page `at` takes in all free runs that follow it. Gives its pages.
fn gather(runs: &mut Part, r: &Region, heads: u64, pages: u64, at: u64) -> u64
    requires here { runs.old.region ≡ r.now }
    requires small { heads + pages < 2 ^ 27 }
    requires runs { IsRuns runs.old.words heads pages }
    requires free { (at < pages) × (0 < run_word runs.old.words heads at) × (run_word runs.old.words heads at % 4 ≡ 0) }
    ensures region { runs.new.region ≡ runs.old.region }
    ensures runs { IsRuns runs.new.words heads pages }
    ensures granted { granted_in runs.new.words heads pages ≡ granted_in runs.old.words heads pages }
    ensures before { (k : ℕ) → k < at → run_word runs.new.words heads k ≡ run_word runs.old.words heads k }
    ensures free { (0 < result) × (at + result ≤ pages) × (run_word runs.new.words heads at ≡ 4 * result) }
    ensures ends { at + result < pages → 0 < run_word runs.new.words heads (at + result) % 4 }
{
    let mut len = runs.load(r, heads + at) / 4;
    while at + len < pages {
        let word = runs.load(r, heads + (at + len));
        if word % 4 != 0 {
            return len;
        }
        fuse(runs, r, heads, pages, at, at + len, len);
        len += word / 4;
    }
    len
}

/// The larger of two numbers of pages.
fn larger(a: u64, b: u64) -> u64
    ensures { (a ≤ result) × (b ≤ result) × ((result ≡ a) ⊎ (result ≡ b)) }
{
    if a < b { b } else { a }
}

/// The smaller of two pages.
pub(crate) fn smaller(a: u64, b: u64) -> u64
    ensures { (result ≤ a) × (result ≤ b) × ((result ≡ a) ⊎ (result ≡ b)) }
{
    if a < b { a } else { b }
}

/// The first page from `filled` on at which a free run begins, or `pages`: every page before `filled` is granted.
fn skip(runs: &mut Part, r: &Region, heads: u64, pages: u64, filled: u64) -> u64
    requires here { runs.old.region ≡ r.now }
    requires small { heads + pages < 2 ^ 27 }
    requires runs { IsRuns runs.old.words heads pages }
    requires filled { IsFilled runs.old.words heads pages filled }
    ensures same { runs.new ≡ runs.old }
    ensures filled { IsFilled runs.old.words heads pages result }
{
    let mut at = filled;
    while at < pages {
        let word = runs.load(r, heads + at);
        if word % 4 == 0 {
            return at;
        }
        at += word / 4;
    }
    at
}

/// The page of the first free run of `n` pages and its pages, or `pages` and the longest run's. Every page before
/// `filled` is granted.
fn seek(runs: &mut Part, r: &Region, heads: u64, pages: u64, filled: u64, n: u64) -> (u64, u64)
    requires here { runs.old.region ≡ r.now }
    requires small { heads + pages < 2 ^ 27 }
    requires runs { IsRuns runs.old.words heads pages }
    requires filled { IsFilled runs.old.words heads pages filled }
    requires some { 0 < n }
    ensures region { runs.new.region ≡ runs.old.region }
    ensures runs { IsRuns runs.new.words heads pages }
    ensures filled { IsFilled runs.new.words heads pages filled }
    ensures granted { granted_in runs.new.words heads pages ≡ granted_in runs.old.words heads pages }
    ensures within { (result.0 ≤ pages) × (result.1 ≤ pages) }
    ensures found { result.0 < pages → (n ≤ result.1) × (run_word runs.new.words heads result.0 ≡ 4 * result.1) }
    ensures none { pages ≤ result.0 → (result.1 < n) × IsLargest pages (granted_in runs.old.words heads pages) result.1 }
{
    let mut best = 0;
    let mut at = filled;
    while at < pages {
        let word = runs.load(r, heads + at);
        if word % 4 == 0 {
            let len = gather(runs, r, heads, pages, at);
            if n <= len {
                return (at, len);
            }
            best = larger(best, len);
            at += len;
        } else {
            at += word / 4;
        }
    }
    (pages, best)
}

/// What a walk over the runs found.
#[derive(Clone, Copy)]
pub(crate) struct Found {
    /// The page before which every page is granted.
    pub(crate) filled: u64,
    /// The page of the first free run that is long enough, or the number of pages.
    pub(crate) at: u64,
    /// Its pages, or those of the longest free run.
    pub(crate) len: u64,
}

/// Finds a free run of `n` pages, or the longest one. Every page before `filled` is granted, and the walk begins there.
pub(crate) fn find(
    runs: &mut Part,
    r: &Region,
    heads: u64,
    pages: u64,
    filled: u64,
    n: u64,
) -> Found
    requires here { runs.old.region ≡ r.now }
    requires small { heads + pages < 2 ^ 27 }
    requires runs { IsRuns runs.old.words heads pages }
    requires filled { IsFilled runs.old.words heads pages filled }
    requires some { 0 < n }
    ensures region { runs.new.region ≡ runs.old.region }
    ensures runs { IsRuns runs.new.words heads pages }
    ensures filled { IsFilled runs.new.words heads pages result.filled }
    ensures granted { granted_in runs.new.words heads pages ≡ granted_in runs.old.words heads pages }
    ensures within { (result.at ≤ pages) × (result.len ≤ pages) }
    ensures found { result.at < pages → (n ≤ result.len) × (run_word runs.new.words heads result.at ≡ 4 * result.len) }
    ensures none { pages ≤ result.at → (result.len < n) × IsLargest pages (granted_in runs.old.words heads pages) result.len }
{
    let filled = skip(runs, r, heads, pages, filled);
    let (at, len) = seek(runs, r, heads, pages, filled, n);
    Found { filled, at, len }
}

/// The free run of page `at` keeps `n` pages, and a free run has the others.
fn cut(runs: &mut Part, r: &Region, heads: u64, pages: u64, at: u64, n: u64, len: u64)
    requires here { runs.old.region ≡ r.now }
    requires small { heads + pages < 2 ^ 27 }
    requires runs { IsRuns runs.old.words heads pages }
    requires free { (at < pages) × (0 < n) × (n ≤ len) × (run_word runs.old.words heads at ≡ 4 * len) }
    ensures region { runs.new.region ≡ runs.old.region }
    ensures runs { IsRuns runs.new.words heads pages }
    ensures granted { granted_in runs.new.words heads pages ≡ granted_in runs.old.words heads pages }
    ensures heads { KeepsHeads runs.old.words runs.new.words heads }
    ensures shorter { run_word runs.new.words heads at ≡ 4 * n }
{
    if n < len {
        runs.store(r, heads + (at + n), 4 * (len - n));
        runs.store(r, heads + at, 4 * n);
    }
}

/// The run of page `at` gets another mark.
fn mark(runs: &mut Part, r: &Region, heads: u64, pages: u64, at: u64, word: u64)
    requires here { runs.old.region ≡ r.now }
    requires small { heads + pages < 2 ^ 27 }
    requires runs { IsRuns runs.old.words heads pages }
    requires head { (at < pages) × (0 < run_word runs.old.words heads at) × (word / 4 ≡ run_word runs.old.words heads at / 4) × (word % 4 < 3) }
    ensures region { runs.new.region ≡ runs.old.region }
    ensures runs { IsRuns runs.new.words heads pages }
    ensures heads { KeepsHeads runs.old.words runs.new.words heads }
    ensures word { run_word runs.new.words heads at ≡ word }
    ensures grants { run_word runs.old.words heads at % 4 ≡ 0 → 0 < word % 4 → Adds (granted_in runs.old.words heads pages) (granted_in runs.new.words heads pages) (granted_at at word) }
    ensures frees { 0 < run_word runs.old.words heads at % 4 → word % 4 ≡ 0 → Adds (granted_in runs.new.words heads pages) (granted_in runs.old.words heads pages) (granted_at at (run_word runs.old.words heads at)) }
{
    runs.store(r, heads + at, word);
}

/// The first `n` pages of the free run of page `at` are granted.
pub(crate) fn grant(
    runs: &mut Part,
    r: &Region,
    heads: u64,
    pages: u64,
    at: u64,
    n: u64,
    len: u64,
    control: bool,
)
    requires here { runs.old.region ≡ r.now }
    requires small { heads + pages < 2 ^ 27 }
    requires runs { IsRuns runs.old.words heads pages }
    requires free { (at < pages) × (0 < n) × (n ≤ len) × (len ≤ pages) × (run_word runs.old.words heads at ≡ 4 * len) }
    ensures region { runs.new.region ≡ runs.old.region }
    ensures runs { IsRuns runs.new.words heads pages }
    ensures heads { KeepsHeads runs.old.words runs.new.words heads }
    ensures granted { Adds (granted_in runs.old.words heads pages) (granted_in runs.new.words heads pages) (record { from = at; len = n; control = control }) }
{
    cut(runs, r, heads, pages, at, n, len);
    if control {
        mark(runs, r, heads, pages, at, 4 * n + 2);
    } else {
        mark(runs, r, heads, pages, at, 4 * n + 1);
    }
}

/// The mark of a granted run: 2 if its control records went with it, else 1.
fn mark_of(control: bool) -> u64
    ensures { result ≡ cond control 2 1 }
{
    if control { 2 } else { 1 }
}

/// Frees the run of page `at`, if a granted run has this first page, length and mark.
pub(crate) fn release(
    runs: &mut Part,
    r: &Region,
    heads: u64,
    pages: u64,
    at: u64,
    n: u64,
    control: bool,
) -> bool
    requires here { runs.old.region ≡ r.now }
    requires small { heads + pages < 2 ^ 27 }
    requires runs { IsRuns runs.old.words heads pages }
    requires inside { (at < pages) × (n < 2 ^ 32) }
    ensures region { runs.new.region ≡ runs.old.region }
    ensures runs { IsRuns runs.new.words heads pages }
    ensures heads { KeepsHeads runs.old.words runs.new.words heads }
    ensures freed { result ≡ true → IsFree pages (granted_in runs.new.words heads pages) at n }
    ensures removed { result ≡ true → Adds (granted_in runs.new.words heads pages) (granted_in runs.old.words heads pages) (record { from = at; len = n; control = control }) }
    ensures same { result ≡ false → runs.new ≡ runs.old }
    ensures none { result ≡ false → (rest : List Granted) → Adds rest (granted_in runs.old.words heads pages) (record { from = at; len = n; control = control }) → ⊥ }
{
    let wanted = 4 * n + mark_of(control);
    let found = runs.load(r, heads + at);
    if found != wanted {
        return false;
    }
    mark(runs, r, heads, pages, at, 4 * n);
    true
}
