//! Ranges of a table's order, by a sample of the keys of all runs.

ghost use Rattle.std.specs.Prelude.{◌≡◌, ◌<◌, ◌≤◌, ◌+◌, ◌-◌, ◌*◌, IfOk, IfSome, None, length, slice_index_or};
ghost use Rattle.line_runs.specs.Order.{IsWhole};
ghost use Rattle.line_runs.specs.Ranges.{AllAfter, AreOrdered, IsCutAt, IsPlaceAfter, NoneAfter, count_of, is_before};
ghost use Rattle.line_runs.specs.Runs.{Rise};

use crate::order::Shared;
use crate::run::Run;
use result_text::compare_columns;
use std::alloc::{AllocError, Global};

/// How many keys of the sample a range has.
const SAMPLE: usize = 16;

/// Ranges of the keys with this many columns: each but the first begins after a key.
#[derive(Drop)]
pub(crate) struct Ranges<'a> {
    sample: Vec<&'a [u8]>,
    least: &'a [u8],
    greatest: &'a [u8],
    columns: u32,
}

impl<'a> Ranges<'a> {
    /// About this many ranges, by keys that lie at even distances in the runs.
    pub(crate) fn new(
        alloc: Global,
        runs: &'a [Run],
        columns: u32,
        count: usize,
    ) -> Result<Ranges<'a>, AllocError>
        ensures ordered { IfOk result AreOrdered }
        ensures columns { IfOk result (λ ranges. ranges.columns ≡ columns) }
    {
        let mut sample = Vec::new(alloc);
        let each = (count.saturating_mul(SAMPLE) / runs.len().max(1)).saturating_add(1);
        for (number, run) in runs.iter().enumerate() {
            take_keys(&mut sample, run, each, number, runs.len())?;
        }
        sample.sort_unstable_by(|a, b| compare_columns(*a, *b, columns));
        let (least, greatest) = ends_of(runs, columns);
        Ok(Ranges {
            sample,
            least,
            greatest,
            columns,
        })
    }

    /// How many columns the keys have.
    pub(crate) fn columns(&self) -> u32
        ensures { result ≡ self.now.columns }
    {
        self.columns
    }

    /// The number of ranges.
    pub(crate) fn count(&self) -> usize
        ensures { result ≡ count_of self.now }
    {
        self.sample.len() / SAMPLE + 1
    }

    /// The place of a run from which on its keys are of a range, or of the ranges after it.
    pub(crate) fn start_in(&self, run: &Run, range: usize) -> usize
        requires ordered { AreOrdered self.now }
        requires rises { Rise self.now.columns run.now }
        requires range { range < count_of self.now }
        ensures { IsCutAt self.now range run.now result }
    {
        match self.key_before(range) {
            Some(key) => place_after(run, key, self.columns),
            None => 0,
        }
    }

    /// The place of a run from which on its keys are of ranges after one.
    pub(crate) fn end_in(&self, run: &Run, range: usize) -> usize
        requires ordered { AreOrdered self.now }
        requires rises { Rise self.now.columns run.now }
        requires range { range < count_of self.now }
        ensures { IsCutAt self.now (range + 1) run.now result }
    {
        if range + 1 < self.count() {
            return self.start_in(run, range + 1);
        }
        run.len()
    }

    /// What all keys of a range have in common.
    pub(crate) fn shared(&self, range: usize) -> Shared<'a>
        requires range { range < count_of self.now }
        requires columns { 0 < self.now.columns }
        ensures { IsWhole self.now.columns result }
    {
        Shared::between(self.low_end(range), self.high_end(range), self.columns)
    }

    /// A key that is not after any key of a range.
    fn low_end(&self, range: usize) -> &'a [u8]
        requires { range < count_of self.now }
    {
        match self.key_before(range) {
            Some(key) => key,
            None => self.least,
        }
    }

    /// A key that is not before any key of a range.
    fn high_end(&self, range: usize) -> &'a [u8]
        requires { range < count_of self.now }
    {
        if range + 1 >= self.count() {
            return self.greatest;
        }
        self.low_end(range + 1)
    }

    /// The greatest key of the sample that is before a range: none if that is the first.
    fn key_before(&self, range: usize) -> Option<&'a [u8]>
        requires { range < count_of self.now }
        ensures none { result ≡ None → range ≡ 0 }
        ensures some { IfSome result (λ key. (0 < range) × ((d : _) → key ≡ slice_index_or self.now.sample.items (range * SAMPLE - 1) d)) }
    {
        if range == 0 {
            return None;
        }
        Some(self.sample[range * SAMPLE - 1])
    }
}

/// The first place of a run whose key comes after this one, or its end.
fn place_after(run: &Run, key: &[u8], columns: u32) -> usize
    requires { Rise columns run.now }
    ensures { IsPlaceAfter columns run.now key.now result }
{
    let mut low = 0;
    let mut high = run.len();
    'halves: while low < high {
        let (from, to) = half_of(run, key, columns, low, high);
        low = from;
        high = to;
    }
    low
}

/// The half of some places in which the first lies whose key comes after this one, if it is one of them or their end.
fn half_of(run: &Run, key: &[u8], columns: u32, low: usize, high: usize) -> (usize, usize)
    requires rises { Rise columns run.now }
    requires some { low < high }
    requires within { high ≤ length run.now }
    ensures up { (low ≤ result.0) × (result.0 ≤ result.1) × (result.1 ≤ high) }
    ensures fewer { result.1 - result.0 < high - low }
    ensures before { NoneAfter columns run.now key.now low result.0 }
    ensures after { AllAfter columns run.now key.now result.1 high }
{
    let middle = low + (high - low) / 2;
    if is_before(key, run.key(middle), columns) {
        return (low, middle);
    }
    (middle + 1, high)
}

/// Whether a key comes before another.
fn is_before(a: &[u8], b: &[u8], columns: u32) -> bool
    ensures { result ≡ is_before columns a.now b.now }
{
    compare_columns(a, b, columns).is_lt()
}

/// The least and the greatest key of all runs, or keys of no bytes.
fn ends_of(runs: &[Run], columns: u32) -> (&[u8], &[u8]) {
    let mut ends: Option<(&[u8], &[u8])> = None;
    for run in runs {
        if run.len() == 0 {
            continue;
        }
        let (first, last) = (run.key(0), run.key(run.len() - 1));
        ends = Some(match ends {
            None => (first, last),
            Some((least, greatest)) => (
                least_of(least, first, columns),
                greatest_of(greatest, last, columns),
            ),
        });
    }
    ends.unwrap_or((&[], &[]))
}

fn least_of<'a>(a: &'a [u8], b: &'a [u8], columns: u32) -> &'a [u8] {
    if compare_columns(b, a, columns).is_lt() {
        b
    } else {
        a
    }
}

fn greatest_of<'a>(a: &'a [u8], b: &'a [u8], columns: u32) -> &'a [u8] {
    if compare_columns(a, b, columns).is_lt() {
        b
    } else {
        a
    }
}

/// Adds this many keys of a run to a sample, at even distances, or all that it has. The first place is another in each of this many
/// runs, so that the keys of all of them are at even distances in the table too, however few each gives.
fn take_keys<'a>(
    sample: &mut Vec<&'a [u8]>,
    run: &'a Run,
    count: usize,
    number: usize,
    runs: usize,
) -> Result<(), AllocError> {
    let steps = count.wrapping_mul(runs).max(1);
    for n in 0..count {
        let step = n.wrapping_mul(runs).wrapping_add(number);
        let at = step.wrapping_mul(run.len()) / steps;
        if at < run.len() {
            sample.push(run.key(at))?;
        }
    }
    Ok(())
}
