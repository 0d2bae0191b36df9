//! One range of the table that the files of an input come to.

ghost use Rattle.std.specs.Prelude.{◌≡◌, ◌++◌, ◌⊎◌, IfErr, IfOk, length};
ghost use Rattle.par_io.specs.Faults.{Rose};
ghost use Rattle.result_text.specs.Pieces.{joined};
ghost use Rattle.state_query.specs.Inputs.{IsOpened};
ghost use Rattle.state_query.specs.Ranges.{AreEnds, HasNoEnd, IsEndOf, IsNoEnds, IsRangeReadStop, IsRangeText};
ghost use Rattle.state_query.specs.Whys.{IsReadStop};
ghost use Rattle.state_query.specs.declared.stop.Stop.TheVariants as stop;
ghost use Rattle.state_source.specs.Reading.{EndsAt, OfLeft};

use crate::input::{Loaded, Opened, first_of, load_within, open};
use crate::stop::Stop;
use par_io::Source;
use state_finalize::{Finished, finish_range};
use state_head::KeyRange;
use state_range::{BoundFault, bound_key};
use state_source::FirstBytes;
use std::alloc::Global;

/// The ends of a range, each a record of the columns that the plan groups by, as a line of the table begins, or empty
/// if the range has no such end: the groups from `above` on and before `below`.
#[derive(Clone, Copy)]
pub struct RangeWords<'a> {
    pub above: &'a [u8],
    pub below: &'a [u8],
}

/// The keys of the ends of a range, each empty if it has no such end.
#[derive(Drop)]
struct Ends {
    low: Vec<u8>,
    high: Vec<u8>,
}

/// The text of a range of the table that the files of a source come to, in pieces, one after another. Only the groups
/// of the range take memory, and one file.
pub(crate) fn range_pieces<S: Source>(
    alloc: Global,
    words: RangeWords<'_>,
    source: &mut S,
) -> Result<Vec<Vec<u8>>, Stop>
    ensures table { IfOk result (λ pieces. OfLeft (S.left source.old) (λ bytes. IsRangeText words.entry.above.now words.entry.below.now bytes (joined pieces.items))) }
    ensures why { IfErr result (λ why. OfLeft (S.left source.old) (λ bytes. IsRangeReadStop words.entry.above.now words.entry.below.now bytes why)) }
    ensures read_fault { IfErr result (λ why. why ≡ stop.ReadFault → Rose (S.faults source.old) (S.faults source.new)) }
{
    let first = first_of(alloc, source)?;
    let opened = open(alloc, &first)?;
    let columns = opened.plan.bound.group_columns().len() as u32;
    match ends_of(alloc, words, columns) {
        Ok(ends) => pieces_between(alloc, words, &first, opened, source, &ends),
        Err(why) => Err(stop_without_ends(alloc, words, &first, opened, source, why)),
    }
}

/// The text of the range between these ends.
fn pieces_between<'a, S: Source>(
    alloc: Global,
    words: RangeWords<'_>,
    first: &'a FirstBytes,
    opened: Opened<'a>,
    source: &mut S,
    ends: &Ends,
) -> Result<Vec<Vec<u8>>, Stop>
    requires opened { IsOpened first.now.bytes.items opened }
    requires end { EndsAt first.now.ended (S.left source.old) }
    requires ends { AreEnds (length opened.plan.bound.groups) words.above.now words.below.now ends.now }
    ensures table { IfOk result (λ pieces. OfLeft (S.left source.old) (λ more. IsRangeText words.entry.above.now words.entry.below.now (first.now.bytes.items ++ more) (joined pieces.items))) }
    ensures why { IfErr result (λ why. OfLeft (S.left source.old) (λ more. IsReadStop (first.now.bytes.items ++ more) why)) }
    ensures read_fault { IfErr result (λ why. why ≡ stop.ReadFault → Rose (S.faults source.old) (S.faults source.new)) }
{
    let range = KeyRange {
        low: ends.low.as_slice(),
        high: ends.high.as_slice(),
    };
    let loaded = load_within(alloc, first, opened, source, range)?;
    let Loaded {
        whole,
        plan,
        sum,
        ..
    } = loaded;
    match finish_range(alloc, &plan.plan, &plan.bound, whole.sources, sum) {
        Ok(Finished::Table(pieces)) => Ok(pieces),
        Ok(Finished::Refused(row)) => Err(Stop::of_row(alloc, &plan.plan, row)),
        Err(why) => Err(Stop::of_finish(why)),
    }
}

/// Why there is no text if the words name no range: the files' own fault if they have one, else that of the words.
/// Files are read before words are blamed; none of their groups is kept.
fn stop_without_ends<'a, S: Source>(
    alloc: Global,
    words: RangeWords<'_>,
    first: &'a FirstBytes,
    opened: Opened<'a>,
    source: &mut S,
    why: Stop,
) -> Stop
    requires opened { IsOpened first.now.bytes.items opened }
    requires end { EndsAt first.now.ended (S.left source.old) }
    requires why { IsNoEnds (length opened.plan.bound.groups) words.above.now words.below.now why }
    ensures why { OfLeft (S.left source.old) (λ more. IsRangeReadStop words.entry.above.now words.entry.below.now (first.now.bytes.items ++ more) result) }
    ensures read_fault { result ≡ stop.ReadFault → Rose (S.faults source.old) (S.faults source.new) }
{
    let none = KeyRange {
        low: b"-",
        high: b"-",
    };
    match load_within(alloc, first, opened, source, none) {
        Ok(_) => why,
        Err(stop) => stop,
    }
}

/// The keys of the ends of the range that some words name.
fn ends_of(alloc: Global, words: RangeWords<'_>, columns: u32) -> Result<Ends, Stop>
    ensures ends { IfOk result (AreEnds columns words.entry.above.now words.entry.below.now) }
    ensures why { IfErr result (IsNoEnds columns words.entry.above.now words.entry.below.now) }
{
    let low = end_key(alloc, words.above, columns)?;
    let high = end_key(alloc, words.below, columns)?;
    Ok(Ends { low, high })
}

/// The key of an end of a range, or no bytes if it has no such end.
fn end_key(alloc: Global, word: &[u8], columns: u32) -> Result<Vec<u8>, Stop>
    ensures key { IfOk result (λ key. IsEndOf columns word.now key.items) }
    ensures why { IfErr result (λ why. (why ≡ stop.Memory) ⊎ ((why ≡ stop.NoKey) × HasNoEnd columns word.now)) }
{
    if word.is_empty() {
        return Ok(Vec::new(alloc));
    }
    match bound_key(alloc, word, columns) {
        Ok(key) => Ok(key),
        Err(BoundFault::Memory) => Err(Stop::Memory),
        Err(BoundFault::NoKey) => Err(Stop::NoKey),
    }
}
