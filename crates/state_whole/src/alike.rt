//! What the files of all parts of one table say alike.

ghost use Rattle.std.specs.Prelude.{◌≡◌, IfErr, IsTrue, OnOk, ◌↔◌};
ghost use Rattle.state_head.specs.Head.{subject_of};
ghost use Rattle.state_head.specs.Words.{keys_of, words_of};
ghost use Rattle.state_whole.specs.Alike.{DiffersIn, RangesDiffer};

use state_head::{KeyRange, PlanWords, Whole};

/// What a file says otherwise than the first one: the words of the plan, the header, how many sources there are, the range of keys.
#[derive(Clone, Copy, Debug, PartialEq, Eq)]
pub enum OtherFile {
    Plan,
    Header,
    Sources,
    Range,
}

/// Whether a file is of the same plan, header and sources as the first one.
pub fn check_whole(first: Whole<'_>, other: Whole<'_>) -> Result<(), OtherFile>
    ensures same { OnOk result (subject_of other.entry ≡ subject_of first.entry) }
    ensures refused { IfErr result (DiffersIn (subject_of first.entry) (subject_of other.entry)) }
{
    if !has_words(first.words, other.words) {
        return Err(OtherFile::Plan);
    }
    if !is_same(first.header, other.header) {
        return Err(OtherFile::Header);
    }
    if first.sources != other.sources {
        return Err(OtherFile::Sources);
    }
    Ok(())
}

/// Whether a file has the same range of keys as the first one.
pub fn check_range(first: KeyRange<'_>, other: KeyRange<'_>) -> Result<(), OtherFile>
    ensures same { OnOk result (keys_of other.entry ≡ keys_of first.entry) }
    ensures refused { IfErr result (RangesDiffer (keys_of first.entry) (keys_of other.entry)) }
{
    if !have_same(first.low, first.high, other.low, other.high) {
        return Err(OtherFile::Range);
    }
    Ok(())
}

/// Whether the words of two plans are the same.
fn has_words(first: PlanWords<'_>, other: PlanWords<'_>) -> bool
    ensures { IsTrue result ↔ (words_of other.entry ≡ words_of first.entry) }
{
    have_same(first.group, first.agg, other.group, other.agg)
        && have_same(first.filter, first.decimals, other.filter, other.decimals)
}

/// Whether two texts are the same as two others.
fn have_same(a: &[u8], b: &[u8], c: &[u8], d: &[u8]) -> bool
    ensures { IsTrue result ↔ (c.now ≡ a.now) × (d.now ≡ b.now) }
{
    is_same(a, c) && is_same(b, d)
}

/// Whether two texts are the same.
fn is_same(a: &[u8], b: &[u8]) -> bool
    ensures { IsTrue result ↔ (b.now ≡ a.now) }
{
    a == b
}
