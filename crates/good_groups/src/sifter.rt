//! The lines of a text, of which some are left out.

ghost use Rattle.std.specs.Prelude.{◌≡◌, ◌≤◌, ◌<◌, ◌+◌, ◌++◌, ◌^◌, ◌∷◌, [], ℕ, List, Option, IfOk, OnErr, OnOk, drop, false, is_some, length, map, true, Err, Some, take};
ghost use Rattle.csv_rows.specs.Readings.{exchanged, records_as};
ghost use Rattle.csv_rows.specs.Records.{record_at};
ghost use Rattle.par_model.specs.Columns.{HasColumns};
ghost use Rattle.par_model.specs.Refuse.{refusal};
ghost use Rattle.row_windows.specs.Seams.{BeginsLine};
ghost use Rattle.csv_rows.specs.Places.{place_after};
ghost use Rattle.good_rows.specs.Lines.{IsBegun, ends_here, line_left};
ghost use Rattle.row_windows.specs.declared.window.TheConstants.{MOST_RECORD_BYTES};
ghost use Rattle.text_lines.specs.Feeds.{count_feeds};
ghost use Rattle.good_groups.specs.Counted.{AreOfLine, AreRules, Counts, CountsNot, HasTooMany, IsOneTooMany};
ghost use Rattle.good_groups.specs.Opened.{Opened};
ghost use Rattle.good_groups.specs.Sifting.{IsOpen, IsReady, Sifts, keeps};
ghost use Rattle.good_groups.specs.declared.sifter.Halt.TheVariants as halt;

use crate::bytes::Bytes;
use crate::piece::Piece;
use crate::tally::Tally;
use csv_rows::{Place, Reading, RowStore, exchange, rows_as, scanned};
use good_rows::{Judged, count_good, judge, last_end, line_end};
use par_model::{BoundPlan, Refusal};
use plan_spec::Plan;
use row_windows::MOST_RECORD_BYTES;
use std::alloc::{AllocError, Global};
use stream_groups::{RefusedRow, more_feeds, place_in_lines, row_says};

/// The most rows for which averages are exact: 2^50. A source with more of them is answered as out of memory.
pub(crate) const MOST_ROWS: u64 = 1_125_899_906_842_624;

/// Why a sifter goes no further: more rows are refused than may be left out, the line at hand is too long, or memory ran out.
#[derive(Clone, Copy, Debug, PartialEq, Eq, Drop)]
pub(crate) enum Halt {
    TooMany,
    Long,
    Memory,
}

impl From<AllocError> for Halt {
    ghost from_gives = { λ _ why. why ≡ halt.Memory };

    fn from(_error: AllocError) -> Halt {
        Halt::Memory
    }
}

/// What lines are judged by: a plan over the columns of a header, of which these are the bytes, and how many refused rows may
/// be left out.
#[derive(Drop)]
pub(crate) struct Rules<'a> {
    pub(crate) plan: &'a Plan,
    pub(crate) bound: &'a BoundPlan,
    pub(crate) header: &'a [u8],
    pub(crate) width: u32,
    pub(crate) most: u64,
}

/// A line of which bytes were read, up to a place of a scan, the bytes that were read after it, those that are left of the
/// lines before it, and what was counted of these.
#[derive(Drop)]
pub(crate) struct Sifter {
    pub(crate) line: Vec<u8>,
    pub(crate) place: Place,
    pub(crate) pending: Piece,
    pub(crate) ahead: Bytes,
    pub(crate) tally: Tally,
}

impl Sifter {
    /// Goes over all lines that were read whole, at once, if none of their rows is refused. If one is, or memory runs out, nothing
    /// has changed.
    pub(crate) fn leap(&mut self, alloc: Global, rules: &Rules<'_>)
        requires ready { IsReady rules.now self.old }
        ensures ready { IsReady rules.now self.new }
        ensures sifts { Sifts rules.now self.old self.new }
    {
        let Some(end) = last_end(self.pending.left(), self.place) else {
            return;
        };
        let had = self.line.len();
        if end.at > MOST_RECORD_BYTES || had > MOST_RECORD_BYTES - end.at {
            return;
        }
        let added = self.line.extend_from_slice(&self.pending.left()[..end.at]);
        if added.is_err() {
            return;
        }
        if !self.take_lines(alloc, rules) {
            self.line.truncate(had);
            return;
        }
        self.pending.skip(end.at);
        self.place = end.place;
        self.begin_line();
    }

    /// Counts the rows of the lines at hand and puts these behind the lines before them, if none of the rows is refused. If one is,
    /// or memory runs out, nothing has changed. Says whether it did.
    fn take_lines(&mut self, alloc: Global, rules: &Rules<'_>) -> bool
        requires columns { HasColumns rules.now.bound.now rules.now.width }
        requires few { self.old.tally.feeds ≤ 2 ^ 60 }
        ensures same { self.new ≡ record self.old { ahead = self.new.ahead; tally = self.new.tally } }
        ensures ahead { result ≡ true → self.new.ahead ≡ self.old.ahead ++ self.old.line.items }
        ensures good { result ≡ true → keeps rules.now self.old.line.items ≡ true }
        ensures counts { result ≡ true → Counts rules.now self.old.line.items self.old.tally self.new.tally }
        ensures feeds { result ≡ true → self.new.tally.feeds ≡ self.old.tally.feeds + count_feeds self.old.line.items }
        ensures few { self.new.tally.feeds ≤ 2 ^ 60 }
        ensures not { result ≡ false → self.new ≡ self.old }
    {
        let lines = self.line.as_slice();
        let Some(rows) = count_good(alloc, rules.plan.reading(), rules.bound, rules.width, lines)
        else {
            return false;
        };
        let Ok(feeds) = more_feeds(self.tally.feeds, lines) else {
            return false;
        };
        if rows > MOST_ROWS || self.tally.rows > MOST_ROWS - rows {
            return false;
        }
        if self.ahead.put(lines).is_err() {
            return false;
        }
        self.tally.rows += rows;
        self.tally.feeds = feeds;
        true
    }

    /// Goes on to the end of the line at hand, and over it, or to the end of what was read. There are such bytes.
    pub(crate) fn step(&mut self, alloc: Global, rules: &Rules<'_>) -> Result<(), Halt>
        requires some { 0 < length self.old.pending }
        requires ready { IsReady rules.now self.old }
        ensures ready { IsReady rules.now self.new }
        ensures sifts { Sifts rules.now self.old self.new }
        ensures less { OnOk result (length self.new.pending < length self.old.pending) }
        ensures too_many { result ≡ Err halt.TooMany → is_some self.new.tally.first ≡ true }
        ensures many { result ≡ Err halt.TooMany → (o : Opened) (left : Option (List ℕ)) → AreRules o rules.now → IsOpen o left rules.now self.old → HasTooMany o }
        ensures long { result ≡ Err halt.Long → MOST_RECORD_BYTES < length self.new.line.items }
    {
        let end = line_end(self.pending.left(), self.place);
        self.line.extend_from_slice(&self.pending.left()[..end.at])?;
        self.pending.skip(end.at);
        self.place = end.place;
        if self.line.len() > MOST_RECORD_BYTES {
            return Err(Halt::Long);
        }
        if self.pending.is_empty() {
            return Ok(());
        }
        self.close_line(alloc, rules)?;
        self.begin_line();
        Ok(())
    }

    /// Begins a line, with the next byte, which is the end of the line before.
    fn begin_line(&mut self)
        requires some { 0 < length self.old.pending }
        requires line { 0 < length self.old.line.items }
        ensures same { self.new ≡ record self.old { line = self.new.line; place = self.new.place; pending = drop 1 self.old.pending } }
        ensures line { self.new.line.items ≡ take 1 self.old.pending }
        ensures place { self.new.place ≡ place_after self.old.place (take 1 self.old.pending) }
    {
        let byte = self.pending.left()[0];
        self.pending.skip(1);
        self.line.truncate(1);
        self.line[0] = byte;
        self.place = scanned(&[byte], self.place);
    }

    /// Judges the line at hand, counts it, and puts what is left of it behind the lines before it. If that fails nothing has
    /// changed, but that the first row that is refused may be known now.
    pub(crate) fn close_line(&mut self, alloc: Global, rules: &Rules<'_>) -> Result<(), Halt>
        requires ready { IsReady rules.now self.old }
        ensures same { self.new ≡ record self.old { ahead = self.new.ahead; tally = self.new.tally } }
        ensures ahead { OnOk result (self.new.ahead ≡ self.old.ahead ++ line_left (keeps rules.now) self.old.line.items) }
        ensures counts { OnOk result (Counts rules.now self.old.line.items self.old.tally self.new.tally) }
        ensures feeds { OnOk result (self.new.tally.feeds ≡ self.old.tally.feeds + count_feeds self.old.line.items) }
        ensures few { self.new.tally.feeds ≤ 2 ^ 60 }
        ensures err { OnErr result (self.new.ahead ≡ self.old.ahead) }
        ensures not { OnErr result (CountsNot rules.now self.old.line.items self.old.tally self.new.tally) }
        ensures not_feeds { OnErr result (self.new.tally.feeds ≡ self.old.tally.feeds) }
        ensures too_many { result ≡ Err halt.TooMany → is_some self.new.tally.first ≡ true }
        ensures many { result ≡ Err halt.TooMany → IsOneTooMany rules.now self.old.line.items self.old.tally }
        ensures why { result ≡ Err halt.Long → ⊥ }
    {
        if self.tally.rows >= MOST_ROWS {
            return Err(Halt::Memory);
        }
        let line = self.line.as_slice();
        let feeds = more_feeds(self.tally.feeds, line)?;
        match judge(alloc, rules.plan.reading(), rules.bound, rules.width, line)? {
            Judged::Nothing => self.ahead.put(line)?,
            Judged::Good => {
                self.ahead.put(line)?;
                self.tally.rows += 1;
            }
            Judged::Refused(why) => {
                self.tally.note(alloc, rules, line, why)?;
                self.ahead.put(&line[..1])?;
                self.tally.rows += 1;
                self.tally.count += 1;
            }
        }
        self.tally.feeds = feeds;
        Ok(())
    }
}

impl Tally {
    /// Makes what is said of the row of a line, which comes after those that were counted and is refused, unless there was one
    /// before.
    fn know(
        &mut self,
        alloc: Global,
        rules: &Rules<'_>,
        line: &[u8],
        why: Refusal,
    ) -> Result<(), AllocError>
        requires begins { BeginsLine line.now }
        requires one { length (records_as rules.now.plan.now.reading line.now) ≡ 1 }
        requires header { length (records_as rules.now.plan.now.reading rules.now.header.now) ≡ 1 }
        requires cause { refusal rules.now.bound.now rules.now.width (record_at (records_as rules.now.plan.now.reading line.now) 0) ≡ Some why }
        requires feeds { self.old.feeds ≤ 2 ^ 60 }
        requires rows { self.old.rows < 2 ^ 50 }
        ensures same { self.new ≡ record self.old { first = self.new.first } }
        ensures not { CountsNot rules.now line.now self.old self.new }
        ensures some { OnOk result (is_some self.new.first ≡ true) }
    {
        if self.first.is_some() {
            return Ok(());
        }
        self.first = Some(refused_row(alloc, rules, line, self.rows + 1, self.feeds, why)?);
        Ok(())
    }

    /// Notes the row of a line, which comes after those that were counted: it is refused. Fails if no more may be left out.
    fn note(
        &mut self,
        alloc: Global,
        rules: &Rules<'_>,
        line: &[u8],
        why: Refusal,
    ) -> Result<(), Halt>
        requires begins { BeginsLine line.now }
        requires one { length (records_as rules.now.plan.now.reading line.now) ≡ 1 }
        requires header { length (records_as rules.now.plan.now.reading rules.now.header.now) ≡ 1 }
        requires cause { refusal rules.now.bound.now rules.now.width (record_at (records_as rules.now.plan.now.reading line.now) 0) ≡ Some why }
        requires feeds { self.old.feeds ≤ 2 ^ 60 }
        requires rows { self.old.rows < 2 ^ 50 }
        ensures same { self.new ≡ record self.old { first = self.new.first } }
        ensures not { CountsNot rules.now line.now self.old self.new }
        ensures some { OnOk result (is_some self.new.first ≡ true) }
        ensures less { OnOk result (self.old.count < rules.now.most) }
        ensures too_many { result ≡ Err halt.TooMany → is_some self.new.first ≡ true }
        ensures many { result ≡ Err halt.TooMany → IsOneTooMany rules.now line.now self.old }
        ensures why { result ≡ Err halt.Long → ⊥ }
    {
        self.know(alloc, rules, line, why)?;
        if self.count >= rules.most {
            return Err(Halt::TooMany);
        }
        Ok(())
    }
}

/// What is said of the row of a line, which has this number and is refused. This many line feeds come before the line.
fn refused_row(
    alloc: Global,
    rules: &Rules<'_>,
    line: &[u8],
    row: u64,
    feeds: u64,
    why: Refusal,
) -> Result<RefusedRow, AllocError>
    requires begins { BeginsLine line.now }
    requires one { length (records_as rules.now.plan.now.reading line.now) ≡ 1 }
    requires header { length (records_as rules.now.plan.now.reading rules.now.header.now) ≡ 1 }
    requires feeds { feeds ≤ 2 ^ 60 }
    ensures { IfOk result (λ r. AreOfLine rules.now line.now row feeds why r) }
{
    let reading = rules.plan.reading();
    let header = one_record(alloc, reading, rules.header)?;
    let fields = one_record(alloc, reading, line)?;
    let mut said = row_says(
        alloc,
        rules.plan,
        rules.bound,
        &header.find(0),
        &fields.find(0),
        why,
    )?;
    let place = place_in_lines(alloc, line, 0, true, feeds)?;
    said.push_str(place.quote.as_str())?;
    Ok(RefusedRow {
        row,
        line: place.line,
        why,
        header: header_line(alloc, rules)?,
        said,
    })
}

/// The records of bytes that have one.
fn one_record(alloc: Global, reading: &Reading, bytes: &[u8]) -> Result<RowStore, AllocError>
    ensures { IfOk result (λ store. store ≡ records_as reading.now bytes.now) }
{
    match rows_as(alloc, reading, bytes) {
        Ok(store) => Ok(store),
        Err(_) => Err(AllocError),
    }
}

/// The line of the header as it is in the input.
fn header_line(alloc: Global, rules: &Rules<'_>) -> Result<Vec<u8>, AllocError>
    ensures { IfOk result (λ line. line.items ≡ map (exchanged rules.now.plan.now.reading.separator) rules.now.header.now) }
{
    let mut line = Vec::from_slice(alloc, rules.header)?;
    exchange(line.as_mut_slice(), rules.plan.reading().separator);
    Ok(line)
}
