//! A batch of windows, of which each is a piece for one participant: how it is filled.

ghost use Rattle.std.specs.Prelude.{◌≡◌, ◌≤◌, ◌+◌, ◌-◌, ◌^◌, ◌∷◌, [], Err, IfErr, IfOk, OnOk, length, min};
ghost use Rattle.par_io.specs.Faults.{Rose};
ghost use Rattle.row_windows.specs.Stretch.{IsLostWindow};
ghost use Rattle.stream_groups.specs.Before.{IsLostBatch, most_of_batch};
ghost use Rattle.stream_groups.specs.Begins.{lines_of};
ghost use Rattle.stream_groups.specs.Reading.{AddsPiece, IsFilledBatch, IsLike, IsNotFilled, MeetsLong};
ghost use Rattle.stream_groups.specs.Taken.{Takes};
ghost use Rattle.text_lines.specs.Feeds.{count_feeds};
ghost use Rattle.row_windows.specs.declared.window.WindowAnswer.TheVariants as answer;

use crate::filling::{fill, more_feeds};
use crate::taken::Taken;
use csv_rows::Reading;
use par_io::Source;
use row_windows::{Window, WindowAnswer};
use std::alloc::{AllocError, Global};
use std::mem;

/// The most pieces of a batch: each has the same part of its bytes.
const MOST_PIECES: usize = 64;

/// The first batch after the header's has this part of a whole one's bytes.
const FIRST_PART: usize = 4;

/// A window repeats the header's line: this many times its bytes are to be lines, unless the batch has fewer.
const TIMES_HEADER: usize = 4;

/// A window has at least as many bytes as the header's line, up to this many: these never have more rows than a store takes.
const MOST_FOR_HEADER: usize = 8_000_000;

/// The most line feeds of a source: 2^60. A source with more of them is answered as out of memory.
pub(crate) const MOST_FEEDS: u64 = 1_152_921_504_606_846_976;

/// The windows of a batch, in order, and what comes after them: a window with the header, no lines, and the rest that was
/// read already. And how many line feeds of the source come before the lines of the first window, and before that rest.
#[derive(Drop)]
pub(crate) struct Batch {
    pub(crate) pieces: Vec<Window>,
    pub(crate) next: Window,
    pub(crate) before: u64,
    pub(crate) feeds: u64,
}

impl Batch {
    /// No windows, and nothing that was read.
    pub(crate) fn new(alloc: Global, reading: &Reading) -> Batch {
        Batch {
            pieces: Vec::new(alloc),
            next: Window::new(alloc, reading),
            before: 0,
            feeds: 0,
        }
    }

    /// A batch of one window, before the lines of which there are this many line feeds.
    pub(crate) fn of_window(alloc: Global, window: Window, before: u64) -> Result<Batch, AllocError>
        requires { before ≤ 2 ^ 60 }
        ensures before { IfOk result (λ b. b.before ≡ before) }
        ensures feeds { IfOk result (λ b. b.feeds ≡ before + count_feeds window.lines) }
        ensures few { IfOk result (λ b. b.feeds ≤ 2 ^ 60) }
        ensures pieces { IfOk result (λ b. b.pieces.items ≡ window ∷ []) }
        ensures like { IfOk result (λ b. IsLike window b.next) }
        ensures lines { IfOk result (λ b. b.next.lines ≡ []) }
        ensures rest { IfOk result (λ b. b.next.rest ≡ window.rest) }
    {
        let mut next = Window::new(alloc, window.reading());
        next.follow(&window)?;
        let feeds = more_feeds(before, window.lines())?;
        let mut pieces = Vec::new(alloc);
        pieces.push(window)?;
        Ok(Batch {
            pieces,
            next,
            before,
            feeds,
        })
    }

    /// Makes this batch begin as the one behind another: its windows are to be filled from that one's rest on.
    pub(crate) fn follow(&mut self, before: &Batch) -> Result<(), AllocError>
        ensures like { OnOk result (IsLike before.now.next self.new.next) }
        ensures lines { OnOk result (self.new.next.lines ≡ []) }
        ensures rest { OnOk result (self.new.next.rest ≡ before.now.next.rest) }
        ensures before { OnOk result (self.new.before ≡ before.now.feeds) }
        ensures feeds { OnOk result (self.new.feeds ≡ before.now.feeds) }
    {
        self.next.follow(&before.next)?;
        self.before = before.feeds;
        self.feeds = before.feeds;
        Ok(())
    }

    /// The bytes of its windows, each with the header's line.
    pub(crate) fn bytes(&self) -> u64
        ensures { min (length (lines_of self.now.pieces.items)) (2 ^ 64 - 1) ≤ result }
    {
        let mut bytes = 0u64;
        for piece in self.pieces.as_slice() {
            bytes = bytes.saturating_add(piece.table().len() as u64);
        }
        bytes
    }

    /// Fills the batch with windows that together have some `size` bytes or more, at most 64 of them, and says whether they
    /// are the source's last. The buffers of the windows that it had are used again. If a record is too long, the windows
    /// before it are a batch, and it is met again when the next one is filled.
    pub(crate) fn fill<S: Source>(
        &mut self,
        alloc: Global,
        source: &mut S,
        size: usize,
        taken: &mut Taken,
    ) -> Result<bool, WindowAnswer>
        requires lines { self.old.next.lines ≡ [] }
        requires start { self.old.feeds ≡ self.old.before }
        requires few { self.old.feeds ≤ 2 ^ 60 }
        ensures filled { IfOk result (IsFilledBatch (S.left source.old) (S.left source.new) self.old.next self.old.before self.new) }
        ensures why { IfErr result (IsNotFilled (S.left source.old) (S.left source.new) (S.faults source.old) (S.faults source.new) self.old.next self.new.next) }
        ensures lost { result ≡ Err answer.ReadFault → IsLostBatch (S.left source.old) (S.left source.new) self.old.next.rest (most_of_batch size) }
        ensures feeds { result ≡ Err answer.LongRecord → self.new.feeds ≡ self.old.feeds }
        ensures few_feeds { self.new.feeds ≤ 2 ^ 60 }
        ensures faults { S.faults source.old ≤ S.faults source.new }
        ensures taken { Takes (S.left source.old) (S.left source.new) (S.faults source.old) (S.faults source.new) taken.old taken.new }
    {
        let mut spares = mem::replace(&mut self.pieces, Vec::new(alloc));
        for _at in 0..MOST_PIECES {
            if self.bytes() >= size as u64 && !self.pieces.is_empty() {
                return Ok(false);
            }
            let goal = goal_of(&self.next, size);
            let spare = spare_of(alloc, &mut spares, goal, self.next.reading());
            match self.add_piece(spare, source, goal, taken) {
                Ok(true) => return Ok(true),
                Ok(false) => {}
                Err(WindowAnswer::LongRecord) => {
                    if self.pieces.is_empty() {
                        return Err(WindowAnswer::LongRecord);
                    }
                    return Ok(false);
                }
                Err(why) => return Err(why),
            }
        }
        Ok(false)
    }

    /// Fills one window more, and says whether its lines are the source's last. The other window gets what comes after it.
    fn add_piece<S: Source>(
        &mut self,
        after: Window,
        source: &mut S,
        goal: usize,
        taken: &mut Taken,
    ) -> Result<bool, WindowAnswer>
        requires lines { self.old.next.lines ≡ [] }
        requires few { self.old.feeds ≤ 2 ^ 60 }
        ensures added { IfOk result (AddsPiece (S.left source.old) (S.left source.new) self.old self.new) }
        ensures long { result ≡ Err answer.LongRecord → MeetsLong (S.left source.old) (S.left source.new) self.old self.new }
        ensures few_feeds { self.new.feeds ≤ 2 ^ 60 }
        ensures read_fault { result ≡ Err answer.ReadFault → Rose (S.faults source.old) (S.faults source.new) }
        ensures lost { result ≡ Err answer.ReadFault → IsLostWindow (S.left source.old) (S.left source.new) self.old.next }
        ensures faults { S.faults source.old ≤ S.faults source.new }
        ensures taken { Takes (S.left source.old) (S.left source.new) (S.faults source.old) (S.faults source.new) taken.old taken.new }
    {
        let mut after = after;
        let last = match fill(&mut self.next, source, goal, taken) {
            Ok(last) => last,
            Err(why) => return Err(why),
        };
        // The caller's thread counts while others add the rows of the batch before.
        let feeds = match more_feeds(self.feeds, self.next.lines()) {
            Ok(feeds) => feeds,
            Err(AllocError) => return Err(WindowAnswer::Memory),
        };
        match after.follow(&self.next) {
            Ok(()) => {}
            Err(AllocError) => return Err(WindowAnswer::Memory),
        }
        self.feeds = feeds;
        let piece = mem::replace(&mut self.next, after);
        match self.pieces.push(piece) {
            Ok(()) => {}
            Err(_) => return Err(WindowAnswer::Memory),
        }
        Ok(last)
    }
}

/// How many bytes the batch after this one is to have if a whole one has this many. The first ones have fewer, and each more
/// than the one before it: so threads begin early, and few rows are added before it shows whether their groups are many.
pub(crate) fn size_after(batch: &Batch, whole: usize) -> usize
    ensures { result ≤ whole }
{
    let twice = (batch.bytes() as usize).saturating_mul(2);
    whole.min(twice.max(whole / FIRST_PART))
}

/// The bytes that the next window is to have: a part of the batch's, but not few compared with those that it repeats, or
/// has already.
fn goal_of(next: &Window, size: usize) -> usize {
    let header = next.table().len().min(MOST_FOR_HEADER);
    let times = (header * TIMES_HEADER).min(size);
    let read = next.read_bytes().min(size);
    (size / MOST_PIECES).max(header).max(times).max(read)
}

/// A window whose buffer is used again, unless that is much longer than the window is to be.
fn spare_of(alloc: Global, spares: &mut Vec<Window>, goal: usize, reading: &Reading) -> Window {
    match spares.pop() {
        Some(spare) if spare.room() / 4 <= goal => spare,
        _ => Window::new(alloc, reading),
    }
}
