//! A source that gives the header and the good rows of another one.

ghost use Rattle.std.specs.Prelude.{◌≡◌, ◌<◌, ◌+◌, ◌⊎◌, [], ℕ, List, Option, Err, IfErr, IfOk, IsErr, None, OnOk, Some, false, is_some, length, true};
ghost use Rattle.std.specs.Io.{ReadsAtMost};
ghost use Rattle.std.specs.Io.KnownBytes.{IsAtEnd, Keeps, ReadConsumes};
ghost use Rattle.par_io.specs.Faults.{HasCause, one_more};
ghost use Rattle.row_windows.specs.declared.window.TheConstants.{MOST_RECORD_BYTES};
ghost use Rattle.stream_groups.specs.Stops.{IsStopOfLong, Tells};
ghost use Rattle.stream_groups.specs.Ways.{of_text};
ghost use Rattle.stream_groups.specs.declared.stop.Stop.TheVariants as stop;
ghost use Rattle.good_groups.specs.Counted.{AreRules, HasTooMany};
ghost use Rattle.good_groups.specs.Good.{IsLeftOut, NamesIfNone};
ghost use Rattle.good_groups.specs.Opened.{Opened};
ghost use Rattle.good_groups.specs.Sifting.{GoesOn, IsOpen, IsReady, IsSifting, Sifts, sifter_left, sifting_left};
ghost use Rattle.good_groups.specs.declared.sifter.Halt.TheVariants as halt;
ghost use Rattle.good_groups.specs.declared.sifter.Rules.{Rules};

use crate::origin::Origin;
use crate::reading::LeftOut;
use crate::sifter::{Halt, MOST_ROWS, Rules, Sifter};
use crate::tally::Tally;
use par_io::{Failed, Source};
use row_windows::WindowAnswer;
use std::alloc::Global;
use std::marker::{Model, PhantomData};
use stream_groups::{Stop, stop_of_window};

/// The most line feeds of a source: 2^60. A source with more of them is answered as out of memory.
const MOST_FEEDS: u64 = 1_152_921_504_606_846_976;

/// A text that is being sifted; whether it is at its end; why it goes no further, if so; and how often a read failed therefore.
#[derive(Drop)]
pub(crate) struct Sifting {
    pub(crate) sifter: Sifter,
    pub(crate) is_done: bool,
    pub(crate) halt: Option<Halt>,
    pub(crate) lacks: u64,
}

/// A source after its header, and what was read of it.
#[derive(Drop)]
pub(crate) struct Sieve<'a, 'b, S: Source, I: Origin> {
    pub(crate) source: &'a mut S,
    pub(crate) alloc: Global,
    pub(crate) rules: Rules<'b>,
    pub(crate) sifting: Sifting,
    pub(crate) origin: PhantomData<I>,
}

impl Sifting {
    /// Gives bytes that are left, if there are any after some pieces more were read; none at the end of the source.
    fn give<S: Source>(
        &mut self,
        alloc: Global,
        rules: &Rules<'_>,
        source: &mut S,
        buf: &mut [u8],
    ) -> Result<usize, Failed>
        requires room { 0 < length buf.old }
        requires ready { self.old.is_done ≡ false → IsReady rules.now self.old.sifter }
        ensures bound { ReadsAtMost result buf.new }
        ensures bytes { (o : Opened) → AreRules o rules.now → IsSifting o (S.left source.old) rules.now self.old → ReadConsumes (sifting_left rules.now (S.left source.old) self.old) (sifting_left rules.now (S.left source.new) self.new) result buf.new }
        ensures sifting { (o : Opened) → AreRules o rules.now → IsSifting o (S.left source.old) rules.now self.old → IsSifting o (S.left source.new) rules.now self.new }
        ensures cause { HasCause (S.faults source.old + self.old.lacks) (S.faults source.new + self.new.lacks) result }
    {
        'pieces: for _ in 0..u64::MAX {
            if self.is_done || !self.sifter.ahead.is_empty() {
                return Ok(self.sifter.ahead.give(buf));
            }
            self.more(alloc, rules, source)?;
        }
        self.stop(Halt::Memory)?;
        Err(Failed)
    }

    /// Reads a piece more, and sifts it.
    fn more<S: Source>(
        &mut self,
        alloc: Global,
        rules: &Rules<'_>,
        source: &mut S,
    ) -> Result<(), Failed>
        requires going { self.old.is_done ≡ false }
        requires ready { IsReady rules.now self.old.sifter }
        ensures ready { self.new.is_done ≡ false → IsReady rules.now self.new.sifter }
        ensures goes { (o : Opened) → AreRules o rules.now → GoesOn o rules.now (S.left source.old) (S.left source.new) self.old self.new }
        ensures cause { HasCause (S.faults source.old + self.old.lacks) (S.faults source.new + self.new.lacks) result }
    {
        if let Some(halt) = self.halt {
            return self.stop(halt);
        }
        if !refill(&mut self.sifter, source)? {
            return self.close(alloc, rules);
        }
        match sift(&mut self.sifter, alloc, rules) {
            Ok(()) => Ok(()),
            Err(halt) => self.stop(halt),
        }
    }

    /// Ends the last line.
    fn close(&mut self, alloc: Global, rules: &Rules<'_>) -> Result<(), Failed>
        requires going { self.old.is_done ≡ false }
        requires ready { IsReady rules.now self.old.sifter }
        requires none { self.old.sifter.pending ≡ [] }
        requires open { self.old.halt ≡ None }
        ensures ready { self.new.is_done ≡ false → IsReady rules.now self.new.sifter }
        ensures goes { (o : Opened) (left : Option (List ℕ)) → IsAtEnd left → AreRules o rules.now → GoesOn o rules.now left left self.old self.new }
        ensures cause { HasCause self.old.lacks self.new.lacks result }
    {
        match self.sifter.close_line(alloc, rules) {
            Ok(()) => {
                self.is_done = true;
                Ok(())
            }
            Err(halt) => self.stop(halt),
        }
    }

    /// Goes no further, for this reason.
    fn stop(&mut self, halt: Halt) -> Result<(), Failed>
        ensures same { self.new ≡ record self.old { halt = Some halt; lacks = one_more self.old.lacks } }
        ensures fails { IsErr result }
        ensures cause { HasCause self.old.lacks self.new.lacks result }
    {
        self.halt = Some(halt);
        self.lacks = self.lacks.saturating_add(1);
        Err(Failed)
    }

    /// Why it goes no further.
    pub(crate) fn why(self, alloc: Global) -> Stop
        ensures why { (o : Opened) (left : Option (List ℕ)) (r : Rules) → AreRules o r → IsSifting o left r self → Tells (of_text o.query.reading) o.query o.from result }
        ensures many { (o : Opened) (left : Option (List ℕ)) (r : Rules) → AreRules o r → IsSifting o left r self → NamesIfNone (of_text o.query.reading) o.query o.most o.from result }
        ensures read_fault { (o : Opened) (left : Option (List ℕ)) (r : Rules) → IsSifting o left r self → result ≡ stop.ReadFault → self.lacks ≡ 0 }
        ensures no_write { (result ≡ stop.WriteFault) → ⊥ }
    {
        let Sifting { sifter, halt, .. } = self;
        let Sifter { line, tally, .. } = sifter;
        let Tally {
            rows,
            feeds,
            first,
            ..
        } = tally;
        match halt {
            None => Stop::ReadFault,
            Some(Halt::Memory) => Stop::Memory,
            Some(Halt::TooMany) => match first {
                Some(first) => Stop::Refused(first),
                None => Stop::Memory,
            },
            Some(Halt::Long) => match first {
                Some(first) => Stop::Refused(first),
                None => long_stop(alloc, rows, feeds, line.as_slice()),
            },
        }
    }
}

impl Sifting {
    /// How many rows were left out, and the first of them, if the source is at its end. If it isn't, or memory ran out, there
    /// is no such answer.
    pub(crate) fn end(self) -> Result<Option<LeftOut>, Stop>
        ensures left_out { IfOk result (λ out. (o : Opened) (left : Option (List ℕ)) (r : Rules) → AreRules o r → IsSifting o left r self → IsLeftOut (of_text o.query.reading) o.query o.most o.from out) }
        ensures why { IfErr result (λ why. why ≡ stop.Memory) }
    {
        let Sifting {
            sifter,
            is_done,
            ..
        } = self;
        if !is_done {
            return Err(Stop::Memory);
        }
        let Sifter { tally, .. } = sifter;
        let Tally { count, first, .. } = tally;
        if count == 0 {
            return Ok(None);
        }
        match first {
            Some(first) => Ok(Some(LeftOut { count, first })),
            None => Err(Stop::Memory),
        }
    }
}

/// The reason that a line is too long, which comes after this many rows and line feeds.
fn long_stop(alloc: Global, rows: u64, feeds: u64, line: &[u8]) -> Stop
    ensures { (IsStopOfLong (rows + 1) feeds line.now result) ⊎ (result ≡ stop.Memory) }
{
    if rows >= MOST_ROWS || feeds > MOST_FEEDS {
        return Stop::Memory;
    }
    stop_of_window(alloc, WindowAnswer::LongRecord, rows + 1, feeds, line)
}

/// Reads a piece more unless there are bytes that were read. Says whether there are some now.
fn refill<S: Source>(sifter: &mut Sifter, source: &mut S) -> Result<bool, Failed>
    ensures same { sifter.new ≡ record sifter.old { pending = sifter.new.pending } }
    ensures left { (r : Rules) → Keeps (sifter_left r (S.left source.old) sifter.old) (sifter_left r (S.left source.new) sifter.new) }
    ensures counts { (r : Rules) (o : Opened) → IsOpen o (S.left source.old) r sifter.old → IsOpen o (S.left source.new) r sifter.new }
    ensures end { IfOk result (λ some. some ≡ false → (sifter.new.pending ≡ []) × IsAtEnd (S.left source.new)) }
    ensures cause { HasCause (S.faults source.old) (S.faults source.new) result }
{
    if !sifter.pending.is_empty() {
        return Ok(true);
    }
    sifter.pending.read(source)
}

/// Sifts all bytes that were read.
fn sift(sifter: &mut Sifter, alloc: Global, rules: &Rules<'_>) -> Result<(), Halt>
    requires ready { IsReady rules.now sifter.old }
    ensures ready { IsReady rules.now sifter.new }
    ensures sifts { Sifts rules.now sifter.old sifter.new }
    ensures all { OnOk result (sifter.new.pending ≡ []) }
    ensures too_many { result ≡ Err halt.TooMany → is_some sifter.new.tally.first ≡ true }
    ensures many { result ≡ Err halt.TooMany → (o : Opened) (left : Option (List ℕ)) → AreRules o rules.now → IsOpen o left rules.now sifter.old → HasTooMany o }
    ensures long { result ≡ Err halt.Long → MOST_RECORD_BYTES < length sifter.new.line.items }
{
    sifter.leap(alloc, rules);
    'lines: while !sifter.pending.is_empty() {
        sifter.step(alloc, rules)?;
    }
    Ok(())
}

impl<'a, 'b, S: Source, I: Origin> Model for Sieve<'a, 'b, S, I> {
    ghost use Rattle.std.specs.Prelude.{◌+◌};
    ghost use Rattle.good_groups.specs.Sieve.{IsSieve, Seen};
    ghost use Rattle.good_groups.specs.Sifting.{sifting_left};

    ghost Value = { Seen };

    ghost view = { λ s. record { left = sifting_left s.rules (S.left s.source.now) s.sifting; faults = S.faults s.source.now + s.sifting.lacks } };

    ghost invariant = { λ s. IsSieve I.start s.source.ghost_name (S.left s.source.now) s.rules s.sifting };
}

impl<'a, 'b, S: Source, I: Origin> Source for Sieve<'a, 'b, S, I> {
    ghost left = { λ s. s.left };

    ghost faults = { λ s. s.faults };

    /// What is left of the source below.
    fn read(&mut self, buf: &mut [u8]) -> Result<usize, Failed> {
        self.sifting.give(self.alloc, &self.rules, self.source, buf)
    }
}
