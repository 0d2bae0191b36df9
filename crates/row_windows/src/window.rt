//! A stretch of the text of a source: whole lines, and the beginning of the line behind them.

ghost use Rattle.std.specs.Prelude.{◌≡◌, ◌<◌, ◌≤◌, ◌++◌, ◌+◌, ◌^◌, ℕ, List, [], IfErr, IfOk, OnErr, OnOk, drop, false, length, take, true, vec_len};
ghost use Rattle.std.specs.Io.KnownBytes.{Consumes, IsAtEnd};
ghost use Rattle.par_io.specs.Faults.{Rose};
ghost use Rattle.row_windows.specs.Seams.{IsSeam, NoCut};
ghost use Rattle.row_windows.specs.Stretch.{Fills, IsLongWindow, IsLostWindow, LosesRead};
ghost use Rattle.csv.specs.Reading.{strip_bom};
ghost use Rattle.row_windows.specs.declared.window.Found.TheVariants as found;
ghost use Rattle.row_windows.specs.declared.window.WindowAnswer.TheVariants as answer;

use crate::cut::cut_in;
use crate::read::read_to;
use csv_rows::Reading;
use par_io::Source;
use std::alloc::{AllocError, Global};
use std::marker::Model;

/// The most bytes that a record has, with an end of line in front of it: 64 MiB.
pub const MOST_RECORD_BYTES: usize = 67_108_864;

/// Why a window was not filled: a read failed, a record is longer than [`MOST_RECORD_BYTES`], or memory ran out.
#[derive(Debug, Drop)]
pub enum WindowAnswer {
    ReadFault,
    LongRecord,
    Memory,
}

/// What a text has: lines that can be cut off, with whether they are the last, or no place to cut.
#[derive(Drop)]
enum Found {
    Lines(bool),
    NoCut,
}

/// The line of the header, whole lines, and the rest that was read behind them; and how the fields of its table are read,
/// which changes nothing here. The buffer is kept from one filling to the next, with all of its room.
#[derive(Drop)]
pub struct Window {
    reading: Reading,
    text: Vec<u8>,
    /// Where the line of the header ends.
    header: usize,
    /// Where the whole lines end.
    end: usize,
    /// Where the bytes end that were read. What is behind is room.
    filled: usize,
}

impl Model for Window {
    ghost use Rattle.row_windows.specs.Stretch.{IsWindow, Stretch, stretch_of};

    ghost Value = { Stretch };

    ghost view = { λ w. stretch_of w.reading w.text.items w.header w.end w.filled };

    ghost invariant = { λ w. IsWindow w.text.items w.header w.end w.filled };
}

impl Window {
    /// A window of no bytes, with the reading of its table; takes no memory.
    pub fn new(alloc: Global, reading: &Reading) -> Window
        ensures reading { result.reading ≡ reading.now }
        ensures header { result.header ≡ [] }
        ensures lines { result.lines ≡ [] }
        ensures rest { result.rest ≡ [] }
    {
        Window {
            reading: *reading,
            text: Vec::new(alloc),
            header: 0,
            end: 0,
            filled: 0,
        }
    }

    /// Makes this window begin as the one behind another: with its header, and its rest as what was read so far. Copies
    /// both, which are short. Its table is read likewise. On `Err` it has no bytes.
    pub fn follow(&mut self, before: &Window) -> Result<(), AllocError>
        ensures reading { OnOk result (self.new.reading ≡ before.now.reading) }
        ensures header { OnOk result (self.new.header ≡ before.now.header) }
        ensures lines { OnOk result (self.new.lines ≡ []) }
        ensures rest { OnOk result (self.new.rest ≡ before.now.rest) }
    {
        self.reading = before.reading;
        self.header = 0;
        self.end = 0;
        self.filled = 0;
        let header = &before.text.as_slice()[..before.header];
        let rest = &before.text.as_slice()[before.end..before.filled];
        put(&mut self.text, 0, header)?;
        put(&mut self.text, header.len(), rest)?;
        self.header = header.len();
        self.end = header.len();
        self.filled = header.len() + rest.len();
        Ok(())
    }

    /// Reads on, behind what was read already, until there are at least this many bytes behind the header, or the
    /// source is at its end, and finds the last place among them at which the text can be cut. If there is none it reads
    /// on, up to as many bytes as a record may have, and cuts at the first place that there is. Says whether these lines
    /// are the last, and then there is no rest. If a record is too long, what was read of it is the rest; on any other `Err`
    /// what was read is lost. The time is linear in the bytes, and so is
    /// the memory, at most twice the bytes.
    pub fn fill<S: Source>(&mut self, source: &mut S, size: usize) -> Result<bool, WindowAnswer>
        requires { self.old.lines ≡ [] }
        ensures reading { OnOk result (self.new.reading ≡ self.old.reading) }
        ensures header { OnOk result (self.new.header ≡ self.old.header) }
        ensures reads { OnOk result (Fills (S.left source.old) (S.left source.new) self.old.rest (self.new.lines ++ self.new.rest)) }
        ensures last { IfOk result (λ last. last ≡ true → (self.new.rest ≡ []) × IsAtEnd (S.left source.new)) }
        ensures seam { IfOk result (λ last. last ≡ false → IsSeam self.new.lines self.new.rest × (0 < length self.new.lines)) }
        ensures short { OnOk result (length self.new.lines ≤ MOST_RECORD_BYTES) }

        // Why it answers an error.
        ensures read_fault { result ≡ Err answer.ReadFault → Rose (S.faults source.old) (S.faults source.new) }
        ensures lost { result ≡ Err answer.ReadFault → IsLostWindow (S.left source.old) (S.left source.new) self.old }
        ensures long { result ≡ Err answer.LongRecord → IsLongWindow (S.left source.old) (S.left source.new) self.old self.new }
        ensures faults { S.faults source.old ≤ S.faults source.new }
    {
        let mut goal = size.clamp(1, MOST_RECORD_BYTES + 1);
        let mut begins_long = false;
        'longer: while goal <= MOST_RECORD_BYTES {
            match self.read_on(source, goal, begins_long) {
                Ok(Found::Lines(last)) => return Ok(last),
                Ok(Found::NoCut) => {
                    goal *= 2;
                    begins_long = true;
                }
                Err(why) => return Err(why),
            }
        }
        match self.read_on(source, MOST_RECORD_BYTES + 1, begins_long) {
            Ok(Found::Lines(last)) => Ok(last),
            Ok(Found::NoCut) => Err(WindowAnswer::LongRecord),
            Err(why) => Err(why),
        }
    }

    /// The same, but that it answers if there is no place to cut among this many bytes. Where more were read already, these
    /// are not the last lines.
    fn read_on<S: Source>(
        &mut self,
        source: &mut S,
        goal: usize,
        begins_long: bool,
    ) -> Result<Found, WindowAnswer>
        requires lines { self.old.lines ≡ [] }
        requires goal { goal ≤ MOST_RECORD_BYTES + 1 }
        ensures reading { OnOk result (self.new.reading ≡ self.old.reading) }
        ensures header { OnOk result (self.new.header ≡ self.old.header) }
        ensures reads { OnOk result (Fills (S.left source.old) (S.left source.new) self.old.rest (self.new.lines ++ self.new.rest)) }
        ensures last { IfOk result (λ r. r ≡ found.Lines true → (self.new.rest ≡ []) × IsAtEnd (S.left source.new)) }
        ensures seam { IfOk result (λ r. r ≡ found.Lines false → IsSeam self.new.lines self.new.rest × (0 < length self.new.lines)) }
        ensures no_cut { IfOk result (λ r. r ≡ found.NoCut → (self.new.lines ≡ []) × (goal ≤ length self.new.rest) × (goal ≡ MOST_RECORD_BYTES + 1 → NoCut (strip_bom self.new.rest))) }
        ensures short { OnOk result (length self.new.lines ≤ MOST_RECORD_BYTES) }
        ensures read_fault { result ≡ Err answer.ReadFault → Rose (S.faults source.old) (S.faults source.new) }
        ensures lost { OnErr result (LosesRead (S.left source.old) (S.left source.new) (length self.old.rest) goal) }
        ensures faults { S.faults source.old ≤ S.faults source.new }
        ensures why { IfErr result (λ why. (why ≡ answer.LongRecord) → ⊥) }
    {
        let read = match read_to(source, &mut self.text, self.filled, self.header + goal) {
            Ok(read) => read,
            Err(why) => return Err(why),
        };
        self.filled = read.upto;
        let body = &self.text.as_slice()[self.header..read.upto];
        if read.ended && body.len() <= goal.min(MOST_RECORD_BYTES) {
            self.end = read.upto;
            return Ok(Found::Lines(true));
        }
        match cut_in(body, goal, begins_long) {
            Some(at) => {
                self.end = self.header + at;
                Ok(Found::Lines(false))
            }
            None => Ok(Found::NoCut),
        }
    }

    /// Takes this many bytes at the front of the lines as the line of the header, of windows that follow too.
    pub fn set_header(&mut self, at: usize)
        requires none { self.old.header ≡ [] }
        requires within { at ≤ length self.old.lines }
        ensures reading { self.new.reading ≡ self.old.reading }
        ensures header { self.new.header ≡ take at self.old.lines }
        ensures lines { self.new.lines ≡ drop at self.old.lines }
        ensures rest { self.new.rest ≡ self.old.rest }
    {
        self.header = at;
    }

    /// How the fields of its table are read.
    pub fn reading(&self) -> &Reading
        ensures { result.now ≡ self.now.reading }
    {
        &self.reading
    }

    /// How many bytes its buffer has.
    pub fn room(&self) -> usize {
        self.text.len()
    }

    /// How many bytes of the source it has: its lines and the rest.
    pub fn read_bytes(&self) -> usize {
        self.filled - self.header
    }

    /// The line of the header.
    pub fn header(&self) -> &[u8]
        ensures { result.now ≡ self.now.header }
    {
        &self.text.as_slice()[..self.header]
    }

    /// The whole lines behind it.
    pub fn lines(&self) -> &[u8]
        ensures { result.now ≡ self.now.lines }
    {
        &self.text.as_slice()[self.header..self.end]
    }

    /// What was read behind these.
    pub fn rest(&self) -> &[u8]
        ensures { result.now ≡ self.now.rest }
    {
        &self.text.as_slice()[self.end..self.filled]
    }

    /// The header and the whole lines behind it: a table.
    pub fn table(&self) -> &[u8]
        ensures { result.now ≡ self.now.header ++ self.now.lines }
    {
        &self.text.as_slice()[..self.end]
    }
}

/// Puts bytes at a place of a buffer, which is made longer where it has no room for them.
fn put(text: &mut Vec<u8>, at: usize, bytes: &[u8]) -> Result<(), AllocError>
    requires within { at ≤ vec_len text.old }
    requires few { at + length bytes.now < 2 ^ 63 }
    ensures front { take at text.new.items ≡ take at text.old.items }
    ensures room { OnOk result (at + length bytes.now ≤ vec_len text.new) }
    ensures put { OnOk result (take (length bytes.now) (drop at text.new.items) ≡ bytes.now) }
{
    let end = at + bytes.len();
    if text.len() < end {
        text.resize(end, 0)?;
    }
    text.as_mut_slice()[at..end].copy_from_slice(bytes);
    Ok(())
}
