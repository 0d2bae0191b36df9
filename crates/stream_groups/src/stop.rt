//! Why there is no table: its status and its line.

ghost use Rattle.std.specs.Prelude.{◌≡◌, ◌++◌, codes, map};
ghost use Rattle.std.specs.List.{concat};
ghost use Rattle.answer_text.specs.Lines.{IsSaid};
ghost use Rattle.stream_groups.specs.Lines.{line};
ghost use Rattle.stream_groups.specs.Stops.{row_front_of, stop_of_words, stop_says};
ghost use Rattle.stream_groups.specs.declared.stop.Stop.TheVariants as stop;

use answer_text::{MISUSED, NO_MEMORY, READ_FAULT, REFUSED, WRITE_FAULT, write_pieces};
use par_io::{Failed, Sink};
use par_model::Refusal;
use plan_spec::PlanAnswer;
use std::alloc::AllocError;

/// A record is longer than 64 MiB.
pub const LONG_RECORD: u8 = 7;

/// The first row of all that is refused.
#[derive(Debug, Drop)]
pub struct RefusedRow {
    /// Its number over the whole input: the header's is 0.
    pub row: u64,
    /// The line in which it begins.
    pub line: u64,
    /// Its cause, and the place of the aggregate or the filter.
    pub why: Refusal,
    /// The line of the header, or its lines: one record.
    pub header: Vec<u8>,
    /// What is said of it.
    pub said: String,
}

/// Why there is no table. A record that is too long has its number over the whole input, of which the header's is 0, the line
/// in which it begins, and what is said of it. A column that the header lacks, or has twice, has what the line says.
#[derive(Debug, Drop)]
pub enum Stop {
    Usage,
    ReadFault,
    NoHeader,
    NoColumn(String),
    TwiceColumn(String),
    LongRecord(u64, u64, String),
    Refused(RefusedRow),
    WriteFault,
    Memory,
}

impl From<AllocError> for Stop {
    ghost from_gives = { λ _ why. why ≡ stop.Memory };

    fn from(_error: AllocError) -> Stop {
        Stop::Memory
    }
}

impl From<Failed> for Stop {
    ghost from_gives = { λ _ why. why ≡ stop.WriteFault };

    fn from(_error: Failed) -> Stop {
        Stop::WriteFault
    }
}

impl From<PlanAnswer> for Stop {
    ghost from_gives = { λ answer why. why ≡ stop_of_words answer };

    fn from(answer: PlanAnswer) -> Stop {
        match answer {
            PlanAnswer::Usage => Stop::Usage,
            PlanAnswer::Memory => Stop::Memory,
        }
    }
}

impl Stop {
    /// The exit status.
    fn status(&self) -> u8
        ensures { result ≡ (stop_says self.now).0 }
    {
        match self {
            Stop::Usage | Stop::NoHeader | Stop::NoColumn(_) | Stop::TwiceColumn(_) => MISUSED,
            Stop::Refused(_) => REFUSED,
            Stop::ReadFault => READ_FAULT,
            Stop::WriteFault => WRITE_FAULT,
            Stop::Memory => NO_MEMORY,
            Stop::LongRecord(_, _, _) => LONG_RECORD,
        }
    }

    /// The pieces of its line.
    fn pieces<'a>(
        &'a self,
        row_digits: &'a mut itoa::Buffer,
        line_digits: &'a mut itoa::Buffer,
    ) -> [&'a str; 8]
        ensures { concat (map (λ piece. piece.now) result) ≡ line (stop_says self.now).1 }
    {
        match self {
            Stop::Usage => plain(
                "usage: parstream [--group COLUMNS] --agg ITEMS [--where FILTER].. [--decimals PLACES] [--separator BYTE] [--null TEXTS] [--trim] [--workers N]",
            ),
            Stop::ReadFault => plain("read fault"),
            Stop::NoHeader => plain("no header"),
            Stop::NoColumn(said) => plain(said.as_str()),
            Stop::TwiceColumn(said) => plain(said.as_str()),
            Stop::LongRecord(row, line, said) => of_row(
                row_digits.format(*row),
                line_digits.format(*line),
                said.as_str(),
            ),
            Stop::Refused(refused) => of_row(
                row_digits.format(refused.row),
                line_digits.format(refused.line),
                refused.said.as_str(),
            ),
            Stop::WriteFault => plain("write fault"),
            Stop::Memory => plain("out of memory"),
        }
    }

    /// Writes the line, and gives the status.
    pub fn end<E: Sink>(&self, err: &mut E) -> u8
        ensures said { IsSaid (E.taken err.old) (E.taken err.new) (E.faults err.old) (E.faults err.new) (line (stop_says self.now).1) }
        ensures status { result ≡ (stop_says self.now).0 }
    {
        self.report(err);
        self.status()
    }

    /// Writes the line. A failed write ends it, and changes nothing else.
    fn report<E: Sink>(&self, err: &mut E)
        ensures { IsSaid (E.taken err.old) (E.taken err.new) (E.faults err.old) (E.faults err.new) (line (stop_says self.now).1) }
    {
        let mut row_digits = itoa::Buffer::new();
        let mut line_digits = itoa::Buffer::new();
        let _ = write_pieces(err, &self.pieces(&mut row_digits, &mut line_digits));
    }
}

/// The pieces of a line that names no row: a text.
fn plain<'a>(text: &'a str) -> [&'a str; 8]
    ensures { concat (map (λ piece. piece.now) result) ≡ line text.now }
{
    ["parstream: ", "", "", "", "", "", text, "\n"]
}

/// The pieces of a line that names a record by its number and the line in which it begins, and then has a text.
fn of_row<'a>(number: &'a str, at: &'a str, text: &'a str) -> [&'a str; 8]
    ensures { concat (map (λ piece. piece.now) result) ≡ line (row_front_of number.now at.now ++ text.now) }
{
    [
        "parstream: ",
        "row ",
        number,
        " (line ",
        at,
        "): ",
        text,
        "\n",
    ]
}
