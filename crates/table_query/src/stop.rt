//! Why a query has no table: its status and its line.

ghost use Rattle.std.specs.Prelude.{◌≡◌, ◌++◌, map};
ghost use Rattle.std.specs.List.{concat};
ghost use Rattle.answer_text.specs.Lines.{IsSaid, line};
ghost use Rattle.table_query.specs.Stops.{stop_of_parsing, stop_of_reading, stop_of_words, stop_status, stop_text, text_of};
ghost use Rattle.table_query.specs.declared.stop.Stop.TheVariants as stop;

use crate::wanted::Wanted;
use answer_text::{MISUSED, NO_MEMORY, READ_FAULT, REFUSED, TOO_LARGE, WRITE_FAULT, write_pieces};
use csv_rows::{ReadAnswer, RowsAnswer};
use par_io::Sink;
use plan_spec::PlanAnswer;
use std::alloc::AllocError;

/// Why there is no table. A refused row has its number, and what the line says of its cause.
#[derive(Debug, Drop)]
pub enum Stop {
    Usage,
    ReadFault,
    TooManyBytes,
    NoHeader,
    TooManyRows,
    NoColumn(String),
    Refused(u64, String),
    WriteFault,
    Memory,
}

impl From<AllocError> for Stop {
    ghost from_gives = { λ _ why. why ≡ stop.Memory };

    fn from(_error: AllocError) -> Stop {
        Stop::Memory
    }
}

impl From<PlanAnswer> for Stop {
    ghost from_gives = { λ answer why. why ≡ stop_of_words answer };

    fn from(answer: PlanAnswer) -> Stop {
        match answer {
            PlanAnswer::Usage => Stop::Usage,
            PlanAnswer::Memory => Stop::Memory,
        }
    }
}

impl From<ReadAnswer> for Stop {
    ghost from_gives = { λ answer why. why ≡ stop_of_reading answer };

    fn from(answer: ReadAnswer) -> Stop {
        match answer {
            ReadAnswer::ReadFault => Stop::ReadFault,
            ReadAnswer::TooManyBytes => Stop::TooManyBytes,
            ReadAnswer::Memory => Stop::Memory,
        }
    }
}

impl From<RowsAnswer> for Stop {
    ghost from_gives = { λ answer why. why ≡ stop_of_parsing answer };

    fn from(answer: RowsAnswer) -> Stop {
        match answer {
            RowsAnswer::NoHeader => Stop::NoHeader,
            RowsAnswer::TooManyRows => Stop::TooManyRows,
            RowsAnswer::Memory => Stop::Memory,
        }
    }
}

impl Stop {
    /// The exit status.
    fn status(&self) -> u8
        ensures { result ≡ stop_status self.now }
    {
        match self {
            Stop::Usage | Stop::NoHeader | Stop::NoColumn(_) => MISUSED,
            Stop::Refused(_, _) => REFUSED,
            Stop::ReadFault => READ_FAULT,
            Stop::WriteFault => WRITE_FAULT,
            Stop::Memory => NO_MEMORY,
            Stop::TooManyBytes | Stop::TooManyRows => TOO_LARGE,
        }
    }

    /// What its line says, in pieces: of a refused row it is what comes after the row's number.
    fn text(&self, wanted: Wanted) -> (&str, &str)
        ensures { result.0.now ++ result.1.now ≡ text_of wanted self.now }
    {
        match self {
            Stop::Usage => ("", wanted.usage()),
            Stop::ReadFault => ("read fault", ""),
            Stop::TooManyBytes => ("more than 67108864 bytes", ""),
            Stop::NoHeader => ("no header", ""),
            Stop::TooManyRows => ("more than 4194304 rows", ""),
            Stop::NoColumn(name) => ("no column ", name.as_str()),
            Stop::Refused(_, cause) => ("", cause.as_str()),
            Stop::WriteFault => ("write fault", ""),
            Stop::Memory => ("out of memory", ""),
        }
    }

    /// The pieces of its line.
    fn pieces<'a>(&'a self, wanted: Wanted, digits: &'a mut itoa::Buffer) -> [&'a str; 7]
        ensures { concat (map (λ piece. piece.now) result) ≡ line (stop_text wanted self.now) }
    {
        let (row, number, colon) = match self {
            Stop::Refused(row, _) => ("row ", digits.format(*row), ": "),
            _ => ("", "", ""),
        };
        let (text, rest) = self.text(wanted);
        ["pargather: ", row, number, colon, text, rest, "\n"]
    }

    /// Writes the line, for words that were to ask for what is wanted, and returns the status.
    pub fn end<E: Sink>(&self, wanted: Wanted, err: &mut E) -> u8
        ensures said { IsSaid (E.taken err.old) (E.taken err.new) (E.faults err.old) (E.faults err.new) (line (stop_text wanted self.now)) }
        ensures status { result ≡ stop_status self.now }
    {
        self.report(wanted, err);
        self.status()
    }

    /// Writes the line. A failed write ends it, and changes nothing else.
    fn report<E: Sink>(&self, wanted: Wanted, err: &mut E)
        ensures { IsSaid (E.taken err.old) (E.taken err.new) (E.faults err.old) (E.faults err.new) (line (stop_text wanted self.now)) }
    {
        let mut digits = itoa::Buffer::new();
        let _ = write_pieces(err, &self.pieces(wanted, &mut digits));
    }
}
