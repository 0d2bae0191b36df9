//! What ends a join without a table: its status and its line.

ghost use Rattle.std.specs.Prelude.{◌≡◌, ◌++◌, map};
ghost use Rattle.std.specs.List.{concat};
ghost use Rattle.answer_text.specs.Lines.{IsSaid, line};
ghost use Rattle.join_query.specs.Stops.{stop_of_reading, stop_status, stop_text};
ghost use Rattle.join_query.specs.declared.stop.Stop.TheVariants as stop;

use crate::cause::Cause;
use answer_text::{NO_MEMORY, READ_FAULT, WRITE_FAULT, write_pieces};
use csv_rows::ReadAnswer;
use par_io::Sink;
use std::alloc::AllocError;

/// Why there is no table, or not all of it.
#[derive(Debug, Clone, Copy, PartialEq, Eq)]
pub enum Stop {
    /// The input has none.
    Because(Cause),
    /// A read of the source failed.
    ReadFault,
    /// A write of the records failed.
    WriteFault,
    /// There was no memory.
    Memory,
}

impl From<AllocError> for Stop {
    ghost from_gives = { λ _ why. why ≡ stop.Memory };

    fn from(_error: AllocError) -> Stop {
        Stop::Memory
    }
}

impl From<ReadAnswer> for Stop {
    ghost from_gives = { λ answer why. why ≡ stop_of_reading answer };

    fn from(answer: ReadAnswer) -> Stop {
        match answer {
            ReadAnswer::ReadFault => Stop::ReadFault,
            ReadAnswer::TooManyBytes => Stop::Because(Cause::TooManyBytes),
            ReadAnswer::Memory => Stop::Memory,
        }
    }
}

impl Stop {
    /// Writes the line, for a column of this name, and gives the exit status. A failed write ends the line, and changes
    /// nothing else. It takes no memory.
    pub fn end<E: Sink>(&self, name: &str, err: &mut E) -> u8
        ensures said { IsSaid (E.taken err.old) (E.taken err.new) (E.faults err.old) (E.faults err.new) (line (stop_text name.now self.now)) }
        ensures status { result ≡ stop_status self.now }
    {
        self.report(name, err);
        self.status()
    }

    /// Writes the line.
    fn report<E: Sink>(&self, name: &str, err: &mut E)
        ensures { IsSaid (E.taken err.old) (E.taken err.new) (E.faults err.old) (E.faults err.new) (line (stop_text name.now self.now)) }
    {
        let mut digits = itoa::Buffer::new();
        let _ = write_pieces(err, &self.line(name, &mut digits));
    }

    /// The pieces of the line.
    fn line<'a>(&self, name: &'a str, digits: &'a mut itoa::Buffer) -> [&'a str; 7]
        ensures { concat (map (λ piece. piece.now) result) ≡ line (stop_text name.now self.now) }
    {
        let (first, second, third, fourth, fifth) = self.pieces(name, digits);
        ["pargather: ", first, second, third, fourth, fifth, "\n"]
    }

    /// What the line says, in pieces.
    fn pieces<'a>(
        &self,
        name: &'a str,
        digits: &'a mut itoa::Buffer,
    ) -> (&'a str, &'a str, &'a str, &'a str, &'a str)
        ensures { result.0.now ++ (result.1.now ++ (result.2.now ++ (result.3.now ++ result.4.now))) ≡ stop_text name.now self.now }
    {
        match self {
            Stop::Because(cause) => cause.pieces(name, digits),
            Stop::ReadFault => ("read fault", "", "", "", ""),
            Stop::WriteFault => ("write fault", "", "", "", ""),
            Stop::Memory => ("out of memory", "", "", "", ""),
        }
    }

    /// The exit status.
    fn status(&self) -> u8
        ensures { result ≡ stop_status self.now }
    {
        match self {
            Stop::Because(cause) => cause.status(),
            Stop::ReadFault => READ_FAULT,
            Stop::WriteFault => WRITE_FAULT,
            Stop::Memory => NO_MEMORY,
        }
    }
}
