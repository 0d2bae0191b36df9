//! Why a script was not answered to its end: its status and its line.

ghost use Rattle.std.specs.Prelude.{◌≡◌};
ghost use Rattle.par_shell.specs.Scripts.{IsSaid, line_of};
ghost use Rattle.par_shell.specs.Stops.{status_of};
ghost use Rattle.par_shell.specs.declared.stop.Stop.TheVariants as stop;

use crate::status::{MISUSED, NO_MEMORY, READ_FAULT, TOO_LARGE, WRITE_FAULT};
use par_io::{Sink, write_whole};
use std::alloc::AllocError;

/// Why a script was not answered to its end.
#[derive(Clone, Copy, Debug, PartialEq, Eq)]
pub(crate) enum Stop {
    Usage,
    ReadFault,
    WriteFault,
    Memory,
    TooLong,
}

impl From<AllocError> for Stop {
    ghost from_gives = { λ _ why. why ≡ stop.Memory };

    fn from(_error: AllocError) -> Stop {
        Stop::Memory
    }
}

impl Stop {
    /// The exit status.
    fn status(self) -> u8
        ensures { result ≡ status_of self }
    {
        match self {
            Stop::Usage => MISUSED,
            Stop::ReadFault => READ_FAULT,
            Stop::WriteFault => WRITE_FAULT,
            Stop::Memory => NO_MEMORY,
            Stop::TooLong => TOO_LARGE,
        }
    }

    /// The line that says so.
    fn line(self) -> &'static str
        ensures { result.now ≡ line_of (status_of self) }
    {
        match self {
            Stop::Usage => "parsh: usage: parsh [--pages N]\n",
            Stop::ReadFault => "parsh: read fault\n",
            Stop::WriteFault => "parsh: write fault\n",
            Stop::Memory => "parsh: out of memory\n",
            Stop::TooLong => "parsh: more than 1048576 bytes\n",
        }
    }

    /// Writes the line, whatever becomes of it, and gives the status.
    pub(crate) fn end<E: Sink>(self, err: &mut E) -> u8
        ensures status { result ≡ status_of self }
        ensures said { IsSaid (E.taken err.old) (E.taken err.new) (E.faults err.old) (E.faults err.new) (line_of result) }
    {
        let _said = write_whole(err, self.line().as_bytes());
        self.status()
    }
}
