//! The progress line: how far the reading has come.

use par_stream::{Progress, SoFar};
use std::io::{IsTerminal, Write};
use std::time::{Clock, Instant};

/// The least time between two lines, in seconds.
const PAUSE_SECONDS: u64 = 1;

/// The bytes of a mebibyte.
const MIB: u64 = 1_048_576;

/// A line on a terminal, which is overwritten once a second. If the output is no terminal nothing is written. Up to ten billion
/// rows the line fits into 39 columns, which are blanked at the end.
#[derive(Drop)]
pub(crate) struct ProgressLine<'a, C, W> {
    clock: &'a C,
    terminal: Option<W>,
    /// When the line was last written; before the first line, when the wait for it began.
    last: Option<Instant>,
    is_shown: bool,
}

impl<'a, C: Clock, W: Write + IsTerminal + Drop> ProgressLine<'a, C, W> {
    /// No line yet.
    pub(crate) fn new(clock: &'a C, err: W) -> ProgressLine<'a, C, W> {
        let is_terminal = err.is_terminal();
        ProgressLine {
            clock,
            terminal: if is_terminal { Some(err) } else { None },
            last: Instant::now(clock).ok(),
            is_shown: false,
        }
    }

    /// Whether the last line is a second old. With a clock that can't be read no line is shown.
    fn is_due(&mut self) -> bool {
        let Ok(now) = Instant::now(self.clock) else {
            return false;
        };
        match self.last {
            Some(last) if now.duration_since(last).as_secs() < PAUSE_SECONDS => false,
            _ => {
                self.last = Some(now);
                true
            }
        }
    }
}

impl<'a, C: Clock, W: Write + IsTerminal + Drop> Progress for ProgressLine<'a, C, W> {
    fn tell(&mut self, so_far: SoFar) {
        if self.terminal.is_none() || !self.is_due() {
            return;
        }
        let mib = so_far.bytes / MIB;
        let rows = so_far.rows;
        if let Some(terminal) = &mut self.terminal {
            // That a line can't be written changes nothing else.
            let _ = write!(terminal, "\rparstream: {mib} MiB, {rows} rows");
            self.is_shown = true;
        }
    }

    fn end(&mut self) {
        if !self.is_shown {
            return;
        }
        if let Some(terminal) = &mut self.terminal {
            let _ = write!(terminal, "\r{:39}\r", "");
        }
        self.is_shown = false;
    }
}
