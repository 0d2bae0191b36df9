//! How many bytes a source gave.

ghost use Rattle.std.specs.Prelude.{◌≡◌, ◌+◌, ℕ, Err, length};
ghost use Rattle.stream_groups.specs.Taken.{IsCountOf, IsMore};

use row_windows::{Window, WindowAnswer};

/// How many bytes of a source were read. It isn't known after a read that failed, or if there was no memory for what was read.
#[derive(Clone, Copy, Debug, PartialEq, Eq)]
pub enum Taken {
    Bytes(u64),
    Fault,
    Memory,
}

impl Taken {
    /// The same and what was read for a window, which had this many bytes of the source before.
    pub(crate) fn after_filling(
        self,
        filled: &Result<bool, WindowAnswer>,
        had: usize,
        window: &Window,
    ) -> Taken
        ensures { IsCountOf filled.now had (length window.now.lines + length window.now.rest) self result }
    {
        let has = window.lines().len() + window.rest().len();
        match filled {
            Ok(_) => self.after(had, has),
            Err(why) => self.after_fault(why, had, has),
        }
    }

    /// The same and what was read for a window that was not filled, if that is known.
    fn after_fault(self, why: &WindowAnswer, had: usize, has: usize) -> Taken
        ensures { IsCountOf (Err why.now) had has self result }
    {
        match why {
            WindowAnswer::LongRecord => self.after(had, has),
            WindowAnswer::ReadFault => Taken::Fault,
            WindowAnswer::Memory => Taken::Memory,
        }
    }

    /// The same and more, if a window that had this many bytes of the source has this many now.
    fn after(self, had: usize, has: usize) -> Taken
        ensures { (more : ℕ) → has ≡ had + more → IsMore self more result }
    {
        let more = has.saturating_sub(had) as u64;
        match self {
            Taken::Bytes(bytes) => match bytes.checked_add(more) {
                Some(bytes) => Taken::Bytes(bytes),
                None => Taken::Memory,
            },
            unknown => unknown,
        }
    }
}
