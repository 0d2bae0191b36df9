//! The places where the records of a store end among its fields, without a list of them.
//!
//! Nearly every table has as many fields in each record as in its header. The ends of such records are the multiples of
//! that width, so a number for the width and one for how many records have it stand for them all. From the first record
//! of another width on the ends are in a list. So an even table pays no memory for its ends, a ragged one pays from its
//! first record of another width on, and no record makes the ones before it be written down again. The first record
//! always counts as one of the width: without any of these there is no record.

ghost use Rattle.std.specs.Prelude.{◌≡◌, ◌==◌, ◌<◌, ◌≤◌, ◌-◌, ◌∷◌, ◌++◌, [], IfOk, OnOk, get_or, length};
ghost use Rattle.csv.specs.Records.{prev};

use std::alloc::{AllocError, Global};
use std::marker::Model;

/// The places in turn.
#[derive(Drop)]
pub(crate) struct RowEnds {
    width: u32,
    even: u32,
    later: Vec<u32>,
}

impl Model for RowEnds {
    ghost use Rattle.std.specs.Prelude.{ℕ, List};
    ghost use Rattle.csv_rows.specs.RowEnds.{BeginsEven, row_ends_of};

    ghost Value = { List ℕ };

    ghost view = { λ s. row_ends_of s.width s.even s.later.items };

    ghost invariant = { λ s. BeginsEven s.even s.later.items };
}

impl RowEnds {
    /// No places; takes no memory.
    pub(crate) fn new(alloc: Global) -> RowEnds
        ensures { result ≡ [] }
    {
        RowEnds {
            width: 0,
            even: 0,
            later: Vec::new(alloc),
        }
    }

    /// How many records there are.
    pub(crate) fn len(&self) -> usize
        ensures { result ≡ length self.now }
    {
        self.even as usize + self.later.len()
    }

    /// Whether there is no record.
    pub(crate) fn is_empty(&self) -> bool
        ensures { result ≡ (length self.now == 0) }
    {
        self.even == 0
    }

    /// Where a record starts among the fields.
    pub(crate) fn start(&self, row: usize) -> usize
        requires { row < length self.now }
        ensures { result ≡ prev 0 self.now row }
    {
        let even = self.even as usize;
        if row <= even {
            return row * self.width as usize;
        }
        self.later[row - even - 1] as usize
    }

    /// How many fields a record has.
    pub(crate) fn width(&self, row: usize) -> u32
        requires row { row < length self.now }
        requires up { prev 0 self.now row ≤ get_or self.now row 0 }
        ensures { result ≡ get_or self.now row 0 - prev 0 self.now row }
    {
        let even = self.even as usize;
        if row < even {
            return self.width;
        }
        self.later[row - even] - self.start(row) as u32
    }

    /// Adds the end of one more record. Takes no memory while all records have the width of the first.
    pub(crate) fn push(&mut self, end: usize) -> Result<(), AllocError>
        ensures { OnOk result (self.new ≡ self.old ++ end ∷ []) }
    {
        let next = (self.even as usize + 1) * self.width as usize;
        if end == next && self.later.is_empty() && self.even < u32::MAX {
            self.even += 1;
            return Ok(());
        }
        self.push_uneven(end)
    }

    /// Adds the end of the first record, or of one that does not count as one of the width.
    #[cold]
    fn push_uneven(&mut self, end: usize) -> Result<(), AllocError>
        ensures { OnOk result (self.new ≡ self.old ++ end ∷ []) }
    {
        let end = place(end)?;
        if self.even == 0 {
            self.width = end;
            self.even = 1;
            return Ok(());
        }
        if self.later.push(end).is_err() {
            return Err(AllocError);
        }
        Ok(())
    }
}

/// A length as a place of the store: one that does not fit counts as memory running out.
pub(crate) fn place(n: usize) -> Result<u32, AllocError>
    ensures { IfOk result (λ k. k ≡ n) }
{
    if n > u32::MAX as usize {
        return Err(AllocError);
    }
    Ok(n as u32)
}
