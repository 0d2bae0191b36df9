//! A source with a header.

ghost use Rattle.std.specs.Prelude.{◌≡◌, IsErr, OnOk, false, true};
ghost use Rattle.std.specs.Io.KnownBytes.{Keeps};
ghost use Rattle.par_io.specs.Faults.{HasCause, one_more};
ghost use Rattle.numbered_rows.specs.Front.{IsFront};

use crate::ahead::read_ahead;
use crate::bytes::Bytes;
use crate::front::{NoFront, read_front};
use crate::header::headed;
use par_io::{Failed, Source};
use std::alloc::Global;

/// A source of a table without a header, which gives it one if that is asked for: the numbers of its columns. It reads ahead up to
/// [`FRONT`](crate::FRONT) bytes before it gives any.
#[derive(Drop)]
pub struct Numbered<S> {
    source: S,
    alloc: Global,
    /// The byte between two fields.
    separator: u8,
    /// What was read while the header is not made yet.
    front: Vec<u8>,
    /// Whether the header is made, or none is asked for.
    is_open: bool,
    /// The header, and the bytes that were read ahead.
    ahead: Bytes,
    /// How often memory ran out.
    lacks: u64,
}

impl<S: Source> Numbered<S> {
    ghost use Rattle.numbered_rows.specs.Left.{left_as, numbered_faults, numbered_left};

    /// A source behind a header, with this byte between two fields; the same bytes if there is none.
    pub fn new(alloc: Global, source: S, separator: Option<u8>) -> Numbered<S>
        ensures left { numbered_left S.left result ≡ left_as separator (S.left source) }
        ensures faults { numbered_faults S.faults result ≡ S.faults source }
    {
        Numbered {
            source,
            alloc,
            separator: separator.unwrap_or(b','),
            front: Vec::new(alloc),
            is_open: separator.is_none(),
            ahead: Bytes::new(Vec::new(alloc)),
            lacks: 0,
        }
    }

    /// Reads the front, and makes the header, unless that is done.
    fn open(&mut self) -> Result<(), Failed>
        ensures keeps { Keeps (numbered_left S.left self.old) (numbered_left S.left self.new) }
        ensures opens { OnOk result (self.new.is_open ≡ true) }
        ensures cause { HasCause (numbered_faults S.faults self.old) (numbered_faults S.faults self.new) result }
    {
        if self.is_open {
            return Ok(());
        }
        match read_front(&mut self.front, &mut self.source) {
            Ok(()) => self.make(),
            Err(NoFront::Failed) => Err(Failed),
            Err(NoFront::Memory) => self.lack(),
        }
    }

    /// Makes the header of a front that was read.
    fn make(&mut self) -> Result<(), Failed>
        requires closed { self.old.is_open ≡ false }
        requires front { IsFront self.old.front.items (S.left self.old.source) }
        ensures keeps { Keeps (numbered_left S.left self.old) (numbered_left S.left self.new) }
        ensures opens { OnOk result (self.new.is_open ≡ true) }
        ensures cause { HasCause (numbered_faults S.faults self.old) (numbered_faults S.faults self.new) result }
    {
        match headed(self.alloc, self.separator, self.front.as_slice()) {
            Ok(text) => {
                self.ahead = Bytes::new(text);
                self.is_open = true;
                Ok(())
            }
            Err(_) => self.lack(),
        }
    }

    /// Memory has run out.
    fn lack(&mut self) -> Result<(), Failed>
        ensures same { self.new ≡ record self.old { lacks = one_more self.old.lacks } }
        ensures fails { IsErr result }
        ensures cause { HasCause (numbered_faults S.faults self.old) (numbered_faults S.faults self.new) result }
    {
        self.lacks = self.lacks.saturating_add(1);
        Err(Failed)
    }
}

impl<S: Source> Source for Numbered<S> {
    ghost use Rattle.numbered_rows.specs.Left.{numbered_faults, numbered_left};

    ghost left = { numbered_left S.left };

    ghost faults = { numbered_faults S.faults };

    /// The header and what was read ahead, and then one read of the source under it. It fails too if memory runs out.
    fn read(&mut self, buf: &mut [u8]) -> Result<usize, Failed> {
        self.open()?;
        read_ahead(&mut self.ahead, &mut self.source, buf)
    }
}
