//! A source that can be asked what it is before it is read.

ghost use Rattle.std.specs.Prelude.{◌≡◌, IfOk, IfSome, OnOk};
ghost use Rattle.std.specs.Io.KnownBytes.{Keeps};
ghost use Rattle.par_io.specs.Faults.{HasCause};
ghost use Rattle.input_hints.specs.Kinds.{kind_in};
ghost use Rattle.input_hints.specs.Peeking.{HasFront, peeked_faults, peeked_left};

use crate::front::Front;
use crate::kind::{Kind, kind_of};
use par_io::{Failed, Source};

/// A source whose first bytes, sixteen at most, may have been read already: it gives these first, and then what the source
/// under it has left.
#[derive(Drop)]
pub struct Peeked<S> {
    source: S,
    front: Front,
}

impl<S: Source> Peeked<S> {
    /// Nothing is read yet.
    pub fn new(source: S) -> Peeked<S>
        ensures left { peeked_left S.left result ≡ S.left source }
        ensures faults { peeked_faults S.faults result ≡ S.faults source }
    {
        Peeked {
            source,
            front: Front::new(),
        }
    }

    /// What the bytes that are left are by the first of them; none if they may be text. It reads until sixteen bytes are
    /// there, or the source has ended, and what is left stays the same: a read gives these bytes once more.
    pub fn kind(&mut self) -> Result<Option<Kind>, Failed>
        ensures left { Keeps (peeked_left S.left self.old) (peeked_left S.left self.new) }
        ensures kind { IfOk result (λ kind. IfSome (peeked_left S.left self.old) (λ bytes. kind_in bytes ≡ kind)) }
        ensures cause { HasCause (peeked_faults S.faults self.old) (peeked_faults S.faults self.new) result }
    {
        self.peek()?;
        Ok(kind_of(self.front.as_slice()))
    }

    /// Reads until sixteen bytes are there, or the source has ended.
    fn peek(&mut self) -> Result<(), Failed>
        ensures left { Keeps (peeked_left S.left self.old) (peeked_left S.left self.new) }
        ensures front { OnOk result (HasFront S.left self.new) }
        ensures cause { HasCause (peeked_faults S.faults self.old) (peeked_faults S.faults self.new) result }
    {
        'reads: while !self.front.is_full() {
            if self.front.read(&mut self.source)? == 0 {
                return Ok(());
            }
        }
        Ok(())
    }
}

impl<S: Source> Source for Peeked<S> {
    ghost use Rattle.input_hints.specs.Peeking.{peeked_faults, peeked_left};

    ghost left = { peeked_left S.left };

    ghost faults = { peeked_faults S.faults };

    /// One read of the source under it, unless bytes of it are there.
    fn read(&mut self, buf: &mut [u8]) -> Result<usize, Failed> {
        if self.front.is_empty() {
            return self.source.read(buf);
        }
        Ok(self.front.give(buf))
    }
}
