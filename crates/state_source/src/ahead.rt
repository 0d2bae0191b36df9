//! Bytes of a source that were read and are not taken yet.

ghost use Rattle.std.specs.Prelude.{◌≡◌, ◌<◌, ◌≤◌, ◌++◌, ◌-◌, Bool, IfOk, IfErr, List, ℕ, drop, false, length, true, vec_len};
ghost use Rattle.std.specs.Io.KnownBytes.{IsAtEnd};
ghost use Rattle.par_io.specs.Faults.{Rose};
ghost use Rattle.state_source.specs.Reading.{EndsAt, IsNoLoad, ReadsOn};
ghost use Rattle.state_source.specs.declared.adding.SourceFault.TheVariants as fault;

use crate::adding::SourceFault;
use crate::first::FirstBytes;
use par_io::Source;
use std::alloc::{AllocError, Global};
use std::marker::Model;

/// The most bytes of one read.
pub(crate) const PIECE: usize = 65_536;

/// Bytes that were read and not taken, and whether the source is at its end. The buffer keeps its room, and is moved to
/// its front only before a read.
#[derive(Drop)]
pub(crate) struct Ahead {
    bytes: Vec<u8>,
    /// Where the bytes begin that are not taken.
    at: usize,
    ended: bool,
    /// For one read.
    piece: Vec<u8>,
}

impl Model for Ahead {
    ghost use Rattle.std.specs.Prelude.{◌<◌, ◌≤◌, drop, vec_len};
    ghost use Rattle.state_source.specs.Reading.{Held};

    ghost Value = { Held };

    ghost view = { λ a. record { bytes = drop a.at a.bytes.items; ended = a.ended } };

    ghost invariant = { λ a. (a.at ≤ vec_len a.bytes) × (0 < vec_len a.piece) };
}

impl Ahead {
    /// A copy of the first bytes of a source.
    pub(crate) fn new(alloc: Global, first: &FirstBytes) -> Result<Ahead, AllocError>
        ensures bytes { IfOk result (λ ahead. ahead.bytes ≡ first.now.bytes.items) }
        ensures ended { IfOk result (λ ahead. ahead.ended ≡ first.now.ended) }
    {
        let bytes = Vec::from_slice(alloc, first.bytes.as_slice())?;
        let piece = new_piece(alloc)?;
        Ok(Ahead {
            bytes,
            at: 0,
            ended: first.ended,
            piece,
        })
    }

    /// The bytes that are not taken.
    pub(crate) fn bytes(&self) -> &[u8]
        ensures { result.now ≡ self.now.bytes }
    {
        &self.bytes.as_slice()[self.at..]
    }

    /// Whether the source is at its end.
    pub(crate) fn ended(&self) -> bool
        ensures { result ≡ self.now.ended }
    {
        self.ended
    }

    /// Takes this many bytes at the front.
    pub(crate) fn skip(&mut self, count: usize)
        requires { count ≤ length self.old.bytes }
        ensures bytes { self.new.bytes ≡ drop count self.old.bytes }
        ensures ended { self.new.ended ≡ self.old.ended }
    {
        self.at += count;
    }

    /// Reads on until there are this many bytes, or the source is at its end.
    pub(crate) fn read_on<S: Source>(
        &mut self,
        source: &mut S,
        wanted: usize,
    ) -> Result<(), SourceFault>
        requires { EndsAt self.old.ended (S.left source.old) }
        ensures reads { IfOk result (λ _. ReadsOn (S.left source.old) (S.left source.new) self.old.bytes self.new.bytes) }
        ensures end { IfOk result (λ _. EndsAt self.new.ended (S.left source.new)) }
        ensures why { IfErr result IsNoLoad }
        ensures faults { S.faults source.old ≤ S.faults source.new }
        ensures read_fault { IfErr result (λ why. why ≡ fault.ReadFault → Rose (S.faults source.old) (S.faults source.new)) }
    {
        if self.ended {
            return Ok(());
        }
        remove_front(&mut self.bytes, self.at);
        self.at = 0;
        match read_to(source, &mut self.bytes, self.piece.as_mut_slice(), wanted) {
            Ok(ended) => {
                self.ended = ended;
                Ok(())
            }
            Err(why) => Err(why),
        }
    }
}

/// Room for one read.
pub(crate) fn new_piece(alloc: Global) -> Result<Vec<u8>, AllocError>
    ensures { IfOk result (λ piece. 0 < vec_len piece) }
{
    vec![in alloc; 0u8; PIECE]
}

/// Drops this many bytes at the front.
fn remove_front(bytes: &mut Vec<u8>, count: usize)
    requires { count ≤ vec_len bytes.old }
    ensures { bytes.new.items ≡ drop count bytes.old.items }
{
    if count == 0 {
        return;
    }
    let len = bytes.len();
    bytes.as_mut_slice().copy_within(count..len, 0);
    bytes.truncate(len - count);
}

/// Reads on behind some bytes until there are this many, or the source is at its end; whether it is. `piece` is room
/// for one read.
pub(crate) fn read_to<S: Source>(
    source: &mut S,
    bytes: &mut Vec<u8>,
    piece: &mut [u8],
    wanted: usize,
) -> Result<bool, SourceFault>
    requires { 0 < length piece.old }
    ensures piece { length piece.new ≡ length piece.old }
    ensures reads { IfOk result (λ _. ReadsOn (S.left source.old) (S.left source.new) bytes.old.items bytes.new.items) }
    ensures end { IfOk result (λ ended. EndsAt ended (S.left source.new)) }
    ensures why { IfErr result IsNoLoad }
    ensures faults { S.faults source.old ≤ S.faults source.new }
    ensures read_fault { IfErr result (λ why. why ≡ fault.ReadFault → Rose (S.faults source.old) (S.faults source.new)) }
{
    'reads: while bytes.len() < wanted {
        let count = match source.read(piece) {
            Ok(count) => count,
            Err(_) => return Err(SourceFault::ReadFault),
        };
        if count == 0 {
            return Ok(true);
        }
        if bytes.extend_from_slice(&piece[..count]).is_err() {
            return Err(SourceFault::Memory);
        }
    }
    Ok(false)
}
