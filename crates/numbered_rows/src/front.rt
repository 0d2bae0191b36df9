//! The front of a source, which is read before anything is given of it.

ghost use Rattle.std.specs.Prelude.{◌≡◌, ◌≤◌, ◌+◌, ◌++◌, Err, IfOk, OnOk, length, vec_capacity, vec_len};
ghost use Rattle.std.specs.Io.KnownBytes.{IsAtEnd, Keeps, prepend_known};
ghost use Rattle.par_io.specs.Faults.{Rose};
ghost use Rattle.numbered_rows.specs.Front.{IsFront};
ghost use Rattle.numbered_rows.specs.declared.front.NoFront.TheVariants as no;

use par_io::{Failed, Source};
use std::alloc::AllocError;

/// How many bytes are read before the header is made: the fields of the first record are counted among them.
pub const FRONT: usize = 1_048_576;

/// How many bytes are read at once.
const PIECE: usize = 65_536;

/// Why there is no front yet: a read failed, or memory ran out.
#[derive(Debug, Drop)]
pub(crate) enum NoFront {
    Failed,
    Memory,
}

impl From<AllocError> for NoFront {
    ghost from_gives = { λ _ why. why ≡ no.Memory };

    fn from(_error: AllocError) -> NoFront {
        NoFront::Memory
    }
}

impl From<Failed> for NoFront {
    ghost from_gives = { λ _ why. why ≡ no.Failed };

    fn from(_failed: Failed) -> NoFront {
        NoFront::Failed
    }
}

/// Reads [`FRONT`] bytes and maybe more, or up to the end of the source. If it fails, what was read so far is in the front, and
/// it may be tried again.
pub(crate) fn read_front<S: Source>(front: &mut Vec<u8>, source: &mut S) -> Result<(), NoFront>
    ensures keeps { Keeps (prepend_known front.old.items (S.left source.old)) (prepend_known front.new.items (S.left source.new)) }
    ensures front { OnOk result (IsFront front.new.items (S.left source.new)) }
    ensures faults { S.faults source.old ≤ S.faults source.new }
    ensures read_fault { result ≡ Err no.Failed → Rose (S.faults source.old) (S.faults source.new) }
{
    'reads: while front.len() < FRONT {
        let count = read_more(front, source)?;
        if count == 0 {
            return Ok(());
        }
    }
    Ok(())
}

/// Reads a piece more, and says how many bytes came, which are none only at the end of the source.
fn read_more<S: Source>(front: &mut Vec<u8>, source: &mut S) -> Result<usize, NoFront>
    ensures keeps { Keeps (prepend_known front.old.items (S.left source.old)) (prepend_known front.new.items (S.left source.new)) }
    ensures more { IfOk result (λ count. length front.new.items ≡ length front.old.items + count) }
    ensures end { IfOk result (λ count. count ≡ 0 → IsAtEnd (S.left source.new)) }
    ensures faults { S.faults source.old ≤ S.faults source.new }
    ensures read_fault { result ≡ Err no.Failed → Rose (S.faults source.old) (S.faults source.new) }
{
    let mut piece = [0u8; PIECE];
    front.reserve(PIECE)?;
    let count = source.read(&mut piece)?;
    put_front(front, &piece[..count]);
    Ok(count)
}

/// Puts bytes at the end of a front that has room for them.
fn put_front(front: &mut Vec<u8>, bytes: &[u8])
    requires { vec_len front.old + length bytes.now ≤ vec_capacity front.old }
    ensures { front.new.items ≡ front.old.items ++ bytes.now }
{
    match front.extend_from_slice(bytes) {
        Ok(()) => {}
        Err(AllocError) => unreachable!(),
    }
}
