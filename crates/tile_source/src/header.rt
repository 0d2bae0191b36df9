//! The front of a source: the text of the header.

ghost use Rattle.std.specs.Prelude.{◌≡◌, ◌≤◌, ◌+◌, ◌⊎◌, ℕ, List, Option, Err, IfErr, IfOk, IfSome, None, length};
ghost use Rattle.std.specs.Io.KnownBytes.{Consumes, IsAtEnd};
ghost use Rattle.par_io.specs.Faults.{Rose};
ghost use Rattle.tile_source.specs.Header.{EndsHere, EndsLate, HasTwo, IsHeaded, IsMore};
ghost use Rattle.tile_source.specs.NoTiles.{IsNoHeader};
ghost use Rattle.tile_source.specs.declared.header.NoTile.TheVariants as no;

use par_io::{Failed, Source};
use row_windows::{MOST_RECORD_BYTES, header_end};
use std::alloc::{AllocError, Global};

/// How many bytes are read at once, and after how many the end of the header is looked for at first.
const PIECE: usize = 4096;

/// Why there is no tile: a read failed; the source does not begin with a line that is the header; its header is longer than a
/// record may be; it ends before its size; memory ran out.
#[derive(Debug, Drop)]
pub enum NoTile {
    ReadFault,
    NoHeader,
    LongHeader,
    Short,
    Memory,
}

impl From<AllocError> for NoTile {
    ghost from_gives = { λ _ why. why ≡ no.Memory };

    fn from(_error: AllocError) -> NoTile {
        NoTile::Memory
    }
}

impl From<Failed> for NoTile {
    ghost from_gives = { λ _ why. why ≡ no.ReadFault };

    fn from(_failed: Failed) -> NoTile {
        NoTile::ReadFault
    }
}

/// What was read of a source, and where the text of the header ends in it.
#[derive(Drop)]
pub(crate) struct Headed {
    pub(crate) text: Vec<u8>,
    pub(crate) end: usize,
}

/// Reads up to the end of the first record, and at least two bytes more if there are any. If there is no such end the text of
/// the header is all bytes. In time linear in what it reads, which is at most twice the header, and the first piece.
pub(crate) fn read_header<S: Source>(alloc: Global, source: &mut S) -> Result<Headed, NoTile>
    ensures read { IfOk result (λ h. Consumes (S.left source.old) (S.left source.new) h.text.items) }
    ensures headed { IfOk result (λ h. IsHeaded h.text.items h.end (S.left source.new)) }
    ensures two { IfOk result (λ h. HasTwo h.text.items h.end (S.left source.new)) }
    ensures why { IfErr result (λ why. IfSome (S.left source.old) (λ bytes. IsNoHeader bytes why)) }
    ensures read_fault { result ≡ Err no.ReadFault → Rose (S.faults source.old) (S.faults source.new) }
    ensures faults { S.faults source.old ≤ S.faults source.new }
{
    let mut text = Vec::new(alloc);
    let mut next = PIECE;
    'reads: while text.len() <= MOST_RECORD_BYTES + 1 {
        let count = read_more(source, &mut text)?;
        if count == 0 {
            return Ok(all_read(text));
        }
        if text.len() >= next {
            next = 2 * text.len();
            if let Some(end) = early_end(text.as_slice()) {
                return Ok(Headed { text, end });
            }
        }
    }
    match early_end(text.as_slice()) {
        Some(end) => Ok(Headed { text, end }),
        None => Err(NoTile::LongHeader),
    }
}

/// The end of the header of a text, if at least two bytes come after it.
fn early_end(text: &[u8]) -> Option<usize>
    ensures ends { IfSome result (EndsHere text.now) }
    ensures two { IfSome result (λ end. end + 2 ≤ length text.now) }
    ensures late { result ≡ None → EndsLate text.now }
{
    let end = header_end(text)?;
    if text.len() - end >= 2 {
        Some(end)
    } else {
        None
    }
}

/// All that a source had.
fn all_read(text: Vec<u8>) -> Headed
    ensures text { result.text.items ≡ text.items }
    ensures headed { (left : Option (List ℕ)) → IsAtEnd left → IsHeaded text.items result.end left }
{
    match header_end(text.as_slice()) {
        Some(end) => Headed { text, end },
        None => {
            let end = text.len();
            Headed { text, end }
        }
    }
}

/// Reads a piece more, and says how many bytes came, which are none only at the end of the source.
fn read_more<S: Source>(source: &mut S, text: &mut Vec<u8>) -> Result<usize, NoTile>
    ensures more { IfOk result (IsMore (S.left source.old) (S.left source.new) text.old.items text.new.items) }
    ensures few { IfOk result (λ n. n ≤ PIECE) }
    ensures end { IfOk result (λ n. n ≡ 0 → IsAtEnd (S.left source.new)) }
    ensures why { IfErr result (λ why. (why ≡ no.ReadFault) ⊎ (why ≡ no.Memory)) }
    ensures read_fault { result ≡ Err no.ReadFault → Rose (S.faults source.old) (S.faults source.new) }
    ensures faults { S.faults source.old ≤ S.faults source.new }
{
    let mut piece = [0u8; PIECE];
    let count = source.read(&mut piece)?;
    text.extend_from_slice(&piece[..count])?;
    Ok(count)
}
