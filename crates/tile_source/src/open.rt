//! Where a tile begins.

ghost use Rattle.std.specs.Prelude.{◌≡◌, ◌≤◌, ◌⊎◌, Err, IfErr, IfOk, IfSome, None, false, length, take, true};
ghost use Rattle.par_io.specs.Faults.{Rose};
ghost use Rattle.tile_source.specs.Begins.{EndsInRecord, IsLineEnd};
ghost use Rattle.tile_source.specs.Finding.{HasBegun, HasEnded, OpensAt, OpensTo};
ghost use Rattle.tile_source.specs.NoTiles.{IsNoTile, NoLineEnd};
ghost use Rattle.tile_source.specs.declared.header.NoTile.TheVariants as no;

use crate::bytes::Bytes;
use crate::cut::{Cut, ends_line};
use crate::header::{NoTile, read_header};
use crate::tile::Tile;
use par_io::Source;
use std::alloc::Global;

/// How many bytes are read at once while the beginning is looked for.
const PIECE: usize = 65_536;

/// The bytes of a file that a tile is to have: from the first seam at or after one place up to the first at or after another, of
/// a file that has this many bytes.
///
/// If `from` is 0 the source brings the file from its front on. Else it brings a line first that is the file's header, with a
/// line feed at its end, or a carriage return and a line feed, and then the file from the place `from` on.
#[derive(Clone, Copy, Drop)]
pub struct Span {
    pub from: u64,
    pub to: u64,
    pub size: u64,
}

/// How many bytes the header's text has, which a tile's source gives first, and the place in the file of the byte that it gives
/// next.
#[derive(Clone, Copy, Drop)]
pub struct Begin {
    pub header: u64,
    pub at: u64,
}

/// A tile before its first byte, and where it begins.
#[derive(Drop)]
pub(crate) struct Opened {
    pub(crate) tile: Tile,
    pub(crate) begin: Begin,
}

/// Reads the header, and up to where the tile begins.
pub(crate) fn open<S: Source>(alloc: Global, source: &mut S, span: Span) -> Result<Opened, NoTile>
    ensures opens { IfOk result (λ o. IfSome (S.left source.old) (λ bytes. OpensTo span bytes o.begin o.tile (S.left source.new))) }
    ensures why { IfErr result (λ why. IfSome (S.left source.old) (λ bytes. IsNoTile span bytes why)) }
    ensures read_fault { result ≡ Err no.ReadFault → Rose (S.faults source.old) (S.faults source.new) }
    ensures faults { S.faults source.old ≤ S.faults source.new }
    ensures lacks { IfOk result (λ o. o.tile.lacks ≡ 0) }
{
    let headed = read_header(alloc, source)?;
    let text = headed.text.as_slice();
    let end = headed.end;
    let header = Vec::from_slice(alloc, &text[..end])?;
    let after = &text[end..];
    if span.from == 0 {
        let ahead = Vec::from_slice(alloc, after)?;
        return Ok(tile_from(header, ahead, end as u64, span));
    }
    let is_record = ends_in_record(&text[..end]);
    if !is_record {
        return Err(NoTile::NoHeader);
    }
    let Some(line_end) = line_end(after) else {
        return Err(NoTile::NoHeader);
    };
    let mut begin = Cut::new(span.from, span.from.max(end as u64), span.size);
    let ahead = match find_begin(alloc, source, &after[line_end..], &mut begin) {
        Ok(ahead) => ahead,
        Err(why) => return Err(why),
    };
    Ok(tile_from(header, ahead, begin.at, span))
}

/// The tile from this place on, of which these bytes were read.
fn tile_from(header: Vec<u8>, ahead: Vec<u8>, at: u64, span: Span) -> Opened
    ensures { OpensAt span header.items ahead.items at result.begin result.tile }
{
    let begin = Begin {
        header: header.len() as u64,
        at,
    };
    let tile = Tile {
        header: Bytes::new(header),
        ahead: Bytes::new(ahead),
        cut: Cut::new(at, span.to.max(at), span.size),
        lacks: 0,
    };
    Opened { tile, begin }
}

/// Whether some bytes end with one that ends no line. A text of one record that can be cut behind it, and ends so, is the only one that
/// a source begins with.
fn ends_in_record(bytes: &[u8]) -> bool
    ensures yes { result ≡ true → EndsInRecord bytes.now }
    ensures no { result ≡ false → EndsInRecord bytes.now → ⊥ }
{
    !bytes.is_empty() && !ends_line(bytes[bytes.len() - 1])
}

/// How many bytes the end of the header's line has, if these begin with one: a line feed, maybe after a carriage return. Two bytes
/// tell.
fn line_end(bytes: &[u8]) -> Option<usize>
    ensures line { IfSome result (λ n. IsLineEnd (take n bytes.now)) }
    ensures within { IfSome result (λ n. n ≤ length bytes.now) }
    ensures none { result ≡ None → NoLineEnd bytes.now }
{
    if !bytes.is_empty() && bytes[0] == b'\n' {
        return Some(1);
    }
    if bytes.len() >= 2 && bytes[0] == b'\r' && bytes[1] == b'\n' {
        return Some(2);
    }
    None
}

/// Passes over the bytes before the tile, of which the first were read already, and gives those of the tile that were read.
fn find_begin<S: Source>(
    alloc: Global,
    source: &mut S,
    ahead: &[u8],
    begin: &mut Cut,
) -> Result<Vec<u8>, NoTile>
    requires { begin.old.is_done ≡ false }
    ensures begun { IfOk result (λ rest. HasBegun ahead.now (S.left source.old) (S.left source.new) begin.old.at begin.new.at rest.items) }
    ensures early { result ≡ Err no.Short → HasEnded ahead.now (S.left source.old) (S.left source.new) begin.old.at begin.old.size }
    ensures why { IfErr result (λ why. (why ≡ no.ReadFault) ⊎ ((why ≡ no.Memory) ⊎ (why ≡ no.Short))) }
    ensures read_fault { result ≡ Err no.ReadFault → Rose (S.faults source.old) (S.faults source.new) }
    ensures faults { S.faults source.old ≤ S.faults source.new }
{
    let passed = begin.pass(ahead);
    if begin.is_done {
        return Ok(Vec::from_slice(alloc, &ahead[passed..])?);
    }
    let mut piece = [0u8; PIECE];
    'reads: for _ in 0..u64::MAX {
        let count = source.read(&mut piece)?;
        if count == 0 {
            if begin.is_short() {
                return Err(NoTile::Short);
            }
            return Ok(Vec::new(alloc));
        }
        let passed = begin.pass(&piece[..count]);
        if begin.is_done {
            return Ok(Vec::from_slice(alloc, &piece[passed..count])?);
        }
    }
    Err(NoTile::Memory)
}
