//! Which bytes of a source a part is of: where they begin, and where they lie.

ghost use Rattle.std.specs.Prelude.{◌≡◌, ◌<◌, ◌≤◌, ◌+◌, Err, IfErr, IfOk, IfSome, None};
ghost use Rattle.par_io.specs.Faults.{Rose};
ghost use Rattle.state_partial.specs.NoPart.{HasNoBegin};
ghost use Rattle.state_partial.specs.Places.{HasNoPlace, IsLeft, IsPlaceOf, IsPlaceOfTile, IsWithin};
ghost use Rattle.state_partial.specs.declared.no_part.NoPart.TheVariants as no_part;
ghost use Rattle.stream_groups.specs.declared.stop.Stop.TheVariants as stop;
ghost use Rattle.tile_source.specs.Left.{IsUncut, source_faults, source_left};

use crate::no_part::NoPart;
use crate::words::Extent;
use par_io::Source;
use state_head::Place;
use std::alloc::Global;
use tile_source::{Begin, Span, TileSource};

/// Where the bytes that are asked for begin in a source of which nothing was read: at its front, if they are all.
pub(crate) fn begin_of<S: Source>(
    alloc: Global,
    extent: Extent,
    source: &mut TileSource<S>,
) -> Result<Begin, NoPart>
    requires { IsUncut source.old }
    ensures begun { IfOk result (λ b. IfSome (source_left S.left source.old) (λ bytes. IsLeft extent bytes b (source_left S.left source.new))) }
    ensures why { IfErr result (HasNoBegin extent (source_left S.left source.old)) }
    ensures faults { source_faults S.faults source.old ≤ source_faults S.faults source.new }
    ensures read_fault { result ≡ Err (no_part.Stopped stop.ReadFault) → Rose (source_faults S.faults source.old) (source_faults S.faults source.new) }
{
    let span = match extent {
        Extent::Whole => return Ok(Begin { header: 0, at: 0 }),
        Extent::Tile(span) => span,
    };
    match source.begin(alloc, span) {
        Ok(begin) => Ok(begin),
        Err(why) => Err(NoPart::of_tile(why)),
    }
}

/// The place of what was read from a beginning on, by how many bytes it has with the header. None if it ends behind the size that is said.
pub(crate) fn place_of(source: u32, extent: Extent, begin: Begin, size: u64) -> Option<Place>
    ensures place { IfSome result (IsPlaceOf source extent begin size) }
    ensures within { IfSome result (IsWithin source) }
    ensures none { result ≡ None → HasNoPlace extent begin size }
{
    match extent {
        Extent::Whole => Some(Place {
            source,
            from: 0,
            to: size,
            size,
        }),
        Extent::Tile(span) => tile_place(source, span, begin, size.saturating_sub(begin.header)),
    }
}

/// The place of a tile that has this many bytes after its beginning.
fn tile_place(source: u32, span: Span, begin: Begin, count: u64) -> Option<Place>
    ensures place { IfSome result (IsPlaceOfTile source span begin count) }
    ensures within { IfSome result (IsWithin source) }
    ensures none { result ≡ None → span.size < begin.at + count }
{
    let to = begin.at.checked_add(count)?;
    if to > span.size {
        return None;
    }
    Some(Place {
        source,
        from: if span.from == 0 { 0 } else { begin.at },
        to,
        size: span.size,
    })
}
