//! A tile, apart from the source that it is read from.

ghost use Rattle.std.specs.Prelude.{◌<◌, ◌+◌, length};
ghost use Rattle.std.specs.Io.{ReadsAtMost};
ghost use Rattle.std.specs.Io.KnownBytes.{ReadConsumes, prepend_known};
ghost use Rattle.par_io.specs.Faults.{HasCause};

use crate::ahead::read_ahead;
use crate::bytes::Bytes;
use crate::cut::Cut;
use par_io::{Failed, Source};

/// What was not given yet of the header's text, what was read of the source behind it, the scan that finds the tile's end, and
/// how often a read failed since the source had ended before its size.
#[derive(Drop)]
pub(crate) struct Tile {
    pub(crate) header: Bytes,
    pub(crate) ahead: Bytes,
    pub(crate) cut: Cut,
    pub(crate) lacks: u64,
}

impl Tile {
    ghost use Rattle.tile_source.specs.Left.{body_left, tile_left};

    /// The header first, and then one read of the source, up to where the tile ends. If the source has ended, and the file is to
    /// have more bytes, it fails.
    pub(crate) fn read<S: Source>(
        &mut self,
        source: &mut S,
        buf: &mut [u8],
    ) -> Result<usize, Failed>
        requires room { 0 < length buf.old }
        ensures bound { ReadsAtMost result buf.new }
        ensures bytes { ReadConsumes (tile_left self.old (S.left source.old)) (tile_left self.new (S.left source.new)) result buf.new }
        ensures cause { HasCause (S.faults source.old + self.old.lacks) (S.faults source.new + self.new.lacks) result }
    {
        if !self.header.is_empty() {
            return Ok(self.header.give(buf));
        }
        if self.cut.is_done {
            return Ok(0);
        }
        let count = read_ahead(&mut self.ahead, source, buf)?;
        if count == 0 && self.cut.is_short() {
            self.lacks = self.lacks.saturating_add(1);
            return Err(Failed);
        }
        Ok(self.cut.pass(&buf[..count]))
    }
}
