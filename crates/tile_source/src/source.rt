//! A source of which a tile may be asked.

ghost use Rattle.std.specs.Prelude.{◌≡◌, ◌<◌, ◌≤◌, ◌↔◌, Err, IfErr, IfOk, IfSome, IsTrue};
ghost use Rattle.par_io.specs.Faults.{Rose};
ghost use Rattle.tile_source.specs.declared.header.NoTile.TheVariants as no;

use crate::header::NoTile;
use crate::open::{Begin, Span, open};
use crate::tile::Tile;
use par_io::{Failed, Source};
use std::alloc::Global;

/// A source. Once a tile of it was asked for it gives that: the text of the header, and then the bytes of the tile.
#[derive(Drop)]
pub struct TileSource<S> {
    pub source: S,
    tile: Option<Tile>,
}

impl<S: Source> TileSource<S> {
    ghost use Rattle.tile_source.specs.Begins.{Begins};
    ghost use Rattle.tile_source.specs.Left.{IsUncut, lacks, source_faults, source_left};
    ghost use Rattle.tile_source.specs.NoTiles.{IsNoTile};

    /// All of a source.
    pub fn new(source: S) -> TileSource<S>
        ensures whole { IsUncut result }
        ensures left { source_left S.left result ≡ S.left source }
        ensures faults { source_faults S.faults result ≡ S.faults source }
    {
        TileSource { source, tile: None }
    }

    /// Reads the header, and up to where the tile begins, which it says. What is left is the header's text and the tile.
    pub fn begin(&mut self, alloc: Global, span: Span) -> Result<Begin, NoTile>
        requires whole { IsUncut self.old }
        ensures begins { IfOk result (λ b. IfSome (source_left S.left self.old) (λ bytes. Begins span bytes b (source_left S.left self.new))) }
        ensures why { IfErr result (λ why. IfSome (source_left S.left self.old) (λ bytes. IsNoTile span bytes why)) }
        ensures faults { source_faults S.faults self.old ≤ source_faults S.faults self.new }
        ensures read_fault { result ≡ Err no.ReadFault → Rose (source_faults S.faults self.old) (source_faults S.faults self.new) }
    {
        let opened = open(alloc, &mut self.source, span)?;
        self.tile = Some(opened.tile);
        Ok(opened.begin)
    }

    /// Whether a read failed since the source had ended before its size.
    pub fn is_short(&self) -> bool
        ensures { IsTrue result ↔ (0 < lacks self.now) }
    {
        match &self.tile {
            Some(tile) => tile.lacks > 0,
            None => false,
        }
    }
}

impl<S: Source> Source for TileSource<S> {
    ghost use Rattle.tile_source.specs.Left.{source_faults, source_left};

    ghost left = { source_left S.left };

    ghost faults = { source_faults S.faults };

    /// One read of the source under it, or of the tile.
    fn read(&mut self, buf: &mut [u8]) -> Result<usize, Failed> {
        match &mut self.tile {
            Some(tile) => tile.read(&mut self.source, buf),
            None => self.source.read(buf),
        }
    }
}
