//! A page, and the chunk of the area in which it lies while it is in the cache.

ghost use Rattle.std.specs.Prelude.{◌≡◌, ◌≤◌, slice_index_or};
ghost use Rattle.dshash_chunks.specs.Held.{contents};
ghost use Rattle.page_cache.specs.Pages.{may, read, worked};

use dshash_chunks::ChunkObject;
use region_words::{Chunk, Region};

/// The words of a page.
pub const PAGE_WORDS: usize = 1024;

/// The bytes of a page.
pub const PAGE_BYTES: u64 = 8 * PAGE_WORDS as u64;

/// A page of 8,192 bytes.
#[derive(Drop)]
pub struct Page {
    pub words: [u64; PAGE_WORDS],
}

/// What may be done with the chunk under a name: anybody reads the page in it, and nobody changes it there. No value of
/// this type is made.
pub struct Pages;

impl ChunkObject for Pages {
    type Call = ();

    type Reply = Page;

    ghost worked = { worked };

    ghost may = { may };

    fn work(r: &Region, chunk: &mut Chunk, _call: &()) -> Page {
        let mut words = [0; PAGE_WORDS];
        for (i, word) in words.iter_mut().enumerate() {
            *word = word_of(r, chunk, i as u64);
        }
        Page { words }
    }
}

/// The chunk's n-th word, from 0, and 0 if it has fewer.
#[inline]
fn word_of(r: &Region, chunk: &mut Chunk, n: u64) -> u64
    requires here { chunk.old.part.region ≡ r.now }
    ensures part { chunk.new.part ≡ chunk.old.part }
    ensures place { (chunk.new.at ≡ chunk.old.at) × (chunk.new.bytes ≡ chunk.old.bytes) }
    ensures found { result ≡ slice_index_or (contents chunk.old) n 0 }
{
    if n < chunk.bytes / 8 {
        chunk.load(r, n)
    } else {
        0
    }
}

/// Stores a page in a chunk of a page's bytes or more.
pub fn store_page(chunk: &mut Chunk, r: &Region, page: &Page)
    requires here { chunk.old.part.region ≡ r.now }
    requires room { 8192 ≤ chunk.old.bytes }
    ensures here { chunk.new.part.region ≡ chunk.old.part.region }
    ensures place { (chunk.new.at ≡ chunk.old.at) × (chunk.new.bytes ≡ chunk.old.bytes) }
    ensures words { read (contents chunk.new) ≡ page.now }
{
    for (i, word) in page.words.iter().enumerate() {
        chunk.store(r, i as u64, *word);
    }
}
