//! A chunk is determined by its place, its length and its words, and so is a run: what else they keep are facts.

ghost use Rattle.std.specs.Prelude.{◌≡◌};
ghost use Rattle.region_words.specs.declared.chunk.Chunk.{Chunk};
ghost use Rattle.region_words.specs.declared.chunk.Run.{Run};

/// Two chunks of the same words are one. So if a chunk is taken apart and made again, a clause may say that it is the
/// same.
pub fn same_chunk()
    ensures { (c d : Chunk) → c.at ≡ d.at → c.bytes ≡ d.bytes → c.part ≡ d.part → c ≡ d }
{}

/// Two runs of the same words, those of their control records too, are one.
pub fn same_run()
    ensures { (c d : Run) → c.at ≡ d.at → c.pages ≡ d.pages → c.words ≡ d.words → c.control ≡ d.control → c ≡ d }
{}
