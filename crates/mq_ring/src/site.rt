//! The chunk of a ring: where the ring lies, and the words of the chunk after it, which the sender's end keeps.

ghost use Rattle.std.specs.Prelude.{◌≡◌, ◌+◌, ◌-◌, ◌*◌, ◌/◌, ◌%◌, ◌<◌, ◌≤◌};
ghost use Rattle.word_map.specs.WordMap.{HasJust};
ghost use Rattle.region_words.specs.Parts.{HasJust-prop};

use region_words::Part;

/// Where a ring lies, and what is left of its chunk.
#[derive(Drop)]
pub(crate) struct Site {
    /// The word of the written count, the first of the ring and of the chunk.
    pub(crate) base: u64,
    /// How many cells the ring has, a power of two.
    pub(crate) size: u64,
    /// The bytes of the greatest message.
    pub(crate) max: u32,
    /// The bytes of the whole chunk.
    pub(crate) bytes: u64,
    /// The words of the chunk after the ring.
    pub(crate) rest: Part,
    ghost valid: { 0 < base },
    ghost whole: { bytes % 8 ≡ 0 },
    ghost room: { 8 * (size + 3) ≤ bytes },
    ghost behind: { HasJust rest.words (base + (size + 3)) (bytes / 8 - (size + 3)) } by { HasJust-prop rest.words (base + (size + 3)) (bytes / 8 - (size + 3)) },
}
