//! The 64 bytes of a text at which a scan is. A scan only goes forward, so each byte is in one block.

ghost use Rattle.std.specs.Prelude.{◌≡◌, ◌≤◌, ◌<◌, ◌+◌, length};
ghost use Rattle.csv_rows.specs.Splits.{is_separator};
ghost use Rattle.found_rows.specs.Masks.{IsBlock, IsFirst, is_quote};

use crate::masks::{BLOCK, Masks, lowest, masks_at, since};

/// The masks of 64 bytes of a text, from a place on.
#[derive(Clone, Copy, Drop)]
pub(crate) struct Block {
    base: usize,
    masks: Masks,
}

/// The bytes from a place on.
#[inline(always)]
pub(crate) fn block_at(text: &[u8], base: usize) -> Block
    requires { base ≤ length text.now }
    ensures block { IsBlock text.now result }
    ensures base { result.base ≡ base }
{
    Block {
        base,
        masks: masks_at(text, base),
    }
}

/// The first comma or line feed from a place on, or the end of the text. The block is moved to it.
#[inline(always)]
pub(crate) fn end_from(text: &[u8], block: &mut Block, from: usize) -> usize
    requires block { IsBlock text.now block.old }
    requires reached { block.old.base ≤ from }
    requires within { from ≤ length text.now }
    ensures first { IsFirst is_separator text.now from result }
    ensures block { IsBlock text.now block.new }
    ensures reached { block.new.base ≤ result }
{
    let mut mask = since(block.masks.ends, from - block.base);
    'steps: while mask == 0 {
        if text.len() - block.base <= BLOCK {
            return text.len();
        }
        *block = block_at(text, block.base + BLOCK);
        mask = since(block.masks.ends, from.saturating_sub(block.base));
    }
    block.base + lowest(mask)
}

/// The first quote from a place on, or the end of the text. The block is moved to it.
#[inline(always)]
pub(crate) fn quote_from(text: &[u8], block: &mut Block, from: usize) -> usize
    requires block { IsBlock text.now block.old }
    requires reached { block.old.base ≤ from }
    requires within { from ≤ length text.now }
    ensures first { IsFirst is_quote text.now from result }
    ensures block { IsBlock text.now block.new }
    ensures reached { block.new.base ≤ result }
{
    let mut mask = since(block.masks.quotes, from - block.base);
    'steps: while mask == 0 {
        if text.len() - block.base <= BLOCK {
            return text.len();
        }
        *block = block_at(text, block.base + BLOCK);
        mask = since(block.masks.quotes, from.saturating_sub(block.base));
    }
    block.base + lowest(mask)
}
