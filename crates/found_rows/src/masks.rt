//! Commas, line feeds and quotes found 64 bytes at a time.
//!
//! A mask has a bit for each of 64 bytes, and a scan looks for the lowest bit from a place on: so bytes that are of no kind
//! cost nothing one by one.

ghost use Rattle.std.specs.Prelude.{◌≡◌, ◌≢◌, ◌↔◌, ◌≤◌, ◌<◌, ◌+◌, ℕ, length, slice_index};
ghost use Rattle.std.specs.Int.{bit_at};
ghost use Rattle.csv_rows.specs.Masks.{HasBytes};
ghost use Rattle.csv_rows.specs.Splits.{is_separator};
ghost use Rattle.found_rows.specs.Masks.{IsMaskOf, is_quote};

use std::simd::prelude::*;

/// The number of bytes that a mask is of.
pub(crate) const BLOCK: usize = 64;

/// The masks of 64 bytes: of those that are commas or line feeds, and of the quotes.
#[derive(Clone, Copy, Drop)]
pub(crate) struct Masks {
    pub(crate) ends: u64,
    pub(crate) quotes: u64,
}

/// The masks of the next bytes from a place on. No bit stands for a place past the end of the text.
#[inline(always)]
pub(crate) fn masks_at(text: &[u8], at: usize) -> Masks
    requires { at ≤ length text.now }
    ensures ends { IsMaskOf is_separator text.now at result.ends }
    ensures quotes { IsMaskOf is_quote text.now at result.quotes }
{
    let bytes = bytes_at(text, at);
    Masks {
        ends: places_of(bytes, b',') | places_of(bytes, b'\n'),
        quotes: places_of(bytes, b'"'),
    }
}

/// The 64 bytes from a place on, with zeros after the end of the text.
#[inline(always)]
fn bytes_at(text: &[u8], at: usize) -> u8x64
    requires { at ≤ length text.now }
    ensures { HasBytes result (λ k. slice_index text.now (at + k)) }
{
    if text.len() - at >= BLOCK {
        load(text, at)
    } else {
        load_few(&text[at..])
    }
}

/// The 64 bytes from a place on, as a vector.
#[inline(always)]
fn load(text: &[u8], at: usize) -> u8x64
    requires { at + 64 ≤ length text.now }
    ensures { HasBytes result (λ k. slice_index text.now (at + k)) }
{
    u8x64::from_slice(&text[at..])
}

/// Fewer than 64 bytes as a vector, with zeros after them.
#[cold]
fn load_few(text: &[u8]) -> u8x64
    requires { length text.now < 64 }
    ensures { HasBytes result (λ k. slice_index text.now k) }
{
    let mut block = [0; BLOCK];
    block[..text.len()].copy_from_slice(text);
    u8x64::from_array(block)
}

/// The mask of the bytes that are the given one.
#[inline(always)]
fn places_of(bytes: u8x64, byte: u8) -> u64
    ensures { (k : ℕ) → (bit_at result k ≡ 1) ↔ ((k < 64) × (slice_index bytes k ≡ byte)) }
{
    bytes.simd_eq(u8x64::splat(byte)).to_bitmask()
}

/// The place of the lowest bit.
#[inline(always)]
pub(crate) fn lowest(mask: u64) -> usize
    requires { mask ≢ 0 }
    ensures bound { result < 64 }
    ensures set { bit_at mask result ≡ 1 }
    ensures below { (k : ℕ) → k < result → bit_at mask k ≡ 0 }
{
    mask.trailing_zeros() as usize
}

/// The mask without the bits below a place.
#[inline(always)]
pub(crate) fn since(mask: u64, skip: usize) -> u64
    ensures kept { (k : ℕ) → k < 64 → skip ≤ k → bit_at result k ≡ bit_at mask k }
    ensures no_more { (k : ℕ) → bit_at result k ≡ 1 → (bit_at mask k ≡ 1) × (skip ≤ k) }
{
    if skip >= BLOCK {
        return 0;
    }
    mask & !((1 << skip) - 1)
}
