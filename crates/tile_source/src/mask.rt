//! Quotes found 64 bytes at a time.
//!
//! A mask has a bit for each of 64 bytes. A scan takes its bits from the lowest on, so it looks at a byte that is no quote
//! together with 63 others.

ghost use Rattle.std.specs.Prelude.{◌≡◌, ◌≢◌, ◌↔◌, ◌≤◌, ◌<◌, ◌+◌, ℕ, length, slice_index};
ghost use Rattle.std.specs.Int.{bit_at};
ghost use Rattle.csv_rows.specs.Masks.{HasBytes};

use std::simd::prelude::*;

/// How many bytes a mask stands for.
pub(crate) const BLOCK: usize = 64;

/// A mask of the quotes among the next bytes from a place on. No bit stands for a place past the end of the text.
#[inline(always)]
pub(crate) fn quotes(text: &[u8], at: usize) -> u64
    requires { at ≤ length text.now }
    ensures { (k : ℕ) → (bit_at result k ≡ 1) ↔ ((k < 64) × (slice_index text.now (at + k) ≡ 34)) }
{
    let bytes = if text.len() - at >= BLOCK {
        load(text, at)
    } else {
        load_few(&text[at..])
    };
    places_of(bytes, b'"')
}

/// The 64 bytes from a place on, as a vector.
#[inline(always)]
fn load(text: &[u8], at: usize) -> u8x64
    requires { at + 64 ≤ length text.now }
    ensures { HasBytes result (λ k. slice_index text.now (at + k)) }
{
    u8x64::from_slice(&text[at..])
}

/// Fewer than 64 bytes as a vector, with zeros after them.
#[cold]
fn load_few(text: &[u8]) -> u8x64
    requires { length text.now < 64 }
    ensures { HasBytes result (λ k. slice_index text.now k) }
{
    let mut block = [0; BLOCK];
    block[..text.len()].copy_from_slice(text);
    u8x64::from_array(block)
}

/// The mask of the bytes that are this one.
#[inline(always)]
fn places_of(bytes: u8x64, byte: u8) -> u64
    ensures { (k : ℕ) → (bit_at result k ≡ 1) ↔ ((k < 64) × (slice_index bytes k ≡ byte)) }
{
    bytes.simd_eq(u8x64::splat(byte)).to_bitmask()
}

/// The place of the lowest bit.
#[inline(always)]
pub(crate) fn lowest(mask: u64) -> usize
    requires { mask ≢ 0 }
    ensures bound { result < 64 }
    ensures set { bit_at mask result ≡ 1 }
    ensures below { (k : ℕ) → k < result → bit_at mask k ≡ 0 }
{
    mask.trailing_zeros() as usize
}

/// The mask without one of its bits.
#[inline(always)]
pub(crate) fn without(mask: u64, bit: usize) -> u64
    requires bound { bit < 64 }
    requires set { bit_at mask bit ≡ 1 }
    ensures smaller { result < mask }
    ensures cleared { bit_at result bit ≡ 0 }
    ensures kept { (k : ℕ) → k < 64 → k ≢ bit → bit_at result k ≡ bit_at mask k }
    ensures no_more { (k : ℕ) → bit_at result k ≡ 1 → bit_at mask k ≡ 1 }
{
    mask & !(1 << bit)
}
