//! The place after a text, by its quotes, which are found 64 bytes at a time.
//!
//! A mask has a bit for each of 64 bytes. A scan takes the bits of the quotes from the lowest on, so no search begins anew
//! after a quote, of which a text may have one every few bytes. The scan keeps [`IsScanned`](../specs/Quotes.antt): it is
//! past a quote, or at the front of the text, and no quote lies between it and the bytes that come next.

ghost use Rattle.std.specs.Prelude.{◌≡◌, ◌≢◌, ◌↔◌, ◌≤◌, ◌<◌, ◌+◌, ℕ, length, slice_index};
ghost use Rattle.std.specs.Int.{bit_at};
ghost use Rattle.csv_rows.specs.Masks.{HasBytes};
ghost use Rattle.csv_rows.specs.Places.{place_after};
ghost use Rattle.csv_rows.specs.declared.place.Place.TheVariants as place;
ghost use Rattle.row_windows.specs.Quotes.{IsScanned, NoQuoteIn};

use csv_rows::{Place, past_others, past_quote, scanned};
use std::simd::prelude::*;

/// The number of bytes that a mask is of.
const BLOCK: usize = 64;

/// Where a scan is, and the place there.
#[derive(Clone, Copy, Drop)]
struct Scan {
    at: usize,
    place: Place,
}

/// The place after these bytes, from the front of a text on. In linear time.
pub(crate) fn place_behind(text: &[u8]) -> Place
    ensures { result ≡ place_after place.Opens text.now }
{
    let mut scan = Scan {
        at: 0,
        place: Place::Opens,
    };
    'blocks: for block in 0..text.len() / BLOCK {
        scan = past_block(text, scan, block * BLOCK);
    }
    scanned(&text[scan.at..], scan.place)
}

/// The scan past the quotes among the 64 bytes from a place on.
#[inline(always)]
fn past_block(text: &[u8], start: Scan, base: usize) -> Scan
    requires within { base + 64 ≤ length text.now }
    requires scan { IsScanned text.now start }
    requires low { start.at ≤ base }
    requires before { NoQuoteIn text.now start.at base }
    ensures scan { IsScanned text.now result }
    ensures low { result.at ≤ base + 64 }
    ensures before { NoQuoteIn text.now result.at (base + 64) }
{
    let mut scan = start;
    let mut mask = quotes_at(text, base);
    'marks: while mask != 0 {
        let bit = lowest(mask);
        scan = past_next(text, scan, base + bit);
        mask = without(mask, bit);
    }
    scan
}

/// The scan past the next quote, which is at this place.
#[inline(always)]
fn past_next(text: &[u8], scan: Scan, quote: usize) -> Scan
    requires scan { IsScanned text.now scan }
    requires low { scan.at ≤ quote }
    requires high { quote < length text.now }
    requires quote { slice_index text.now quote ≡ 34 }
    requires before { NoQuoteIn text.now scan.at quote }
    ensures scan { IsScanned text.now result }
    ensures at { result.at ≡ quote + 1 }
{
    Scan {
        at: quote + 1,
        place: past_quote(past_others(&text[scan.at..quote], scan.place)),
    }
}

/// The mask of the quotes among the 64 bytes from a place on.
#[inline(always)]
fn quotes_at(text: &[u8], at: usize) -> u64
    requires { at + 64 ≤ length text.now }
    ensures { (k : ℕ) → (bit_at result k ≡ 1) ↔ ((k < 64) × (slice_index text.now (at + k) ≡ 34)) }
{
    places_of(load(text, at), b'"')
}

/// The 64 bytes from a place on, as a vector.
#[inline(always)]
fn load(text: &[u8], at: usize) -> u8x64
    requires { at + 64 ≤ length text.now }
    ensures { HasBytes result (λ k. slice_index text.now (at + k)) }
{
    u8x64::from_slice(&text[at..])
}

/// The mask of the bytes that are the given one.
#[inline(always)]
fn places_of(bytes: u8x64, byte: u8) -> u64
    ensures { (k : ℕ) → (bit_at result k ≡ 1) ↔ ((k < 64) × (slice_index bytes k ≡ byte)) }
{
    bytes.simd_eq(u8x64::splat(byte)).to_bitmask()
}

/// The place of the lowest bit.
#[inline(always)]
fn lowest(mask: u64) -> usize
    requires { mask ≢ 0 }
    ensures bound { result < 64 }
    ensures set { bit_at mask result ≡ 1 }
    ensures below { (k : ℕ) → k < result → bit_at mask k ≡ 0 }
{
    mask.trailing_zeros() as usize
}

/// The mask without one of its bits.
#[inline(always)]
fn without(mask: u64, bit: usize) -> u64
    requires bound { bit < 64 }
    requires set { bit_at mask bit ≡ 1 }
    ensures smaller { result < mask }
    ensures cleared { bit_at result bit ≡ 0 }
    ensures kept { (k : ℕ) → k < 64 → k ≢ bit → bit_at result k ≡ bit_at mask k }
    ensures no_more { (k : ℕ) → bit_at result k ≡ 1 → bit_at mask k ≡ 1 }
{
    mask & !(1 << bit)
}
