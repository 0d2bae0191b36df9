//! Eight bytes at once, in place of eight steps of a byte.
//!
//! A step of a bit is linear over exclusive or, so the register after eight bytes is that of the first four together with
//! the register before, and of each byte by itself with as many steps as bits come after it. `slices` has what these
//! steps make of each byte, so that eight bytes cost eight look-ups that need not wait for one another.

ghost use Rattle.std.specs.Prelude.{◌≡◌, ◌<◌, ◌+◌, ◌*◌, ◌/◌, ◌%◌, fold};
ghost use Rattle.state_file.specs.Checksum.{shifted_by, taken_in};
ghost use Rattle.state_file.specs.Slices.{AreSlices, AreSlicesTo};

use crate::checksum::{take_each, taken_in};

/// How many numbers a byte has.
const BYTES: usize = 256;

/// Eight for each byte.
const ENTRIES: usize = 2048;

/// What 8, 16, .. 64 bits make of each byte: the last 256 entries are of 64 bits. It costs 2,048 steps of a byte.
pub(crate) fn slices() -> [u32; ENTRIES]
    ensures { AreSlices result }
{
    let mut slices = [0; ENTRIES];
    for at in 0..ENTRIES {
        slices[at] = next_entry(&slices, at);
    }
    slices
}

/// The entry at this place, if all before it are there: eight bits more than 256 places before.
fn next_entry(slices: &[u32; ENTRIES], at: usize) -> u32
    requires slices { AreSlicesTo at slices.now }
    requires at { at < 2048 }
    ensures { result ≡ shifted_by (8 * (at / 256 + 1)) (at % 256) }
{
    if at < BYTES {
        taken_in(at as u32, 0)
    } else {
        taken_in(slices[at - BYTES], 0)
    }
}

/// The register after some bytes, eight by eight.
pub(crate) fn take_eights(slices: &[u32; ENTRIES], start: u32, bytes: &[u8]) -> u32
    requires { AreSlices slices.now }
    ensures { result ≡ fold taken_in start bytes.now }
{
    let mut register = start;
    let mut rest = bytes;
    for _turn in 0..bytes.len() / 8 {
        let Some((eight, more)) = rest.split_first_chunk::<8>() else {
            return take_each(register, rest);
        };
        register = eight_in(slices, register, eight);
        rest = more;
    }
    take_each(register, rest)
}

/// The register after eight more bytes.
fn eight_in(slices: &[u32; ENTRIES], register: u32, eight: &[u8; 8]) -> u32
    requires { AreSlices slices.now }
    ensures { result ≡ fold taken_in register eight.now }
{
    let word = u64::from(register) ^ u64::from_le_bytes(*eight);
    entry(slices, 0, word >> 56)
        ^ entry(slices, 1, word >> 48)
        ^ entry(slices, 2, word >> 40)
        ^ entry(slices, 3, word >> 32)
        ^ entry(slices, 4, word >> 24)
        ^ entry(slices, 5, word >> 16)
        ^ entry(slices, 6, word >> 8)
        ^ entry(slices, 7, word)
}

/// What eight bits and this many bytes more make of the lowest byte of a word.
fn entry(slices: &[u32; ENTRIES], more: usize, word: u64) -> u32
    requires slices { AreSlices slices.now }
    requires more { more < 8 }
    ensures { result ≡ shifted_by (8 * (more + 1)) (word % 256) }
{
    slices[BYTES * more + (word % 256) as usize]
}
