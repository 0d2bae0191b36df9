//! How many line feeds there are.
//!
//! They are counted in stretches that are so short that a byte has room for the count: so the compiler makes vectors of it.

ghost use Rattle.std.specs.Prelude.{◌≡◌, ◌≤◌, length};
ghost use Rattle.text_lines.specs.Feeds.{count_feeds};

/// The bytes of a stretch, fewer than 256.
const STRETCH: usize = 192;

/// How many line feeds are among some bytes. In linear time, some four bytes an instruction.
pub fn line_feeds(bytes: &[u8]) -> u64
    ensures count { result ≡ count_feeds bytes.now }
    ensures few { result ≤ length bytes.now }
{
    let mut count = 0u64;
    let mut at = 0;
    'stretches: while bytes.len() - at >= STRETCH {
        let more = few_feeds(&bytes[at..at + STRETCH]);
        count += more as u64;
        at += STRETCH;
    }
    let last = few_feeds(&bytes[at..]);
    count + last as u64
}

/// How many line feeds are among a few bytes.
#[inline(always)]
fn few_feeds(bytes: &[u8]) -> u8
    requires { length bytes.now ≤ STRETCH }
    ensures count { result ≡ count_feeds bytes.now }
    ensures few { result ≤ length bytes.now }
{
    let mut count = 0u8;
    'bytes: for at in 0..bytes.len() {
        if bytes[at] == b'\n' {
            count += 1;
        }
    }
    count
}
