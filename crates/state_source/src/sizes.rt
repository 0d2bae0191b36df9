//! How many bytes a file has at least, by the lengths that it says itself.
//!
//! Nothing hangs on these answers but how often it is tried whether a file is there: whatever they are, the same files
//! are added.

use state_file::read_u32;

/// How many bytes come before the head.
const TITLE: usize = 19;

/// How many bytes a section has besides its own: its length and its checksum.
const AROUND: usize = 8;

/// How many bytes come after the foot.
const END: usize = 12;

/// How many bytes there have to be before the file that some bytes begin with may be there; `None` if it may be there
/// now, or if no more bytes come. That is more than there are by a sixteenth at least, so that the lengths of a long
/// file are looked at a few times only.
pub(crate) fn wanted_size(bytes: &[u8], ended: bool) -> Option<usize> {
    if ended {
        return None;
    }
    let least = least_size(bytes);
    let count = bytes.len();
    if least <= count {
        return None;
    }
    Some(least.max(count.saturating_add(count / 16)))
}

/// How many bytes the file has at least that some bytes begin with.
fn least_size(bytes: &[u8]) -> usize {
    let mut at = after_section(TITLE, size_at(bytes, TITLE));
    for _ in 0..bytes.len() {
        let size = size_at(bytes, at);
        at = after_section(at, size);
        match size {
            None => return at.saturating_add(AROUND + END),
            Some(0) => break,
            Some(_) => {}
        }
    }
    after_section(at, size_at(bytes, at)).saturating_add(END)
}

/// The length that is said at a place, if it is there.
fn size_at(bytes: &[u8], at: usize) -> Option<u32> {
    if at >= bytes.len() {
        return None;
    }
    match read_u32(&bytes[at..]) {
        Some((size, _)) => Some(size),
        None => None,
    }
}

/// The place after a section of this length; if that is not known, after one of no bytes.
fn after_section(at: usize, size: Option<u32>) -> usize {
    let bytes = size.unwrap_or(0) as usize;
    at.saturating_add(bytes + AROUND)
}
