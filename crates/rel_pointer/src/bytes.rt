//! Bytes in words of eight, the lowest byte first, and the last word filled up with zeros.

ghost use Rattle.std.specs.Prelude.{◌≡◌, ℕ, ◌+◌, ◌*◌, ◌<◌, ◌≤◌, length, slice_index, cond, IsTrue};
ghost use Rattle.rel_pointer.specs.Bytes.{word_count, value_of, packed, byte_of, is_of_word};

/// How many words these bytes take: an eighth, rounded up.
pub fn words_of(bytes: u64) -> u64
    ensures { result ≡ word_count bytes }
{
    bytes.div_ceil(8)
}

/// The number that up to eight bytes encode.
fn value(bytes: &[u8]) -> u64
    requires { length bytes.now ≤ 8 }
    ensures { result ≡ value_of bytes.now }
{
    let mut word = 0u64;
    let mut i = bytes.len();
    while i > 0 {
        i -= 1;
        word = word * 256 + bytes[i] as u64;
    }
    word
}

/// The word at a place of the bytes, counted in words; 0 past their end.
pub fn pack(bytes: &[u8], at: u64) -> u64
    ensures word { result ≡ packed bytes.now at }
    ensures unpacks { (i : ℕ) → IsTrue (is_of_word at i) → i < length bytes.now → byte_of result i ≡ slice_index bytes.now i }
{
    if at >= words_of(bytes.len() as u64) {
        return 0;
    }
    let start = at as usize * 8;
    let rest = &bytes[start..];
    match rest.first_chunk() {
        Some(word) => u64::from_le_bytes(*word),
        None => value(rest),
    }
}

/// Writes the word's bytes at a place, counted in words, as far as `out` has room for them.
pub fn unpack(word: u64, out: &mut [u8], at: u64)
    requires { at < word_count (length out.old) }
    ensures bytes { (i : ℕ) → i < length out.old → slice_index out.new i ≡ cond (is_of_word at i) (byte_of word i) (slice_index out.old i) }
    ensures packs { 8 * at + 8 ≤ length out.old → packed out.new at ≡ word }
    ensures len { length out.new ≡ length out.old }
{
    let start = at as usize * 8;
    let bytes = word.to_le_bytes();
    if out.len() - start >= 8 {
        out[start..start + 8].copy_from_slice(&bytes);
        return;
    }
    let end = out.len().min(start + 8);
    out[start..end].copy_from_slice(&bytes[..end - start]);
}
