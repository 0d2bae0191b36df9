//! Keys: their hash, and byte strings as keys.

ghost use Rattle.std.specs.Prelude.{◌≡◌, ◌+◌, ◌*◌, ◌<◌, ◌≤◌, ◌^◌, ◌↔◌, List, ℕ, length, take, IfSome, IsNone};
ghost use Rattle.rel_pointer.specs.Bytes.{AllBytes};
ghost use Rattle.dshash_core.specs.Key.{fnv_word, finalized, hash_of, seeded_hash, sip_word, packed_key, IsPackedKey, item_size};

use rel_pointer::{pack, unpack};
use std::hash::{DefaultHasher, Hasher};

/// The bytes of the longest byte string that is packed into a key.
pub const MOST_PACKED_BYTES: usize = 248;

/// The words of a packed key: the length of the byte string, and its bytes.
pub const PACKED_WORDS: usize = 32;

/// The prime of the hash.
const PRIME: u32 = 0x0100_0193;

/// The hash before the first byte.
const OFFSET_BASIS: u32 = 0x811c_9dc5;

/// The factor of the hash's last step.
const SPREAD: u32 = 0x85eb_ca6b;

/// The powers of the prime modulo 2^32, from the power 0 on. A byte that is 0 changes the hash by a product with the
/// prime, so the zero bytes at a word's top change it by one product with a power.
const PRIME_POWERS: [u32; 9] = [
    0x1,
    0x0100_0193,
    0x2602_7a69,
    0x3ee6_b34b,
    0x502c_3f11,
    0x46a7_47c3,
    0xfc55_f7f9,
    0x3455_5cfb,
    0x5d61_5f21,
];

/// The hash goes on over a word's eight bytes, the lowest first: over each one up to the highest that isn't 0, and over
/// the others at once.
fn hash_word(hash: u32, word: u64) -> u32
    ensures { result ≡ fnv_word hash word }
{
    let mut hashed = hash;
    let mut rest = word;
    let mut left = 8;
    while rest != 0 {
        hashed = (hashed ^ (rest % 256) as u32).wrapping_mul(PRIME);
        rest /= 256;
        left -= 1;
    }
    hashed.wrapping_mul(PRIME_POWERS[left])
}

/// Spreads the hash's last bytes over all of its bits.
fn finalize(hash: u32) -> u32
    ensures { result ≡ finalized hash }
{
    let high = hash ^ (hash >> 16);
    let product = high.wrapping_mul(SPREAD);
    product ^ (product >> 13)
}

/// The hash of a key's words. Its top 7 bits are the number of the key's partition, and the next ones its bucket there.
#[tactic(auto, unfolding(crate::specs::Key::hash_of))]
pub fn hash_key(key: &[u64]) -> u32
    ensures { result ≡ hash_of key.now }
{
    let hash = key.iter().fold(OFFSET_BASIS, |h, word| hash_word(h, *word));
    finalize(hash)
}

/// SipHash-1-3 goes on over a word.
fn sip_on(hasher: DefaultHasher, word: u64) -> DefaultHasher
    ensures { result ≡ sip_word hasher word }
{
    let mut next = hasher;
    next.write_u64(word);
    next
}

/// The hash of a key's words in a table with this seed. With the seed 0 it is that of `hash_key`; with any other it is
/// that of SipHash-1-3, whose first word is the seed.
#[tactic(auto, unfolding(crate::specs::Key::seeded_hash))]
pub fn seeded_hash_key(seed: u64, key: &[u64]) -> u32
    ensures { result ≡ seeded_hash seed key.now }
{
    if seed == 0 {
        return hash_key(key);
    }
    let seeded = sip_on(DefaultHasher::new(), seed);
    let hasher = key.iter().fold(seeded, |h, word| sip_on(h, *word));
    (hasher.finish() % 0x1_0000_0000) as u32
}

/// A byte string as a key of 32 words, if it has at most 248 bytes.
pub fn pack_key(bytes: &[u8]) -> Option<[u64; PACKED_WORDS]>
    ensures long { IsNone result ↔ (248 < length bytes.now) }
    ensures key { IfSome result (λ key. key ≡ packed_key bytes.now) }
    ensures packed { IfSome result IsPackedKey }
{
    if bytes.len() > MOST_PACKED_BYTES {
        return None;
    }
    let mut key = [0; PACKED_WORDS];
    key[0] = bytes.len() as u64;
    for i in 0..PACKED_WORDS - 1 {
        key[1 + i] = pack(bytes, i as u64);
    }
    Some(key)
}

/// Writes the byte string of a packed key to the front of `out`, and gives its length.
pub fn unpack_key(key: &[u64], out: &mut [u8; MOST_PACKED_BYTES]) -> usize
    requires { IsPackedKey key.now }
    ensures reads { (bytes : List ℕ) → AllBytes bytes → length bytes ≤ 248 → key.now ≡ packed_key bytes → (result ≡ length bytes) × (take result out.new ≡ bytes) }
    ensures encodes { key.now ≡ packed_key (take result out.new) }
{
    for i in 0..PACKED_WORDS - 1 {
        unpack(key[1 + i], out, i as u64);
    }
    key[0] as usize
}

/// The bytes of an item of the table: the link, the hash, the key's words and the value's words.
pub fn item_bytes(key_words: u32, value_words: u32) -> u64
    ensures { result ≡ item_size key_words value_words }
{
    8 * (2 + u64::from(key_words) + u64::from(value_words))
}
