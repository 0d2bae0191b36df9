//! Hashes and packed keys from outside (a few lines of Python), each key read back, and the caller of the calling page.

ghost use Rattle.std.specs.Prelude.{◌≡◌, true, length, IfSome, IfNone};
ghost use Rattle.std.specs.FinMap as fin;
ghost use Rattle.dshash_core.specs.Outcome.{changed, next_of, is_full};

use dshash_core::{
    CellObject, CoreOut, Partition, hash_key, item_bytes, pack_key, partition_of_hash, unpack_key,
};
use region_words::{Chunk, Region};
use std::test::Fail;

/// Makes a call with an item at hand, which is dropped if the call does not take it. None if the partition has to grow
/// first.
fn call_with<O: CellObject>(
    p: &mut Partition<O>,
    r: &Region,
    key: &[u64],
    call: &O::Call,
    item: Chunk,
) -> Option<O::Reply>
    requires here { (p.old.region ≡ r.now) × (item.part.region ≡ r.now) }
    requires key { length key.now ≡ p.old.key_words }
    requires item { item.bytes ≡ p.old.item_bytes }
    ensures reply { IfSome result (λ reply. reply ≡ (O.stepped (fin.get p.old.cells key.now) call.now).1) }
    ensures map { IfSome result (λ reply. p.new.cells ≡ changed p.old.cells key.now (next_of O.stepped p.old.cells key.now call.now)) }
    ensures full { IfNone result ((is_full p.old.cells p.old.size ≡ true) × (p.new ≡ p.old)) }
{
    match p.try_call(r, key, call, Some(item)) {
        CoreOut::Done { reply, .. } => Some(reply),
        CoreOut::NeedItem => None,
        CoreOut::TooFull { .. } => None,
    }
}

/// Keys and their hashes.
const HASHES: [(&[u64], u32); 3] = [
    (&[], 0x5db4_a501),
    (&[1, 2, 3], 0xb400_764d),
    (&[0x0123_4567_89ab_cdef], 0x1647_ad01),
];

#[test]
fn hashes_are_those_of_fnv_and_murmur(rt: HostRuntime) {
    for (key, hash) in HASHES {
        assert!(rt; hash_key(key) == hash);
    }
    assert!(rt; partition_of_hash(0xb400_764d) == 90);
    assert!(rt; item_bytes(32, 41) == 600 && item_bytes(32, 1) == 280);
}

#[test]
fn a_packed_key_hashes_and_reads_back(rt: HostRuntime) -> Result<(), Fail> {
    let mut out = [0u8; 248];
    let key = pack_key(b"k").ok_or("too long")?;
    assert!(rt; hash_key(&key) == 0x4a47_17c2);
    assert!(rt; unpack_key(&key, &mut out) == 1 && out[0] == b'k');
    assert!(rt; pack_key(&[120; 248]).is_some());
    assert!(rt; pack_key(&[120; 249]).is_none());
    Ok(())
}
