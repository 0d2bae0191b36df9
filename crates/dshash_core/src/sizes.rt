//! Sizes: how many buckets a partition has, which of them a hash belongs to, and when an insert has to wait for more.

ghost use Rattle.std.specs.Prelude.{◌≡◌, ◌<◌, ◌≤◌, ◌&&◌, nat_lt};
ghost use Rattle.dshash_core.specs.Cells.{bucket_of, buckets_of, full_above, partition_of};

/// The bits of a hash.
const HASH_BITS: u32 = 32;

/// The bits of a hash that say its partition.
const PARTITION_BITS: u32 = 7;

/// The partitions of a table.
pub const PARTITIONS: u32 = 1 << PARTITION_BITS;

/// The size of a new partition, which has one bucket: a size is the number of a hash's bits that say the partition and
/// the bucket.
pub(crate) const LEAST_SIZE: u32 = PARTITION_BITS;

/// A partition of this size grows no more.
pub(crate) const MOST_SIZE: u32 = 20;

/// The buckets of a partition of a size: its slice has at least as many words.
pub fn bucket_count(size: u32) -> u64
    requires { (7 ≤ size) × (size ≤ 20) }
    ensures { result ≡ buckets_of size }
{
    1 << (size - LEAST_SIZE)
}

/// The bucket of a hash.
pub(crate) fn bucket_of_hash(size: u32, hash: u64) -> u64
    requires { (7 ≤ size) × (size ≤ 20) }
    ensures { result ≡ bucket_of size hash }
{
    (hash >> (HASH_BITS - size)) % bucket_count(size)
}

/// The number of the partition to which a hash belongs.
pub fn partition_of_hash(hash: u32) -> u32
    ensures is { result ≡ partition_of hash }
    ensures range { result < 128 }
{
    hash >> (HASH_BITS - PARTITION_BITS)
}

/// Whether a partition of this many keys has to grow before it inserts.
pub(crate) fn is_full_at(size: u32, count: u64) -> bool
    requires { (7 ≤ size) × (size ≤ 20) }
    ensures { result ≡ (nat_lt (full_above size) count && nat_lt size 20) }
{
    let buckets = bucket_count(size);
    count > buckets / 2 + buckets / 4 && size < MOST_SIZE
}
