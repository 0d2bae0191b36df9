//! Whether a call would hang a new item into a chain that is long already.
//!
//! Keys whose hashes are equal are in one bucket at each size, so no growth parts them, and whoever chooses the keys of a
//! table can make a chain as long as he likes. A caller that has another way for a key bounds the chains by this test:
//! then no walk is longer than the bound, whichever keys come.

ghost use Rattle.std.specs.Prelude.{◌≡◌, ◌≤◌, ◌↔◌, ◌&&◌, IsTrue, None, is_some, length, nat_lt, not};
ghost use Rattle.dshash_core.specs.Key.{seeded_hash};
ghost use Rattle.dshash_core.specs.Cells.{AreCells, cells_of, full_above};
ghost use Rattle.dshash_core.specs.Outcome.{IsCrowded};

use crate::buckets::Buckets;
use crate::calls::first_step;
use crate::object::CellObject;
use crate::sizes::{bucket_of_hash, is_full_at};
use region_words::Region;

/// Whether the call puts a key in that is not there, and a partition of a size with this many keys takes it without growing.
fn may_insert<O: CellObject>(size: u32, count: u64, call: &O::Call) -> bool
    requires { (7 ≤ size) × (size ≤ 20) }
    ensures { result ≡ (is_some (O.stepped None call.now).0 && not (nat_lt (full_above size) count && nat_lt size 20)) }
{
    let (next, _reply) = first_step::<O>(call);
    next.is_some() && !is_full_at(size, count)
}

/// Whether the call would insert into a chain of `longest` items or more, in a partition of a size with `count` keys that
/// need not grow first. Of a chain that is shorter it looks at each item once, and at no key.
pub(crate) fn is_crowded<O: CellObject>(
    buckets: &mut Buckets,
    r: &Region,
    count: u64,
    size: u32,
    hash: u64,
    key: &[u64],
    call: &O::Call,
    longest: u32,
) -> bool
    requires here { buckets.old.region ≡ r.now }
    requires hash { hash ≡ seeded_hash buckets.old.layout.seed key.now }
    requires key { length key.now ≡ buckets.old.layout.key_words }
    requires cells { AreCells size count O.VALUE_WORDS buckets.old }
    ensures same { buckets.new ≡ buckets.old }
    ensures crowded { IsTrue result ↔ IsCrowded O.stepped buckets.old.layout.seed size (cells_of O.decoded buckets.old.chains) key.now call.now longest }
{
    let bucket = bucket_of_hash(size, hash);
    if !buckets.is_long(r, bucket, longest) {
        return false;
    }
    match buckets.find(r, bucket, hash, key) {
        Some(_) => false,
        None => may_insert::<O>(size, count, call),
    }
}
