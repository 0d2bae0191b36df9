//! How much room chunks and keys take.

ghost use Rattle.std.specs.Prelude.{◌≡◌, ◌+◌, ◌*◌, ◌≤◌, ◌<◌, ◌^◌, List, ℕ, ◌++◌, sum_by, length};
ghost use Rattle.std.specs.List.Sorted.{IsPermutation};
ghost use Rattle.shm_toc.specs.Table.{rounded, estimated};
ghost use Rattle.shm_toc.specs.Requests.{Request, sizes_of, keys_of, Serves, empty_table};

/// The number rounded up to a multiple of 32.
pub(crate) fn round_up(bytes: u64) -> u64
    requires { bytes < 2 ^ 63 }
    ensures { result ≡ rounded bytes }
{
    bytes.div_ceil(32) * 32
}

/// The bytes of a table that serves chunks of these sizes and this many keys, in any order.
pub fn estimate(chunks: &[u64], keys: u64) -> u64
    requires { estimated chunks.now keys < 2 ^ 63 }
    ensures { result ≡ estimated chunks.now keys }
{
    let mut total = 32 + 16 * keys;
    for bytes in chunks {
        total += round_up(*bytes);
    }
    round_up(total)
}

/// A new table of `estimate(chunks, keys)` bytes grants each request of a list whose chunks are some of `chunks`, in
/// any order, and that has at most `keys` keys.
pub fn serves_in_any_order()
    ensures { (magic : ℕ) (chunks more : List ℕ) (keys : ℕ) (requests : List Request)
        → IsPermutation (sizes_of requests ++ more) chunks → keys_of requests ≤ keys → Serves (empty_table magic (estimated chunks keys)) requests }
{}
