//! Words and tables that no longer change are read by two threads at once, each with its own share.

ghost use Rattle.std.specs.Prelude.{◌≡◌, ℕ, IsSome, Some, Option};
ghost use Rattle.word_map.specs.WordMap.{at as word_at};
ghost use Rattle.shm_toc.specs.Table.{place_of, table_of, IsTable};

use region_words::{Frozen, Region};
use rel_pointer::RelPtr;
use shm_toc::FrozenToc;
use std::thread::{Threads, join};

/// Two threads load a frozen word. Both find its value, and the shares are one token again.
pub fn load_twice<R: Threads + Sync>(rt: &R, r: &Region, frozen: &mut Frozen, at: u64) -> (u64, u64)
    requires here { frozen.old.region ≡ r.now }
    requires has { IsSome (word_at frozen.old.words at) }
    ensures same { frozen.new ≡ frozen.old }
    ensures found { (word_at frozen.old.words at ≡ Some result.0) × (word_at frozen.old.words at ≡ Some result.1) }
{
    let mut one = frozen.share(r);
    let mut other = frozen.share(r);
    let ((one, first), (other, second)) = join(
        rt,
        || -> (Frozen, u64)
            requires { (one.region ≡ r.now) × IsSome (word_at one.words at) }
            ensures { (result.0 ≡ one) × (word_at one.words at ≡ Some result.1) }
        {
            let found = one.load(r, at);
            (one, found)
        },
        || -> (Frozen, u64)
            requires { (other.region ≡ r.now) × IsSome (word_at other.words at) }
            ensures { (result.0 ≡ other) × (word_at other.words at ≡ Some result.1) }
        {
            let found = other.load(r, at);
            (other, found)
        },
    );
    frozen.join(r, one);
    frozen.join(r, other);
    (first, second)
}

/// Attaches to a share of a table that has this magic number, and looks a key up.
pub fn look_up(r: &Region, share: Frozen, magic: u64, key: u64) -> Option<RelPtr>
    requires here { share.region ≡ r.now }
    requires table { IsTable share.words }
    requires magic { (table_of share.words).magic ≡ magic }
    ensures { result ≡ place_of (table_of share.words).entries key }
{
    let Ok(mut toc) = FrozenToc::attach(share, r, magic) else {
        unreachable!()
    };
    toc.lookup(r, key)
}

/// Two threads look a key up, each through its own share.
pub fn look_up_twice<R: Threads + Sync>(
    rt: &R,
    r: &Region,
    toc: &mut FrozenToc,
    magic: u64,
    key: u64,
) -> (Option<RelPtr>, Option<RelPtr>)
    requires here { toc.old.region ≡ r.now }
    requires magic { (table_of toc.old.words).magic ≡ magic }
    ensures same { toc.new ≡ toc.old }
    ensures found { (result.0 ≡ place_of (table_of toc.old.words).entries key) × (result.1 ≡ place_of (table_of toc.old.words).entries key) }
{
    let one = toc.share(r);
    let other = toc.share(r);
    join(
        rt,
        || -> Option<RelPtr>
            requires { (one.region ≡ r.now) × IsTable one.words × ((table_of one.words).magic ≡ magic) }
            ensures { result ≡ place_of (table_of one.words).entries key }
        { look_up(r, one, magic, key) },
        || -> Option<RelPtr>
            requires { (other.region ≡ r.now) × IsTable other.words × ((table_of other.words).magic ≡ magic) }
            ensures { result ≡ place_of (table_of other.words).entries key }
        { look_up(r, other, magic, key) },
    )
}
