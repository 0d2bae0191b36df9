//! Many chunks in one table, which doubles under them: each is listed, and comes back once, with its number.

ghost use Rattle.std.specs.Prelude.{◌≡◌, ◌<◌, length, IfOk};
ghost use Rattle.dsa_area.specs.Shown.{Belongs as AreaBelongs, IsArea};
ghost use Rattle.chunk_table.specs.Tables.{Belongs, IsTable, key_words_of};
ghost use Rattle.chunk_table.specs.Ending.{IsOf};
ghost use Rattle.uses_chunks.specs.Ready.{IsReady};

use crate::growing::Growing;
use crate::keeping::keep;
use crate::tests::{number_of, open};
use chunk_table::{ChunkPass, ChunkTable, ClosedChunks};
use dsa_area::{Area, AreaPass};
use dshash_chunks::{ChunkPartition, TakenChunk};
use dshash_core::PARTITIONS;
use region_words::Region;
use std::alloc::{AllocError, Global};
use std::sync::Wait;
use std::test::Fail;

/// The keys of the test, more than a table holds before it doubles.
const KEYS: u64 = 2000;

/// Keeps a number under each key below `keys`, one more than the key. How many of the keys were new.
fn keep_all<R: Wait>(
    rt: &R,
    table: &ChunkTable<Growing>,
    r: &Region,
    area: &Area,
    pass: &mut ChunkPass<Growing>,
    apass: &mut AreaPass,
    keys: u64,
) -> u64
    requires ready { IsReady r.now area.now table.now pass.old apass.old }
    ensures ready { IsReady r.now area.now table.now pass.new apass.new }
{
    let mut new = 0u64;
    for key in 0..keys {
        let kept = keep(rt, table, r, area, pass, apass, key, 40, key + 1);
        if matches!(kept, Some(None)) {
            new = new.saturating_add(1);
        }
    }
    new
}

/// How many names the partitions list.
fn listed<R: Wait>(
    rt: &R,
    alloc: Global,
    table: &ChunkTable<Growing>,
    r: &Region,
    pass: &mut ChunkPass<Growing>,
) -> Result<u64, AllocError>
    requires table { IsTable r.now table.now }
    requires own { Belongs table.now pass.old }
    ensures own { Belongs table.now pass.new }
{
    let mut names = 0u64;
    for partition in 0..PARTITIONS {
        let some = table.list_one(rt, alloc, r, pass, partition)?;
        names = names.saturating_add(some.len() as u64);
    }
    Ok(names)
}

/// Whether a chunk has the number that was kept under its key. Chunk and item go back to the area.
fn is_right<R: Wait>(
    rt: &R,
    r: &Region,
    area: &Area,
    apass: &mut AreaPass,
    taken: TakenChunk,
) -> bool
    requires area { IsArea r.now area.now }
    requires own { AreaBelongs area.now apass.old }
    requires key { length taken.key ≡ 1 }
    requires here { taken.chunk.part.region ≡ r.now }
    requires item { taken.item.part.region ≡ r.now }
    ensures own { AreaBelongs area.now apass.new }
{
    let TakenChunk { key, chunk, item } = taken;
    let number = number_of(rt, r, area, apass, chunk);
    let _refused = area.free(rt, r, apass, item);
    number == key.words()[0].wrapping_add(1)
}

/// Takes chunks of a partition out of the table, at most `most`. How many had their numbers.
fn take_some<R: Wait>(
    rt: &R,
    alloc: Global,
    table: &ChunkTable<Growing>,
    r: &Region,
    area: &Area,
    pass: &mut ChunkPass<Growing>,
    apass: &mut AreaPass,
    partition: u32,
    most: u64,
) -> Result<u64, AllocError>
    requires ready { IsReady r.now area.now table.now pass.old apass.old }
    requires number { partition < 128 }
    ensures ready { IsReady r.now area.now table.now pass.new apass.new }
{
    let mut right = 0u64;
    for _turn in 0..most {
        let Some(taken) = table.take_any(rt, alloc, r, pass, partition)? else {
            return Ok(right);
        };
        if is_right(rt, r, area, apass, taken) {
            right = right.saturating_add(1);
        }
    }
    Ok(right)
}

/// Takes the chunks of the first half of the partitions out of the table. How many had their numbers.
fn take_half<R: Wait>(
    rt: &R,
    alloc: Global,
    table: &ChunkTable<Growing>,
    r: &Region,
    area: &Area,
    pass: &mut ChunkPass<Growing>,
    apass: &mut AreaPass,
) -> Result<u64, AllocError>
    requires ready { IsReady r.now area.now table.now pass.old apass.old }
    ensures ready { IsReady r.now area.now table.now pass.new apass.new }
{
    let mut right = 0u64;
    for partition in 0..PARTITIONS / 2 {
        let some = take_some(rt, alloc, table, r, area, pass, apass, partition, KEYS)?;
        right = right.saturating_add(some);
    }
    Ok(right)
}

/// Takes the chunks of a partition of a closed table. How many had their numbers.
fn take_left<R: Wait>(
    rt: &R,
    alloc: Global,
    r: &Region,
    area: &Area,
    apass: &mut AreaPass,
    partition: ChunkPartition<Growing>,
) -> Result<u64, AllocError>
    requires area { IsArea r.now area.now }
    requires own { AreaBelongs area.now apass.old }
    requires here { partition.region ≡ r.now }
    requires keys { partition.key_words ≡ 1 }
    ensures own { AreaBelongs area.now apass.new }
{
    let mut partition = partition;
    let mut right = 0u64;
    for _turn in 0..KEYS {
        let words = vec![in alloc; 0u64; 1]?;
        let Some(taken) = partition.take_any(r, words) else {
            return Ok(right);
        };
        if is_right(rt, r, area, apass, taken) {
            right = right.saturating_add(1);
        }
    }
    Ok(right)
}

/// The same of all partitions of a closed table.
fn take_rest<R: Wait>(
    rt: &R,
    alloc: Global,
    r: &Region,
    area: &Area,
    apass: &mut AreaPass,
    closed: ClosedChunks<Growing>,
) -> Result<u64, AllocError>
    requires area { IsArea r.now area.now }
    requires own { AreaBelongs area.now apass.old }
    requires parts { (t : _) × IsOf r.now t closed × (key_words_of t ≡ 1) }
    ensures own { AreaBelongs area.now apass.new }
{
    let mut closed = closed;
    let mut right = 0u64;
    while let Some(partition) = closed.take_last() {
        let some = take_left(rt, alloc, r, area, apass, partition)?;
        right = right.saturating_add(some);
    }
    Ok(right)
}

#[test]
fn each_chunk_comes_back_once(rt: HostRuntime) -> Result<(), Fail> {
    let alloc = rt.alloc();
    let (r, area, table, mut pass, mut apass) = open(alloc, 1024)?;
    let new = keep_all(&rt, &table, &r, &area, &mut pass, &mut apass, KEYS);
    assert_eq!(rt; new, KEYS);
    let names = listed(&rt, alloc, &table, &r, &mut pass).expect(&rt, "memory");
    assert_eq!(rt; names, KEYS);
    let half = take_half(&rt, alloc, &table, &r, &area, &mut pass, &mut apass).expect(
        &rt, "memory",
    );
    let Ok(passes) = vec![in alloc; pass] else {
        return Err(Fail::new("no memory"));
    };
    let closed = table.close(passes);
    let rest = take_rest(&rt, alloc, &r, &area, &mut apass, closed).expect(&rt, "memory");
    assert_eq!(rt; half.saturating_add(rest), KEYS);
    Ok(())
}
