//! What the two threads share, and what each of them owns: how it is made.

ghost use Rattle.std.specs.Prelude.{◌≡◌, [], false, IfOk, IfSome};
ghost use Rattle.dsa_area.specs.Shown.{Belongs as AreaBelongs, IsArea};
ghost use Rattle.dshash_parts.specs.Tables.{Belongs, IsHome, IsTable, key_words_of};
ghost use Rattle.mq_handle.specs.Messages.{left_of};
ghost use Rattle.uses_start.specs.Sharing.{AreOf, AreShared};

use dsa_area::{Area, AreaPass, area_words};
use dshash_numbers::Number;
use dshash_parts::{DsPass, Dshash};
use mq_handle::{Receiver, Sender, attach};
use mq_ring::{Ring, is_ring_size};
use region_words::Region;
use std::alloc::{AllocError, Global};
use std::sync::Wait;

/// The pages of the area, of 4 KiB each.
const PAGES: u32 = 512;

/// The words of the queue's ring, a power of two.
const RING_WORDS: u64 = 256;

/// The bytes of the longest message.
const LONGEST: u32 = 8;

/// What both threads share, by reference: the words, the area that gives chunks of them, and the table.
#[derive(Drop)]
pub struct Shared {
    pub region: Region,
    pub area: Area,
    pub table: Dshash<Number>,
}

/// What a thread owns: its pass of the table and its pass of the area, by which it calls them.
#[derive(Drop)]
pub struct Passes {
    pub table: DsPass<Number>,
    pub area: AreaPass,
}

/// A region with an area after its first word, and the passes of two callers.
#[tactic(auto, using(word_map::proofs::Maps::answers, std::proofs::lemmas::Bool::Decides::nat_tests))]
fn area_for_two(alloc: Global) -> Result<(Region, Area, AreaPass, AreaPass), AllocError>
    ensures area { IfOk result (λ a. IsArea a.0 a.1) }
    ensures own { IfOk result (λ a. AreaBelongs a.1 a.2 × AreaBelongs a.1 a.3) }
{
    let words = area_words(PAGES);
    let (region, mut part) = Region::new(alloc, words as usize + 1)?;
    let chunk = part.split_chunk(&region, 1, words);
    let (area, mut passes) = Area::new(alloc, &region, chunk, PAGES, 2)?;
    let Some(other) = passes.pop() else {
        unreachable!()
    };
    let Some(one) = passes.pop() else {
        unreachable!()
    };
    Ok((region, area, one, other))
}

/// A table of keys of one word in the area, and the passes of two callers.
fn table_for_two<R: Wait>(
    rt: &R,
    alloc: Global,
    r: &Region,
    area: &Area,
    apass: &mut AreaPass,
) -> Option<(Dshash<Number>, DsPass<Number>, DsPass<Number>)>
    requires area { IsArea r.now area.now }
    requires area_own { AreaBelongs area.now apass.old }
    ensures area_own { AreaBelongs area.now apass.new }
    ensures table { IfSome result (λ t. IsTable r.now t.0) }
    ensures home { IfSome result (λ t. IsHome area.now t.0) }
    ensures keys { IfSome result (λ t. key_words_of t.0 ≡ 1) }
    ensures own { IfSome result (λ t. Belongs t.0 t.1 × Belongs t.0 t.2) }
{
    let Ok((table, mut passes)) = Dshash::new(rt, alloc, r, area, apass, 1, 2) else {
        return None;
    };
    let Some(other) = passes.pop() else {
        unreachable!()
    };
    let Some(one) = passes.pop() else {
        unreachable!()
    };
    Some((table, one, other))
}

/// What two threads share, and the passes of the one and of the other.
pub fn open<R: Wait>(rt: &R, alloc: Global) -> Option<(Shared, Passes, Passes)>
    ensures shared { IfSome result (λ o. AreShared o.0) }
    ensures own { IfSome result (λ o. AreOf o.0 o.1 × AreOf o.0 o.2) }
{
    let Ok((region, area, area_one, mut area_other)) = area_for_two(alloc) else {
        return None;
    };
    let (table, one, other) = table_for_two(rt, alloc, &region, &area, &mut area_other)?;
    let one = Passes {
        table: one,
        area: area_one,
    };
    let other = Passes {
        table: other,
        area: area_other,
    };
    let shared = Shared {
        region,
        area,
        table,
    };
    Some((shared, one, other))
}

/// A queue in a chunk of the area.
pub fn new_queue<R: Wait>(
    rt: &R,
    alloc: Global,
    shared: &Shared,
    own: &mut Passes,
) -> Option<(Sender, Receiver)>
    requires shared { AreShared shared.now }
    requires own { AreOf shared.now own.old }
    ensures own { AreOf shared.now own.new }
    ensures here { IfSome result (λ ends. (ends.0.region ≡ shared.now.region) × (ends.1.region ≡ shared.now.region)) }
    ensures one_ring { IfSome result (λ ends. ends.0.end.ring ≡ ends.1.end.ring) }
    ensures stays { IfSome result (λ ends. (ends.0.end.gone ≡ false) × (ends.1.end.gone ≡ false)) }
    ensures fresh { IfSome result (λ ends. left_of ends.0.end.put ≡ []) }
{
    if !is_ring_size(RING_WORDS) {
        return None;
    }
    let bytes = 8 * (RING_WORDS + 3);
    let Ok(chunk) = shared.area.alloc(rt, &shared.region, &mut own.area, bytes) else {
        return None;
    };
    let (tx, rx) = Ring::create(&shared.region, chunk, RING_WORDS, 0, LONGEST);
    match attach(alloc, tx, rx) {
        Ok(ends) => Some(ends),
        Err(_) => None,
    }
}
