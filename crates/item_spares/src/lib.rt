//! Items for a table's new keys from a list that the caller keeps.
//!
//! A key that comes takes an item, and an item is a chunk of the table's area: without a spare one each new key costs a
//! turn more at its partition and one at the area's pool. Here the item comes from a list of `area_spares`, which asks the
//! pool for up to 32 in one turn. So a new key is one turn at its partition, and most often none at the area.

#![tactic(auto)]

ghost use Rattle.std.specs.Prelude.{◌≡◌, [], length, None, IfErr, IfOk, IfSome, OnErr};
ghost use Rattle.lock_book.specs.Shown.{number_of, seen_of};
ghost use Rattle.size_classes.specs.Classes.{class_size};
ghost use Rattle.dsa_area.specs.Sizes.{chunk_size};
ghost use Rattle.dsa_area.specs.Shown.{Belongs as AreaBelongs, IsArea, number_of as area_number};
ghost use Rattle.area_spares.specs.Spares.{IsSpares, class_of as number_of_class, kept_of};
ghost use Rattle.dshash_core.specs.Key.{hash_of};
ghost use Rattle.dshash_core.specs.Cells.{partition_of};
ghost use Rattle.dshash_parts.specs.Promises.{IsLastCall};
ghost use Rattle.dshash_parts.specs.Tables.{Belongs, IsHome, IsSpare, IsTable, item_of, key_words_of};
ghost use Rattle.item_spares.specs.Filled.{IsFilled, IsMadeFrom, IsRefusedFrom};

use area_spares::Spares;
use dsa_area::{Area, AreaPass, NoSpace};
use dshash_core::CellObject;
use dshash_parts::{DsPass, Dshash};
use region_words::{Chunk, Region};
use size_classes::class_of;
use std::alloc::{AllocError, Global};
use std::sync::Wait;

/// An empty list for the items of a table, or none if an item is too large to be an object of a size class. It takes
/// memory for two batches, once.
pub fn spares_for<O: CellObject + Send>(
    alloc: Global,
    table: &Dshash<O>,
) -> Result<Option<Spares>, AllocError>
where
    O::State: Send,
    O::Call: Send,
    O::Reply: Send,
    requires table { (region : _) × IsTable region table.now }
    ensures spares { IfOk result (λ o. IfSome o (λ s. (region : _) → IsSpares region s)) }
    ensures none { IfOk result (λ o. IfSome o (λ s. kept_of s ≡ [])) }
    ensures size { IfOk result (λ o. IfSome o (λ s. class_size (number_of_class s) ≡ chunk_size (item_of table.now))) }
{
    let Some(class) = class_of(table.item_bytes() as u32) else {
        return Ok(None);
    };
    let spares = Spares::new(alloc, class)?;
    Ok(Some(spares))
}

/// Takes an object from the list, if there is none in hand.
fn fill<R: Wait>(
    rt: &R,
    r: &Region,
    area: &Area,
    apass: &mut AreaPass,
    spares: &mut Spares,
    spare: &mut Option<Chunk>,
)
    requires area { IsArea r.now area.now }
    requires area_own { AreaBelongs area.now apass.old }
    requires spares { IsSpares r.now spares.old }
    requires spare { IfSome spare.old (λ c. (c.part.region ≡ r.now) × (c.bytes ≡ class_size (number_of_class spares.old))) }
    ensures area_own { AreaBelongs area.now apass.new }
    ensures area_caller { area_number apass.new ≡ area_number apass.old }
    ensures spares { IsSpares r.now spares.new }
    ensures same { number_of_class spares.new ≡ number_of_class spares.old }
    ensures spare { IfSome spare.new (λ c. (c.part.region ≡ r.now) × (c.bytes ≡ class_size (number_of_class spares.old))) }
    ensures filled { IsFilled area.now apass.old apass.new spares.old spares.new spare.old spare.new }
{
    if spare.is_some() {
        return;
    }
    match spares.alloc(rt, area, r, apass) {
        Ok(item) => *spare = Some(item),
        Err(_lack) => {}
    }
}

/// As `Dshash::call_with_spare`, by a caller that has a list: if it has no spare item, the list gives one, and only if the
/// list and the area have none the call goes without. It is meant for calls that make a cell. A call that takes a key out
/// is better made by `call_with_spare`: it needs no item, and keeps that of the key.
///
/// It costs what `call_with_spare` costs, and a turn at the pool once for as many calls as a batch has objects.
pub fn call_from<R: Wait, O: CellObject + Send>(
    rt: &R,
    table: &Dshash<O>,
    r: &Region,
    area: &Area,
    pass: &mut DsPass<O>,
    apass: &mut AreaPass,
    spares: &mut Spares,
    spare: &mut Option<Chunk>,
    key: &[u64],
    call: &O::Call,
) -> Result<O::Reply, NoSpace>
where
    O::State: Send,
    O::Call: Send,
    O::Reply: Send,
    requires table { IsTable r.now table.now }
    requires own { Belongs table.now pass.old }
    requires area { IsArea r.now area.now }
    requires home { IsHome area.now table.now }
    requires area_own { AreaBelongs area.now apass.old }
    requires spares { IsSpares r.now spares.old }
    requires size { class_size (number_of_class spares.old) ≡ chunk_size (item_of table.now) }
    requires spare { IsSpare r.now table.now spare.old }
    requires key { length key.now ≡ key_words_of table.now }
    requires may { O.may (number_of pass.old) key.now call.now }
    ensures own { Belongs table.now pass.new }
    ensures caller { number_of pass.new ≡ number_of pass.old }
    ensures area_own { AreaBelongs area.now apass.new }
    ensures area_caller { area_number apass.new ≡ area_number apass.old }
    ensures spares { IsSpares r.now spares.new }
    ensures same { number_of_class spares.new ≡ number_of_class spares.old }
    ensures spare { IsSpare r.now table.now spare.new }
    ensures made { IfOk result (IsMadeFrom O.stepped table.now area.now pass.old apass.old pass.new apass.new spares.old spares.new spare.old spare.new key.now call.now) }
    ensures refused { IfErr result (λ lack. IsRefusedFrom O.stepped table.now area.now pass.old apass.old pass.new apass.new spares.old spares.new spare.old key.now call.now lack.pages lack.largest) }
    ensures none_kept { OnErr result (spare.new ≡ None) }
    ensures last { IfOk result (λ reply. IsLastCall (number_of pass.old) key.now call.now reply (seen_of pass.new (partition_of (hash_of key.now)))) }
{
    fill(rt, r, area, apass, spares, spare);
    table.call_with_spare(rt, r, area, pass, apass, spare, key, call)
}
