//! A cache of texts under names: a table whose keys are names of 32 words. The first word of a name says to which
//! caller it belongs; any other caller may only read it, so what its owner put there is what it gets.

ghost use Rattle.std.specs.Prelude.{◌≡◌, Some, None, IsSome, IfOk, IfErr, OnOk};
ghost use Rattle.dshash_core.specs.Key.{hash_of};
ghost use Rattle.dshash_core.specs.Cells.{partition_of};
ghost use Rattle.dshash_parts.specs.Promises.{CallRefused, IsLastCall};
ghost use Rattle.lock_book.specs.Shown.{mine_of, number_of, seen_of};
ghost use Rattle.dsa_area.specs.Shown.{Belongs as AreaBelongs, IsArea, number_of as area_number};
ghost use Rattle.dshash_parts.specs.Tables.{IsHome, IsTable, Belongs, key_words_of};
ghost use Rattle.uses_table.specs.Texts.{after, may, owner_of, stepped};
ghost use Rattle.uses_table.specs.Cached.{own_text, under};
ghost use Rattle.uses_table.specs.declared.text.TextCall.TheVariants.{Remove, Set};

use crate::text::{TEXT_WORDS, Text, TextCall};
use dsa_area::{Area, AreaPass, NoSpace};
use dshash_parts::{DsPass, Dshash};
use region_words::Region;
use std::sync::Wait;

/// A call of one of the caller's own names. The text that was under it, if the call was made.
fn ask<R: Wait>(
    rt: &R,
    cache: &Dshash<Text>,
    r: &Region,
    area: &Area,
    pass: &mut DsPass<Text>,
    apass: &mut AreaPass,
    name: &[u64; TEXT_WORDS],
    call: TextCall,
) -> Result<Option<Text>, NoSpace>
    requires table { IsTable r.now cache.now }
    requires keys { key_words_of cache.now ≡ 32 }
    requires own { Belongs cache.now pass.old }
    requires may { may (number_of pass.old) name.now call }
    requires owner { owner_of name.now ≡ number_of pass.old }
    requires area { IsArea r.now area.now }
    requires home { IsHome area.now cache.now }
    requires area_own { AreaBelongs area.now apass.old }
    ensures own { Belongs cache.now pass.new }
    ensures caller { number_of pass.new ≡ number_of pass.old }
    ensures area_own { AreaBelongs area.now apass.new }
    ensures area_caller { area_number apass.new ≡ area_number apass.old }
    ensures stands { IfOk result (λ before. under (seen_of pass.new) name.now ≡ after before call) }
    ensures own_stands { own_text (mine_of pass.new) name.now ≡ under (seen_of pass.new) name.now }
    ensures replied { IfOk result (λ before. IsLastCall (number_of pass.old) name.now call before (seen_of pass.new (partition_of (hash_of name.now)))) }
    ensures refused { IfErr result (λ _. IsSome (after None call)) }
    ensures lack { IfErr result (λ lack. CallRefused stepped cache.now area.now pass.old apass.old pass.new apass.new name.now call lack.pages lack.largest) }
{
    cache.call(rt, r, area, pass, apass, name, &call)
}

/// The text under a name, if there is one, whichever caller's it is. It takes nothing from the area, so it is never
/// refused.
pub fn recall<R: Wait>(
    rt: &R,
    cache: &Dshash<Text>,
    r: &Region,
    pass: &mut DsPass<Text>,
    name: &[u64; TEXT_WORDS],
) -> Option<Text>
    requires table { IsTable r.now cache.now }
    requires keys { key_words_of cache.now ≡ 32 }
    requires own { Belongs cache.now pass.old }
    ensures own { Belongs cache.now pass.new }
    ensures caller { number_of pass.new ≡ number_of pass.old }
    ensures found { result ≡ under (seen_of pass.new) name.now }
    ensures own_found { owner_of name.now ≡ number_of pass.old → result ≡ own_text (mine_of pass.old) name.now }
{
    cache.find(rt, r, pass, name, &TextCall::Get)
}

/// Puts a text under one of the caller's own names. The text that was there, if any. It is refused only if the area has
/// no room for a new name or for a larger partition.
pub fn remember<R: Wait>(
    rt: &R,
    cache: &Dshash<Text>,
    r: &Region,
    area: &Area,
    pass: &mut DsPass<Text>,
    apass: &mut AreaPass,
    name: &[u64; TEXT_WORDS],
    text: Text,
) -> Result<Option<Text>, NoSpace>
    requires table { IsTable r.now cache.now }
    requires keys { key_words_of cache.now ≡ 32 }
    requires own { Belongs cache.now pass.old }
    requires owner { owner_of name.now ≡ number_of pass.old }
    requires area { IsArea r.now area.now }
    requires home { IsHome area.now cache.now }
    requires area_own { AreaBelongs area.now apass.old }
    ensures own { Belongs cache.now pass.new }
    ensures caller { number_of pass.new ≡ number_of pass.old }
    ensures area_own { AreaBelongs area.now apass.new }
    ensures area_caller { area_number apass.new ≡ area_number apass.old }
    ensures stands { OnOk result (under (seen_of pass.new) name.now ≡ Some text) }
    ensures kept { OnOk result (own_text (mine_of pass.new) name.now ≡ Some text) }
    ensures replied { IfOk result (λ before. IsLastCall (number_of pass.old) name.now (Set text) before (seen_of pass.new (partition_of (hash_of name.now)))) }
    ensures refused { IfErr result (λ lack. CallRefused stepped cache.now area.now pass.old apass.old pass.new apass.new name.now (Set text) lack.pages lack.largest) }
{
    ask(rt, cache, r, area, pass, apass, name, TextCall::Set(text))
}

/// Takes one of the caller's own names out. The text that was there, if any. It takes nothing from the area, so it is
/// never refused.
pub fn forget<R: Wait>(
    rt: &R,
    cache: &Dshash<Text>,
    r: &Region,
    area: &Area,
    pass: &mut DsPass<Text>,
    apass: &mut AreaPass,
    name: &[u64; TEXT_WORDS],
) -> Option<Text>
    requires table { IsTable r.now cache.now }
    requires keys { key_words_of cache.now ≡ 32 }
    requires own { Belongs cache.now pass.old }
    requires owner { owner_of name.now ≡ number_of pass.old }
    requires area { IsArea r.now area.now }
    requires home { IsHome area.now cache.now }
    requires area_own { AreaBelongs area.now apass.old }
    ensures own { Belongs cache.now pass.new }
    ensures caller { number_of pass.new ≡ number_of pass.old }
    ensures area_own { AreaBelongs area.now apass.new }
    ensures area_caller { area_number apass.new ≡ area_number apass.old }
    ensures gone { under (seen_of pass.new) name.now ≡ None }
    ensures none_kept { own_text (mine_of pass.new) name.now ≡ None }
    ensures replied { IsLastCall (number_of pass.old) name.now Remove result (seen_of pass.new (partition_of (hash_of name.now))) }
{
    match ask(rt, cache, r, area, pass, apass, name, TextCall::Remove) {
        Ok(text) => text,
        Err(_) => unreachable!(),
    }
}

/// One of a caller's own names, by a number.
pub fn own_name(caller: u32, number: u64) -> [u64; TEXT_WORDS]
    ensures { owner_of result ≡ caller }
{
    let mut name = [0; TEXT_WORDS];
    name[0] = u64::from(caller);
    name[1] = number;
    name
}

/// Puts a text under one of the caller's own names and gets it: whatever others do meanwhile, what was put is there.
pub fn keep<R: Wait>(
    rt: &R,
    cache: &Dshash<Text>,
    r: &Region,
    area: &Area,
    pass: &mut DsPass<Text>,
    apass: &mut AreaPass,
    name: &[u64; TEXT_WORDS],
    text: Text,
) -> Result<Text, NoSpace>
    requires table { IsTable r.now cache.now }
    requires keys { key_words_of cache.now ≡ 32 }
    requires own { Belongs cache.now pass.old }
    requires owner { owner_of name.now ≡ number_of pass.old }
    requires area { IsArea r.now area.now }
    requires home { IsHome area.now cache.now }
    requires area_own { AreaBelongs area.now apass.old }
    ensures own { Belongs cache.now pass.new }
    ensures caller { number_of pass.new ≡ number_of pass.old }
    ensures area_own { AreaBelongs area.now apass.new }
    ensures area_caller { area_number apass.new ≡ area_number apass.old }
    ensures kept { IfOk result (λ got. got ≡ text) }
{
    match remember(rt, cache, r, area, pass, apass, name, text) {
        Ok(_before) => {}
        Err(lack) => return Err(lack),
    }
    match recall(rt, cache, r, pass, name) {
        Some(got) => Ok(got),
        None => unreachable!(),
    }
}
