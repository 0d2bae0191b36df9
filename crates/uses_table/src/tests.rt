//! A cache of texts: a caller remembers texts under its own names, and recalls each, while the table doubles; then all
//! entries are listed, and one name is forgotten.

ghost use Rattle.dshash_parts.specs.Uses.{IsAtHome};

use crate::one::table_for_one;
use crate::{Text, forget, keep, own_name, recall, replace_if};
use dsa_area::{Area, AreaPass};
use dshash_parts::{DsPass, Dshash};
use dshash_scan::{count_all, list_all};
use region_words::Region;
use std::sync::Wait;
use std::test::Fail;

/// Keeps this many texts, each under one of the caller's own names. Says for how many there was room.
fn keeps_all<R: Wait>(
    rt: &R,
    cache: &Dshash<Text>,
    r: &Region,
    area: &Area,
    pass: &mut DsPass<Text>,
    apass: &mut AreaPass,
    count: u64,
) -> u64
    requires home { IsAtHome r.now area.now cache.now 32 pass.old apass.old }
    ensures home { IsAtHome r.now area.now cache.now 32 pass.new apass.new }
{
    let mut good = 0u64;
    if let Some(text) = Text::of(b"a text") {
        for number in 0..count {
            let name = own_name(pass.number(), number);
            if keep(rt, cache, r, area, pass, apass, &name, text).is_ok() {
                good = good.saturating_add(1);
            }
        }
    }
    good
}

/// Whether one of the caller's names has this text, which is replaced if it is expected and no other, and is forgotten then.
fn is_replaced<R: Wait>(
    rt: &R,
    cache: &Dshash<Text>,
    r: &Region,
    area: &Area,
    pass: &mut DsPass<Text>,
    apass: &mut AreaPass,
    text: Text,
    other: Text,
) -> bool
    requires home { IsAtHome r.now area.now cache.now 32 pass.old apass.old }
    ensures home { IsAtHome r.now area.now cache.now 32 pass.new apass.new }
{
    let name = own_name(pass.number(), 7);
    let first = replace_if(rt, cache, r, pass, &name, &text, other);
    let second = replace_if(rt, cache, r, pass, &name, &text, text);
    let gone = forget(rt, cache, r, area, pass, apass, &name);
    first && !second && gone == Some(other) && recall(rt, cache, r, pass, &name).is_none()
}

#[test]
fn a_cache_keeps_texts(rt: HostRuntime) -> Result<(), Fail> {
    let (Some(text), Some(other)) = (Text::of(b"a text"), Text::of(b"another text")) else {
        return Err(Fail::new("no text"));
    };
    let (region, area, cache, mut pass, mut apass) = table_for_one(&rt, rt.alloc(), 512, 0, 32)?;
    let good = keeps_all(&rt, &cache, &region, &area, &mut pass, &mut apass, 400);
    assert!(rt; good == 400);
    let entries = list_all(&rt, rt.alloc(), &cache, &region, &mut pass).expect(&rt, "memory");
    assert!(rt; entries.len() == 400);
    assert!(rt; count_all(&rt, &cache, &region, &mut pass) == 400);
    let is = is_replaced(
        &rt, &cache, &region, &area, &mut pass, &mut apass, text, other,
    );
    assert!(rt; is);
    Ok(())
}
