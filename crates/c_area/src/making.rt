//! How an area is made, and how a further caller comes to it.

ghost use Rattle.std.specs.Prelude.{◌≡◌, ◌+◌, ◌≤◌, IfOk, IfErr};
ghost use Rattle.c_area.specs.Made.{IsFirst, IsFurther, IsRefused};

use crate::caller::Caller;
use crate::code::Code;
use crate::locked::LockedArea;
use crate::opening::lay_out;
use crate::shared::{Share, Shared};
use free_pages::area_words;
use lock_book::Shelf;
use region_words::Region;
use slab::Slab;
use std::alloc::{AllocError, Global};
use std::sync::Arc;

/// The most callers of an area.
const MOST_CALLERS: u32 = 4096;

/// The most pages of an area.
const MOST_PAGES: u32 = 65_536;

/// An area with no page granted, and the last of its callers. Word 0 of its region is no place, so it lies behind that.
fn assemble(alloc: Global, callers: u32, pages: u32) -> Result<Caller, AllocError>
    requires callers { 1 ≤ callers }
    requires few { pages ≤ 65536 }
    ensures { IfOk result (λ c. IsFirst callers pages c) }
{
    let words = area_words(pages);
    let (region, mut part) = Region::new(alloc, words as usize + 1)?;
    let chunk = part.split_chunk(&region, 1, words);
    let arena = lay_out(alloc, &region, chunk, pages)?;
    let mut values = Vec::new(alloc);
    values.push(LockedArea { arena })?;
    let (shelf, mut others) = Shelf::new(alloc, values, callers)?;
    let Some(pass) = others.pop() else {
        unreachable!()
    };
    let none = part.split(&region, 0, 0);
    let shared = Arc::new(
        alloc,
        Shared {
            region,
            pages,
            shelf,
        },
    )?;
    Ok(Caller {
        share: Share {
            shared,
            pass,
            others,
            words: none,
            chunks: Slab::new(alloc),
        },
    })
}

/// An area of this many pages of 4,096 bytes for this many callers, with no page granted, and the first of them. It takes
/// memory for the pages and their records, some 8.1 KiB a page and half as much again while it is made, for the lock
/// and the passes.
pub fn new_area(alloc: Global, callers: u32, pages: u32) -> Result<Caller, Code>
    ensures made { IfOk result (λ c. IsFirst callers pages c) }
    ensures refused { IfErr result (λ code. IsRefused callers pages code) }
{
    if callers == 0 || callers > MOST_CALLERS {
        return Err(Code::BadCallers);
    }
    if pages > MOST_PAGES {
        return Err(Code::BadSize);
    }
    match assemble(alloc, callers, pages) {
        Ok(caller) => Ok(caller),
        Err(_) => Err(Code::NoMemory),
    }
}

impl Caller {
    /// A further caller.
    pub fn share(&mut self, alloc: Global) -> Result<Caller, Code>
        ensures { IsFurther self.old self.new result }
    {
        let share = &mut self.share;
        if share.others.is_empty() {
            return Err(Code::BadCallers);
        }
        let Ok(shared) = Arc::try_clone(&share.shared) else {
            return Err(Code::NoMemory);
        };
        let Some(pass) = share.others.pop() else {
            unreachable!()
        };
        let words = share.words.split(&shared.region, 0, 0);
        Ok(Caller {
            share: Share {
                shared,
                pass,
                others: Vec::new(alloc),
                words,
                chunks: Slab::new(alloc),
            },
        })
    }
}
