//! One caller of an area, and its calls.

ghost use Rattle.std.specs.Prelude.{◌≡◌, ℕ, ◌/◌, ◌≤◌, true, IfOk, IfErr};
ghost use Rattle.slab.specs.Slab.{HasRoomFor, get};
ghost use Rattle.std_alloc.specs.Arc.{arc_value};
ghost use Rattle.word_map.specs.WordMap.{union};
ghost use Rattle.region_words.specs.Parts.{owned};
ghost use Rattle.lock_book.specs.Shown.{Belongs, Missed, number_of as number_of_pass};
ghost use Rattle.c_area.specs.Arenas.{name_in};
ghost use Rattle.c_area.specs.Asked.{AnswerFits, AskFits, call_of, reply_of};
ghost use Rattle.c_area.specs.Shares.{IsShare, IsShared, chunk_of, extent};
ghost use Rattle.c_area.specs.Tries.{Allocs, Frees, Gains, Looks, Makes, Trims};

use crate::code::Code;
use crate::locked::{AreaAnswer, AreaAsk};
use crate::shared::{Extent, Share};
use free_pages::Usage;
use region_words::Chunk;
use slab::Slab;
use std::marker::Model;

/// The most bytes of a request.
const MOST_BYTES: u64 = 1 << 30;

/// The first size class.
const FIRST_CLASS: u32 = 2;

/// The last one.
const LAST_CLASS: u32 = 37;

/// What a request is granted.
#[derive(Clone, Copy, Debug)]
pub struct Grant {
    /// The number by which the caller names the chunk.
    pub number: u64,
    /// The bytes of the chunk.
    pub bytes: u64,
}

/// One caller: contracts see its share of the area.
#[derive(Drop)]
pub struct Caller {
    pub(crate) share: Share,
}

impl Model for Caller {
    ghost use Rattle.c_area.specs.Codes.{share_code};
    ghost use Rattle.c_area.specs.Shares.{IsShare};
    ghost use Rattle.c_area.specs.declared.shared.Share.{Share};

    ghost Value = { Share };

    ghost coded = { share_code };

    ghost view = { λ c. c.share };

    ghost invariant = { λ c. IsShare c.share };
}

impl Caller {
    /// A chunk of at least this many bytes, which is the caller's from then on, whatever its words hold. One turn at the
    /// area. It takes memory for the chunk's number, before the turn.
    pub fn try_alloc(&mut self, bytes: u64) -> Result<Grant, Code>
        ensures { Allocs self.old self.new bytes result }
    {
        alloc(&mut self.share, bytes)
    }

    /// Gives a chunk back. One turn at the area. It takes no memory.
    pub fn try_free(&mut self, number: u64) -> Code
        ensures { Frees self.old self.new number result }
    {
        free(&mut self.share, number)
    }

    /// How the pages are used: how many are granted, those of superblocks among them, and the longest run of free ones.
    /// One turn at the area. It takes no memory.
    pub fn try_usage(&mut self) -> Option<Usage>
        ensures { Looks self.old self.new result }
    {
        look(&mut self.share)
    }

    /// Gives the active superblock of a size class, from 2 to 37, to the pages, if nothing in it is live. One turn at
    /// the area. It takes no memory.
    pub fn try_trim(&mut self, class: u32) -> Code
        ensures { Trims self.old self.new class result }
    {
        trim_class(&mut self.share, class)
    }
}

/// One turn at the area, if no other caller is there at this moment.
fn ask_area(share: &mut Share, ask: AreaAsk) -> Result<AreaAnswer, AreaAsk>
    requires shared { IsShared (arc_value share.old.shared) }
    requires own { Belongs (arc_value share.old.shared).shelf share.old.pass }
    requires ask { AskFits (name_in (arc_value share.old.shared).region (arc_value share.old.shared).pages) ask }
    ensures rest { share.new ≡ record share.old { pass = share.new.pass } }
    ensures own { Belongs (arc_value share.old.shared).shelf share.new.pass × (number_of_pass share.new.pass ≡ number_of_pass share.old.pass) }
    ensures made { IfOk result (λ answer. Makes share.old share.new (call_of ask) (reply_of answer)) }
    ensures fits { IfOk result (λ answer. AnswerFits (name_in (arc_value share.old.shared).region (arc_value share.old.shared).pages) ask answer) }
    ensures busy { IfErr result (λ back. (back ≡ ask) × Missed share.old.pass share.new.pass) }
{
    let shared = &share.shared;
    shared
        .shelf
        .try_call(&shared.region, &mut share.pass, 0, ask)
}

/// Keeps a chunk that came: its number. There is room for that.
fn keep(share: &mut Share, chunk: Chunk) -> u64
    requires share { IsShare share.old }
    requires here { chunk.part.region ≡ (arc_value share.old.shared).region }
    requires some { 8 ≤ chunk.bytes }
    requires place { HasRoomFor share.old.chunks 1 }
    ensures share { IsShare share.new }
    ensures rest { (share.new.shared ≡ share.old.shared) × (share.new.pass ≡ share.old.pass) × (share.new.others ≡ share.old.others) }
    ensures gains { Gains share.old share.new result (extent chunk.at (chunk.bytes / 8)) }
{
    let Chunk { at, bytes, part } = chunk;
    share.words.join(&share.shared.region, part);
    share.chunks.insert_reserved(Extent {
        at: at.word(),
        words: bytes / 8,
    }) as u64
}

/// Makes a place for the number of a further chunk. Whether there was memory for it.
fn make_place(chunks: &mut Slab<Extent>) -> bool
    ensures same { (i : ℕ) → get chunks.new i ≡ get chunks.old i }
    ensures place { result ≡ true → HasRoomFor chunks.new 1 }
{
    match chunks.reserve(1) {
        Ok(()) => true,
        Err(_) => false,
    }
}

/// Asks for a chunk.
fn alloc(share: &mut Share, bytes: u64) -> Result<Grant, Code>
    requires share { IsShare share.old }
    ensures share { IsShare share.new }
    ensures allocs { Allocs share.old share.new bytes result }
{
    if bytes == 0 || bytes > MOST_BYTES {
        return Err(Code::BadSize);
    }
    if !make_place(&mut share.chunks) {
        return Err(Code::NoMemory);
    }
    match ask_area(share, AreaAsk::Alloc(bytes)) {
        Ok(AreaAnswer::Given(chunk)) => {
            let bytes = chunk.bytes;
            let number = keep(share, chunk);
            Ok(Grant { number, bytes })
        }
        Ok(AreaAnswer::Lacking(_)) => Err(Code::NoSpace),
        Ok(_) => unreachable!(),
        Err(_) => Err(Code::WouldBlock),
    }
}

/// The words of the caller's chunk of this number, if it has one.
pub(crate) fn find(share: &Share, number: u64) -> Option<Extent>
    ensures { result ≡ chunk_of share.now number }
{
    share.chunks.get(number as usize).copied()
}

/// Puts the words of a chunk back that did not go.
fn put_back(share: &mut Share, chunk: Chunk)
    requires here { (share.old.words.region ≡ (arc_value share.old.shared).region) × (chunk.part.region ≡ share.old.words.region) }
    ensures { share.new ≡ record share.old { words = owned share.old.words.region (union share.old.words.words chunk.part.words) } }
{
    let Chunk {
        at: _,
        bytes: _,
        part,
    } = chunk;
    share.words.join(&share.shared.region, part);
}

/// Gives a chunk back.
fn free(share: &mut Share, number: u64) -> Code
    requires share { IsShare share.old }
    ensures share { IsShare share.new }
    ensures frees { Frees share.old share.new number result }
{
    let Some(e) = find(share, number) else {
        return Code::Stranger;
    };
    let chunk = share.words.split_chunk(&share.shared.region, e.at, e.words);
    match ask_area(share, AreaAsk::Free(chunk)) {
        Ok(AreaAnswer::Taken) => {
            share.chunks.remove(number as usize);
            Code::Done
        }
        Ok(AreaAnswer::Back(chunk)) => {
            put_back(share, chunk);
            Code::Stranger
        }
        Ok(_) => unreachable!(),
        Err(AreaAsk::Free(chunk)) => {
            put_back(share, chunk);
            Code::WouldBlock
        }
        Err(_) => unreachable!(),
    }
}

/// Looks at how the pages are used.
fn look(share: &mut Share) -> Option<Usage>
    requires share { IsShare share.old }
    ensures share { IsShare share.new }
    ensures looks { Looks share.old share.new result }
{
    match ask_area(share, AreaAsk::Usage) {
        Ok(AreaAnswer::Used(usage)) => Some(usage),
        Ok(_) => unreachable!(),
        Err(_) => None,
    }
}

/// Gives an idle superblock of a class to the pages.
fn trim_class(share: &mut Share, class: u32) -> Code
    requires share { IsShare share.old }
    ensures share { IsShare share.new }
    ensures trims { Trims share.old share.new class result }
{
    if class < FIRST_CLASS || class > LAST_CLASS {
        return Code::BadSize;
    }
    match ask_area(share, AreaAsk::Trim(class as u8)) {
        Ok(AreaAnswer::Gone) => Code::Done,
        Ok(AreaAnswer::Left) => Code::Absent,
        Ok(_) => unreachable!(),
        Err(_) => Code::WouldBlock,
    }
}
