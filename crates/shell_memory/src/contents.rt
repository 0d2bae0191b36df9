//! The commands over the table of contents: `toc alloc`, `insert`, `find`, `freeze` and `attach`.
//!
//! The table grows until it is frozen, and then it is only read. A chunk that it gave is under its name, like those of
//! the area, and the shell goes on to own it: what is frozen are the words of the table.

ghost use Rattle.std.specs.Prelude.{◌≡◌, ◌≤◌, ℕ, IfOk, OnOk, Some};
ghost use Rattle.atomic_table.specs.Seated.{TableId};
ghost use Rattle.shell_memory.specs.Chunks.{AreChunks};
ghost use Rattle.shell_memory.specs.Contents.{Allocates, Attaches, Finds, Freezes, Goes, Inserts, IsAnswered, IsContents, IsFound, IsText, frozen_in, growing_in, opening, refusal_of, state_of};
ghost use Rattle.shell_lines.specs.TocRequests.{IsAllowed, request_of};
ghost use Rattle.shell_memory.specs.declared.chunks.Chunks.{Chunks};
ghost use Rattle.word_map.specs.WordMap.{HasJust};

use crate::answers::{plain, with_bytes, with_number, with_numbers};
use crate::chunks::Chunks;
use region_words::{Part, Region};
use rel_pointer::RelPtr;
use shell_lines::TocCommand;
use shm_toc::{FrozenToc, Toc, TocAnswer};
use std::alloc::{AllocError, Global};

/// The words of the table and of its chunks: 1,024 bytes.
pub const TOC_WORDS: u64 = 128;

/// The table's magic number.
const MAGIC: u64 = 7;

/// The table of contents: one that grows, or one that is frozen.
#[derive(Drop)]
pub struct Contents {
    growing: Option<Toc>,
    frozen: Option<FrozenToc>,
}

/// What a command over the table is answered.
#[derive(Clone, Copy, Debug, PartialEq, Eq)]
pub(crate) enum ContentsAnswer {
    /// The table is frozen.
    Frozen,
    /// The table is not frozen.
    NotFrozen,
    /// The name is in use.
    Named,
    /// Nothing has the name.
    NoName,
    /// It was done.
    Done,
    /// A chunk of this many bytes.
    Granted { bytes: u64 },
    /// The bytes that were wanted, and those that are left.
    Full { wanted: u64, free: u64 },
    /// The key is there already.
    KeyThere,
    /// No entry has the key.
    None,
    /// The key has this place.
    Found { place: u64 },
    /// The table's magic number is this one.
    WrongMagic { found: u64 },
}

impl ContentsAnswer {
    /// The line of the answer. Of a place it says the name of the chunk that begins there, if one does.
    fn text(self, alloc: Global, chunks: &Chunks) -> Result<Vec<u8>, AllocError>
        requires { (region : TableId) × AreChunks region chunks.now }
        ensures { IfOk result (λ line. IsText chunks.now self line.items) }
    {
        match self {
            ContentsAnswer::Frozen => plain(alloc, "frozen"),
            ContentsAnswer::NotFrozen => plain(alloc, "notfrozen"),
            ContentsAnswer::Named => plain(alloc, "named"),
            ContentsAnswer::NoName => plain(alloc, "noname"),
            ContentsAnswer::Done => plain(alloc, "ok"),
            ContentsAnswer::Granted { bytes } => with_number(alloc, "ok ", bytes),
            ContentsAnswer::Full { wanted, free } => with_numbers(
                alloc,
                "tocfull ",
                wanted,
                u128::from(free),
            ),
            ContentsAnswer::KeyThere => plain(alloc, "keythere"),
            ContentsAnswer::None => plain(alloc, "none"),
            ContentsAnswer::Found { place } => found(alloc, chunks, place),
            ContentsAnswer::WrongMagic { found } => with_number(alloc, "wrongmagic ", found),
        }
    }
}

/// The line of a place that was found.
fn found(alloc: Global, chunks: &Chunks, place: u64) -> Result<Vec<u8>, AllocError>
    requires { (region : TableId) × AreChunks region chunks.now }
    ensures { IfOk result (λ line. IsFound chunks.now place line.items) }
{
    match chunks.name_at(place) {
        Some(name) => with_bytes(alloc, "found ", name),
        None => plain(alloc, "found"),
    }
}

impl Contents {
    /// An empty table in words that it owns from then on.
    pub fn new(r: &Region, part: Part) -> Contents
        requires here { part.region ≡ r.now }
        requires owns { HasJust part.words 0 TOC_WORDS }
        ensures contents { IsContents r.now result }
        ensures opening { state_of result ≡ Some opening }
    {
        Contents {
            growing: Some(Toc::create(r, part, TOC_WORDS, MAGIC)),
            frozen: None,
        }
    }

    /// Answers a command, by a line.
    pub fn answer(
        &mut self,
        alloc: Global,
        r: &Region,
        chunks: &mut Chunks,
        command: TocCommand<'_>,
    ) -> Result<Vec<u8>, AllocError>
        requires contents { IsContents r.now self.old }
        requires chunks { AreChunks r.now chunks.old }
        requires allowed { IsAllowed (request_of command) }
        ensures contents { OnOk result (IsContents r.now self.new) }
        ensures chunks { OnOk result (AreChunks r.now chunks.new) }
        ensures answer { IfOk result (λ line. IsAnswered (request_of command.entry) self.old self.new chunks.old chunks.new line.items) }
    {
        match command {
            TocCommand::Alloc { name, bytes } => {
                let answer = self.alloc(alloc, r, chunks, name, bytes)?;
                answer.text(alloc, chunks)
            }
            TocCommand::Insert { key, name } => {
                self.insert(r, chunks, key, name).text(alloc, chunks)
            }
            TocCommand::Find { key } => self.find(r, key).text(alloc, chunks),
            TocCommand::Freeze => self.freeze(r).text(alloc, chunks),
            TocCommand::Attach { magic } => self.attach(r, magic).text(alloc, chunks),
        }
    }

    /// A chunk of the table under a new name.
    fn alloc(
        &mut self,
        alloc: Global,
        r: &Region,
        chunks: &mut Chunks,
        name: &[u8],
        bytes: u64,
    ) -> Result<ContentsAnswer, AllocError>
        requires contents { IsContents r.now self.old }
        requires chunks { AreChunks r.now chunks.old }
        requires some { (1 ≤ bytes) × (bytes ≤ 1073741824) }
        ensures contents { OnOk result (IsContents r.now self.new) }
        ensures chunks { OnOk result (AreChunks r.now chunks.new) }
        ensures answer { IfOk result (λ answer. Goes self.old self.new (λ s t. Allocates s t chunks.old chunks.new name.now bytes answer)) }
    {
        match &mut self.growing {
            Some(toc) => allocate(alloc, r, toc, chunks, name, bytes),
            None => Ok(ContentsAnswer::Frozen),
        }
    }

    /// An entry of a key and the place of the chunk of this name.
    fn insert(&mut self, r: &Region, chunks: &Chunks, key: u64, name: &[u8]) -> ContentsAnswer
        requires contents { IsContents r.now self.old }
        ensures contents { IsContents r.now self.new }
        ensures answer { Goes self.old self.new (λ s t. Inserts s t chunks.now chunks.now key name.now result) }
    {
        match &mut self.growing {
            Some(toc) => insert(r, toc, chunks, key, name),
            None => ContentsAnswer::Frozen,
        }
    }

    /// The place of the key.
    fn find(&mut self, r: &Region, key: u64) -> ContentsAnswer
        requires contents { IsContents r.now self.old }
        ensures contents { IsContents r.now self.new }
        ensures answer { (c : Chunks) → Goes self.old self.new (λ s t. Finds s t c c key result) }
    {
        match &mut self.frozen {
            Some(toc) => find(r, toc, key),
            None => ContentsAnswer::NotFrozen,
        }
    }

    /// From now on the table is only read.
    fn freeze(&mut self, r: &Region) -> ContentsAnswer
        requires contents { IsContents r.now self.old }
        ensures contents { IsContents r.now self.new }
        ensures answer { (c : Chunks) → Goes self.old self.new (λ s t. Freezes s t c c result) }
    {
        match self.growing.take() {
            Some(toc) => {
                self.frozen = Some(toc.freeze(r));
                ContentsAnswer::Done
            }
            None => ContentsAnswer::Frozen,
        }
    }

    /// A share of the table is attached to by a magic number, and given up.
    fn attach(&mut self, r: &Region, magic: u64) -> ContentsAnswer
        requires contents { IsContents r.now self.old }
        ensures contents { IsContents r.now self.new }
        ensures answer { (c : Chunks) → Goes self.old self.new (λ s t. Attaches s t c c magic result) }
    {
        match &mut self.frozen {
            Some(toc) => attach(r, toc, magic),
            None => ContentsAnswer::NotFrozen,
        }
    }
}

/// A chunk of a table that grows, under a new name.
fn allocate(
    alloc: Global,
    r: &Region,
    toc: &mut Toc,
    chunks: &mut Chunks,
    name: &[u8],
    bytes: u64,
) -> Result<ContentsAnswer, AllocError>
    requires here { toc.old.region ≡ r.now }
    requires chunks { AreChunks r.now chunks.old }
    requires some { (1 ≤ bytes) × (bytes ≤ 1073741824) }
    ensures here { toc.new.region ≡ r.now }
    ensures chunks { OnOk result (AreChunks r.now chunks.new) }
    ensures answer { IfOk result (λ answer. Allocates (growing_in toc.old.words) (growing_in toc.new.words) chunks.old chunks.new name.now bytes answer) }
{
    if chunks.has(name) {
        return Ok(ContentsAnswer::Named);
    }
    match toc.allocate(r, bytes) {
        Ok(chunk) => {
            let bytes = chunk.bytes;
            chunks.enter(alloc, r, name, chunk)?;
            Ok(ContentsAnswer::Granted { bytes })
        }
        Err(refusal) => Ok(refused(refusal)),
    }
}

/// An entry in a table that grows.
fn insert(r: &Region, toc: &mut Toc, chunks: &Chunks, key: u64, name: &[u8]) -> ContentsAnswer
    requires here { toc.old.region ≡ r.now }
    ensures here { toc.new.region ≡ r.now }
    ensures answer { Inserts (growing_in toc.old.words) (growing_in toc.new.words) chunks.now chunks.now key name.now result }
{
    let Some(place) = chunks.place_of(name) else {
        return ContentsAnswer::NoName;
    };
    match toc.insert(r, key, RelPtr::of(place)) {
        Ok(()) => ContentsAnswer::Done,
        Err(refusal) => refused(refusal),
    }
}

/// The place of a key of a frozen table.
fn find(r: &Region, toc: &mut FrozenToc, key: u64) -> ContentsAnswer
    requires here { toc.old.region ≡ r.now }
    ensures same { toc.new ≡ toc.old }
    ensures answer { (c : Chunks) → Finds (frozen_in toc.old.words) (frozen_in toc.new.words) c c key result }
{
    match toc.lookup(r, key) {
        Some(place) => ContentsAnswer::Found {
            place: place.word(),
        },
        None => ContentsAnswer::None,
    }
}

/// Whether a share of a frozen table is attached to by a magic number.
fn attach(r: &Region, toc: &mut FrozenToc, magic: u64) -> ContentsAnswer
    requires here { toc.old.region ≡ r.now }
    ensures same { toc.new ≡ toc.old }
    ensures answer { (c : Chunks) → Attaches (frozen_in toc.old.words) (frozen_in toc.new.words) c c magic result }
{
    let share = toc.share(r);
    match FrozenToc::attach(share, r, magic) {
        Ok(_share) => ContentsAnswer::Done,
        Err(wrong) => ContentsAnswer::WrongMagic { found: wrong.found },
    }
}

/// The answer to what the table refused.
fn refused(refusal: TocAnswer) -> ContentsAnswer
    ensures { result ≡ refusal_of refusal }
{
    match refusal {
        TocAnswer::TocFull { wanted, free } => ContentsAnswer::Full { wanted, free },
        TocAnswer::KeyThere { at: _ } => ContentsAnswer::KeyThere,
    }
}
