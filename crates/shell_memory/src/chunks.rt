//! The commands over chunks: `alloc`, `free`, `store` and `load`.
//!
//! Each name stands for a chunk, which the shell owns from the `alloc` to the `free`. Next to the names the shell keeps
//! where each chunk begins, so that a place is found without a walk over the names.

ghost use Rattle.std.specs.Prelude.{◌≡◌, ◌≢◌, ◌<◌, ◌≤◌, ◌^◌, ℕ, List, IfNone, IfOk, IfSome, OnOk, OnSome, Some, None, is_some, option_map};
ghost use Rattle.atomic_table.specs.Seated.{TableId};
ghost use Rattle.shell_memory.specs.Chunks.{Allocates, AreChunks, Frees, IsAnswered, IsHeap, Loads, LoadsWord, Stores, StoresWord, chunk_of, name_beside, text_of};
ghost use Rattle.shell_lines.specs.ChunkRequests.{IsAllowed, request_of};
ghost use Rattle.shell_memory.specs.Names.{IsFree, Puts, Stays};

use crate::answers::{plain, with_number, with_numbers};
use crate::heap::Heap;
use dsa_area::{NoSpace, Stranger};
use region_words::{Chunk, Region};
use shell_lines::ChunkCommand;
use std::alloc::{AllocError, Global};
use std::collections::BTreeMap;
use std::sync::Wait;

/// The chunks that have a name.
#[derive(Drop)]
pub struct Chunks {
    /// Each by its name.
    named: BTreeMap<Vec<u8>, Chunk>,
    /// The name of the chunk that begins at a word.
    places: BTreeMap<u64, Vec<u8>>,
}

/// What a command over chunks is answered.
#[derive(Clone, Copy, Debug, PartialEq, Eq)]
pub(crate) enum ChunkAnswer {
    /// The name is in use.
    Named,
    /// Nothing has the name.
    NoName,
    /// The chunk has no such word.
    Range,
    /// It was done.
    Done,
    /// A chunk of this many bytes.
    Granted { bytes: u64 },
    /// The pages that were wanted, and those of the longest free run.
    NoSpace { pages: u32, largest: u32 },
    /// The chunk is none of the area's.
    Stranger,
    /// The value of the word.
    Value { value: u64 },
}

impl ChunkAnswer {
    /// The line of the answer.
    fn text(self, alloc: Global) -> Result<Vec<u8>, AllocError>
        ensures { IfOk result (λ line. line.items ≡ text_of self) }
    {
        match self {
            ChunkAnswer::Named => plain(alloc, "named"),
            ChunkAnswer::NoName => plain(alloc, "noname"),
            ChunkAnswer::Range => plain(alloc, "range"),
            ChunkAnswer::Done => plain(alloc, "ok"),
            ChunkAnswer::Granted { bytes } => with_number(alloc, "ok ", bytes),
            ChunkAnswer::NoSpace { pages, largest } => {
                with_numbers(alloc, "nospace ", u64::from(pages), u128::from(largest))
            }
            ChunkAnswer::Stranger => plain(alloc, "stranger"),
            ChunkAnswer::Value { value } => with_number(alloc, "", value),
        }
    }
}

impl Chunks {
    /// No chunks.
    pub fn new(alloc: Global) -> Chunks
        ensures free { (name : List ℕ) → chunk_of result name ≡ None }
        ensures chunks { (region : TableId) → AreChunks region result }
    {
        Chunks {
            named: BTreeMap::new(alloc),
            places: BTreeMap::new(alloc),
        }
    }

    /// Whether a chunk has this name.
    pub(crate) fn has(&self, name: &[u8]) -> bool
        ensures { result ≡ is_some (chunk_of self.now name.now) }
    {
        self.named.contains_key(name)
    }

    /// Where the chunk of this name begins.
    pub(crate) fn place_of(&self, name: &[u8]) -> Option<u64>
        ensures { result ≡ option_map (λ chunk. chunk.at) (chunk_of self.now name.now) }
    {
        let chunk = self.named.get(name)?;
        Some(chunk.at.word())
    }

    /// The name of the chunk that begins at this word.
    pub(crate) fn name_at(&self, place: u64) -> Option<&[u8]>
        ensures { option_map (λ name. name.now) result ≡ option_map (λ key. key.items) (name_beside self.now.places place) }
    {
        let name = self.places.get(&place)?;
        Some(name.as_slice())
    }

    /// Gives a chunk a name that is not in use.
    pub(crate) fn enter(
        &mut self,
        alloc: Global,
        r: &Region,
        name: &[u8],
        chunk: Chunk,
    ) -> Result<(), AllocError>
        requires chunks { AreChunks r.now self.old }
        requires here { chunk.part.region ≡ r.now }
        requires some { 0 < chunk.bytes }
        requires free { IsFree self.old.named name.now }
        ensures chunks { OnOk result (AreChunks r.now self.new) }
        ensures puts { OnOk result (Puts self.old.named self.new.named name.now (Some chunk)) }
    {
        let key = Vec::from_slice(alloc, name)?;
        let place = chunk.at.word();
        let chunk = self.at_a_new_place(r, chunk);
        self.put(key, chunk)?;
        let name = Vec::from_slice(alloc, name)?;
        match self.places.insert(place, name) {
            Ok(_) => Ok(()),
            Err(_) => Err(AllocError),
        }
    }

    /// Hands a chunk back, and proves that no chunk with a name begins where it does: two chunks that are out at once
    /// have no word in common. It only looks at the place.
    fn at_a_new_place(&mut self, r: &Region, chunk: Chunk) -> Chunk
        requires chunks { AreChunks r.now self.old }
        requires here { chunk.part.region ≡ r.now }
        requires some { 0 < chunk.bytes }
        ensures same { (result ≡ chunk) × (self.new ≡ self.old) }
        ensures place { name_beside self.old.places chunk.at ≡ None }
    {
        let place = chunk.at.word();
        let Some(key) = self.places.get(&place) else {
            return chunk;
        };
        let Some(other) = self.named.remove(key.as_slice()) else {
            unreachable!()
        };
        begin_apart(r, chunk, other);
        unreachable!()
    }

    /// Puts a chunk under its name.
    fn put(&mut self, key: Vec<u8>, chunk: Chunk) -> Result<(), AllocError>
        ensures puts { OnOk result (Puts self.old.named self.new.named key.items (Some chunk)) }
        ensures places { self.new.places ≡ self.old.places }
    {
        match self.named.insert(key, chunk) {
            Ok(_) => Ok(()),
            Err(_) => Err(AllocError),
        }
    }

    /// Answers a command, by a line.
    pub fn answer<R: Wait>(
        &mut self,
        rt: &R,
        alloc: Global,
        r: &Region,
        heap: &mut Heap,
        command: ChunkCommand<'_>,
    ) -> Result<Vec<u8>, AllocError>
        requires heap { IsHeap r.now heap.old }
        requires chunks { AreChunks r.now self.old }
        requires allowed { IsAllowed (request_of command) }
        ensures heap { OnOk result (IsHeap r.now heap.new) }
        ensures area { OnOk result (heap.new.area ≡ heap.old.area) }
        ensures chunks { OnOk result (AreChunks r.now self.new) }
        ensures answer { IfOk result (λ line. IsAnswered (request_of command.entry) heap.old heap.new self.old self.new line.items) }
    {
        match command {
            ChunkCommand::Alloc { name, bytes } => {
                let answer = self.alloc(rt, alloc, r, heap, name, bytes)?;
                answer.text(alloc)
            }
            ChunkCommand::Free { name } => {
                let answer = self.free(rt, r, heap, name)?;
                answer.text(alloc)
            }
            ChunkCommand::Store { name, word, value } => {
                self.store(r, name, word, value).text(alloc)
            }
            ChunkCommand::Load { name, word } => self.load(r, name, word).text(alloc),
        }
    }

    /// A chunk of the area under a new name.
    fn alloc<R: Wait>(
        &mut self,
        rt: &R,
        alloc: Global,
        r: &Region,
        heap: &mut Heap,
        name: &[u8],
        bytes: u64,
    ) -> Result<ChunkAnswer, AllocError>
        requires heap { IsHeap r.now heap.old }
        requires chunks { AreChunks r.now self.old }
        requires some { (1 ≤ bytes) × (bytes ≤ 2 ^ 30) }
        ensures heap { OnOk result (IsHeap r.now heap.new) }
        ensures area { OnOk result (heap.new.area ≡ heap.old.area) }
        ensures chunks { OnOk result (AreChunks r.now self.new) }
        ensures answer { IfOk result (λ answer. Allocates heap.old heap.new self.old self.new name.now bytes answer) }
    {
        if self.has(name) {
            return Ok(ChunkAnswer::Named);
        }
        match heap.alloc(rt, r, bytes) {
            Ok(chunk) => {
                let bytes = chunk.bytes;
                self.enter(alloc, r, name, chunk)?;
                Ok(ChunkAnswer::Granted { bytes })
            }
            Err(NoSpace { pages, largest }) => Ok(ChunkAnswer::NoSpace { pages, largest }),
        }
    }

    /// The chunk goes back to the area, and its name is free again. One that is none of the area's keeps its name.
    fn free<R: Wait>(
        &mut self,
        rt: &R,
        r: &Region,
        heap: &mut Heap,
        name: &[u8],
    ) -> Result<ChunkAnswer, AllocError>
        requires heap { IsHeap r.now heap.old }
        requires chunks { AreChunks r.now self.old }
        ensures heap { OnOk result (IsHeap r.now heap.new) }
        ensures area { OnOk result (heap.new.area ≡ heap.old.area) }
        ensures chunks { OnOk result (AreChunks r.now self.new) }
        ensures answer { IfOk result (λ answer. Frees heap.old heap.new self.old self.new name.now answer) }
    {
        let Some((key, chunk)) = self.take(name) else {
            return Ok(ChunkAnswer::NoName);
        };
        let place = chunk.at.word();
        match heap.free(rt, r, chunk) {
            Ok(()) => {
                let _name = self.places.remove(&place);
                Ok(ChunkAnswer::Done)
            }
            Err(Stranger { chunk }) => {
                self.put(key, chunk)?;
                Ok(ChunkAnswer::Stranger)
            }
        }
    }

    /// Takes a chunk from under its name, with the key that it was under.
    fn take(&mut self, name: &[u8]) -> Option<(Vec<u8>, Chunk)>
        ensures none { IfNone result (IsFree self.old.named name.now × Stays self.old.named self.new.named) }
        ensures key { IfSome result (λ taken. taken.0.items ≡ name.now) }
        ensures chunk { IfSome result (λ taken. chunk_of self.old name.now ≡ Some taken.1) }
        ensures rest { OnSome result (Puts self.old.named self.new.named name.now None) }
        ensures places { self.new.places ≡ self.old.places }
    {
        self.named.remove_entry(name)
    }

    /// Changes a word of the chunk.
    fn store(&mut self, r: &Region, name: &[u8], word: u64, value: u64) -> ChunkAnswer
        requires chunks { AreChunks r.now self.old }
        ensures chunks { AreChunks r.now self.new }
        ensures answer { Stores self.old self.new name.now word value result }
    {
        match self.named.get_mut(name) {
            Some(chunk) => store_word(r, chunk, word, value),
            None => ChunkAnswer::NoName,
        }
    }

    /// The value of a word of the chunk.
    fn load(&mut self, r: &Region, name: &[u8], word: u64) -> ChunkAnswer
        requires chunks { AreChunks r.now self.old }
        ensures chunks { AreChunks r.now self.new }
        ensures answer { Loads self.old self.new name.now word result }
    {
        match self.named.get_mut(name) {
            Some(chunk) => load_word(r, chunk, word),
            None => ChunkAnswer::NoName,
        }
    }
}

/// Changes the n-th word of a chunk, if it has that word.
fn store_word(r: &Region, chunk: &mut Chunk, n: u64, value: u64) -> ChunkAnswer
    requires { chunk.old.part.region ≡ r.now }
    ensures { StoresWord chunk.old chunk.new n value result }
{
    if n >= chunk.bytes / 8 {
        return ChunkAnswer::Range;
    }
    chunk.store(r, n, value);
    ChunkAnswer::Done
}

/// The value of the n-th word of a chunk, if it has that word.
fn load_word(r: &Region, chunk: &mut Chunk, n: u64) -> ChunkAnswer
    requires { chunk.old.part.region ≡ r.now }
    ensures { LoadsWord chunk.old chunk.new n result }
{
    if n >= chunk.bytes / 8 {
        return ChunkAnswer::Range;
    }
    let value = chunk.load(r, n);
    ChunkAnswer::Value { value }
}

/// Two chunks of a region that have words begin at different words. They are used up.
fn begin_apart(r: &Region, one: Chunk, other: Chunk)
    requires here { (one.part.region ≡ r.now) × (other.part.region ≡ r.now) }
    requires some { (0 < one.bytes) × (0 < other.bytes) }
    ensures { one.at ≢ other.at }
{
    let Chunk {
        at: _,
        bytes: _,
        mut part,
    } = one;
    let Chunk {
        at: _,
        bytes: _,
        part: second,
    } = other;
    part.join(r, second);
}
