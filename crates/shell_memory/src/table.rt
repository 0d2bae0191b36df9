//! The commands over the hash table: `table`, `put`, `get`, `del`, `fill` and `total`.
//!
//! There is one table at most, from the first `table` on. Its items and slices come from the area that the chunks and
//! the rings come from too.

ghost use Rattle.std.specs.Prelude.{◌≡◌, ◌≤◌, ℕ, IfErr, IfNone, IfOk, IfSome, None, OnOk, Option, codes, length, take};
ghost use Rattle.atomic_table.specs.Seated.{TableId};
ghost use Rattle.dshash_core.specs.Key.{packed_key};
ghost use Rattle.dshash_numbers.specs.Maps.{ComesFrom, IsMade, IsNumberTable, IsRefused};
ghost use Rattle.dshash_numbers.specs.declared.number.NumberCall.TheVariants as verb;
ghost use Rattle.shell_lines.specs.TableRequests.{IsAllowed, request_of};
ghost use Rattle.shell_memory.specs.declared.heap.Heap.{Heap};
ghost use Rattle.shell_memory.specs.declared.table.TableAnswer.TheVariants as answer;
ghost use Rattle.shell_memory.specs.Chunks.{IsHeap};
ghost use Rattle.shell_memory.specs.Tables.{CellsFrom, Fills, Gives, Goes, IsAnswered, IsCells, Opens, Sets, Totals, fill_key, one_if_new, table_of, text_of};

use crate::answers::{plain, with_number, with_numbers};
use crate::heap::Heap;
use dsa_area::NoSpace;
use dshash_numbers::{NumberTable, Total};
use dshash_parts::DsNew;
use region_words::Region;
use shell_lines::TableCommand;
use std::alloc::{AllocError, Global};
use std::sync::Wait;

/// The table, once there is one.
#[derive(Drop)]
pub struct Cells {
    table: Option<NumberTable>,
}

/// What a command over the table is answered.
#[derive(Clone, Copy, Debug, PartialEq, Eq)]
pub(crate) enum TableAnswer {
    /// There is no table.
    NoTable,
    /// There is a table.
    Done,
    /// The pages that were wanted, and those of the longest free run.
    NoSpace { pages: u32, largest: u32 },
    /// Nothing was under the key.
    New,
    /// This number was under the key.
    Old { value: u64 },
    /// The number under the key.
    Value { value: u64 },
    /// Nothing is under the key.
    None,
    /// All were put, and this many of the keys were new.
    Filled { new: u64 },
    /// How many entries there are, and the sum of their numbers.
    Total { count: u64, sum: u128 },
}

impl TableAnswer {
    /// The line of the answer.
    fn text(self, alloc: Global) -> Result<Vec<u8>, AllocError>
        ensures { IfOk result (λ line. line.items ≡ text_of self) }
    {
        match self {
            TableAnswer::NoTable => plain(alloc, "notable"),
            TableAnswer::Done => plain(alloc, "ok"),
            TableAnswer::NoSpace { pages, largest } => {
                with_numbers(alloc, "nospace ", u64::from(pages), u128::from(largest))
            }
            TableAnswer::New => plain(alloc, "new"),
            TableAnswer::Old { value } => with_number(alloc, "old ", value),
            TableAnswer::Value { value } => with_number(alloc, "", value),
            TableAnswer::None => plain(alloc, "none"),
            TableAnswer::Filled { new } => with_number(alloc, "new ", new),
            TableAnswer::Total { count, sum } => with_numbers(alloc, "total ", count, sum),
        }
    }
}

impl Cells {
    /// No table.
    pub fn new() -> Cells
        ensures none { table_of result ≡ None }
    {
        Cells { table: None }
    }

    /// Answers a command, by a line.
    pub fn answer<R: Wait>(
        &mut self,
        rt: &R,
        alloc: Global,
        r: &Region,
        heap: &mut Heap,
        command: TableCommand<'_>,
    ) -> Result<Vec<u8>, AllocError>
        requires heap { IsHeap r.now heap.old }
        requires cells { IsCells r.now self.old }
        requires home { CellsFrom heap.old.area self.old }
        requires allowed { IsAllowed (request_of command) }
        ensures heap { OnOk result (IsHeap r.now heap.new) }
        ensures cells { OnOk result (IsCells r.now self.new) }
        ensures home { OnOk result (CellsFrom heap.new.area self.new) }
        ensures answer { IfOk result (λ line. IsAnswered heap.old heap.new self.old self.new (request_of command.entry) line.items) }
    {
        match command {
            TableCommand::Table => {
                let answer = self.open(rt, alloc, r, heap)?;
                answer.text(alloc)
            }
            TableCommand::Put { key, value } => self.put(rt, r, heap, key, value).text(alloc),
            TableCommand::Get { key } => self.get(rt, r, heap, key).text(alloc),
            TableCommand::Delete { key } => self.delete(rt, r, heap, key).text(alloc),
            TableCommand::Fill { count } => {
                let answer = self.fill(rt, alloc, r, heap, count)?;
                answer.text(alloc)
            }
            TableCommand::Total => {
                let answer = self.total(rt, alloc, r)?;
                answer.text(alloc)
            }
        }
    }

    /// A table from now on.
    fn open<R: Wait>(
        &mut self,
        rt: &R,
        alloc: Global,
        r: &Region,
        heap: &mut Heap,
    ) -> Result<TableAnswer, AllocError>
        requires heap { IsHeap r.now heap.old }
        requires cells { IsCells r.now self.old }
        requires home { CellsFrom heap.old.area self.old }
        ensures heap { OnOk result (IsHeap r.now heap.new) }
        ensures cells { OnOk result (IsCells r.now self.new) }
        ensures home { OnOk result (CellsFrom heap.new.area self.new) }
        ensures answer { IfOk result (Opens heap.old heap.new self.old self.new) }
    {
        if self.table.is_some() {
            return Ok(TableAnswer::Done);
        }
        match NumberTable::new(rt, alloc, r, &heap.area, &mut heap.pass) {
            Ok(table) => {
                self.table = Some(table);
                Ok(TableAnswer::Done)
            }
            Err(DsNew::NoSpace { pages, largest }) => Ok(TableAnswer::NoSpace { pages, largest }),
            Err(DsNew::Memory) => Err(AllocError),
        }
    }

    /// A number under a key.
    fn put<R: Wait>(
        &mut self,
        rt: &R,
        r: &Region,
        heap: &mut Heap,
        key: &[u8],
        value: u64,
    ) -> TableAnswer
        requires heap { IsHeap r.now heap.old }
        requires cells { IsCells r.now self.old }
        requires home { CellsFrom heap.old.area self.old }
        requires short { length key.now ≤ 64 }
        ensures heap { IsHeap r.now heap.new }
        ensures cells { IsCells r.now self.new }
        ensures home { CellsFrom heap.new.area self.new }
        ensures answer { Goes heap.old heap.new self.old self.new (λ a n m u v. Sets a n m u v key.now value) result }
    {
        let Some(table) = &mut self.table else {
            return TableAnswer::NoTable;
        };
        match table.put(rt, r, &heap.area, &mut heap.pass, key, value) {
            Ok(None) => TableAnswer::New,
            Ok(Some(value)) => TableAnswer::Old { value },
            Err(NoSpace { pages, largest }) => TableAnswer::NoSpace { pages, largest },
        }
    }

    /// The number under a key.
    fn get<R: Wait>(&mut self, rt: &R, r: &Region, heap: &mut Heap, key: &[u8]) -> TableAnswer
        requires heap { IsHeap r.now heap.old }
        requires cells { IsCells r.now self.old }
        requires home { CellsFrom heap.old.area self.old }
        requires short { length key.now ≤ 64 }
        ensures heap { IsHeap r.now heap.new }
        ensures cells { IsCells r.now self.new }
        ensures home { CellsFrom heap.new.area self.new }
        ensures answer { Goes heap.old heap.new self.old self.new (λ a n m u v. Gives a n m u v key.now verb.Get) result }
    {
        match &mut self.table {
            Some(table) => found(table.get(rt, r, key)),
            None => TableAnswer::NoTable,
        }
    }

    /// The number under a key, which goes.
    fn delete<R: Wait>(&mut self, rt: &R, r: &Region, heap: &mut Heap, key: &[u8]) -> TableAnswer
        requires heap { IsHeap r.now heap.old }
        requires cells { IsCells r.now self.old }
        requires home { CellsFrom heap.old.area self.old }
        requires short { length key.now ≤ 64 }
        ensures heap { IsHeap r.now heap.new }
        ensures cells { IsCells r.now self.new }
        ensures home { CellsFrom heap.new.area self.new }
        ensures answer { Goes heap.old heap.new self.old self.new (λ a n m u v. Gives a n m u v key.now verb.Delete) result }
    {
        match &mut self.table {
            Some(table) => found(table.take(rt, r, &heap.area, &mut heap.pass, key)),
            None => TableAnswer::NoTable,
        }
    }

    /// The numbers from 1 to this one, each under its own key.
    fn fill<R: Wait>(
        &mut self,
        rt: &R,
        alloc: Global,
        r: &Region,
        heap: &mut Heap,
        count: u64,
    ) -> Result<TableAnswer, AllocError>
        requires heap { IsHeap r.now heap.old }
        requires cells { IsCells r.now self.old }
        requires home { CellsFrom heap.old.area self.old }
        requires few { count ≤ 100000 }
        ensures heap { OnOk result (IsHeap r.now heap.new) }
        ensures cells { OnOk result (IsCells r.now self.new) }
        ensures home { OnOk result (CellsFrom heap.new.area self.new) }
        ensures answer { IfOk result (Goes heap.old heap.new self.old self.new (λ a n m u v. Fills a n m u v count)) }
    {
        match &mut self.table {
            Some(table) => fill(rt, alloc, r, heap, table, count),
            None => Ok(TableAnswer::NoTable),
        }
    }

    /// How many entries there are, and the sum of their numbers.
    fn total<R: Wait>(
        &mut self,
        rt: &R,
        alloc: Global,
        r: &Region,
    ) -> Result<TableAnswer, AllocError>
        requires cells { IsCells r.now self.old }
        ensures cells { OnOk result (IsCells r.now self.new) }
        ensures home { OnOk result ((area : _) → CellsFrom area self.old → CellsFrom area self.new) }
        ensures answer { IfOk result (λ answer. (h : Heap) → Goes h h self.old self.new Totals answer) }
    {
        match &mut self.table {
            Some(table) => {
                let Total { count, sum } = table.total(rt, alloc, r)?;
                Ok(TableAnswer::Total { count, sum })
            }
            None => Ok(TableAnswer::NoTable),
        }
    }
}

/// The answer to what was under a key.
fn found(value: Option<u64>) -> TableAnswer
    ensures none { IfNone value (result ≡ answer.None) }
    ensures some { IfSome value (λ n. result ≡ answer.Value n) }
{
    match value {
        Some(value) => TableAnswer::Value { value },
        None => TableAnswer::None,
    }
}

/// Puts the numbers from 1 to this one, each under its own key.
fn fill<R: Wait>(
    rt: &R,
    alloc: Global,
    r: &Region,
    heap: &mut Heap,
    table: &mut NumberTable,
    count: u64,
) -> Result<TableAnswer, AllocError>
    requires heap { IsHeap r.now heap.old }
    requires table { IsNumberTable r.now table.old }
    requires home { ComesFrom heap.old.area table.old }
    requires few { count ≤ 100000 }
    ensures heap { OnOk result (IsHeap r.now heap.new) }
    ensures area { OnOk result (heap.new.area ≡ heap.old.area) }
    ensures table { OnOk result (IsNumberTable r.now table.new) }
    ensures home { OnOk result (ComesFrom heap.new.area table.new) }
    ensures answer { IfOk result (Fills heap.old.area table.old table.new heap.old.pass heap.new.pass count) }
{
    let mut key = plain(alloc, "f")?;
    let mut made = 0;
    let mut new = 0;
    'puts: while made < count {
        write_key(&mut key, made + 1)?;
        match put_one(rt, r, heap, table, key.as_slice(), made + 1) {
            Ok(more) => new += more,
            Err(NoSpace { pages, largest }) => return Ok(TableAnswer::NoSpace { pages, largest }),
        }
        made += 1;
    }
    Ok(TableAnswer::Filled { new })
}

/// Puts a number under a key. 1 if the key is new, and else 0.
fn put_one<R: Wait>(
    rt: &R,
    r: &Region,
    heap: &mut Heap,
    table: &mut NumberTable,
    key: &[u8],
    number: u64,
) -> Result<u64, NoSpace>
    requires heap { IsHeap r.now heap.old }
    requires table { IsNumberTable r.now table.old }
    requires home { ComesFrom heap.old.area table.old }
    requires short { length key.now ≤ 64 }
    ensures heap { IsHeap r.now heap.new }
    ensures area { heap.new.area ≡ heap.old.area }
    ensures table { IsNumberTable r.now table.new }
    ensures home { ComesFrom heap.new.area table.new }
    ensures made { IfOk result (λ new. (before : Option ℕ) × (new ≡ one_if_new before) × IsMade heap.old.area table.old table.new heap.old.pass heap.new.pass (packed_key key.now) (verb.Put number) before) }
    ensures few { IfOk result (λ new. new ≤ 1) }
    ensures refused { IfErr result (λ lack. IsRefused heap.old.area table.old table.new heap.old.pass heap.new.pass (packed_key key.now) (verb.Put number) lack.pages lack.largest) }
{
    match table.put(rt, r, &heap.area, &mut heap.pass, key, number)? {
        None => Ok(1),
        Some(_) => Ok(0),
    }
}

/// Makes the key of a number: `f` and its digits.
fn write_key(key: &mut Vec<u8>, number: u64) -> Result<(), AllocError>
    requires begins { take 1 key.old.items ≡ codes "f" }
    ensures begins { OnOk result (take 1 key.new.items ≡ codes "f") }
    ensures key { OnOk result (key.new.items ≡ fill_key number) }
    ensures short { OnOk result (length key.new.items ≤ 64) }
{
    key.truncate(1);
    key.extend_from_slice(itoa::Buffer::new().format(number).as_bytes())
}
