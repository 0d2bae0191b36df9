//! Writes the blocks of a file, one group after another, and its foot.
//!
//! The groups of a block are kept until it is full, since a section has its length and its checksum around its bytes.

ghost use Rattle.std.specs.Prelude.{◌≡◌, ◌<◌, ◌≤◌, ◌+◌, ◌^◌, ◌++◌, ◌∷◌, ◌↔◌, [], ℕ, Bool, Err, IsTrue, List, OnOk, length, nat_le};
ghost use Rattle.state_blocks.specs.Blocks.{Group, block_bytes, first_key};
ghost use Rattle.state_body.specs.Body.{IsIndex, end_bytes};
ghost use Rattle.state_file.specs.Section.{section};
ghost use Rattle.state_file.specs.Text.{text_bytes};
ghost use Rattle.state_groups.specs.Group.{group_bytes, values_bytes};
ghost use Rattle.state_writer.specs.Writing.{Ends, Fit, FitInBlocks, Fits, Goes, HasTaken, group_of};
ghost use Rattle.state_writer.specs.declared.writer.WriteError.TheVariants as variant;

use par_model::SlotState;
use state_body::{Index, MOST_FOOT, push_end};
use state_file::{push_section, push_text};
use state_groups::push_group;
use std::alloc::{AllocError, Global};

/// The bytes that a block has at least, but for the last one.
const BLOCK_BYTES: usize = 60_000;

/// The most bytes of a block.
const MOST_BLOCK: usize = 1 << 20;

/// The place past which no block begins, and the most groups of a file.
const MOST: u64 = 1 << 62;

/// Why a file is not written: memory ran out, or it would be too long, as a block has more than 2^20 bytes, the foot more than 2^28,
/// the blocks end past place 2^62, or the groups are more than 2^62.
#[derive(Clone, Copy, Debug, PartialEq, Eq)]
pub enum WriteError {
    Memory,
    Long,
}

impl From<AllocError> for WriteError {
    ghost from_gives = { λ _ e. e ≡ variant.Memory };

    fn from(_error: AllocError) -> WriteError {
        WriteError::Memory
    }
}

/// The blocks of a file that is being written.
#[derive(Drop)]
pub struct BodyWriter {
    index: Index,
    /// The groups of the block that is not yet written, how many they are, and the key of the first.
    block: Vec<u8>,
    groups: u64,
    first: Vec<u8>,
}

impl BodyWriter {
    /// No groups; the first block will begin at this place of the file.
    pub fn new(alloc: Global, at: u64) -> BodyWriter
        ensures { (kinds : List Bool) → HasTaken kinds at [] [] result }
    {
        BodyWriter {
            index: Index::new(alloc, at),
            block: Vec::new(alloc),
            groups: 0,
            first: Vec::new(alloc),
        }
    }

    /// Takes a group, with a slot for each kind, and puts a block that is long enough at the end of `out`. After an error the
    /// writer can only be dropped.
    pub fn push(
        &mut self,
        out: &mut Vec<u8>,
        kinds: &[bool],
        key: &[u8],
        rows: u64,
        slots: &[SlotState],
    ) -> Result<(), WriteError>
        requires { length kinds.now ≤ length slots.now }
        ensures taken { (start : ℕ) (groups : List Group) (written : List ℕ) → HasTaken kinds.now start groups written self.old
            → OnOk result (Goes kinds.now start (groups ++ group_of key.now rows slots.now ∷ []) written out.old.items out.new.items self.new) }

        // When the error comes that is not of memory. Nothing is written then.
        ensures long { (start : ℕ) (groups : List Group) (written : List ℕ) → HasTaken kinds.now start groups written self.old → result ≡ Err variant.Long
            → FitInBlocks kinds.now start (groups ++ group_of key.now rows slots.now ∷ []) → ⊥ }
        ensures same { result ≡ Err variant.Long → out.new.items ≡ out.old.items }
    {
        self.take(kinds, key, rows, slots)?;
        if !self.is_full() {
            return Ok(());
        }
        self.close(out)?;
        Ok(())
    }

    /// Takes a group whose bytes after its key are made, as [`push_values`](state_groups::push_values) makes them, as [`push`](Self::push) takes one.
    pub fn push_made(
        &mut self,
        out: &mut Vec<u8>,
        key: &[u8],
        values: &[u8],
    ) -> Result<(), WriteError>
        ensures taken { (kinds : List Bool) (start : ℕ) (groups : List Group) (written : List ℕ) (g : Group) → HasTaken kinds start groups written self.old → g.key ≡ key.now → values_bytes kinds g.rows g.slots ≡ values.now
            → OnOk result (Goes kinds start (groups ++ g ∷ []) written out.old.items out.new.items self.new) }

        // When the error comes that is not of memory. Nothing is written then.
        ensures long { (kinds : List Bool) (start : ℕ) (groups : List Group) (written : List ℕ) (g : Group) → HasTaken kinds start groups written self.old → g.key ≡ key.now → values_bytes kinds g.rows g.slots ≡ values.now
            → result ≡ Err variant.Long → FitInBlocks kinds start (groups ++ g ∷ []) → ⊥ }
        ensures same { result ≡ Err variant.Long → out.new.items ≡ out.old.items }
    {
        self.take_made(key, values)?;
        if !self.is_full() {
            return Ok(());
        }
        self.close(out)?;
        Ok(())
    }

    /// Puts the block, the foot and the end of the file at the end of `out`.
    pub fn finish(mut self, alloc: Global, out: &mut Vec<u8>) -> Result<(), WriteError>
        ensures ends { (kinds : List Bool) (start : ℕ) (groups : List Group) (written : List ℕ) → HasTaken kinds start groups written self → OnOk result (Ends kinds start groups written out.old.items out.new.items) }

        // When the error comes that is not of memory.
        ensures long { (kinds : List Bool) (start : ℕ) (groups : List Group) (written : List ℕ) → HasTaken kinds start groups written self → result ≡ Err variant.Long → Fit kinds start groups → ⊥ }
    {
        self.close_last(out)?;
        push_section(out, &[])?;
        let foot = self.index.foot(alloc)?;
        push_foot(out, foot.as_slice())?;
        Ok(())
    }

    /// Takes a group into the block.
    fn take(
        &mut self,
        kinds: &[bool],
        key: &[u8],
        rows: u64,
        slots: &[SlotState],
    ) -> Result<(), WriteError>
        requires { length kinds.now ≤ length slots.now }
        ensures index { OnOk result (self.new.index ≡ self.old.index) }
        ensures block { OnOk result (self.new.block.items ≡ self.old.block.items ++ group_bytes kinds.now key.now rows slots.now) }
        ensures groups { OnOk result (self.new.groups ≡ self.old.groups + 1) }
        ensures first { OnOk result (self.old.groups ≡ 0 → self.new.first.items ≡ key.now) }
        ensures later { OnOk result (0 < self.old.groups → self.new.first.items ≡ self.old.first.items) }
        ensures long { result ≡ Err variant.Long → 2 ^ 62 < self.old.groups }
    {
        if self.groups > MOST {
            return Err(WriteError::Long);
        }
        self.note(key)?;
        push_group(&mut self.block, kinds, key, rows, slots)?;
        self.groups += 1;
        Ok(())
    }

    /// Takes a group whose bytes after its key are made into the block.
    fn take_made(&mut self, key: &[u8], values: &[u8]) -> Result<(), WriteError>
        ensures index { OnOk result (self.new.index ≡ self.old.index) }
        ensures block { OnOk result (self.new.block.items ≡ self.old.block.items ++ (text_bytes key.now ++ values.now)) }
        ensures groups { OnOk result (self.new.groups ≡ self.old.groups + 1) }
        ensures first { OnOk result (self.old.groups ≡ 0 → self.new.first.items ≡ key.now) }
        ensures later { OnOk result (0 < self.old.groups → self.new.first.items ≡ self.old.first.items) }
        ensures long { result ≡ Err variant.Long → 2 ^ 62 < self.old.groups }
    {
        if self.groups > MOST {
            return Err(WriteError::Long);
        }
        self.note(key)?;
        push_text(&mut self.block, key)?;
        self.block.extend_from_slice(values)?;
        self.groups += 1;
        Ok(())
    }

    /// Keeps the key of a block's first group.
    fn note(&mut self, key: &[u8]) -> Result<(), AllocError>
        ensures index { OnOk result (self.new.index ≡ self.old.index) }
        ensures block { OnOk result (self.new.block ≡ self.old.block) }
        ensures groups { OnOk result (self.new.groups ≡ self.old.groups) }
        ensures first { OnOk result (self.old.groups ≡ 0 → self.new.first.items ≡ key.now) }
        ensures later { OnOk result (0 < self.old.groups → self.new.first.items ≡ self.old.first.items) }
    {
        if self.groups > 0 {
            return Ok(());
        }
        self.first.clear();
        self.first.extend_from_slice(key)?;
        Ok(())
    }

    /// Whether the block is long enough to be written.
    fn is_full(&self) -> bool
        ensures { result ≡ nat_le 60_000 (length self.now.block.items) }
    {
        self.block.len() >= BLOCK_BYTES
    }

    /// Puts the block at the end of `out`, if it has a group.
    fn close_last(&mut self, out: &mut Vec<u8>) -> Result<(), WriteError>
        ensures none { self.old.groups ≡ 0 → OnOk result ((out.new.items ≡ out.old.items) × (self.new.index ≡ self.old.index)) }
        ensures some { 0 < self.old.groups → OnOk result ((out.new.items ≡ out.old.items ++ section self.old.block.items) × (length self.old.block.items ≤ 2 ^ 20)) }
        ensures index { (kinds : List Bool) (start : ℕ) (blocks : List (List Group)) (block : List Group) → 0 < self.old.groups → IsIndex kinds start blocks self.old.index → self.old.first.items ≡ first_key block → self.old.groups ≡ length block
            → self.old.block.items ≡ block_bytes kinds block → OnOk result (IsIndex kinds start (blocks ++ block ∷ []) self.new.index) }
        ensures long { result ≡ Err variant.Long → (0 < self.old.groups) × (Fits self.old → ⊥) }
    {
        if self.groups == 0 {
            return Ok(());
        }
        self.close(out)?;
        Ok(())
    }

    /// Puts the block at the end of `out`, and begins another one.
    fn close(&mut self, out: &mut Vec<u8>) -> Result<(), WriteError>
        ensures out { OnOk result (out.new.items ≡ out.old.items ++ section self.old.block.items) }
        ensures short { OnOk result (length self.old.block.items ≤ 2 ^ 20) }
        ensures index { (kinds : List Bool) (start : ℕ) (blocks : List (List Group)) (block : List Group) → IsIndex kinds start blocks self.old.index → self.old.first.items ≡ first_key block → self.old.groups ≡ length block
            → self.old.block.items ≡ block_bytes kinds block → OnOk result (IsIndex kinds start (blocks ++ block ∷ []) self.new.index) }
        ensures block { OnOk result (self.new.block.items ≡ []) }
        ensures groups { OnOk result (self.new.groups ≡ 0) }
        ensures long { result ≡ Err variant.Long → Fits self.old → ⊥ }
        ensures same { result ≡ Err variant.Long → out.new.items ≡ out.old.items }
    {
        if !self.fits() {
            return Err(WriteError::Long);
        }
        push_section(out, self.block.as_slice())?;
        self.index.add(self.first.as_slice(), self.groups, self.block.len() as u64)?;
        self.block.clear();
        self.groups = 0;
        Ok(())
    }

    /// Whether a file can have a block more, with what is in it.
    fn fits(&self) -> bool
        ensures { IsTrue result ↔ Fits self.now }
    {
        self.block.len() <= MOST_BLOCK
            && self.index.at <= MOST
            && self.index.blocks <= MOST
            && self.index.groups <= MOST
            && self.groups <= MOST
    }
}

/// Puts a foot and the end of the file at the end of `out`.
fn push_foot(out: &mut Vec<u8>, foot: &[u8]) -> Result<(), WriteError>
    ensures end { OnOk result (out.new.items ≡ out.old.items ++ end_bytes foot.now) }
    ensures short { OnOk result (length foot.now ≤ 2 ^ 28) }
    ensures long { result ≡ Err variant.Long → 2 ^ 28 < length foot.now }
{
    if foot.len() > MOST_FOOT as usize {
        return Err(WriteError::Long);
    }
    push_end(out, foot)?;
    Ok(())
}
