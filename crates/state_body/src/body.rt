//! All blocks of a file, and its foot.
//!
//! The foot has to be that of the blocks, so each byte of a file is looked at.

ghost use Rattle.std.specs.Prelude.{◌≡◌, ◌<◌, ◌≤◌, ◌+◌, ◌^◌, ◌++◌, ℕ, List, [], All, IfErr, IfOk, MatchResult, OnOk, length};
ghost use Rattle.state_blocks.specs.Blocks.{Group, IsBlock, IsTuple, block_bytes, blocks_bytes};
ghost use Rattle.state_body.specs.Body.{IsBody, IsIndex, Takes, body_bytes, groups_of};
ghost use Rattle.state_body.specs.Faults.{AreNoBlocks, IsNoBlock, IsNoBody, IsNoPart};
ghost use Rattle.state_body.specs.declared.body.BodyFault.TheVariants as fault;
ghost use Rattle.state_file.specs.Section.{section};

use crate::end::read_end;
use crate::index::Index;
use state_blocks::{read_block, read_first};
use state_file::{SectionRead, read_section};
use std::alloc::{AllocError, Global};

/// The most bytes of a block.
const MOST_BLOCK: u32 = 1 << 20;

/// Why bytes are not those that come after a head: memory ran out; no block is there, or no foot, as `why` says; the group of this
/// number, counting from 1 at the first of the file, is none; the foot is another one; the bytes end within its length and the last
/// bytes of a file, or these are others.
#[derive(Clone, Copy, Debug, PartialEq, Eq)]
pub enum BodyFault {
    Memory,
    Block { why: SectionRead },
    Group { number: u64 },
    Foot { why: SectionRead },
    OtherFoot,
    Cut,
    End,
}

/// The blocks of a file, each as a section, how many groups they have, and the bytes after the file.
#[derive(Clone, Copy)]
pub struct BodyRead<'a> {
    pub blocks: &'a [u8],
    pub groups: u64,
    pub rest: &'a [u8],
}

/// The blocks that some bytes begin with, the first of which is at this place of its file, if the foot and the end of the file come
/// after them. It looks at each group, and takes memory for the foot.
pub fn read_body<'a>(
    alloc: Global,
    bytes: &'a [u8],
    at: u64,
    columns: u32,
    kinds: &[bool],
) -> Result<BodyRead<'a>, BodyFault>
    requires kinds { length kinds.now ≤ 8 }
    requires at { at + length bytes.now < 2 ^ 64 }
    ensures read { IfOk result (λ found. (blocks : List (List Group)) × IsBody columns kinds.now at blocks × (bytes.now ≡ body_bytes kinds.now at blocks ++ found.rest.now)
        × (found.blocks.now ≡ blocks_bytes kinds.now blocks) × (found.groups ≡ length (groups_of blocks))) }
    ensures written { (blocks : List (List Group)) (rest : List ℕ) → IsBody columns kinds.now at blocks → bytes.now ≡ body_bytes kinds.now at blocks ++ rest
        → MatchResult result (λ found. (found.rest.now ≡ rest) × (found.blocks.now ≡ blocks_bytes kinds.now blocks) × (found.groups ≡ length (groups_of blocks))) (λ why. why ≡ fault.Memory) }

    // Why none is read.
    ensures refused { IfErr result (IsNoBody columns kinds.now at bytes.now) }
{
    let mut index = Index::new(alloc, at);
    let after = read_blocks(&mut index, bytes, columns, kinds)?;
    let Ok(foot) = index.foot(alloc) else {
        return Err(BodyFault::Memory);
    };
    let rest = read_end(after, foot.as_slice())?;
    let size = (index.at - at) as usize;
    Ok(BodyRead {
        blocks: &bytes[..size],
        groups: index.groups,
        rest,
    })
}

/// Takes in the blocks that some bytes begin with. The bytes after the end of the blocks.
fn read_blocks<'a>(
    index: &mut Index,
    bytes: &'a [u8],
    columns: u32,
    kinds: &[bool],
) -> Result<&'a [u8], BodyFault>
    requires kinds { length kinds.now ≤ 8 }
    requires at { index.old.at + length bytes.now < 2 ^ 64 }
    requires none { IsIndex kinds.now index.old.at [] index.old }
    ensures read { IfOk result (λ after. (blocks : List (List Group)) × All (IsBlock columns kinds.now) blocks × (bytes.now ≡ blocks_bytes kinds.now blocks ++ (section [] ++ after.now))
        × IsIndex kinds.now index.old.at blocks index.new) }
    ensures written { (blocks : List (List Group)) (rest : List ℕ) → All (IsBlock columns kinds.now) blocks → bytes.now ≡ blocks_bytes kinds.now blocks ++ (section [] ++ rest)
        → MatchResult result (λ after. (after.now ≡ rest) × IsIndex kinds.now index.old.at blocks index.new) (λ why. why ≡ fault.Memory) }

    // Why none are read.
    ensures refused { IfErr result (AreNoBlocks columns kinds.now bytes.now) }
{
    let mut rest = bytes;
    for _ in 0..bytes.len() {
        let found = read_part(rest)?;
        if found.0.is_empty() {
            return Ok(found.1);
        }
        take_block(index, found.0, columns, kinds)?;
        rest = found.1;
    }
    let why = SectionRead::Short;
    Err(BodyFault::Block { why })
}

/// The part of the section that some bytes begin with, and the bytes after it.
fn read_part(bytes: &[u8]) -> Result<(&[u8], &[u8]), BodyFault>
    ensures read { IfOk result (λ found. (bytes.now ≡ section found.0.now ++ found.1.now) × (length found.0.now ≤ 2 ^ 20)) }
    ensures written { (part rest : List ℕ) → length part ≤ 2 ^ 20 → bytes.now ≡ section part ++ rest → MatchResult result (λ found. (found.0.now ≡ part) × (found.1.now ≡ rest)) (λ why. ⊥) }
    ensures refused { IfErr result (IsNoPart bytes.now) }
{
    match read_section(bytes, MOST_BLOCK) {
        Ok(found) => Ok(found),
        Err(why) => Err(BodyFault::Block { why }),
    }
}

/// Takes in a block of these bytes.
fn take_block(index: &mut Index, part: &[u8], columns: u32, kinds: &[bool]) -> Result<(), BodyFault>
    requires kinds { length kinds.now ≤ 8 }
    requires some { 0 < length part.now }
    requires short { length part.now ≤ 2 ^ 20 }
    requires at { index.old.at + length part.now + 8 < 2 ^ 64 }
    requires blocks { index.old.blocks + 1 < 2 ^ 64 }
    requires groups { index.old.groups + length part.now + 1 < 2 ^ 64 }
    ensures read { OnOk result (Takes columns kinds.now part.now index.old index.new) }
    ensures written { (block : List Group) → IsBlock columns kinds.now block → part.now ≡ block_bytes kinds.now block → MatchResult result (λ done. Unit {0}) (λ why. why ≡ fault.Memory) }
    ensures at { OnOk result (index.new.at ≡ index.old.at + length part.now + 8) }
    ensures blocks { OnOk result (index.new.blocks ≡ index.old.blocks + 1) }
    ensures groups { OnOk result (index.new.groups ≤ index.old.groups + length part.now) }
    ensures refused { IfErr result (IsNoBlock columns kinds.now part.now index.old.groups) }
{
    let groups = count_groups(part, columns, kinds, index.groups)?;
    let Some(first) = read_first(part, columns, kinds) else {
        let number = index.groups + 1;
        return Err(BodyFault::Group { number });
    };
    match index.add(first, groups, part.len() as u64) {
        Ok(()) => Ok(()),
        Err(_) => Err(BodyFault::Memory),
    }
}

/// How many groups the bytes of a block are, before which there are this many.
fn count_groups(part: &[u8], columns: u32, kinds: &[bool], before: u64) -> Result<u64, BodyFault>
    requires kinds { length kinds.now ≤ 8 }
    requires before { before + length part.now + 1 < 2 ^ 64 }
    ensures read { IfOk result (λ n. (block : List Group) × (part.now ≡ block_bytes kinds.now block) × All (IsTuple columns kinds.now) block × (length block ≡ n)) }
    ensures written { (block : List Group) → All (IsTuple columns kinds.now) block → part.now ≡ block_bytes kinds.now block → MatchResult result (λ n. n ≡ length block) (λ why. ⊥) }
    ensures few { IfOk result (λ n. n ≤ length part.now) }
    ensures refused { IfErr result (IsNoBlock columns kinds.now part.now before) }
{
    match read_block(part, columns, kinds) {
        Ok(groups) => Ok(groups),
        Err(front) => {
            let number = before + front + 1;
            Err(BodyFault::Group { number })
        }
    }
}
