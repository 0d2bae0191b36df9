//! The sum of several files: their groups in one map, and all stretches of their covers.
//!
//! A group has at most 2^50 rows. What no group can have more of is kept as `most`: it grows by the most rows of each file, and the
//! groups themselves are looked at only if it passes the bound. So files that have at most 2^50 rows together, as all files have that
//! were made of rows, cost nothing for it.

ghost use Rattle.std.specs.Prelude.{◌≡◌, ◌<◌, ◌+◌, ◌^◌, ◌++◌, [], ℕ, List, All, IfErr, IfOk, IsTrue, OnOk, false, length, map as map_list};
ghost use Rattle.std.specs.FinMap as fin;
ghost use Rattle.partial_agg.specs.Groups.{GroupsByKey};
ghost use Rattle.state_blocks.specs.Blocks.{Group, IsBlock, blocks_bytes};
ghost use Rattle.state_body.specs.Body.{IsBody, body_bytes, groups_of};
ghost use Rattle.state_head.specs.Head.{preface_of};
ghost use Rattle.state_order.specs.Order.{AreInOrder};
ghost use Rattle.state_whole.specs.Adding.{IsShape, key_of, sum_with};
ghost use Rattle.state_whole.specs.Sums.{AreFileGroups, AreNotAdded, AreSummed, HasNoGroups, HasRefused, IsNoFile, has_refused, is_refused};

use crate::adding::{FileCount, GroupFault, Kept, Shape, add_blocks};
use crate::rows::bounded;
use partial_agg::GroupMap;
use state_body::{BodyFault, BodyRead, read_body};
use state_front::FrontRead;
use state_head::{Rows, Stretch};
use state_order::KeyOrder;
use std::alloc::Global;

/// Why a file is not added: memory ran out; its body is none, as `why` says; a group is none of this sum, as `why` says; it has groups,
/// and a row of it is refused; a group has more than 2^50 rows with those of the files before.
#[derive(Clone, Copy, Debug, PartialEq, Eq)]
pub enum FileFault {
    Memory,
    Body { why: BodyFault },
    Group { why: GroupFault },
    Refused,
    Rows,
}

/// The files so far: those of their groups that are kept, and their stretches.
#[derive(Drop)]
pub struct Sum<'k> {
    pub map: GroupMap,
    pub cover: Vec<Stretch>,
    pub kept: Kept<'k>,
    most: u64,
}

impl<'k> Sum<'k> {
    /// No files. Of those that will come these groups are kept: the others are looked at, and take no memory.
    pub fn new(alloc: Global, kept: Kept<'k>) -> Sum<'k>
        ensures none { AreSummed fin.empty [] result }
        ensures kept { result.kept ≡ kept.entry }
    {
        Sum {
            map: GroupMap::new(alloc),
            cover: Vec::new(alloc),
            kept,
            most: 0,
        }
    }

    /// Adds the file that begins with this front. The bytes after the file. After an error a sum can only be dropped.
    pub fn add_file<'a>(
        &mut self,
        alloc: Global,
        front: &FrontRead<'a>,
        shape: &Shape<'_>,
    ) -> Result<&'a [u8], FileFault>
        requires shape { IsShape shape.now }
        requires at { front.now.at + length front.now.rest.now < 2 ^ 64 }
        ensures read { IfOk result (λ after. (blocks : List (List Group)) × AreFileGroups shape.now.columns shape.now.kinds.now (preface_of front.now.head) front.now.at blocks
            × (front.now.rest.now ≡ body_bytes shape.now.kinds.now front.now.at blocks ++ after.now)) }
        ensures sum { (m : GroupsByKey) (cover : List Stretch) (blocks : List (List Group)) (rest : List ℕ) → AreSummed m cover self.old → IsBody shape.now.columns shape.now.kinds.now front.now.at blocks
            → front.now.rest.now ≡ body_bytes shape.now.kinds.now front.now.at blocks ++ rest
            → IfOk result (λ after. (after.now ≡ rest) × AreSummed (sum_with shape.now m (groups_of blocks)) (cover ++ front.now.head.cover.items) self.new) }

        ensures kept { self.new.kept ≡ self.old.kept }

        // When each error comes.
        ensures refused { (m : GroupsByKey) (cover : List Stretch) → AreSummed m cover self.old → IfErr result (IsNoFile shape.now m (preface_of front.now.head) front.now.at front.now.rest.now) }
    {
        let body = read_groups(alloc, front, shape)?;
        self.add_groups(body.blocks, front, shape)?;
        Ok(body.rest)
    }

    /// Adds the groups of the blocks of a file, as [`read_groups`] found them, and its stretches. After an error a sum can only be dropped.
    pub fn add_groups<'a>(
        &mut self,
        blocks: &'a [u8],
        front: &FrontRead<'a>,
        shape: &Shape<'_>,
    ) -> Result<(), FileFault>
        requires { IsShape shape.now }
        ensures order { (bs : List (List Group)) → All (IsBlock shape.now.columns shape.now.kinds.now) bs → blocks.now ≡ blocks_bytes shape.now.kinds.now bs
            → OnOk result (AreInOrder shape.now.columns (preface_of front.now.head).keys (map_list key_of (groups_of bs))) }
        ensures sum { (m : GroupsByKey) (cover : List Stretch) (bs : List (List Group)) → AreSummed m cover self.old → All (IsBlock shape.now.columns shape.now.kinds.now) bs → blocks.now ≡ blocks_bytes shape.now.kinds.now bs
            → OnOk result (AreSummed (sum_with shape.now m (groups_of bs)) (cover ++ front.now.head.cover.items) self.new) }
        ensures kept { self.new.kept ≡ self.old.kept }
        ensures refused { (m : GroupsByKey) (cover : List Stretch) (bs : List (List Group)) → AreSummed m cover self.old → All (IsBlock shape.now.columns shape.now.kinds.now) bs → blocks.now ≡ blocks_bytes shape.now.kinds.now bs
            → IfErr result (AreNotAdded shape.now m (preface_of front.now.head).keys (groups_of bs)) }
    {
        let mut order = KeyOrder::new(shape.columns, front.head.range);
        let mut count = FileCount { groups: 0, most: 0 };
        match add_blocks(
            &mut self.map,
            &mut order,
            &mut count,
            blocks,
            shape,
            self.kept,
        ) {
            Ok(()) => {}
            Err(why) => return Err(FileFault::Group { why }),
        }
        let Some(most) = bounded(&self.map, self.most, count.most) else {
            return Err(FileFault::Rows);
        };
        self.most = most;
        match self.cover.extend_from_slice(front.head.cover.as_slice()) {
            Ok(()) => Ok(()),
            Err(_) => Err(FileFault::Memory),
        }
    }

    /// The groups that were kept, and the stretches of all files.
    pub fn into_parts(self) -> (GroupMap, Vec<Stretch>)
        ensures map { result.0 ≡ self.entry.map }
        ensures cover { result.1.items ≡ self.entry.cover.items }
    {
        let Sum {
            map,
            cover,
            kept: _,
            most: _,
        } = self;
        (map, cover)
    }
}

/// The body of a file that begins with this front, if it has no groups beside a refused row. It looks at each byte of the file, and takes
/// memory for the foot.
pub fn read_groups<'a>(
    alloc: Global,
    front: &FrontRead<'a>,
    shape: &Shape<'_>,
) -> Result<BodyRead<'a>, FileFault>
    requires shape { IsShape shape.now }
    requires at { front.now.at + length front.now.rest.now < 2 ^ 64 }
    ensures read { IfOk result (λ body. (blocks : List (List Group)) × IsBody shape.now.columns shape.now.kinds.now front.now.at blocks
        × (front.now.rest.now ≡ body_bytes shape.now.kinds.now front.now.at blocks ++ body.rest.now) × (body.blocks.now ≡ blocks_bytes shape.now.kinds.now blocks)
        × (0 < length (groups_of blocks) → HasRefused front.now.head.cover.items → ⊥)) }
    ensures written { (blocks : List (List Group)) (rest : List ℕ) → IsBody shape.now.columns shape.now.kinds.now front.now.at blocks → front.now.rest.now ≡ body_bytes shape.now.kinds.now front.now.at blocks ++ rest
        → IfOk result (λ body. (body.rest.now ≡ rest) × (body.blocks.now ≡ blocks_bytes shape.now.kinds.now blocks)) }
    ensures refused { IfErr result (HasNoGroups shape.now (preface_of front.now.head) front.now.at front.now.rest.now) }
{
    match read_body(alloc, front.rest, front.at, shape.columns, shape.kinds) {
        Ok(body) => {
            if has_both(body.groups, front.head.cover.as_slice()) {
                return Err(FileFault::Refused);
            }
            Ok(body)
        }
        Err(why) => Err(FileFault::Body { why }),
    }
}

/// Whether there are groups, and a row of some stretches is refused.
fn has_both(groups: u64, cover: &[Stretch]) -> bool
    ensures both { IsTrue result → (0 < groups) × HasRefused cover.now }
    ensures not_both { result ≡ false → 0 < groups → HasRefused cover.now → ⊥ }
{
    if groups == 0 {
        return false;
    }
    has_refused(cover)
}

/// Whether a row of some stretches is refused.
fn has_refused(cover: &[Stretch]) -> bool
    ensures { result ≡ has_refused cover.now }
{
    for at in 0..cover.len() {
        if is_refused(cover[at].rows) {
            return true;
        }
    }
    false
}

/// Whether a row is refused.
fn is_refused(rows: Rows) -> bool
    ensures { result ≡ is_refused rows }
{
    match rows {
        Rows::Counted(_) => false,
        Rows::Refused(_) => true,
    }
}
