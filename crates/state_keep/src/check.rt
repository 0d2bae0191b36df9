//! The order of the keys of a file, looked at without a map.

ghost use Rattle.std.specs.Prelude.{◌≡◌, List, All, IfErr, OnOk, map as map_list};
ghost use Rattle.partial_agg.specs.Groups.{GroupsByKey};
ghost use Rattle.state_blocks.specs.Blocks.{Group, IsBlock, blocks_bytes};
ghost use Rattle.state_body.specs.Body.{groups_of};
ghost use Rattle.state_head.specs.Head.{preface_of};
ghost use Rattle.state_order.specs.Order.{AreInOrder};
ghost use Rattle.state_whole.specs.Adding.{IsShape, key_of};
ghost use Rattle.state_whole.specs.Sums.{AreNotAdded};

use state_front::FrontRead;
use state_head::KeyRange;
use state_whole::{FileFault, Kept, Shape, Sum};
use std::alloc::Global;

/// Both ends of a range in which no key lies: a column of a byte with which no text in UTF-8 begins, so that most keys are known by their
/// first byte to lie below it.
const NOWHERE: &[u8] = b"\x01\0\0\0\xff";

/// Whether the groups of the blocks of a file, as `state_whole::read_groups` found them, are in order and lie within the file's range. It
/// takes no memory, and a look at each group.
pub fn check_groups(
    alloc: Global,
    blocks: &[u8],
    front: &FrontRead<'_>,
    shape: &Shape<'_>,
) -> Result<(), FileFault>
    requires { IsShape shape.now }
    ensures order { (bs : List (List Group)) → All (IsBlock shape.now.columns shape.now.kinds.now) bs → blocks.now ≡ blocks_bytes shape.now.kinds.now bs
        → OnOk result (AreInOrder shape.now.columns (preface_of front.now.head).keys (map_list key_of (groups_of bs))) }

    // When an error comes.
    ensures refused { (m : GroupsByKey) (bs : List (List Group)) → All (IsBlock shape.now.columns shape.now.kinds.now) bs → blocks.now ≡ blocks_bytes shape.now.kinds.now bs
        → IfErr result (AreNotAdded shape.now m (preface_of front.now.head).keys (groups_of bs)) }
{
    let range = KeyRange {
        low: NOWHERE,
        high: NOWHERE,
    };
    let columns = shape.columns;
    let mut none = Sum::new(alloc, Kept { columns, range });
    match none.add_groups(blocks, front, shape) {
        Ok(()) => Ok(()),
        Err(FileFault::Group { why }) => Err(FileFault::Group { why }),
        // Nothing else comes but want of memory: a sum without groups has none with too many rows.
        Err(_) => Err(FileFault::Memory),
    }
}
