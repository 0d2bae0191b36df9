//! Worked bytes of a block.

use state_blocks::{read_block, read_first, split_block};
use std::test::Fail;

/// Two groups of one column, `a` and `b`, whose one lane has numbers: three rows with 1 and 2, and one row without a number.
const BLOCK: &[u8] = b"\x05\x01\0\0\0a\x03\x02\x06\x02\x01\x05\x01\0\0\0b\x01\0";

#[test]
fn blocks(rt: HostRuntime) -> Result<(), Fail> {
    let kinds = [true];
    assert!(rt; read_block(BLOCK, 1, &kinds) == Ok(2));
    assert!(rt; read_first(BLOCK, 1, &kinds).map(|key| key.len()) == Some(5));
    let split = split_block(b"\x02\0\0\0abSUM.more");
    assert!(rt; split == Some((b"ab".as_slice(), b"more".as_slice())));
    Ok(())
}
