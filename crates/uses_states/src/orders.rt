//! Keys that rise as lines do and not as bytes do.

use state_head::KeyRange;
use state_order::{KeyOrder, OrderFault};
use std::test::Fail;

#[test]
fn orders(rt: HostRuntime) -> Result<(), Fail> {
    let range = KeyRange {
        low: b"\x01\0\0\0a",
        high: b"\x01\0\0\0c",
    };
    let mut order = KeyOrder::new(1, range);
    assert!(rt; order.take(b"\x01\0\0\0a") == Ok(()));
    assert!(rt; order.take(b"\x03\0\0\0abc") == Ok(()));
    assert!(rt; order.take(b"\x02\0\0\0ab") == Err(OrderFault::Order));
    Ok(())
}
