//! Bytes that wait and then go on together, and records as the crate `csv` writes them.

use answer_text::{Held, put_record};
use csv_rows::{RowStore, rows};
use par_io::MemSink;
use std::alloc::Global;
use std::test::Fail;

#[test]
fn pieces_wait_and_go_on_together(rt: HostRuntime) -> Result<(), Fail> {
    let mut out = MemSink::new(rt.alloc(), 5, 100, Vec::new(rt.alloc()))?;
    let mut held = Held::new(rt.alloc())?;
    held.put(&mut out, b"one ");
    held.put(&mut out, b"and two");
    assert!(rt; out.written().is_empty());
    held.pass_on(&mut out);
    assert_eq!(rt; out.written(), b"one and two".as_slice());
    assert!(rt; !held.is_broken());
    Ok(())
}

/// The records of a text. A test asks for their count first, by which it knows that there is a record 0.
fn stored(alloc: Global, text: &[u8]) -> Result<RowStore, Fail> {
    match rows(alloc, text) {
        Ok(store) => Ok(store),
        Err(_) => Err(Fail::new("no records")),
    }
}

/// Records as they may come in an input, and as they are written.
#[test]
fn records(rt: HostRuntime) -> Result<(), Fail> {
    let table: [(&[u8], &[u8]); 5] = [
        (b"plain,\"quoted\",\r\n", b"plain,quoted,\n"),
        (b"\"x, y\"\n", b"\"x, y\"\n"),
        (b"\"say \"\"hi\"\"\"\n", b"\"say \"\"hi\"\"\"\n"),
        (b"\"two\r\nlines\"", b"\"two\r\nlines\"\n"),
        (b"\"\"\n", b"\"\"\n"),
    ];
    for (input, written) in table {
        let store = stored(rt.alloc(), input)?;
        let mut out = MemSink::new(rt.alloc(), 5, 100, Vec::new(rt.alloc()))?;
        let mut held = Held::new(rt.alloc())?;
        let _rows = store.count();
        put_record(&mut held, &mut out, &store.find(0));
        held.pass_on(&mut out);
        assert_eq!(rt; out.written(), written);
    }
    Ok(())
}
