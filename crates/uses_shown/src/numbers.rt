//! What no clause says: that the reads of a table behind its header succeed, and how their bytes read.

use numbered_rows::Numbered;
use par_io::{MemSource, read_whole};
use std::test::Fail;

/// A table, the byte between two fields, and what a source gives of it that is asked for numbers.
const TABLES: [(&[u8], u8, &[u8]); 8] = [
    (b"a,b\nc,d\n", b',', b"1,2\ra,b\nc,d\n"),
    (b"\xef\xbb\xbfx\ny\n", b',', b"1\rx\ny\n"),
    (
        b"\n\"x,\n\",y,\n1,2,3\n",
        b',',
        b"1,2,3\r\n\"x,\n\",y,\n1,2,3\n",
    ),
    (b"a,\"b", b',', b"1,2\ra,\"b"),
    (b"a;b,c;d", b';', b"1;2;3\ra;b,c;d"),
    (b"a1b", b'1', b"\"1\"1\"2\"\ra1b"),
    (b"\r\n\n", b',', b"\r\n\n"),
    (b"", b',', b""),
];

#[test]
fn numbers(rt: HostRuntime) -> Result<(), Fail> {
    for (table, separator, wanted) in TABLES {
        let bytes = Vec::from_slice(rt.alloc(), table)?;
        let source = MemSource::new(bytes, 3, Vec::new(rt.alloc()));
        let mut numbered = Numbered::new(rt.alloc(), source, Some(separator));
        let given = read_whole(rt.alloc(), &mut numbered, 64)
            .ok()
            .ok_or("a read")?;
        assert_eq!(rt; given.as_slice(), wanted);
    }
    Ok(())
}
