//! What no clause says: that the calls succeed, and how text that is written oddly reads.

ghost use Rattle.std.specs.Prelude.{◌≡◌, IfSome};
ghost use Rattle.csv_rows.specs.Records.{records_of};

use csv_rows::{RowStore, read_all, rows, rows_in_threads};
use par_io::{MemSource, Source};
use std::alloc::{AllocError, Global};
use std::test::Fail;

/// The records of what a source has left, if it can be read: the caller of CALLING.md.
fn stored_records<S: Source>(alloc: Global, source: &mut S) -> Option<RowStore>
    ensures { IfSome result (λ store. IfSome (S.left source.old) (λ bytes. store ≡ records_of bytes)) }
{
    let bytes = read_all(alloc, source).ok()?;
    rows(alloc, bytes.as_slice()).ok()
}

/// Each field with a bar after it, and each record with a slash.
fn shown(alloc: Global, store: &RowStore) -> Result<Vec<u8>, AllocError> {
    let mut text = Vec::new(alloc);
    for row in 0..=store.count() {
        for at in 0..store.width(row) {
            text.extend_from_slice(store.field(row, at))?;
            text.extend_from_slice(b"|")?;
        }
        text.extend_from_slice(b"/")?;
    }
    Ok(text)
}

/// A line of eight bytes.
const LINE: &[u8] = b"1234567\n";

/// How many such lines are enough for two threads.
const LINES: u64 = 16_384;

/// This many lines.
fn all_lines(alloc: Global) -> Result<Vec<u8>, AllocError> {
    let mut text = Vec::new(alloc);
    for _ in 0..LINES {
        text.extend_from_slice(LINE)?;
    }
    Ok(text)
}

/// The records of a text as [`shown`] has them.
fn shown_text(alloc: Global, text: &[u8]) -> Result<Vec<u8>, Fail> {
    match rows(alloc, text) {
        Ok(store) => Ok(shown(alloc, &store)?),
        Err(_) => Err(Fail::new("no rows")),
    }
}

/// Ragged rows; quotes in odd places and quotes left open; bytes that
/// are no text; line ends, byte order marks, and lines and fields that are empty.
const ODD_TEXTS: [(&[u8], &[u8]); 18] = [
    (
        b"a,b\n1,2\n3\n4,5\n6,7,8\n9,0",
        b"a|b|/1|2|/3|/4|5|/6|7|8|/9|0|/",
    ),
    (b"a,b,c\n\n,,3\n,\n1,2,", b"a|b|c|/||3|/||/1|2||/"),
    (b"\"x,\"\"y\"\"\",z\r\n\r\n1,2\r\n", b"x,\"y\"|z|/1|2|/"),
    (b"a\"b\n\"c\"d\n", b"a\"b|/cd|/"),
    (b"\"c\"x\"y\",d\n", b"cx\"y\"|d|/"),
    (b" \"a\",\"\"\"\"\n", b" \"a\"|\"|/"),
    (b"v\n\"x\ny,z", b"v|/x\ny,z|/"),
    (b"v\n\"", b"v|/|/"),
    (b"v\n\"x\r\ny\",\"\r\"\n", b"v|/x\r\ny|\r|/"),
    (b"\xFF\xFE,\xC3\n\0\n", b"\xFF\xFE|\xC3|/\0|/"),
    (b"v\r1\r2", b"v|/1|/2|/"),
    (b"v\n\n\n1\r\n\r\n", b"v|/1|/"),
    (b"v\n \n\t\n", b"v|/ |/\t|/"),
    (b",\n", b"||/"),
    (b"\xEF\xBB\xBF\"g,h\"\n5\n", b"g,h|/5|/"),
    (b"\xEF\xBB\xBF\xEF\xBB\xBFg\n", b"\xEF\xBB\xBFg|/"),
    (b"g\n\xEF\xBB\xBF5\n", b"g|/\xEF\xBB\xBF5|/"),
    (b"\xEF\xBB\xBF\n\ng\n", b"g|/"),
];

#[test]
fn odd_text(rt: HostRuntime) -> Result<(), Fail> {
    for (text, want) in ODD_TEXTS {
        let found = shown_text(rt.alloc(), text)?;
        assert!(rt;
            found.as_slice() == want,
            "{:?} of {:?}",
            found.as_slice(),
            text
        );
    }
    Ok(())
}

/// Lines that two threads read.
#[test]
fn many_lines(rt: HostRuntime) -> Result<(), Fail> {
    let text = all_lines(rt.alloc())?;
    let Ok(store) = rows_in_threads(&rt, rt.alloc(), text.as_slice(), 2) else {
        return Err(Fail::new("no rows"));
    };
    assert!(rt; store.count() + 1 == LINES);
    Ok(())
}

/// The records of a source that gives pieces of 3 bytes, and of which this call fails.
fn shown_source(alloc: Global, call: u64) -> Result<Option<Vec<u8>>, AllocError> {
    let bytes = Vec::from_slice(alloc, b"g,v\na,1\n")?;
    let mut source = MemSource::new(bytes, 3, Vec::from_slice(alloc, &[call])?);
    match stored_records(alloc, &mut source) {
        Some(store) => Ok(Some(shown(alloc, &store)?)),
        None => Ok(None),
    }
}

/// A source that gives small pieces, and one that fails.
#[test]
fn sources(rt: HostRuntime) -> Result<(), Fail> {
    let text = shown_source(rt.alloc(), 0)?.ok_or("no records")?;
    assert_eq!(rt; text.as_slice(), b"g|v|/a|1|/".as_slice());
    assert!(rt; shown_source(rt.alloc(), 2)?.is_none());
    Ok(())
}
