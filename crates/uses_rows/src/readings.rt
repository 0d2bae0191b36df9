//! Texts whose fields are parted by another byte than the comma, or read without white space, or as nothing.

use csv_rows::{Reading, RowStore, exchange, rows_as};
use par_model::Text;
use std::alloc::{AllocError, Global};
use std::test::Fail;

/// Each field with a bar after it, and each record with a slash.
fn shown(alloc: Global, store: &RowStore) -> Result<Vec<u8>, AllocError> {
    let mut text = Vec::new(alloc);
    for row in 0..=store.count() {
        for at in 0..store.width(row) {
            text.extend_from_slice(store.field(row, at))?;
            text.extend_from_slice(b"|")?;
        }
        text.extend_from_slice(b"/")?;
    }
    Ok(text)
}

/// The records of a text by a reading, as [`shown`] has them.
fn shown_text(alloc: Global, reading: &Reading, text: &[u8]) -> Result<Vec<u8>, Fail> {
    let mut bytes = Vec::from_slice(alloc, text)?;
    exchange(bytes.as_mut_slice(), reading.separator);
    match rows_as(alloc, reading, bytes.as_slice()) {
        Ok(store) => Ok(shown(alloc, &store)?),
        Err(_) => Err(Fail::new("no rows")),
    }
}

/// A separator, whether white space is left out, the texts that are read as nothing, a text, and its records.
type Row = (u8, bool, &'static [u8], &'static [u8], &'static [u8]);

/// Separators with commas and quotes beside them; white space and such texts in quotes, in the header and inside fields.
const READINGS: [Row; 7] = [
    (b';', false, b"", b"a;b\n\"x;y\"; 1,5\n", b"a|b|/x;y| 1,5|/"),
    (
        b'\t',
        true,
        b"",
        b" a\tb \r\n\"\t x\r\n\"\t\n",
        b"a|b|/x||/",
    ),
    (
        b',',
        true,
        b"NA,-",
        b"v,w\n NA ,\"-\"\n- -,NAN\n",
        b"v|w|/||/- -|NAN|/",
    ),
    (b',', false, b"NA,-", b"NA,w\n NA ,N\n", b"|w|/ NA |N|/"),
    (
        b'|',
        false,
        b"NULL",
        b"\xEF\xBB\xBFg|v\nNULL|\"a,|\"\"\"\n",
        b"g|v|/|a,|\"|/",
    ),
    (b' ', true, b"", b"a b\n 1\n", b"a|b|/|1|/"),
    (b'0', false, b"", b"a0b\n102\n", b"a|b|/1|2|/"),
];

#[test]
fn readings(rt: HostRuntime) -> Result<(), Fail> {
    for (separator, trim, nulls, text, want) in READINGS {
        let nulls = Text::of(nulls).ok_or("too long")?;
        let reading = Reading {
            separator,
            trim,
            nulls,
        };
        let found = shown_text(rt.alloc(), &reading, text)?;
        assert!(rt;
            found.as_slice() == want,
            "{:?} of {:?}",
            found.as_slice(),
            text
        );
    }
    Ok(())
}
