//! Worked bytes, which no clause says: numbers in each length, texts, checksums from public documents, a section.

use state_file::{
    crc32c, push_number, push_section, push_signed, push_text, read_count, read_number,
    read_section, read_signed, read_text,
};
use std::test::Fail;

/// Numbers, and their bytes.
const NUMBERS: [(u128, &[u8]); 6] = [
    (0, &[0]),
    (127, &[127]),
    (128, &[128, 1]),
    (300, &[172, 2]),
    (1 << 63, &[128, 128, 128, 128, 128, 128, 128, 128, 128, 1]),
    (
        u128::MAX,
        &[
            255, 255, 255, 255, 255, 255, 255, 255, 255, 255, 255, 255, 255, 255, 255, 255, 255,
            255, 3,
        ],
    ),
];

/// Signed numbers, and their bytes.
const SIGNED: [(i128, &[u8]); 5] = [
    (0, &[0]),
    (-1, &[1]),
    (1, &[2]),
    (-64, &[127]),
    (64, &[128, 1]),
];

/// Texts and their checksums, of the check word of catalogues and of RFC 3720, B.4.
const SUMS: [(&[u8], u32); 4] = [
    (b"", 0),
    (b"123456789", 0xe306_9283),
    (&[0; 32], 0x8a91_36aa),
    (&[255; 32], 0x62a8_ab43),
];

#[test]
fn numbers(rt: HostRuntime) -> Result<(), Fail> {
    for (n, bytes) in NUMBERS {
        let mut out = Vec::new(rt.alloc());
        push_number(&mut out, n)?;
        assert!(rt; out.as_slice() == bytes, "{n}");
        assert!(rt; read_number(bytes).map(|found| found.0) == Some(n), "{n}");
    }
    for (n, bytes) in SIGNED {
        let mut out = Vec::new(rt.alloc());
        push_signed(&mut out, n)?;
        assert!(rt; out.as_slice() == bytes, "{n}");
        assert!(rt; read_signed(bytes).map(|found| found.0) == Some(n), "{n}");
    }
    Ok(())
}

#[test]
fn texts(rt: HostRuntime) -> Result<(), Fail> {
    let mut out = Vec::new(rt.alloc());
    push_text(&mut out, b"abc")?;
    push_text(&mut out, b"")?;
    assert!(rt; out.as_slice() == b"\x03abc\0".as_slice());
    assert!(rt; read_text(out.as_slice(), 3).map(|found| found.0.len()) == Some(3));
    assert!(rt; read_count(b"\x07", 7).map(|found| found.0) == Some(7));
    Ok(())
}

#[test]
fn sections(rt: HostRuntime) -> Result<(), Fail> {
    for (bytes, sum) in SUMS {
        assert!(rt; crc32c(bytes) == sum, "{sum:x}");
    }
    let mut out = Vec::new(rt.alloc());
    push_section(&mut out, b"123456789")?;
    assert!(rt; out.as_slice() == b"\x09\0\0\x00123456789\x83\x92\x06\xe3".as_slice());
    assert!(rt; read_section(out.as_slice(), 9).map(|found| found.0.len()) == Ok(9));
    Ok(())
}
