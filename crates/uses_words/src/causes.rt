//! Messages of an error queue, by hand from the format, and bytes that are none.

use error_queue::{ErrorMessage, ErrorRead};

/// Row 300, cause 3, item 0, written by hand from the format.
const ROW_300: [u8; 14] = [0x45, 0x2c, 0x01, 0, 0, 0, 0, 0, 0, 3, 0, 0, 0, 0];

#[test]
fn writes_the_format(rt: HostRuntime) {
    let message = ErrorMessage::Row {
        row: 300,
        cause: 3,
        item: 0,
    };
    let mut out = [0xff; 14];
    assert_eq!(rt; message.write(&mut out), 14);
    assert!(rt; out == ROW_300);
    assert!(rt; ErrorMessage::read(&out) == Ok(message));
    assert_eq!(rt; ErrorMessage::End.write(&mut out), 1);
    assert_eq!(rt; out[0], b'X');
    assert!(rt; ErrorMessage::read(b"X") == Ok(ErrorMessage::End));
}

#[test]
fn refuses_what_is_no_message(rt: HostRuntime) {
    assert!(rt; ErrorMessage::read(b"") == Err(ErrorRead::Length { length: 0 }));
    assert!(rt; ErrorMessage::read(b"A") == Err(ErrorRead::Tag { byte: 0x41 }));
    assert!(rt; ErrorMessage::read(b"XX") == Err(ErrorRead::Length { length: 2 }));
    for k in 1..14 {
        let want = Err(ErrorRead::Length { length: k as u64 });
        assert!(rt;
            ErrorMessage::read(&ROW_300[..k]) == want,
            "the first {k} bytes"
        );
    }
}
