//! A line of each kind, and what it is read as.

use shell_lines::{
    BarrierCommand, ChunkCommand, Command, PartyCall, RingCommand, TableCommand, TocCommand,
    number, place_of, read_line,
};
use std::test::Fail;

#[test]
fn each_command_is_read(rt: HostRuntime) -> Result<(), Fail> {
    let name = b"a".as_slice();
    let text = b" b  c".as_slice();
    let call = PartyCall::Look;
    let read = [
        (
            b"alloc a 24".as_slice(),
            Some(Command::Chunk(ChunkCommand::Alloc { name, bytes: 24 })),
        ),
        (
            b"put a 18446744073709551615",
            Some(Command::Table(TableCommand::Put {
                key: name,
                value: u64::MAX,
            })),
        ),
        (
            b"send a  b  c",
            Some(Command::Ring(RingCommand::Send {
                name,
                text,
                flush: true,
            })),
        ),
        (
            b"ring a 1048576 0 0",
            Some(Command::Ring(RingCommand::Ring {
                name,
                words: 1_048_576,
                from: 0,
                max: 0,
            })),
        ),
        (
            b"toc insert 18446744073709551615 a",
            Some(Command::Toc(TocCommand::Insert {
                key: u64::MAX,
                name,
            })),
        ),
        (
            b"bar look a 1",
            Some(Command::Barrier(BarrierCommand::Call {
                name,
                caller: 1,
                call,
            })),
        ),
        (b"alloc a  24", None),
    ];
    for (line, command) in read {
        assert!(rt; read_line(line) == command);
    }
    assert_eq!(rt; number(b"0024", 1, 24), Some(24));
    assert_eq!(rt; place_of(text, b'c'), Some(4));
    Ok(())
}
