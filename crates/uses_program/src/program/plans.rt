//! One table, whatever plan the words ask for, however many workers, and in windows too.

use super::{Answered, Call, NO_FAULTS, Wanted, ask_alone, check_each, copy_of};
use par_gather::TABLE;
use std::alloc::Global;
use std::process::Abort;
use std::sync::Wait;
use std::thread::Threads;

/// A thousand orders of an item whose name is quoted.
fn orders<R: Abort>(rt: &R, alloc: Global) -> Vec<u8> {
    let mut text = copy_of(rt, alloc, b"region,item,cents\n");
    for cents in 1..=1000u32 {
        let line = format!(in alloc; "R{},\"box, large\",{}\n", cents % 12, cents);
        let line = line.expect(rt, "memory");
        text.extend_from_slice(line.as_bytes()).expect(rt, "memory");
    }
    text
}

const BY_REGION: &str =
    "region,count,sum(cents),avg(cents)\nR0,83,41832,504.0000\nR1,84,41916,499.0000\nR10,83,41666,502.0000\nR11,83,41749,503.0000\nR2,84,42000,500.0000\nR3,84,42084,501.0000\nR4,84,42168,502.0000\nR5,83,41251,497.0000\nR6,83,41334,498.0000\nR7,83,41417,499.0000\nR8,83,41500,500.0000\nR9,83,41583,501.0000\n";

const ORDERS: &[(&str, &str)] = &[
    ("--group region --agg count,sum:cents,avg:cents", BY_REGION),
    (
        "--group region --agg count,sum:cents,avg:cents --plan hash",
        BY_REGION,
    ),
    (
        "--group region --agg count,sum:cents,avg:cents --plan hash --area-pages 0",
        BY_REGION,
    ),
    (
        "--group item --agg count",
        "item,count\n\"box, large\",1000\n",
    ),
];

#[test]
fn thousand_orders(rt: HostRuntime) {
    let text = orders(&rt, rt.alloc());
    for (words, out) in ORDERS {
        let wanted = Wanted::of(0, out.as_bytes(), b"");
        check_each(&rt, rt.alloc(), words, text.as_slice(), NO_FAULTS, wanted);
    }
}

/// This many rows, of which three in a row have one key.
fn keyed<R: Abort>(rt: &R, alloc: Global, rows: u32) -> Vec<u8> {
    let mut text = copy_of(rt, alloc, b"k,v\n");
    for row in 0..rows {
        let line = format!(in alloc; "key {},{}\n", row / 3, row % 100);
        let line = line.expect(rt, "memory");
        text.extend_from_slice(line.as_bytes()).expect(rt, "memory");
    }
    text
}

/// What a plan answers over these rows in the caller's thread alone.
fn ask_keyed<R: Abort>(rt: &R, alloc: Global, text: &[u8]) -> Answered {
    let input = copy_of(rt, alloc, text);
    ask_alone(
        rt,
        alloc,
        "--group k --agg count,sum:v,avg:v",
        input,
        NO_FAULTS,
    )
}

/// Stops the test unless a call writes this table for the same plan, however many workers it has. Its further words
/// begin with a space.
fn check_keyed<R: Abort + Threads + Wait + Sync>(
    rt: &R,
    alloc: Global,
    call: Call,
    text: &[u8],
    further: &str,
    table: &[u8],
) {
    for workers in [0, 1, 3, 16, 64u32] {
        let words = format!(in alloc;
            "--group k --agg count,sum:v,avg:v --workers {workers}{further}"
        );
        let words = words.expect(rt, "memory");
        let wanted = Wanted::of(TABLE, table, b"");
        call.check(rt, alloc, words.as_str(), text, NO_FAULTS, wanted);
    }
}

/// With 16 pages, the fewest with which there is a shared table, many groups find no room in it.
#[test]
fn the_same_bytes(rt: HostRuntime) {
    let text = keyed(&rt, rt.alloc(), 3_000);
    let first = ask_keyed(&rt, rt.alloc(), text.as_slice());
    assert!(rt; first.status == TABLE);
    for (call, further) in [
        (Call::WithWorkers, ""),
        (Call::WithWorkers, " --plan gather"),
        (Call::WithWorkers, " --plan hash"),
        (Call::WithWorkers, " --plan hash --area-pages 16"),
        (Call::InWindows, ""),
    ] {
        check_keyed(&rt, rt.alloc(), call, text.as_slice(), further, first.out());
    }
}
