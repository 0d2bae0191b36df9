//! What `pargather` does with workers beside the caller's thread: they are at work at one time, and a fault or a
//! refused row is answered as without them.

use super::{
    Answered, Failing, LETTERS, NO_FAULTS, Pieces, Said, Wanted, X_TWICE, ask, bytes_of, check,
};
use crossbeam_utils::Backoff;
use par_gather::{Gate, OpenGate, TABLE};
use std::alloc::Global;
use std::process::Abort;
use std::sync::Wait;
use std::sync::atomic::{AtomicBool, AtomicU32, Ordering};
use std::thread::Threads;

/// Holds each of three participants at its first block until all have come to one, for at most twenty million
/// turns: a thread may be kept from its processor for seconds.
#[derive(Drop)]
struct Meeting {
    came: [AtomicBool; 3],
    count: AtomicU32,
    late: AtomicBool,
}

impl Meeting {
    /// A gate that nobody has come to.
    fn of_three() -> Meeting {
        Meeting {
            came: [
                AtomicBool::new(false),
                AtomicBool::new(false),
                AtomicBool::new(false),
            ],
            count: AtomicU32::new(0),
            late: AtomicBool::new(false),
        }
    }

    /// Whether one gave up waiting.
    fn was_late(&self) -> bool {
        self.late.load(Ordering::SeqCst)
    }
}

impl Gate for Meeting {
    fn pass(&self, participant: u32, _block: u64) {
        let at = participant as usize;
        if at >= 3 || self.came[at].swap(true, Ordering::SeqCst) {
            return;
        }
        self.count.fetch_add(1, Ordering::SeqCst);
        let backoff = Backoff::new();
        for _turn in 0..20_000_000 {
            if self.count.load(Ordering::SeqCst) >= 3 {
                return;
            }
            backoff.snooze();
        }
        self.late.store(true, Ordering::SeqCst);
    }
}

/// Three blocks, and three participants that are inside their first at one time.
const BLOCKS: Pieces<'static> = &[("g\n", 1), ("a\n", 768)];

/// What these words answer over the blocks. Stops the test unless the three met.
fn ask_meeting<R: Abort + Threads + Wait + Sync>(rt: &R, alloc: Global, words: &str) -> Answered {
    let gate = Meeting::of_three();
    let input = bytes_of(rt, alloc, BLOCKS);
    let answer = ask(rt, alloc, words, input, NO_FAULTS, &gate);
    assert!(rt; !gate.was_late(), "one gave up waiting");
    answer
}

#[test]
fn all_are_at_work_at_once(rt: HostRuntime) {
    let words = "--group g --agg count --workers 2";
    let answer = ask_meeting(&rt, rt.alloc(), words);
    let wanted = Wanted::of(TABLE, b"g,count\na,768\n", b"");
    check(&rt, words, &answer, wanted);
    assert!(rt;
        matches!(
            answer.said,
            Said::Gathered {
                launched: 2,
                groups: 1
            }
        )
    );
}

/// Likewise where rows are put in order.
#[test]
fn all_sort_at_once(rt: HostRuntime) {
    let sorted = bytes_of(&rt, rt.alloc(), BLOCKS);
    let answer = ask_meeting(&rt, rt.alloc(), "merge g 2");
    let wanted = Wanted::of(TABLE, sorted.as_slice(), b"");
    check(&rt, "merge g 2", &answer, wanted);
    assert!(rt;
        matches!(
            answer.said,
            Said::Merged {
                launched: 2,
                rows: 768
            }
        )
    );
}

/// Of two refused rows either may be named where there are workers.
#[test]
fn two_refused_rows(rt: HostRuntime) {
    let words = "--agg sum:v --workers 2";
    let first = b"pargather: row 300: column v is not an integer\n".as_slice();
    let second = b"pargather: row 550: column v is not an integer\n".as_slice();
    for _ in 0..20 {
        let input = bytes_of(&rt, rt.alloc(), X_TWICE);
        let answer = ask(&rt, rt.alloc(), words, input, NO_FAULTS, &OpenGate);
        assert!(rt; answer.status == 1 && (answer.err() == first || answer.err() == second));
    }
}

/// What is answered where these calls fail.
fn ask_failing<R: Abort + Threads + Wait + Sync>(
    rt: &R,
    alloc: Global,
    failing: Failing<'_>,
) -> Answered {
    let words = "--group g --agg count --workers 2";
    let input = bytes_of(rt, alloc, LETTERS);
    ask(rt, alloc, words, input, failing, &OpenGate)
}

/// Sixteen bytes in pieces of 3: the eighth read, which finds the end, is the last.
#[test]
fn failing_reads(rt: HostRuntime) {
    for call in 1..=8u64 {
        let reads = [call];
        let failing = Failing {
            reads: &reads,
            ..NO_FAULTS
        };
        let answer = ask_failing(&rt, rt.alloc(), failing);
        assert!(rt;
            answer.status == if call < 8 { 3 } else { 0 },
            "read {call}"
        );
    }
}

/// Sixteen bytes of a table in pieces of 5: four writes.
#[test]
fn failing_writes(rt: HostRuntime) {
    let table = b"g,count\na,2\nb,1\n".as_slice();
    for call in 1..=8u64 {
        let writes = [call];
        let failing = Failing {
            writes: &writes,
            ..NO_FAULTS
        };
        let answer = ask_failing(&rt, rt.alloc(), failing);
        let written = (5 * (call as usize - 1)).min(16);
        assert!(rt;
            answer.status == if call < 5 { 4 } else { 0 },
            "write {call}"
        );
        assert!(rt; answer.out() == &table[..written], "write {call}");
    }
}
