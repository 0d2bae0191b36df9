//! A row that a worker refuses stops the leader at one of its next blocks, and not after all of them.

use super::refused;
use crossbeam_utils::Backoff;
use gather_merge::MergeAnswer;
use std::alloc::{AllocError, Global};
use std::sync::atomic::{AtomicBool, AtomicU32, Ordering};
use std::test::Fail;
use worker_run::Gate;

/// Counts the leader's blocks, and holds the leader for a while at each: at the first one until the worker is at one too.
/// All 20 would take seconds, since the worker may be kept from its processor; the leader is stopped after one or two.
#[derive(Drop)]
struct Slow {
    worker_came: AtomicBool,
    leaders: AtomicU32,
}

impl Gate for Slow {
    fn pass(&self, participant: u32, _block: u64) {
        if participant != 0 {
            self.worker_came.store(true, Ordering::SeqCst);
            return;
        }
        self.leaders.fetch_add(1, Ordering::SeqCst);
        let backoff = Backoff::new();
        for _turn in 0..1_000_000 {
            if self.worker_came.load(Ordering::SeqCst) {
                break;
            }
            backoff.snooze();
        }
        for _turn in 0..500_000 {
            backoff.snooze();
        }
    }
}

/// 20 blocks of rows, of which the 300th is refused.
fn long_text(alloc: Global) -> Result<Vec<u8>, AllocError> {
    let mut text = Vec::from_slice(alloc, b"n\n")?;
    for row in 1..=5_120 {
        text.extend_from_slice(if row == 300 { b"b,c\n" } else { b"a\n" })?;
    }
    Ok(text)
}

/// One of the first two blocks has a refused row. Whoever draws it, the leader does not come to the last of 20 blocks.
#[test]
fn a_refused_row_stops_the_leader(rt: HostRuntime) -> Result<(), Fail> {
    let gate = Slow {
        worker_came: AtomicBool::new(false),
        leaders: AtomicU32::new(0),
    };
    let text = long_text(rt.alloc())?;
    let why = refused(&rt, rt.alloc(), &text, 1, 1, &gate)?;
    assert!(rt; why == MergeAnswer::Row { row: 300, cause: 1 });
    assert!(rt; gate.leaders.load(Ordering::SeqCst) < 19);
    Ok(())
}
