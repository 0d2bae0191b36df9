//! The queue's calls for a program in C.
//!
//! A handle is 16 bytes of C's, all zero before its first call, which belong to one call at a time. Each call here
//! tries once, looks itself whether it may be made, and answers a code (`c_queue`'s `Code`, by its number); so none
//! asks anything of C but what C's types say: that a pointer is good, and that the bytes of a handle are those that the
//! last call left. The waiting calls are loops in C over these, in `bindings/proved/include/lembokuj_try.h`, which also
//! tests pointers before it follows them.
//!
//! A contract speaks of the side that a handle owns: the messages that it has sent or received, and what a call adds to
//! them. It says nothing of the other handle. That what was received is a beginning of what was sent holds of every two
//! sides of one queue at any time (`c_queue::meet`); an export can't say it, since nothing at run time says which two
//! handles were made together.
//!
//! A queue may also lie in memory that C brings (`c_given`), which processes may map at different addresses: one call
//! makes it, and a process takes a side of it into a handle of its own. All other calls of that handle are those of
//! every queue. Of these three calls C owes more: that a site and rows are its addresses of a queue that was made.

#![tactic(auto)]

ghost use Rattle.std.specs.Prelude.{◌≡◌};
ghost use Rattle.c_queue.specs.Numbers.{number_of};
ghost use Rattle.c_queue.specs.Calls.{Opens, Sends, SendsWhole, Flushes, Receives, Leaves, Closes};
ghost use Rattle.c_queue.specs.declared.code.Code.{Code as TheCode};
ghost use Rattle.c_given.specs.Calls.{IsPlaced, Opens as OpensAt, OpensSender, OpensReceiver};

use c_given::{Rows, Site, open_at, open_receiver, open_sender};
use c_queue::{Handle, open};
use given_heap::Given;
use std::alloc::Global;

/// Makes a queue over a ring of that many words, for messages of at most `max` bytes, in two blank handles. It takes
/// memory for the ring and twice for the greatest message.
#[unsafe(no_mangle)]
pub extern "C" fn lk_raw_queue_new(
    alloc: Global,
    words: u64,
    max: u32,
    tx: &mut Handle,
    rx: &mut Handle,
) -> i32
    ensures { (code : TheCode) × (result ≡ number_of code) × Opens words max tx.old.value rx.old.value tx.new.value rx.new.value code }
{
    open(alloc, words, max, tx, rx).number()
}

/// Tries to send a message; `now` is whether the receiver is shown it at once. The costs are those of
/// `c_queue::Outbox::try_send`.
#[unsafe(no_mangle)]
pub extern "C" fn lk_raw_queue_send(
    alloc: Global,
    tx: &mut Handle,
    message: &[u8],
    now: bool,
) -> i32
    ensures { (code : TheCode) × (result ≡ number_of code) × Sends tx.old.value tx.new.value message.now now code }
{
    tx.try_send(alloc, message, now).number()
}

/// Tries to send a message whole: nothing of it is sent unless there is room for all of it. `now` is whether the
/// receiver is shown it at once. The costs are those of `c_queue::Outbox::try_send_whole`.
#[unsafe(no_mangle)]
pub extern "C" fn lk_raw_queue_send_whole(
    alloc: Global,
    tx: &mut Handle,
    message: &[u8],
    now: bool,
) -> i32
    ensures { (code : TheCode) × (result ≡ number_of code) × SendsWhole tx.old.value tx.new.value message.now now code }
{
    tx.try_send_whole(alloc, message, now).number()
}

/// Shows the receiver all that was put. One store.
#[unsafe(no_mangle)]
pub extern "C" fn lk_raw_queue_flush(alloc: Global, tx: &mut Handle) -> i32
    ensures { (code : TheCode) × (result ≡ number_of code) × Flushes tx.old.value tx.new.value code }
{
    tx.flush(alloc).number()
}

/// Tries to receive a message into `out`, and writes its length to `len`. The costs are those of
/// `c_queue::Inbox::try_receive`.
#[unsafe(no_mangle)]
pub extern "C" fn lk_raw_queue_receive(
    alloc: Global,
    rx: &mut Handle,
    out: &mut [u8],
    len: &mut usize,
) -> i32
    ensures { (code : TheCode) × (result ≡ number_of code) × Receives rx.old.value rx.new.value out.old out.new code len.new }
{
    let (code, n) = rx.try_receive(alloc, out);
    *len = n;
    code.number()
}

/// Leaves the queue: the other side is told. Two stores at most.
#[unsafe(no_mangle)]
pub extern "C" fn lk_raw_queue_leave(alloc: Global, handle: &mut Handle) -> i32
    ensures { (code : TheCode) × (result ≡ number_of code) × Leaves handle.old.value handle.new.value code }
{
    handle.leave(alloc).number()
}

/// Gives back the memory of a side that has left; the handle is blank then. The ring's memory goes with the second
/// side.
#[unsafe(no_mangle)]
pub extern "C" fn lk_raw_queue_close(alloc: Global, handle: &mut Handle) -> i32
    ensures { (code : TheCode) × (result ≡ number_of code) × Closes handle.old.value handle.new.value code }
{
    handle.close(alloc).number()
}

/// Makes a queue in memory of C's, for good. The head has to have 1,024 bytes, and each of the two rows 8 bytes for each
/// of `ring_words + 4` words; all three have to be aligned to 16.
#[unsafe(no_mangle)]
pub extern "C" fn lk_raw_queue_given(
    alloc: Global,
    head: Given,
    words_at: Given,
    slots_at: Given,
    words: u64,
    max: u32,
    site: &mut Site,
    rows: &mut Rows,
) -> i32
    ensures { (code : TheCode) × (result ≡ number_of code) × OpensAt head.size words max site.old.queue rows.old.table site.new.queue rows.new.table code }
{
    open_at(alloc, head, words_at, slots_at, words, max, site, rows).number()
}

/// The side that receives, into a blank handle, if nobody has taken it. One compare-exchange, and memory of the process's
/// own for the greatest message.
#[unsafe(no_mangle)]
pub extern "C" fn lk_raw_queue_receiver(
    alloc: Global,
    site: Site,
    rows: Rows,
    rx: &mut Handle,
) -> i32
    requires { IsPlaced site.queue rows.table }
    ensures { (code : TheCode) × (result ≡ number_of code) × OpensReceiver site.queue rx.old.value rx.new.value code }
{
    open_receiver(alloc, site, rows, rx).number()
}

/// The side that sends, into a blank handle, once a receiver has come and if nobody has taken it. One compare-exchange,
/// and memory of the process's own for the greatest message.
#[unsafe(no_mangle)]
pub extern "C" fn lk_raw_queue_sender(alloc: Global, site: Site, rows: Rows, tx: &mut Handle) -> i32
    requires { IsPlaced site.queue rows.table }
    ensures { (code : TheCode) × (result ≡ number_of code) × OpensSender site.queue tx.old.value tx.new.value code }
{
    open_sender(alloc, site, rows, tx).number()
}
