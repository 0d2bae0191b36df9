//! The calls of a queue in memory that a program in C brings.
//!
//! The program gives 8,192 bytes of memory once (`lk_raw_queue_new_at`), and from then on each process that has that
//! memory, at whatever address, calls with its own address of it, a `Site`. Nothing that lies there names an address. A
//! handle is 16 bytes of the process's own memory, all zero before its first call. Each call tries once, and answers a
//! code (`c_placed`'s `Code`, by its number).
//!
//! A contract speaks of what an end knows: a beginning of the one history of its queue, to which a send adds its
//! message and along which the receiver goes. Of the program each call asks what it can't test: that the site is one
//! at which a queue was made, and that a handle's end is one of that queue.

#![tactic(auto)]

ghost use Rattle.std.specs.Prelude.{◌≡◌, IsSome};
ghost use Rattle.c_placed.specs.Numbers.{number_of};
ghost use Rattle.c_placed.specs.Calls.{IsAt, Opens, OpensSender, OpensReceiver, Sends, Finishes, Receives, Closes};
ghost use Rattle.c_placed.specs.declared.code.Code.{Code as TheCode};

use c_placed::{Given, Handle, Site, open_at, open_receiver, open_sender};
use std::alloc::Global;

/// Makes a queue at the front of the memory, which has to have 8,192 bytes and to be aligned to 16. The memory is the
/// queue's for good. It costs the writing of some 4,600 bytes.
#[unsafe(no_mangle)]
pub extern "C" fn lk_raw_queue_new_at(memory: Given, site: &mut Site) -> i32
    ensures { (code : TheCode) × (result ≡ number_of code) × Opens memory.size site.old.queue site.new.queue code }
{
    open_at(memory, site).number()
}

/// An end that sends to the queue, into a blank handle. A queue may have several.
#[unsafe(no_mangle)]
pub extern "C" fn lk_raw_queue_sender_at(alloc: Global, site: Site, tx: &mut Handle) -> i32
    requires { IsSome site.queue }
    ensures { (code : TheCode) × (result ≡ number_of code) × OpensSender site.queue tx.old.value tx.new.value code }
{
    open_sender(alloc, site, tx).number()
}

/// The end that receives, into a blank handle, if nobody has it. One compare-exchange.
#[unsafe(no_mangle)]
pub extern "C" fn lk_raw_queue_receiver_at(alloc: Global, site: Site, rx: &mut Handle) -> i32
    requires { IsSome site.queue }
    ensures { (code : TheCode) × (result ≡ number_of code) × OpensReceiver site.queue rx.old.value rx.new.value code }
{
    open_receiver(alloc, site, rx).number()
}

/// Tries to send a message of at most 240 bytes. The costs are those of `placed_queue::Sender::send`.
#[unsafe(no_mangle)]
pub extern "C" fn lk_raw_queue_send_at(
    alloc: Global,
    site: Site,
    tx: &mut Handle,
    message: &[u8],
) -> i32
    requires { IsAt site.queue tx.old.value }
    ensures { (code : TheCode) × (result ≡ number_of code) × Sends tx.old.value tx.new.value message.now code }
{
    tx.send(alloc, site, message).number()
}

/// Tries to receive a message into `out`, which has to have 240 bytes, and writes its length to `len`. The costs are
/// those of `placed_queue::Receiver::receive`.
#[unsafe(no_mangle)]
pub extern "C" fn lk_raw_queue_receive_at(
    alloc: Global,
    site: Site,
    rx: &mut Handle,
    out: &mut [u8],
    len: &mut usize,
) -> i32
    requires { IsAt site.queue rx.old.value }
    ensures { (code : TheCode) × (result ≡ number_of code) × Receives rx.old.value rx.new.value out.old out.new code len.new }
{
    let (code, n) = rx.receive(alloc, site, out);
    *len = n;
    code.number()
}

/// The sender leaves: the receiver gets what was sent, and then learns it. It needs room as a message does.
#[unsafe(no_mangle)]
pub extern "C" fn lk_raw_queue_finish_at(alloc: Global, site: Site, tx: &mut Handle) -> i32
    requires { IsAt site.queue tx.old.value }
    ensures { (code : TheCode) × (result ≡ number_of code) × Finishes tx.old.value tx.new.value code }
{
    tx.finish(alloc, site).number()
}

/// Lets the handle's end go, and the handle is blank. The receiving end goes back into the queue, for whoever takes it
/// next.
#[unsafe(no_mangle)]
pub extern "C" fn lk_raw_queue_close_at(alloc: Global, site: Site, handle: &mut Handle) -> i32
    requires { IsAt site.queue handle.old.value }
    ensures { (code : TheCode) × (result ≡ number_of code) × Closes handle.old.value handle.new.value code }
{
    handle.close(alloc, site).number()
}
