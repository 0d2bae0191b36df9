//! A queue of `mq_handle`, over which one thread sends messages to another.

ghost use Rattle.std.specs.Prelude.{◌≡◌, ◌*◌, ◌+◌, ◌<◌, ◌≤◌, [], false, length, IfOk};
ghost use Rattle.mq_handle.specs.Messages.{left_of};

use mq_handle::{ReceiveDone, Receiver, SendDone, Sender, attach};
use mq_ring::{Ring, is_ring_size};
use region_words::Region;
use std::alloc::{AllocError, Global};
use std::sync::Wait;
use std::thread::{Threads, join};

/// The words of the queue's ring: 64 KiB.
const RING_WORDS: u64 = 8192;

/// The words of a ring besides its cells: two counts and a flag.
const RING_HEAD: u64 = 3;

/// The bytes of a message's number.
const NUMBER_BYTES: usize = 8;

/// A new region, and in its words after word 0 a queue of messages of up to this many bytes.
fn new_queue(alloc: Global, most: u32) -> Result<(Region, Sender, Receiver), AllocError>
    requires few { most ≤ 1000000 }
    ensures here { IfOk result (λ made. (made.1.region ≡ made.0) × (made.2.region ≡ made.0)) }
    ensures stays { IfOk result (λ made. (made.1.end.gone ≡ false) × (made.2.end.gone ≡ false)) }
    ensures fresh { IfOk result (λ made. left_of made.1.end.put ≡ []) }
{
    if !is_ring_size(RING_WORDS) {
        return Err(AllocError);
    }
    let words = RING_WORDS + RING_HEAD;
    let (r, mut part) = Region::new(alloc, words as usize + 1)?;
    let chunk = part.split_chunk(&r, 1, words);
    let (tx, rx) = Ring::create(&r, chunk, RING_WORDS, 0, most);
    match attach(alloc, tx, rx) {
        Ok((s, q)) => Ok((r, s, q)),
        Err(_) => Err(AllocError),
    }
}

/// Sends this many messages, each with its number in front, and goes. With `flush` each is shown to the receiver at
/// once. Says how many were sent.
fn send_all<R: Wait>(
    rt: &R,
    r: &Region,
    mut s: Sender,
    mut message: Vec<u8>,
    calls: u64,
    flush: bool,
) -> u64
    requires here { s.region ≡ r.now }
    requires stays { s.end.gone ≡ false }
    requires fresh { left_of s.end.put ≡ [] }
    requires long { 8 ≤ length message.items }
    ensures { result ≤ calls }
{
    for number in 0..calls {
        message[..NUMBER_BYTES].copy_from_slice(&number.to_le_bytes());
        let SendDone::Sent = s.send(rt, r, message.as_slice(), flush) else {
            return number;
        };
    }
    s.detach(r);
    calls
}

/// Whether the message begins with its number and has this many bytes.
fn is_numbered(message: &[u8], number: u64, bytes: usize) -> bool {
    message.len() == bytes && message.starts_with(&number.to_le_bytes())
}

/// Receives this many messages. Says how many came with their number and length.
fn receive_all<R: Wait>(rt: &R, r: &Region, mut q: Receiver, bytes: usize, calls: u64) -> u64
    requires here { q.region ≡ r.now }
    requires stays { q.end.gone ≡ false }
    ensures { result ≤ calls }
{
    let mut came = 0;
    for number in 0..calls {
        if q.receive(rt, r) == ReceiveDone::Message && is_numbered(q.message(), number, bytes) {
            came += 1;
        }
    }
    came
}

/// The two ends, each in its own thread. Says how many messages came.
fn stream<R: Threads + Wait + Sync>(
    rt: &R,
    r: &Region,
    s: Sender,
    q: Receiver,
    message: Vec<u8>,
    calls: u64,
    flush: bool,
) -> u64
    requires here { (s.region ≡ r.now) × (q.region ≡ r.now) }
    requires stays { (s.end.gone ≡ false) × (q.end.gone ≡ false) }
    requires fresh { left_of s.end.put ≡ [] }
    requires long { 8 ≤ length message.items }
    ensures { result ≤ calls }
{
    let bytes = message.len();
    let (_sent, came) = join(
        rt,
        || -> u64
            requires { (s.region ≡ r.now) × (s.end.gone ≡ false) × (left_of s.end.put ≡ []) × (8 ≤ length message.items) }
        { send_all(rt, r, s, message, calls, flush) },
        || -> u64
            requires { (q.region ≡ r.now) × (q.end.gone ≡ false) }
            ensures { result ≤ calls }
        { receive_all(rt, r, q, bytes, calls) },
    );
    came
}

/// Has one thread send this many messages of this many bytes to another, each shown at once with `flush`. Says how many
/// came as they were sent.
pub fn queue_load<R: Threads + Wait + Sync>(
    rt: &R,
    alloc: Global,
    calls: u64,
    bytes: u64,
    flush: bool,
) -> Result<u64, AllocError>
    requires some { 8 ≤ bytes }
    requires few { bytes ≤ 1000000 }
    ensures { IfOk result (λ n. n ≤ calls) }
{
    let (r, s, q) = new_queue(alloc, bytes as u32)?;
    let message = vec![in alloc; 0u8; bytes as usize]?;
    Ok(stream(rt, &r, s, q, message, calls, flush))
}
