//! What the two threads do: one puts and sends, the other receives and gets; then the queue comes home.

ghost use Rattle.std.specs.Prelude.{◌≡◌, ◌≤◌, [], false};
ghost use Rattle.mq_handle.specs.Messages.{left_of};
ghost use Rattle.uses_start.specs.Sharing.{AreOf, AreShared};

use crate::shared::{Passes, Shared};
use dshash_numbers::NumberCall;
use mq_handle::{ReceiveDone, Receiver, SendDone, Sender, home};
use region_words::Chunk;
use std::sync::Wait;
use std::thread::{Threads, join};

/// What the table has under a number: its square, modulo 2^64.
fn square_of(number: u64) -> u64 {
    number.wrapping_mul(number)
}

/// The number that a message is, if it has 8 bytes.
fn number_in(message: &[u8]) -> Option<u64> {
    match *message {
        [a, b, c, d, e, f, g, h] => Some(u64::from_le_bytes([a, b, c, d, e, f, g, h])),
        _ => None,
    }
}

/// Puts the square of each number below `count` under it, and then sends the number. Says how many were sent: fewer
/// than all if the area has no room, or nobody receives.
fn put_and_send<R: Wait>(
    rt: &R,
    shared: &Shared,
    own: &mut Passes,
    s: &mut Sender,
    count: u64,
) -> u64
    requires shared { AreShared shared.now }
    requires own { AreOf shared.now own.old }
    requires here { s.old.region ≡ shared.now.region }
    requires stays { s.old.end.gone ≡ false }
    requires fresh { left_of s.old.end.put ≡ [] }
    ensures own { AreOf shared.now own.new }
    ensures same { (s.new.region ≡ s.old.region) × (s.new.end.ring ≡ s.old.end.ring) }
    ensures few { result ≤ count }
{
    for number in 0..count {
        let put = NumberCall::Put(square_of(number));
        let Ok(_) = shared.table.call(
            rt,
            &shared.region,
            &shared.area,
            &mut own.table,
            &mut own.area,
            &[number],
            &put,
        )
        else {
            return number;
        };
        let SendDone::Sent = s.send(rt, &shared.region, &number.to_le_bytes(), true) else {
            return number;
        };
    }
    count
}

/// Receives up to this many numbers and gets what the table has under each. Says how many had their square there.
fn receive_and_get<R: Wait>(
    rt: &R,
    shared: &Shared,
    own: &mut Passes,
    q: &mut Receiver,
    count: u64,
) -> u64
    requires shared { AreShared shared.now }
    requires own { AreOf shared.now own.old }
    requires here { q.old.region ≡ shared.now.region }
    requires stays { q.old.end.gone ≡ false }
    ensures own { AreOf shared.now own.new }
    ensures same { (q.new.region ≡ q.old.region) × (q.new.end.ring ≡ q.old.end.ring) }
    ensures few { result ≤ count }
{
    let mut found = 0;
    for _ in 0..count {
        let ReceiveDone::Message = q.receive(rt, &shared.region) else {
            return found;
        };
        let Some(number) = number_in(q.message()) else {
            return found;
        };
        let got = shared.table.find(
            rt,
            &shared.region,
            &mut own.table,
            &[number],
            &NumberCall::Get,
        );
        if got == Some(square_of(number)) {
            found += 1;
        }
    }
    found
}

/// The first thread. It goes in any case, since the other one would wait for it otherwise.
fn first<R: Wait>(
    rt: &R,
    shared: &Shared,
    mut own: Passes,
    mut s: Sender,
    count: u64,
) -> (Passes, Sender, u64)
    requires shared { AreShared shared.now }
    requires own { AreOf shared.now own }
    requires here { s.region ≡ shared.now.region }
    requires stays { s.end.gone ≡ false }
    requires fresh { left_of s.end.put ≡ [] }
    ensures own { AreOf shared.now result.0 }
    ensures same { (result.1.region ≡ s.region) × (result.1.end.ring ≡ s.end.ring) }
    ensures few { result.2 ≤ count }
{
    let sent = put_and_send(rt, shared, &mut own, &mut s, count);
    s.detach(&shared.region);
    (own, s, sent)
}

/// The second thread. It goes in any case too.
fn second<R: Wait>(
    rt: &R,
    shared: &Shared,
    mut own: Passes,
    mut q: Receiver,
    count: u64,
) -> (Receiver, u64)
    requires shared { AreShared shared.now }
    requires own { AreOf shared.now own }
    requires here { q.region ≡ shared.now.region }
    requires stays { q.end.gone ≡ false }
    ensures same { (result.0.region ≡ q.region) × (result.0.end.ring ≡ q.end.ring) }
    ensures few { result.1 ≤ count }
{
    let found = receive_and_get(rt, shared, &mut own, &mut q, count);
    q.detach(&shared.region);
    (q, found)
}

/// Both threads. The passes of the first, the queue's chunk, and how many numbers were sent and how many squares found.
pub fn work_together<R: Threads + Wait + Sync>(
    rt: &R,
    shared: &Shared,
    one: Passes,
    other: Passes,
    s: Sender,
    q: Receiver,
    count: u64,
) -> (Passes, Chunk, (u64, u64))
    requires shared { AreShared shared.now }
    requires own { AreOf shared.now one × AreOf shared.now other }
    requires here { (s.region ≡ shared.now.region) × (q.region ≡ shared.now.region) }
    requires one_ring { s.end.ring ≡ q.end.ring }
    requires stays { (s.end.gone ≡ false) × (q.end.gone ≡ false) }
    requires fresh { left_of s.end.put ≡ [] }
    ensures own { AreOf shared.now result.0 }
    ensures here { result.1.part.region ≡ shared.now.region }
    ensures few { (result.2.0 ≤ count) × (result.2.1 ≤ count) }
{
    let ((one, s, sent), (q, found)) = join(
        rt,
        || first(rt, shared, one, s, count),
        || second(rt, shared, other, q, count),
    );
    let chunk = home(s, q, &shared.region).into_chunk(&shared.region);
    (one, chunk, (sent, found))
}
