//! Sends and receives in a row, and a stream between two threads.

ghost use Rattle.std.specs.Prelude.{◌≡◌, ◌<◌, ◌≤◌, ◌*◌, ◌+◌, ◌^◌, ◌++◌, [], false, true, length, IfSome, IsTrue};
ghost use Rattle.mq_handle.specs.Messages.{left_of};
ghost use Rattle.mq_handle.specs.Parts.{joined};
ghost use Rattle.mq_handle.specs.Sends.{Continues};
ghost use Rattle.mq_handle.specs.Waiting.{EndsSend};

use mq_handle::{
    ReceiveAnswer, ReceiveDone, Receiver, SendAnswer, SendDone, Sender, attach, home, meet,
};
use mq_ring::{Ring, is_ring_size};
use region_words::{Chunk, Region};
use std::alloc::Global;
use std::sync::Wait;
use std::thread::{Threads, join};

/// A new region, and in its words after word 0 a queue.
fn new_queue(alloc: Global, words: u64, from: u64, max: u32) -> Option<(Region, Sender, Receiver)>
    requires max { max ≤ 1048576 }
    ensures here { IfSome result (λ made. (made.1.region ≡ made.0) × (made.2.region ≡ made.0)) }
    ensures stays { IfSome result (λ made. (made.1.end.gone ≡ false) × (made.2.end.gone ≡ false)) }
    ensures fresh { IfSome result (λ made. left_of made.1.end.put ≡ []) }
    ensures one_ring { IfSome result (λ made. made.1.end.ring ≡ made.2.end.ring) }
    ensures room { IfSome result (λ made. (made.1.bytes ≡ 8 * (words + 3)) × (made.1.end.ring.max ≡ max)) }
{
    if !is_ring_size(words) {
        return None;
    }
    let Ok((r, part)) = Region::new(alloc, words as usize + 4) else {
        return None;
    };
    let mut part = part;
    let chunk = part.split_chunk(&r, 1, words + 3);
    let (tx, rx) = Ring::create(&r, chunk, words, from, max);
    match attach(alloc, tx, rx) {
        Ok((s, q)) => Some((r, s, q)),
        Err(_) => None,
    }
}

/// Tries to send a message, whose first words may be on the ring. Says whether it was sent.
fn sends(r: &Region, s: &mut Sender, message: &[u8], flush: bool) -> bool
    requires here { s.old.region ≡ r.now }
    requires stays { s.old.end.gone ≡ false }
    requires continues { Continues s.old.end.put message.now }
    ensures kept { s.new ≡ record s.old { end = s.new.end } }
    ensures ring { (s.new.end.ring ≡ s.old.end.ring) × (s.new.end.gone ≡ false) }
    ensures fresh { result ≡ true → left_of s.new.end.put ≡ [] }
{
    match s.try_send(r, message, flush) {
        SendAnswer::Sent => true,
        _ => false,
    }
}

/// Tries to send a message that the ring has no room for. Says whether this many of its words are on the ring.
fn stores(r: &Region, s: &mut Sender, message: &[u8], words: u64) -> bool
    requires here { s.old.region ≡ r.now }
    requires stays { s.old.end.gone ≡ false }
    requires continues { Continues s.old.end.put message.now }
    ensures kept { s.new ≡ record s.old { end = s.new.end } }
    ensures stays { s.new.end.gone ≡ false }
    ensures continues { result ≡ true → Continues s.new.end.put message.now }
{
    match s.try_send(r, message, true) {
        SendAnswer::WouldBlock { stored } => stored == words,
        _ => false,
    }
}

/// Tries to send a message that is longer than the queue takes. Says whether the answer has this length.
fn is_too_long(r: &Region, s: &mut Sender, message: &[u8], bytes: u64) -> bool
    requires here { s.old.region ≡ r.now }
    requires stays { s.old.end.gone ≡ false }
    requires fresh { left_of s.old.end.put ≡ [] }
    ensures kept { s.new ≡ record s.old { end = s.new.end } }
    ensures stays { s.new.end.gone ≡ false }
    ensures fresh { result ≡ true → left_of s.new.end.put ≡ [] }
{
    match s.try_send(r, message, true) {
        SendAnswer::TooLong { length } => length == bytes,
        _ => false,
    }
}

/// Tries to put a message whole. Says whether this is the answer. No part of it is ever on the ring.
fn answers_whole(
    r: &Region,
    s: &mut Sender,
    message: &[u8],
    flush: bool,
    answer: SendAnswer,
) -> bool
    requires here { s.old.region ≡ r.now }
    requires stays { s.old.end.gone ≡ false }
    requires fresh { left_of s.old.end.put ≡ [] }
    ensures kept { s.new ≡ record s.old { end = s.new.end } }
    ensures stays { s.new.end.gone ≡ false }
    ensures fresh { left_of s.new.end.put ≡ [] }
{
    s.try_send_whole(r, message, flush) == answer
}

/// The same with a message in two parts.
fn answers_two_parts(r: &Region, s: &mut Sender, parts: &[&[u8]; 2], answer: SendAnswer) -> bool
    requires here { s.old.region ≡ r.now }
    requires stays { s.old.end.gone ≡ false }
    requires fresh { left_of s.old.end.put ≡ [] }
    requires few { length (joined parts.now) < 2 ^ 64 }
    ensures kept { s.new ≡ record s.old { end = s.new.end } }
    ensures stays { s.new.end.gone ≡ false }
    ensures fresh { left_of s.new.end.put ≡ [] }
{
    s.try_send_parts_whole(r, parts, true) == answer
}

/// Tries to send a message in parts. Says whether it was sent.
fn sends_parts(r: &Region, s: &mut Sender, parts: &[&[u8]]) -> bool
    requires here { s.old.region ≡ r.now }
    requires stays { s.old.end.gone ≡ false }
    requires fresh { left_of s.old.end.put ≡ [] }
    requires few { length (joined parts.now) < 2 ^ 64 }
    ensures kept { s.new ≡ record s.old { end = s.new.end } }
    ensures stays { s.new.end.gone ≡ false }
    ensures fresh { result ≡ true → left_of s.new.end.put ≡ [] }
{
    match s.try_send_parts(r, parts, true) {
        SendAnswer::Sent => true,
        _ => false,
    }
}

/// Tries to receive. Says whether this is the answer.
fn finds(r: &Region, q: &mut Receiver, answer: ReceiveAnswer) -> bool
    requires here { q.old.region ≡ r.now }
    requires stays { q.old.end.gone ≡ false }
    ensures here { q.new.region ≡ r.now }
    ensures ring { (q.new.end.ring ≡ q.old.end.ring) × (q.new.end.gone ≡ false) }
{
    q.try_receive(r) == answer
}

/// Tries to receive. Says whether this message came.
fn receives(r: &Region, q: &mut Receiver, message: &[u8]) -> bool
    requires here { q.old.region ≡ r.now }
    requires stays { q.old.end.gone ≡ false }
    ensures here { q.new.region ≡ r.now }
    ensures ring { (q.new.end.ring ≡ q.old.end.ring) × (q.new.end.gone ≡ false) }
{
    finds(r, q, ReceiveAnswer::Message) && q.message() == message
}

/// The sender goes. Says whether its last message is still there, and nothing after it.
fn is_last(r: &Region, s: &mut Sender, q: &mut Receiver, message: &[u8]) -> bool
    requires here { (s.old.region ≡ r.now) × (q.old.region ≡ r.now) }
    requires stays { q.old.end.gone ≡ false }
{
    s.detach(r);
    receives(r, q, message) && finds(r, q, ReceiveAnswer::Detached)
}

/// A message of ten bytes goes through; of the next one word is stored; then it follows, the sender goes, and its
/// message is still there.
fn part_of_a_message(r: &Region, s: &mut Sender, q: &mut Receiver) -> bool
    requires here { (s.old.region ≡ r.now) × (q.old.region ≡ r.now) }
    requires stays { (s.old.end.gone ≡ false) × (q.old.end.gone ≡ false) }
    requires fresh { left_of s.old.end.put ≡ [] }
{
    sends(r, s, b"abcdefgh12", true)
        && stores(r, s, b"xyz", 1)
        && receives(r, q, b"abcdefgh12")
        && sends(r, s, b"xyz", true)
        && is_last(r, s, q, b"xyz")
}

/// A message that is longer than the ring and crosses the wrap of the counts.
fn longer_than_the_ring(r: &Region, s: &mut Sender, q: &mut Receiver) -> bool
    requires here { (s.old.region ≡ r.now) × (q.old.region ≡ r.now) }
    requires stays { (s.old.end.gone ≡ false) × (q.old.end.gone ≡ false) }
    requires fresh { left_of s.old.end.put ≡ [] }
{
    let long = b"0123456789012345678901234567890123456789";
    let too_long = b"01234567890123456789012345678901234567890";
    stores(r, s, long, 4)
        && finds(r, q, ReceiveAnswer::WouldBlock)
        && sends(r, s, long, true)
        && receives(r, q, long)
        && is_too_long(r, s, too_long, 41)
        && sends(r, s, b"", true)
        && receives(r, q, b"")
}

/// A ring of four words: a message that has no room is left out, and goes when the receiver has made room; one whose
/// frame is longer than the ring never does.
fn whole_or_not(r: &Region, s: &mut Sender, q: &mut Receiver) -> bool
    requires here { (s.old.region ≡ r.now) × (q.old.region ≡ r.now) }
    requires stays { (s.old.end.gone ≡ false) × (q.old.end.gone ≡ false) }
    requires fresh { left_of s.old.end.put ≡ [] }
{
    let five_words = b"0123456789012345678901234";
    answers_whole(r, s, b"abcdefgh12", false, SendAnswer::Sent)
        && answers_whole(r, s, b"xyz", true, SendAnswer::WouldBlock { stored: 0 })
        && answers_whole(r, s, five_words, true, SendAnswer::TooLong { length: 25 })
        && receives(r, q, b"abcdefgh12")
        && answers_whole(r, s, b"xyz", true, SendAnswer::Sent)
        && receives(r, q, b"xyz")
        && nobody_receives(r, s, q)
}

/// A message in three parts, of which one is empty, comes as one; it is put whole or not at all, too.
fn in_parts(r: &Region, s: &mut Sender, q: &mut Receiver) -> bool
    requires here { (s.old.region ≡ r.now) × (q.old.region ≡ r.now) }
    requires stays { (s.old.end.gone ≡ false) × (q.old.end.gone ≡ false) }
    requires fresh { left_of s.old.end.put ≡ [] }
{
    let three = [b"abc".as_slice(), b"".as_slice(), b"defgh12".as_slice()];
    let two = [b"x".as_slice(), b"yz".as_slice()];
    sends_parts(r, s, &three)
        && answers_two_parts(r, s, &two, SendAnswer::WouldBlock { stored: 0 })
        && receives(r, q, b"abcdefgh12")
        && answers_two_parts(r, s, &two, SendAnswer::Sent)
        && receives(r, q, b"xyz")
}

/// The receiver goes: a message that is put whole finds it gone, and one that is not.
fn nobody_receives(r: &Region, s: &mut Sender, q: &mut Receiver) -> bool
    requires here { (s.old.region ≡ r.now) × (q.old.region ≡ r.now) }
    requires stays { (s.old.end.gone ≡ false) × (q.old.end.gone ≡ false) }
    requires fresh { left_of s.old.end.put ≡ [] }
{
    if !finds(r, q, ReceiveAnswer::WouldBlock) {
        return false;
    }
    q.detach(r);
    answers_whole(r, s, b"xyz", true, SendAnswer::Detached)
        && s.try_send(r, b"a", true) == SendAnswer::Detached
}

/// Without flush, the receiver sees nothing until more than a quarter of the ring is unpublished.
fn by_quarters(r: &Region, s: &mut Sender, q: &mut Receiver) -> bool
    requires here { (s.old.region ≡ r.now) × (q.old.region ≡ r.now) }
    requires stays { (s.old.end.gone ≡ false) × (q.old.end.gone ≡ false) }
    requires fresh { left_of s.old.end.put ≡ [] }
{
    sends(r, s, b"ab", false)
        && finds(r, q, ReceiveAnswer::WouldBlock)
        && sends(r, s, b"ab", false)
        && finds(r, q, ReceiveAnswer::WouldBlock)
        && sends(r, s, b"ab", false)
        && receives(r, q, b"ab")
}

/// Sends a message without flush, and then flushes. Says whether it is there after a meeting.
fn is_there(r: &Region, s: &mut Sender, q: &mut Receiver, message: &[u8]) -> bool
    requires here { (s.old.region ≡ r.now) × (q.old.region ≡ r.now) }
    requires one_ring { s.old.end.ring ≡ q.old.end.ring }
    requires stays { (s.old.end.gone ≡ false) × (q.old.end.gone ≡ false) }
    requires fresh { left_of s.old.end.put ≡ [] }
    ensures sender { (s.new.region ≡ r.now) × (s.new.bytes ≡ s.old.bytes) × (s.new.end.ring ≡ s.old.end.ring) × (s.new.end.gone ≡ false) }
    ensures receiver { (q.new.region ≡ r.now) × (q.new.end.ring ≡ q.old.end.ring) × (q.new.end.gone ≡ false) }
    ensures fresh { result ≡ true → left_of s.new.end.put ≡ [] }
{
    if !sends(r, s, message, false) {
        return false;
    }
    s.flush(r);
    meet(s, q, r);
    receives(r, q, message)
}

/// After a meeting with a receiver that is gone, a send finds it gone.
fn finds_it_gone(r: &Region, s: &mut Sender, q: &mut Receiver, message: &[u8]) -> bool
    requires here { (s.old.region ≡ r.now) × (q.old.region ≡ r.now) }
    requires one_ring { s.old.end.ring ≡ q.old.end.ring }
    requires stays { (s.old.end.gone ≡ false) × (q.old.end.gone ≡ true) }
    requires continues { Continues s.old.end.put message.now }
    requires short { length message.now ≤ s.old.end.ring.max }
    ensures gone { IsTrue result }
    ensures kept { (s.new.region ≡ s.old.region) × (s.new.bytes ≡ s.old.bytes) × (s.new.end.ring ≡ s.old.end.ring) }
    ensures receiver { (q.new.region ≡ q.old.region) × (q.new.end ≡ q.old.end) }
{
    meet(s, q, r);
    s.try_send(r, message, true) == SendAnswer::Detached
}

/// What was flushed is there after a meeting. Then both go, and a second queue is made of the same words.
fn there_and_home(alloc: Global, r: &Region, mut s: Sender, mut q: Receiver) -> bool
    requires here { (s.region ≡ r.now) × (q.region ≡ r.now) }
    requires one_ring { s.end.ring ≡ q.end.ring }
    requires stays { (s.end.gone ≡ false) × (q.end.gone ≡ false) }
    requires fresh { left_of s.end.put ≡ [] }
    requires room { 56 ≤ s.bytes }
    requires small { 2 ≤ s.end.ring.max }
{
    if !is_ring_size(4) || !is_there(r, &mut s, &mut q, b"ab") {
        return false;
    }
    q.detach(r);
    let is_gone = finds_it_gone(r, &mut s, &mut q, b"c");
    s.detach(r);
    let chunk = home(s, q, r).into_chunk(r);
    let (tx, rx) = Ring::create(r, chunk, 4, 0, 8);
    is_gone && attach(alloc, tx, rx).is_ok()
}

/// The bytes of the message with this number, which has 0 to 600 of them.
fn write_message(out: &mut [u8; 600], number: u64) -> usize
    requires { number ≤ 2 ^ 32 }
    ensures { result ≤ 600 }
{
    let len = (number % 601) as usize;
    for i in 0..len {
        out[i] = ((number + i as u64) % 251) as u8;
    }
    len
}

/// Sends the messages in order. Answers whether all were sent.
fn send_all<R: Wait>(rt: &R, r: &Region, mut s: Sender, count: u64) -> bool
    requires here { s.region ≡ r.now }
    requires stays { s.end.gone ≡ false }
    requires fresh { left_of s.end.put ≡ [] }
    requires few { count ≤ 2 ^ 32 }
{
    let mut bytes = [0u8; 600];
    for number in 0..count {
        let len = write_message(&mut bytes, number);
        let SendDone::Sent = s.send(rt, r, &bytes[..len], number % 3 == 0) else {
            return false;
        };
    }
    s.detach(r);
    true
}

/// Sends a head and a body as one message.
fn send_both<R: Wait>(rt: &R, r: &Region, s: &mut Sender, head: &[u8], body: &[u8]) -> SendDone
    requires here { s.old.region ≡ r.now }
    requires stays { s.old.end.gone ≡ false }
    requires few { length head.now + length body.now < 2 ^ 64 }
    requires continues { Continues s.old.end.put (head.now ++ body.now) }
    ensures kept { s.new ≡ record s.old { end = s.new.end } }
    ensures sent { EndsSend s.old.end s.new.end (head.now ++ body.now) true result }
{
    s.send_parts(rt, r, &[head, body], true)
}

/// Sends the messages in order, each in three parts. Answers whether all were sent.
fn send_all_in_parts<R: Wait>(rt: &R, r: &Region, mut s: Sender, count: u64) -> bool
    requires here { s.region ≡ r.now }
    requires stays { s.end.gone ≡ false }
    requires fresh { left_of s.end.put ≡ [] }
    requires few { count ≤ 2 ^ 32 }
{
    let mut bytes = [0u8; 600];
    for number in 0..count {
        let len = write_message(&mut bytes, number);
        let (head, rest) = bytes[..len].split_at(len / 3);
        let (mid, tail) = rest.split_at(len / 5);
        let SendDone::Sent = s.send_parts(rt, r, &[head, mid, tail], number % 3 == 0) else {
            return false;
        };
    }
    s.detach(r);
    true
}

/// Receives the messages, and then that the sender is gone. Answers whether all were whole and in order.
fn receive_all<R: Wait>(rt: &R, r: &Region, mut q: Receiver, count: u64) -> bool
    requires here { q.region ≡ r.now }
    requires stays { q.end.gone ≡ false }
    requires few { count ≤ 2 ^ 32 }
{
    let mut bytes = [0u8; 600];
    for number in 0..count {
        let len = write_message(&mut bytes, number);
        let ReceiveDone::Message = q.receive(rt, r) else {
            return false;
        };
        if q.message() != &bytes[..len] {
            return false;
        }
    }
    q.receive(rt, r) == ReceiveDone::Detached
}

/// One thread sends, one receives.
fn stream<R: Threads + Wait + Sync>(rt: &R, r: &Region, s: Sender, q: Receiver, count: u64) -> bool
    requires here { (s.region ≡ r.now) × (q.region ≡ r.now) }
    requires stays { (s.end.gone ≡ false) × (q.end.gone ≡ false) }
    requires fresh { left_of s.end.put ≡ [] }
    requires few { count ≤ 2 ^ 32 }
{
    let (sent, received) = join(
        rt,
        || -> bool
            requires { (s.region ≡ r.now) × (s.end.gone ≡ false) × (left_of s.end.put ≡ []) × (count ≤ 2 ^ 32) }
        { send_all(rt, r, s, count) },
        || -> bool
            requires { (q.region ≡ r.now) × (q.end.gone ≡ false) × (count ≤ 2 ^ 32) }
        { receive_all(rt, r, q, count) },
    );
    sent && received
}

/// One thread sends in parts, one receives.
fn stream_in_parts<R: Threads + Wait + Sync>(
    rt: &R,
    r: &Region,
    s: Sender,
    q: Receiver,
    count: u64,
) -> bool
    requires here { (s.region ≡ r.now) × (q.region ≡ r.now) }
    requires stays { (s.end.gone ≡ false) × (q.end.gone ≡ false) }
    requires fresh { left_of s.end.put ≡ [] }
    requires few { count ≤ 2 ^ 32 }
{
    let (sent, received) = join(
        rt,
        || -> bool
            requires { (s.region ≡ r.now) × (s.end.gone ≡ false) × (left_of s.end.put ≡ []) × (count ≤ 2 ^ 32) }
        { send_all_in_parts(rt, r, s, count) },
        || -> bool
            requires { (q.region ≡ r.now) × (q.end.gone ≡ false) × (count ≤ 2 ^ 32) }
        { receive_all(rt, r, q, count) },
    );
    sent && received
}

/// Sends one message and goes.
fn talk<R: Wait>(rt: &R, r: &Region, mut s: Sender) -> Sender
    requires here { s.region ≡ r.now }
    requires stays { s.end.gone ≡ false }
    requires fresh { left_of s.end.put ≡ [] }
    ensures { (result.region ≡ s.region) × (result.end.ring ≡ s.end.ring) }
{
    s.send(rt, r, b"hello", true);
    s.detach(r);
    s
}

/// Receives one message and goes. Answers whether it was that of `talk`.
fn listen<R: Wait>(rt: &R, r: &Region, mut q: Receiver) -> (Receiver, bool)
    requires here { q.region ≡ r.now }
    requires stays { q.end.gone ≡ false }
    ensures { (result.0.region ≡ q.region) × (result.0.end.ring ≡ q.end.ring) }
{
    let heard = q.receive(rt, r) == ReceiveDone::Message && q.message() == b"hello".as_slice();
    q.detach(r);
    (q, heard)
}

/// The two ends of a queue, each in its own thread; then they come home, and give their chunk back.
fn conversation<R: Threads + Wait + Sync>(
    rt: &R,
    r: &Region,
    s: Sender,
    q: Receiver,
) -> (bool, Chunk)
    requires here { (s.region ≡ r.now) × (q.region ≡ r.now) }
    requires one_ring { s.end.ring ≡ q.end.ring }
    requires stays { (s.end.gone ≡ false) × (q.end.gone ≡ false) }
    requires fresh { left_of s.end.put ≡ [] }
    ensures { result.1.part.region ≡ r.now }
{
    let (s, (q, heard)) = join(
        rt,
        || -> Sender
            requires { (s.region ≡ r.now) × (s.end.gone ≡ false) × (left_of s.end.put ≡ []) }
            ensures { (result.region ≡ s.region) × (result.end.ring ≡ s.end.ring) }
        { talk(rt, r, s) },
        || -> (Receiver, bool)
            requires { (q.region ≡ r.now) × (q.end.gone ≡ false) }
            ensures { (result.0.region ≡ q.region) × (result.0.end.ring ≡ q.end.ring) }
        { listen(rt, r, q) },
    );
    let done = home(s, q, r);
    done.is_sound();
    (heard, done.into_chunk(r))
}

/// After Detached, a try never answers that it would block.
fn detached_stays(r: &Region, q: &mut Receiver) -> bool
    requires here { q.old.region ≡ r.now }
    requires stays { q.old.end.gone ≡ false }
    ensures { IsTrue result }
{
    if q.try_receive(r) != ReceiveAnswer::Detached {
        return true;
    }
    q.try_receive(r) != ReceiveAnswer::WouldBlock
}

/// After a send that answered Detached, another try with the same message answers Detached too.
fn nobody_receives_again<R: Wait>(rt: &R, r: &Region, s: &mut Sender, message: &[u8]) -> bool
    requires here { s.old.region ≡ r.now }
    requires stays { s.old.end.gone ≡ false }
    requires continues { Continues s.old.end.put message.now }
    ensures { IsTrue result }
{
    if s.send(rt, r, message, true) != SendDone::Detached {
        return true;
    }
    s.try_send(r, message, true) == SendAnswer::Detached
}

#[test]
fn one_message_goes_through(rt: HostRuntime) {
    let (r, s, q) = new_queue(rt.alloc(), 64, 0, 100).expect(&rt, "memory");
    let (heard, _) = conversation(&rt, &r, s, q);
    assert!(rt; heard);
}

#[test]
fn a_part_of_a_message_is_stored(rt: HostRuntime) {
    let (r, mut s, mut q) = new_queue(rt.alloc(), 4, 0, 64).expect(&rt, "memory");
    assert!(rt; part_of_a_message(&r, &mut s, &mut q));
}

#[test]
fn a_message_is_longer_than_the_ring(rt: HostRuntime) {
    let (r, mut s, mut q) = new_queue(rt.alloc(), 4, 18446744073709551614, 40).expect(
        &rt, "memory",
    );
    assert!(rt; longer_than_the_ring(&r, &mut s, &mut q));
}

#[test]
fn a_message_is_put_whole_or_not_at_all(rt: HostRuntime) {
    let (r, mut s, mut q) = new_queue(rt.alloc(), 4, 0, 64).expect(&rt, "memory");
    assert!(rt; whole_or_not(&r, &mut s, &mut q));
}

#[test]
fn a_message_is_sent_in_parts(rt: HostRuntime) {
    let (r, mut s, mut q) = new_queue(rt.alloc(), 4, 0, 64).expect(&rt, "memory");
    assert!(rt; in_parts(&r, &mut s, &mut q));
}

#[test]
fn a_head_and_a_body_are_one_message(rt: HostRuntime) {
    let (r, mut s, mut q) = new_queue(rt.alloc(), 8, 0, 64).expect(&rt, "memory");
    assert!(rt; send_both(&rt, &r, &mut s, b"head", b" and body") == SendDone::Sent);
    assert!(rt; q.try_receive(&r) == ReceiveAnswer::Message);
    assert!(rt; q.message() == b"head and body".as_slice());
}

#[test]
fn the_receiver_goes_first(rt: HostRuntime) {
    let (r, mut s, mut q) = new_queue(rt.alloc(), 4, 0, 64).expect(&rt, "memory");
    assert!(rt; nobody_receives(&r, &mut s, &mut q));
}

#[test]
fn the_ends_meet_and_come_home(rt: HostRuntime) {
    let (r, s, q) = new_queue(rt.alloc(), 4, 0, 64).expect(&rt, "memory");
    assert!(rt; there_and_home(rt.alloc(), &r, s, q));
}

#[test]
fn counts_are_published_by_quarters(rt: HostRuntime) {
    let (r, mut s, mut q) = new_queue(rt.alloc(), 16, 0, 64).expect(&rt, "memory");
    assert!(rt; by_quarters(&r, &mut s, &mut q));
}

#[test]
fn a_stream_is_whole_and_in_order(rt: HostRuntime) {
    let (r, s, q) = new_queue(rt.alloc(), 64, 0, 600).expect(&rt, "memory");
    assert!(rt; stream(&rt, &r, s, q, 20000));
}

#[test]
fn a_stream_in_parts_is_whole_and_in_order(rt: HostRuntime) {
    let (r, s, q) = new_queue(rt.alloc(), 64, 0, 600).expect(&rt, "memory");
    assert!(rt; stream_in_parts(&rt, &r, s, q, 10000));
}
