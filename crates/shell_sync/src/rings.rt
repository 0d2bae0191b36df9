//! The commands over rings: `ring`, `send`, `post`, `recv` and `detach`.
//!
//! The shell holds both ends of each ring. They meet before and after each try, so that an end finds all that the other
//! has published or set by then. If a part of a frame is stored, its text is kept, since only that text may be sent
//! next.

ghost use Rattle.std.specs.Prelude.{◌≡◌, ◌≢◌, ◌⊎◌, ◌+◌, ◌*◌, ◌≤◌, ◌^◌, ℕ, List, IfOk, OnOk, Some, None, true, false};
ghost use Rattle.atomic_table.specs.Seated.{TableId};
ghost use Rattle.shell_memory.specs.Chunks.{IsHeap};
ghost use Rattle.shell_memory.specs.Names.{Puts};
ghost use Rattle.shell_lines.specs.RingRequests.{IsAllowed, request_of};
ghost use Rattle.shell_sync.specs.Rings.{AreRings, At, IsAnswered, IsNew, IsNoName, IsQueue, IsReceiveTry, IsSendTry, Makes, MaySend, ReceiverLeaves, Receives, SenderLeaves, Sends, queue_of, state_of, text_of, torn_by};
ghost use Rattle.shell_sync.specs.declared.rings.RingAnswer.{RingAnswer};
ghost use Rattle.shell_sync.specs.declared.rings.RingAnswer.TheVariants as answer;

use dsa_area::NoSpace;
use mq_handle::{ReceiveAnswer, Receiver, SendAnswer, Sender, attach, meet};
use mq_ring::Ring;
use region_words::{Chunk, Region};
use shell_lines::RingCommand;
use shell_memory::{Heap, plain, with_number, with_numbers};
use std::alloc::{AllocError, Global};
use std::collections::BTreeMap;
use std::sync::Wait;

/// The words of a ring's chunk besides its cells.
const CONTROL_WORDS: u64 = 3;

/// The two ends of a ring.
#[derive(Drop)]
struct Queue {
    sender: Sender,
    receiver: Receiver,
    /// Whether the sender was not detached.
    sends: bool,
    /// Whether the receiver was not detached.
    receives: bool,
    /// The text of which a part is stored.
    torn: Option<Vec<u8>>,
}

/// The rings that have a name.
#[derive(Drop)]
pub struct Rings {
    named: BTreeMap<Vec<u8>, Queue>,
}

/// What a command over rings is answered.
#[derive(Clone, Copy, Debug, PartialEq, Eq)]
pub(crate) enum RingAnswer {
    /// The name is in use.
    Named,
    /// Nothing has the name.
    NoName,
    /// That end was detached.
    Closed,
    /// A part of another text is stored.
    Pending,
    /// The text is longer than the ring's messages.
    TooLong { length: u64 },
    /// The other end was detached, and there is nothing more to receive.
    Detached,
    /// The text is on the ring.
    Sent,
    /// The ring is full, and this many words of the frame are stored.
    Stored { words: u64 },
    /// No whole message has come.
    Again,
    /// A message, which the receiver lends.
    Got,
    /// It was done.
    Done,
    /// The pages that were wanted, and those of the longest free run.
    NoSpace { pages: u32, largest: u32 },
}

impl RingAnswer {
    /// The line of the answer. A message that it speaks of is this one.
    fn text(self, alloc: Global, message: &[u8]) -> Result<Vec<u8>, AllocError>
        ensures { IfOk result (λ line. line.items ≡ text_of self message.now) }
    {
        match self {
            RingAnswer::Named => plain(alloc, "named"),
            RingAnswer::NoName => plain(alloc, "noname"),
            RingAnswer::Closed => plain(alloc, "closed"),
            RingAnswer::Pending => plain(alloc, "pending"),
            RingAnswer::TooLong { length } => with_number(alloc, "toolong ", length),
            RingAnswer::Detached => plain(alloc, "detached"),
            RingAnswer::Sent => plain(alloc, "sent"),
            RingAnswer::Stored { words } => with_number(alloc, "again ", words),
            RingAnswer::Again => plain(alloc, "again"),
            RingAnswer::Got => got(alloc, message),
            RingAnswer::Done => plain(alloc, "ok"),
            RingAnswer::NoSpace { pages, largest } => {
                with_numbers(alloc, "nospace ", u64::from(pages), u128::from(largest))
            }
        }
    }
}

/// The line of a message: its length, and then the message if it is not empty.
fn got(alloc: Global, message: &[u8]) -> Result<Vec<u8>, AllocError>
    ensures { IfOk result (λ line. line.items ≡ text_of answer.Got message.now) }
{
    let mut answer = with_number(alloc, "got ", message.len() as u64)?;
    if !message.is_empty() {
        answer.push(b' ')?;
        answer.extend_from_slice(message)?;
    }
    Ok(answer)
}

impl Rings {
    /// No rings.
    pub fn new(alloc: Global) -> Rings
        ensures free { (name : List ℕ) → queue_of result name ≡ None }
        ensures rings { (region : TableId) → AreRings region result }
    {
        Rings {
            named: BTreeMap::new(alloc),
        }
    }

    /// Answers a command, by a line.
    pub fn answer<R: Wait>(
        &mut self,
        rt: &R,
        alloc: Global,
        r: &Region,
        heap: &mut Heap,
        command: RingCommand<'_>,
    ) -> Result<Vec<u8>, AllocError>
        requires heap { IsHeap r.now heap.old }
        requires rings { AreRings r.now self.old }
        requires allowed { IsAllowed (request_of command) }
        ensures heap { OnOk result (IsHeap r.now heap.new) }
        ensures area { OnOk result (heap.new.area ≡ heap.old.area) }
        ensures rings { OnOk result (AreRings r.now self.new) }
        ensures answer { IfOk result (λ line. IsAnswered heap.old heap.new self.old self.new (request_of command.entry) line.items) }
    {
        match command {
            RingCommand::Receive { name } => self.receive(alloc, r, name),
            RingCommand::Ring {
                name,
                words,
                from,
                max,
            } => {
                let answer = self.ring(rt, alloc, r, heap, name, words, from, max)?;
                answer.text(alloc, &[])
            }
            RingCommand::Send { name, text, flush } => {
                let answer = self.send(alloc, r, name, text, flush)?;
                answer.text(alloc, &[])
            }
            RingCommand::DetachSender { name } => self.detach_sender(r, name).text(alloc, &[]),
            RingCommand::DetachReceiver { name } => self.detach_receiver(r, name).text(alloc, &[]),
        }
    }

    /// A ring of this many cells under a new name, in a chunk of the area.
    fn ring<R: Wait>(
        &mut self,
        rt: &R,
        alloc: Global,
        r: &Region,
        heap: &mut Heap,
        name: &[u8],
        words: u64,
        from: u64,
        max: u32,
    ) -> Result<RingAnswer, AllocError>
        requires heap { IsHeap r.now heap.old }
        requires rings { AreRings r.now self.old }
        requires power { (e : ℕ) × (words ≡ 2 ^ e) × (e ≤ 20) }
        requires max { max ≤ 1048576 }
        ensures heap { OnOk result (IsHeap r.now heap.new) }
        ensures area { OnOk result (heap.new.area ≡ heap.old.area) }
        ensures rings { OnOk result (AreRings r.now self.new) }
        ensures answer { IfOk result (λ answer. Makes heap.old heap.new self.old self.new name.now words from max answer) }
    {
        if self.named.contains_key(name) {
            return Ok(RingAnswer::Named);
        }
        match heap.alloc(rt, r, 8 * (words + CONTROL_WORDS)) {
            Ok(chunk) => {
                let queue = Queue::new(alloc, r, chunk, words, from, max)?;
                self.put(Vec::from_slice(alloc, name)?, queue)?;
                Ok(RingAnswer::Done)
            }
            Err(NoSpace { pages, largest }) => Ok(RingAnswer::NoSpace { pages, largest }),
        }
    }

    /// Puts a ring under its name.
    fn put(&mut self, key: Vec<u8>, queue: Queue) -> Result<(), AllocError>
        ensures { OnOk result (Puts self.old.named self.new.named key.items (Some queue)) }
    {
        match self.named.insert(key, queue) {
            Ok(_) => Ok(()),
            Err(_) => Err(AllocError),
        }
    }

    /// One try to send a text.
    fn send(
        &mut self,
        alloc: Global,
        r: &Region,
        name: &[u8],
        text: &[u8],
        flush: bool,
    ) -> Result<RingAnswer, AllocError>
        requires rings { AreRings r.now self.old }
        ensures rings { OnOk result (AreRings r.now self.new) }
        ensures answer { IfOk result (λ answer. IsNoName self.old self.new name.now answer ⊎ At self.old self.new name.now (λ s t. Sends s t text.now flush answer)) }
    {
        match self.named.get_mut(name) {
            Some(queue) => queue.send(alloc, r, text, flush),
            None => Ok(RingAnswer::NoName),
        }
    }

    /// One try to receive a message, answered by a line.
    fn receive(&mut self, alloc: Global, r: &Region, name: &[u8]) -> Result<Vec<u8>, AllocError>
        requires rings { AreRings r.now self.old }
        ensures rings { OnOk result (AreRings r.now self.new) }
        ensures answer { IfOk result (λ line. (answer : RingAnswer) × (message : List ℕ) × (line.items ≡ text_of answer message) × (IsNoName self.old self.new name.now answer ⊎ At self.old self.new name.now (λ s t. Receives s t answer message))) }
    {
        match self.named.get_mut(name) {
            Some(queue) => queue.receive_line(alloc, r),
            None => RingAnswer::NoName.text(alloc, &[]),
        }
    }

    /// The sender goes.
    fn detach_sender(&mut self, r: &Region, name: &[u8]) -> RingAnswer
        requires rings { AreRings r.now self.old }
        ensures rings { AreRings r.now self.new }
        ensures answer { IsNoName self.old self.new name.now result ⊎ ((result ≡ answer.Done) × At self.old self.new name.now SenderLeaves) }
    {
        match self.named.get_mut(name) {
            Some(queue) => queue.detach_sender(r),
            None => RingAnswer::NoName,
        }
    }

    /// The receiver goes.
    fn detach_receiver(&mut self, r: &Region, name: &[u8]) -> RingAnswer
        requires rings { AreRings r.now self.old }
        ensures rings { AreRings r.now self.new }
        ensures answer { IsNoName self.old self.new name.now result ⊎ ((result ≡ answer.Done) × At self.old self.new name.now ReceiverLeaves) }
    {
        match self.named.get_mut(name) {
            Some(queue) => queue.detach_receiver(r),
            None => RingAnswer::NoName,
        }
    }
}

impl Queue {
    /// The two ends of a new ring in a chunk.
    fn new(
        alloc: Global,
        r: &Region,
        chunk: Chunk,
        words: u64,
        from: u64,
        max: u32,
    ) -> Result<Queue, AllocError>
        requires here { chunk.part.region ≡ r.now }
        requires power { (e : ℕ) × (words ≡ 2 ^ e) × (e ≤ 20) }
        requires room { 8 * (words + 3) ≤ chunk.bytes }
        requires max { max ≤ 1048576 }
        ensures queue { IfOk result (IsQueue r.now) }
        ensures fresh { IfOk result (IsNew chunk.at words from max) }
    {
        let (tx, rx) = Ring::create(r, chunk, words, from, max);
        let Ok((sender, receiver)) = attach(alloc, tx, rx) else {
            return Err(AllocError);
        };
        Ok(Queue {
            sender,
            receiver,
            sends: true,
            receives: true,
            torn: None,
        })
    }

    /// Whether a part of another text is stored.
    fn is_pending(&self, text: &[u8]) -> bool
        ensures pending { result ≡ true → (other : List ℕ) × ((state_of self.now).torn ≡ Some other) × (other ≢ text.now) }
        ensures free { result ≡ false → ((state_of self.now).torn ≡ None) ⊎ ((state_of self.now).torn ≡ Some text.now) }
    {
        match &self.torn {
            Some(torn) => torn.as_slice() != text,
            None => false,
        }
    }

    /// One try to send a text, answered.
    fn send(
        &mut self,
        alloc: Global,
        r: &Region,
        text: &[u8],
        flush: bool,
    ) -> Result<RingAnswer, AllocError>
        requires queue { IsQueue r.now self.old }
        ensures queue { OnOk result (IsQueue r.now self.new) }
        ensures answer { IfOk result (λ answer. Sends (state_of self.old) (state_of self.new) text.now flush answer) }
    {
        if !self.sends {
            return Ok(RingAnswer::Closed);
        }
        if self.is_pending(text) {
            return Ok(RingAnswer::Pending);
        }
        match self.try_send(r, text, flush) {
            SendAnswer::Sent => {
                self.torn = None;
                Ok(RingAnswer::Sent)
            }
            SendAnswer::WouldBlock { stored } => {
                self.keep(alloc, text, stored)?;
                Ok(RingAnswer::Stored { words: stored })
            }
            SendAnswer::Detached => Ok(RingAnswer::Detached),
            SendAnswer::TooLong { length } => Ok(RingAnswer::TooLong { length }),
        }
    }

    /// One try to send a text, before and after which the two ends meet.
    fn try_send(&mut self, r: &Region, text: &[u8], flush: bool) -> SendAnswer
        requires queue { IsQueue r.now self.old }
        requires may { MaySend (state_of self.old) text.now }
        ensures { IsSendTry r.now self.old self.new text.now flush result }
    {
        meet(&mut self.sender, &mut self.receiver, r);
        let answer = self.sender.try_send(r, text, flush);
        meet(&mut self.sender, &mut self.receiver, r);
        answer
    }

    /// Keeps the text of which this many words are stored, if any are.
    fn keep(&mut self, alloc: Global, text: &[u8], stored: u64) -> Result<(), AllocError>
        requires free { ((state_of self.old).torn ≡ None) ⊎ ((state_of self.old).torn ≡ Some text.now) }
        ensures ends { (self.new.sender ≡ self.old.sender) × (self.new.receiver ≡ self.old.receiver) }
        ensures flags { (self.new.sends ≡ self.old.sends) × (self.new.receives ≡ self.old.receives) }
        ensures torn { OnOk result ((state_of self.new).torn ≡ torn_by stored text.now) }
    {
        if stored == 0 {
            self.torn = None;
        } else if self.torn.is_none() {
            self.torn = Some(Vec::from_slice(alloc, text)?);
        }
        Ok(())
    }

    /// One try to receive a message, answered by a line.
    fn receive_line(&mut self, alloc: Global, r: &Region) -> Result<Vec<u8>, AllocError>
        requires queue { IsQueue r.now self.old }
        ensures queue { IsQueue r.now self.new }
        ensures answer { IfOk result (λ line. (answer : RingAnswer) × (message : List ℕ) × (line.items ≡ text_of answer message) × Receives (state_of self.old) (state_of self.new) answer message) }
    {
        let answer = self.receive(r);
        answer.text(alloc, self.receiver.message())
    }

    /// One try to receive a message, answered.
    fn receive(&mut self, r: &Region) -> RingAnswer
        requires queue { IsQueue r.now self.old }
        ensures queue { IsQueue r.now self.new }
        ensures answer { Receives (state_of self.old) (state_of self.new) result self.new.receiver.message }
    {
        if !self.receives {
            return RingAnswer::Closed;
        }
        match self.try_receive(r) {
            ReceiveAnswer::Message => RingAnswer::Got,
            ReceiveAnswer::WouldBlock => RingAnswer::Again,
            ReceiveAnswer::Detached => RingAnswer::Detached,
        }
    }

    /// One try to receive a message, before and after which the two ends meet.
    fn try_receive(&mut self, r: &Region) -> ReceiveAnswer
        requires queue { IsQueue r.now self.old }
        requires is_open { self.old.receiver.end.gone ≡ false }
        ensures { IsReceiveTry r.now self.old self.new result }
    {
        meet(&mut self.sender, &mut self.receiver, r);
        let answer = self.receiver.try_receive(r);
        meet(&mut self.sender, &mut self.receiver, r);
        answer
    }

    /// The sender goes.
    fn detach_sender(&mut self, r: &Region) -> RingAnswer
        requires queue { IsQueue r.now self.old }
        ensures queue { IsQueue r.now self.new }
        ensures done { result ≡ answer.Done }
        ensures leaves { SenderLeaves (state_of self.old) (state_of self.new) }
    {
        self.sender.detach(r);
        self.sends = false;
        RingAnswer::Done
    }

    /// The receiver goes.
    fn detach_receiver(&mut self, r: &Region) -> RingAnswer
        requires queue { IsQueue r.now self.old }
        ensures queue { IsQueue r.now self.new }
        ensures done { result ≡ answer.Done }
        ensures leaves { ReceiverLeaves (state_of self.old) (state_of self.new) }
    {
        self.receiver.detach(r);
        self.receives = false;
        RingAnswer::Done
    }
}
