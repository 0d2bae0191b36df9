//! A queue is made in given memory, and processes take its sides.

ghost use Rattle.std.specs.Prelude.{◌≡◌, Some, IfSome};
ghost use Rattle.std_alloc.specs.Arc.{arc_value};
ghost use Rattle.region_words.specs.Parts.{IsSized};
ghost use Rattle.c_queue.specs.Sides.{Outgoing};
ghost use Rattle.c_queue.specs.declared.end.End.TheVariants.{Sends as Out};
ghost use Rattle.c_given.specs.Which.{ArePair, IsSenderOf, IsInboxOf};
ghost use Rattle.c_given.specs.Calls.{IsRowsOf, IsPlaced, Opens, OpensSender, OpensReceiver};

use crate::given::{Rows, Site};
use crate::head::{Found, Head, Mark, Pair};
use c_queue::{Code, End, Handle, Inbox, Outbox};
use given_heap::{Given, lay};
use mq_handle::{AttachRefused, Receiver, attach};
use mq_ring::{Ring, is_ring_size};
use region_words::Region;
use std::alloc::{AllocFailed, Global};
use std::sync::Arc;
use twin_table::Twin;

/// The longest message of any queue, in bytes.
const MOST_BYTES: u32 = 1048576;

/// Makes a queue in given memory, for good: its head lies at the front of the first block, which has to have 1,024
/// bytes, and its ring's words and slots in the other two, of which each has to have 8 bytes for each of `words + 4`.
/// While it is made it takes twice as much of the process's own memory.
pub fn open_at(
    alloc: Global,
    head: Given,
    words_at: Given,
    slots_at: Given,
    words: u64,
    max: u32,
    site: &mut Site,
    rows: &mut Rows,
) -> Code
    ensures { Opens head.size words max site.old.queue rows.old.table site.new.queue rows.new.table result }
{
    let (size, head) = head.measured();
    if size < 1024 || max > MOST_BYTES || !is_ring_size(words) {
        return Code::BadSize;
    }
    let Ok((table, part)) = lay(alloc, words_at, slots_at, words as usize + 4) else {
        return Code::NoMemory;
    };
    let r = Region::at(Twin::of(table));
    let mut part = part;
    let chunk = part.split_chunk(&r, 1, words + 3);
    let (tx, rx) = Ring::create(&r, chunk, words, 0, max);
    *site = Site::put(
        head,
        Head::new(Mark::new(part, words, max), Pair { tx, rx }),
    );
    *rows = Rows::of(Twin::of(table));
    Code::Done
}

/// The region of the rows, for the handles of this process.
fn region_of(alloc: Global, rows: Rows) -> Option<Arc<Region>>
    requires { IsRowsOf rows.table }
    ensures { IfSome result (λ r. rows.table ≡ Some (arc_value r, (arc_value r).words)) }
{
    match Arc::new(alloc, Region::at(rows.get())) {
        Ok(region) => Some(region),
        Err(_) => None,
    }
}

/// The side that sends, into a blank handle, once a receiver has come: of several callers one gets it. It takes memory
/// for the greatest message.
pub fn open_sender(alloc: Global, site: Site, rows: Rows, tx: &mut Handle) -> Code
    requires { IsPlaced site.queue rows.table }
    ensures { OpensSender site.queue tx.old.value tx.new.value result }
{
    if !tx.is_blank(alloc) {
        return Code::InUse;
    }
    let head = site.get();
    let Some(region) = region_of(alloc, rows) else {
        return Code::NoMemory;
    };
    let Ok(buffer) = vec![in alloc; 0u8; head.max() as usize] else {
        return Code::NoMemory;
    };
    let sender = match head.take_sender() {
        Found::Sender(waiting) => waiting.sender,
        Found::NotYet => return Code::WouldBlock,
        Found::Taken => return Code::Taken,
    };
    match Box::new(alloc, End::Sends(Outbox::over(region, sender, buffer))) {
        Ok(side) => {
            tx.put(side);
            Code::Done
        }
        Err(AllocFailed { value }) => {
            give_back(head, value);
            Code::NoMemory
        }
    }
}

/// Puts a sending side that did nothing back into the head.
fn give_back(head: &Head, side: End)
    requires { (o : Outgoing) × (side ≡ Out o) × IsSenderOf head.now o.sender }
{
    if let End::Sends(outbox) = side {
        head.give_back(outbox.into_sender());
    }
}

/// The side that receives, into a blank handle: of several callers one gets it. From then on a sender may come. It
/// takes memory for the greatest message; if there is none for the handle after that, the side is gone.
pub fn open_receiver(alloc: Global, site: Site, rows: Rows, rx: &mut Handle) -> Code
    requires { IsPlaced site.queue rows.table }
    ensures { OpensReceiver site.queue rx.old.value rx.new.value result }
{
    if !rx.is_blank(alloc) {
        return Code::InUse;
    }
    let head = site.get();
    let Some(region) = region_of(alloc, rows) else {
        return Code::NoMemory;
    };
    let Some(pair) = head.take_pair() else {
        return Code::Taken;
    };
    let Some(receiver) = attached(alloc, head, pair) else {
        return Code::NoMemory;
    };
    match Box::new(
        alloc,
        End::Receives(Inbox::new(region, receiver, head.max())),
    ) {
        Ok(side) => {
            rx.put(side);
            Code::Done
        }
        Err(AllocFailed { value }) => {
            let mut side = value;
            let _told = side.leave();
            Code::NoMemory
        }
    }
}

/// Makes handles' ends of the two ends: the sending one waits in the head for its process.
fn attached(alloc: Global, head: &Head, pair: Pair) -> Option<Receiver>
    requires { ArePair head.now pair.tx pair.rx }
    ensures { IfSome result (λ q. IsInboxOf head.now q) }
{
    let Pair { tx, rx } = pair;
    match attach(alloc, tx, rx) {
        Ok((sender, receiver)) => {
            head.give_sender(sender);
            Some(receiver)
        }
        Err(AttachRefused { tx, rx }) => {
            head.give_pair(Pair { tx, rx });
            None
        }
    }
}
