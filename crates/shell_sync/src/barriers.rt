//! The commands over barriers: `bar new`, `attach`, `arrive`, `look` and `detach`.
//!
//! The shell holds the passes of all callers of each barrier. After each command the caller's pass meets all others, so
//! that each has seen all that was done.

ghost use Rattle.std.specs.Prelude.{◌≡◌, ◌⊎◌, ◌<◌, ◌≤◌, ℕ, List, All, IfOk, OnOk, Some, length, true, false};
ghost use Rattle.std.specs.List.{AllZip};
ghost use Rattle.lock_book.specs.History.{last_of};
ghost use Rattle.par_barrier.specs.Legal.{BarrierLegal};
ghost use Rattle.par_barrier.specs.Parties.{nobody};
ghost use Rattle.par_barrier.specs.Shown.{AreAll, Belongs, Called, History, arrival_reply, callers_of, detach_reply, history_of, number_of, refusal_reply};
ghost use Rattle.shell_lines.specs.BarrierRequests.{IsAllowed, request_of};
ghost use Rattle.shell_sync.specs.Barriers.{AreBarriers, HasSeen, IsAnswered, IsCalled, IsParty, Makes, answer_of, call_of, party_of, text_of};
ghost use Rattle.shell_sync.specs.Meetings.{IsAlike, IsBehind, IsCalledAmong, Meets};
ghost use Rattle.shell_memory.specs.Names.{IsFree, Puts, Stays};
ghost use Rattle.par_barrier.specs.declared.history.BarrierReply.{BarrierReply};
ghost use Rattle.par_barrier.specs.declared.history.BarrierState.{BarrierState};
ghost use Rattle.shell_sync.specs.declared.barriers.PartyAnswer.TheVariants as answer;

use par_barrier::{Arrival, Barrier, BarrierAnswer, BarrierPass, Left};
use shell_lines::{BarrierCommand, PartyCall};
use shell_memory::{plain, with_number};
use std::alloc::{AllocError, Global};
use std::collections::BTreeMap;
use std::sync::Wait;

/// A barrier, with the passes of its callers in order of their numbers.
#[derive(Drop)]
struct Party {
    barrier: Barrier,
    passes: Vec<BarrierPass>,
}

/// The barriers that have a name.
#[derive(Drop)]
pub struct Barriers {
    named: BTreeMap<Vec<u8>, Party>,
}

/// What a command over barriers is answered.
#[derive(Clone, Copy, Debug, PartialEq, Eq)]
pub(crate) enum PartyAnswer {
    /// The name is in use.
    Named,
    /// Nothing has the name.
    NoName,
    /// The barrier has no such caller.
    Range,
    /// It was done.
    Done,
    /// The caller takes part already.
    There,
    /// The caller takes part from now on, and this is the phase.
    Phase { phase: u64 },
    /// The caller does not take part.
    Absent,
    /// The caller has arrived already.
    Twice,
    /// Somebody has still to arrive.
    Waits,
    /// The phase is this one, and the caller was elected at its beginning.
    Elected { phase: u64 },
    /// The phase is this one, and another was elected or nobody.
    Released { phase: u64 },
    /// The caller has left, and others take part.
    Left { phase: u64 },
    /// The caller has left, and nobody takes part.
    Last { phase: u64 },
}

impl PartyAnswer {
    /// The line of the answer.
    fn text(self, alloc: Global) -> Result<Vec<u8>, AllocError>
        ensures { IfOk result (λ line. line.items ≡ text_of self) }
    {
        match self {
            PartyAnswer::Named => plain(alloc, "named"),
            PartyAnswer::NoName => plain(alloc, "noname"),
            PartyAnswer::Range => plain(alloc, "range"),
            PartyAnswer::Done => plain(alloc, "ok"),
            PartyAnswer::There => plain(alloc, "there"),
            PartyAnswer::Phase { phase } => with_number(alloc, "phase ", phase),
            PartyAnswer::Absent => plain(alloc, "absent"),
            PartyAnswer::Twice => plain(alloc, "twice"),
            PartyAnswer::Waits => plain(alloc, "wait"),
            PartyAnswer::Elected { phase } => with_number(alloc, "elected ", phase),
            PartyAnswer::Released { phase } => with_number(alloc, "released ", phase),
            PartyAnswer::Left { phase } => with_number(alloc, "left ", phase),
            PartyAnswer::Last { phase } => with_number(alloc, "last ", phase),
        }
    }
}

impl From<BarrierAnswer> for PartyAnswer {
    ghost from_gives = { λ refusal answer. answer ≡ answer_of (refusal_reply refusal) };

    fn from(refusal: BarrierAnswer) -> PartyAnswer {
        match refusal {
            BarrierAnswer::AlreadyIn { phase: _ } => PartyAnswer::There,
            BarrierAnswer::NotIn { phase: _ } => PartyAnswer::Absent,
            BarrierAnswer::Twice { phase: _ } => PartyAnswer::Twice,
        }
    }
}

impl From<Arrival> for PartyAnswer {
    ghost use Rattle.std.specs.Prelude.{Ok};

    ghost from_gives = { λ arrival answer. answer ≡ answer_of (arrival_reply (Ok arrival)) };

    fn from(arrival: Arrival) -> PartyAnswer {
        match arrival {
            Arrival::Waiting => PartyAnswer::Waits,
            Arrival::Released {
                phase,
                elected: true,
            } => PartyAnswer::Elected { phase },
            Arrival::Released {
                phase,
                elected: false,
            } => PartyAnswer::Released { phase },
        }
    }
}

impl From<Left> for PartyAnswer {
    ghost use Rattle.std.specs.Prelude.{Ok};

    ghost from_gives = { λ left answer. answer ≡ answer_of (detach_reply (Ok left)) };

    fn from(left: Left) -> PartyAnswer {
        if left.last {
            PartyAnswer::Last { phase: left.phase }
        } else {
            PartyAnswer::Left { phase: left.phase }
        }
    }
}

impl Barriers {
    /// No barriers.
    pub fn new(alloc: Global) -> Barriers
        ensures free { (name : List ℕ) → party_of result name ≡ None }
        ensures barriers { AreBarriers result }
    {
        Barriers {
            named: BTreeMap::new(alloc),
        }
    }

    /// Answers a command, by a line.
    pub fn answer<R: Wait>(
        &mut self,
        rt: &R,
        alloc: Global,
        command: BarrierCommand<'_>,
    ) -> Result<Vec<u8>, AllocError>
        requires barriers { AreBarriers self.old }
        requires allowed { IsAllowed (request_of command) }
        ensures barriers { OnOk result (AreBarriers self.new) }
        ensures answer { IfOk result (λ line. IsAnswered self.old self.new (request_of command.entry) line.items) }
    {
        match command {
            BarrierCommand::New { name, callers } => {
                let answer = self.make(alloc, name, callers)?;
                answer.text(alloc)
            }
            BarrierCommand::Call { name, caller, call } => {
                self.call(rt, name, caller, call).text(alloc)
            }
        }
    }

    /// Makes a call of a caller of the barrier of this name.
    fn call<R: Wait>(&mut self, rt: &R, name: &[u8], caller: u64, call: PartyCall) -> PartyAnswer
        requires barriers { AreBarriers self.old }
        ensures barriers { AreBarriers self.new }
        ensures answer { (IsFree self.old.named name.now × (result ≡ answer.NoName) × Stays self.old.named self.new.named) ⊎ IsCalled self.old self.new name.now caller (call_of call) result }
    {
        match self.named.get_mut(name) {
            Some(party) => party.answer(rt, caller, call),
            None => PartyAnswer::NoName,
        }
    }

    /// A barrier for this many callers under a new name.
    fn make(&mut self, alloc: Global, name: &[u8], callers: u32) -> Result<PartyAnswer, AllocError>
        requires barriers { AreBarriers self.old }
        requires callers { (1 ≤ callers) × (callers ≤ 64) }
        ensures barriers { OnOk result (AreBarriers self.new) }
        ensures answer { IfOk result (λ answer. Makes self.old self.new name.now callers answer) }
    {
        if self.named.contains_key(name) {
            return Ok(PartyAnswer::Named);
        }
        let party = Party::new(alloc, callers)?;
        self.put(Vec::from_slice(alloc, name)?, party)?;
        Ok(PartyAnswer::Done)
    }

    /// Puts a barrier under its name.
    fn put(&mut self, key: Vec<u8>, party: Party) -> Result<(), AllocError>
        ensures { OnOk result (Puts self.old.named self.new.named key.items (Some party)) }
    {
        match self.named.insert(key, party) {
            Ok(_) => Ok(()),
            Err(_) => Err(AllocError),
        }
    }
}

impl Party {
    /// A barrier that nobody takes part in, with the passes of its callers.
    fn new(alloc: Global, callers: u32) -> Result<Party, AllocError>
        requires some { 1 ≤ callers }
        ensures callers { IfOk result (λ party. callers_of party.barrier ≡ callers) }
        ensures party { IfOk result (λ party. IsParty party nobody) }
    {
        let (barrier, passes) = Barrier::new(alloc, callers)?;
        Ok(Party { barrier, passes })
    }

    /// Makes a caller's call. All passes then meet its pass, so that each has seen it.
    fn answer<R: Wait>(&mut self, rt: &R, caller: u64, call: PartyCall) -> PartyAnswer
        requires party { (s : BarrierState) × IsParty self.old s }
        ensures same { self.new.barrier ≡ self.old.barrier }
        ensures out { callers_of self.old.barrier ≤ caller → (result ≡ answer.Range) × (self.new ≡ self.old) }
        ensures called { caller < callers_of self.old.barrier → (s t : BarrierState) × (r : BarrierReply) × IsParty self.old s × IsParty self.new t × BarrierLegal caller s (call_of call) r t × (result ≡ answer_of r) }
    {
        if caller >= self.passes.len() as u64 {
            return PartyAnswer::Range;
        }
        let passes = self.passes.as_mut_slice();
        call_among(rt, &self.barrier, passes, caller as usize, call)
    }
}

/// The call of one of the passes of all callers; then all others meet it.
fn call_among<R: Wait>(
    rt: &R,
    barrier: &Barrier,
    passes: &mut [BarrierPass],
    caller: usize,
    call: PartyCall,
) -> PartyAnswer
    requires all { AreAll barrier.now passes.old }
    requires alike { (seen : History) × HasSeen passes.old seen }
    requires inside { caller < length passes.old }
    ensures { (seen then : History) × (r : BarrierReply) × HasSeen passes.old seen × AreAll barrier.now passes.new × HasSeen passes.new then × BarrierLegal caller (last_of nobody seen) (call_of call) r (last_of nobody then) × (result ≡ answer_of r) }
{
    let (before, rest) = passes.split_at_mut(caller);
    let Some((pass, after)) = rest.split_first_mut() else {
        unreachable!()
    };
    call_and_meet(rt, barrier, pass, before, after, call)
}

/// The call of a pass; then the others meet it.
fn call_and_meet<R: Wait>(
    rt: &R,
    barrier: &Barrier,
    pass: &mut BarrierPass,
    before: &mut [BarrierPass],
    after: &mut [BarrierPass],
    call: PartyCall,
) -> PartyAnswer
    requires own { Belongs barrier.now pass.old }
    requires before { All (λ p. IsAlike barrier.now (history_of pass.old) p) before.old }
    requires after { All (λ p. IsAlike barrier.now (history_of pass.old) p) after.old }
    ensures { (then : BarrierPass) × (r : BarrierReply) × (result ≡ answer_of r) × IsCalledAmong barrier.now pass.old then pass.new before.old before.new after.old after.new (call_of call) r }
{
    let answer = call_by(rt, barrier, pass, call);
    meet_all(barrier, pass, before);
    meet_all(barrier, pass, after);
    answer
}

/// The call of one pass.
fn call_by<R: Wait>(
    rt: &R,
    barrier: &Barrier,
    pass: &mut BarrierPass,
    call: PartyCall,
) -> PartyAnswer
    requires own { Belongs barrier.now pass.old }
    ensures own { Belongs barrier.now pass.new × (number_of pass.new ≡ number_of pass.old) }
    ensures called { (r : BarrierReply) × Called pass.old pass.new (call_of call) r × (result ≡ answer_of r) }
{
    match call {
        PartyCall::Attach => match barrier.attach(rt, pass) {
            Ok(phase) => PartyAnswer::Phase { phase },
            Err(refusal) => PartyAnswer::from(refusal),
        },
        PartyCall::Arrive => match barrier.arrive(rt, pass) {
            Ok(arrival) => PartyAnswer::from(arrival),
            Err(refusal) => PartyAnswer::from(refusal),
        },
        PartyCall::Look => match barrier.look(rt, pass) {
            Ok(arrival) => PartyAnswer::from(arrival),
            Err(refusal) => PartyAnswer::from(refusal),
        },
        PartyCall::Detach => match barrier.detach(rt, pass) {
            Ok(left) => PartyAnswer::from(left),
            Err(refusal) => PartyAnswer::from(refusal),
        },
    }
}

/// Others, which have seen a beginning of what the pass has seen, meet it.
fn meet_all(barrier: &Barrier, pass: &mut BarrierPass, others: &mut [BarrierPass])
    requires own { Belongs barrier.now pass.old }
    requires others { All (λ p. IsBehind barrier.now (history_of pass.old) p) others.old }
    ensures own { Meets barrier.now (history_of pass.old) pass.old pass.new }
    ensures others { AllZip (Meets barrier.now (history_of pass.old)) others.old others.new }
{
    'others: for other in others.iter_mut() {
        pass.meet(barrier, other);
    }
}
