//! The kept value of a barrier: the phase, the callers that take part, and those that have arrived.
//!
//! A caller that has arrived takes part, and nobody comes twice in a list (`AreParties`). So all have arrived exactly
//! if the two lists are equally long, and neither outgrows the room that it has for all callers: no call takes memory.

ghost use Rattle.std.specs.Prelude.{◌≡◌, ◌≢◌, ◌<◌, ◌==◌, ℕ, List, true, false, not, IfOk, IfSome, IsNone, [], ◌∷◌};
ghost use Rattle.std.specs.List.{list_any};
ghost use Rattle.par_barrier.specs.declared.history.BarrierCall.TheVariants.{Arrive, ArriveAndDetach, ArriveAndDetachExceptLast, Attach, Detach, Look};
ghost use Rattle.par_barrier.specs.declared.history.BarrierReply.TheVariants.{Left};
ghost use Rattle.par_barrier.specs.Parties.{abandoned, are_among, ended, is_among, is_elected, joined, nobody, parted, with_arrival};
ghost use Rattle.par_barrier.specs.Legal.{Arrives, ArrivesAndDetaches, ArrivesAndDetachesExceptLast, Attaches, BarrierLegal, Detaches, Leaves, Looks, MayAnswer};
ghost use Rattle.par_barrier.specs.Kept.{PartiesView};

use crate::history::{BarrierCall, BarrierReply, BarrierState};
use lock_book::Kept;
use std::alloc::{AllocError, Global};
use std::marker::Model;

/// Contracts see how many callers there may be, and the state.
#[derive(Drop)]
pub struct Parties {
    callers: u32,
    phase: u64,
    attached: Vec<u32>,
    arrived: Vec<u32>,
    elected: Option<u32>,
}

impl Model for Parties {
    ghost use Rattle.std.specs.Prelude.{◌≤◌, vec_capacity};
    ghost use Rattle.par_barrier.specs.Kept.{AreParties, PartiesView, parties_code};

    ghost Value = { PartiesView };

    ghost coded = { parties_code };

    ghost view = { λ p. record { callers = p.callers; state = record { phase = p.phase; attached = p.attached.items; arrived = p.arrived.items; elected = p.elected } } };

    ghost invariant = { λ p. AreParties p.callers p.attached.items p.arrived.items × (p.callers ≤ vec_capacity p.attached) × (p.callers ≤ vec_capacity p.arrived) };
}

/// The call of a caller, by its number.
#[derive(Clone, Copy, Drop)]
pub struct Ask {
    pub by: u32,
    pub call: BarrierCall,
}

impl Parties {
    /// Nobody takes part, in phase 0. It takes the memory for all callers.
    pub fn new(alloc: Global, callers: u32) -> Result<Parties, AllocError>
        ensures { IfOk result (λ p. p ≡ record { callers = callers; state = nobody }) }
    {
        let attached = Vec::with_capacity(alloc, callers as usize)?;
        let arrived = Vec::with_capacity(alloc, callers as usize)?;
        Ok(Parties {
            callers,
            phase: 0,
            attached,
            arrived,
            elected: None,
        })
    }

    /// The phase that is on.
    fn phase(&self) -> u64
        ensures { result ≡ self.now.state.phase }
    {
        self.phase
    }

    fn is_attached(&self, n: u32) -> bool
        ensures { result ≡ is_among n self.now.state.attached }
    {
        self.attached.contains(&n)
    }

    fn has_arrived(&self, n: u32) -> bool
        ensures { result ≡ is_among n self.now.state.arrived }
    {
        self.arrived.contains(&n)
    }

    /// Whether everyone that takes part has arrived.
    fn all_arrived(&self) -> bool
        ensures { result ≡ are_among self.now.state.attached self.now.state.arrived }
    {
        self.attached.len() <= self.arrived.len()
    }

    /// The caller `n` takes part from now on.
    fn join(&mut self, n: u32)
        requires below { n < self.old.callers }
        requires out { is_among n self.old.state.attached ≡ false }
        ensures { self.new ≡ record self.old { state = joined n self.old.state } }
    {
        self.attached.push_reserved(n);
    }

    /// The caller `n`, which takes part, has arrived.
    fn note_arrival(&mut self, n: u32)
        requires here { is_among n self.old.state.attached ≡ true }
        requires out { is_among n self.old.state.arrived ≡ false }
        ensures { self.new ≡ record self.old { state = with_arrival n self.old.state } }
    {
        self.arrived.push_reserved(n);
    }

    /// The caller `n` is in neither list any more.
    fn part(&mut self, n: u32)
        ensures { self.new ≡ record self.old { state = parted n self.old.state } }
    {
        self.attached.retain(|m| *m != n);
        self.arrived.retain(|m| *m != n);
    }

    /// The phase ends and elects a party.
    fn end_phase(&mut self, elected: u32)
        ensures { self.new ≡ record self.old { state = ended elected self.old.state } }
    {
        self.phase = self.phase.wrapping_add(1);
        self.arrived.clear();
        self.elected = Some(elected);
    }

    /// The phase ends, and nobody is elected.
    fn abandon_phase(&mut self)
        ensures { self.new ≡ record self.old { state = abandoned self.old.state } }
    {
        self.phase = self.phase.wrapping_add(1);
        self.arrived.clear();
        self.elected = None;
    }

    /// The caller `n` takes part from now on, unless it does already.
    fn attach(&mut self, n: u32) -> BarrierReply
        requires below { n < self.old.callers }
        ensures callers { self.new.callers ≡ self.old.callers }
        ensures legal { Attaches n self.old.state result self.new.state }
        ensures fits { MayAnswer Attach result }
    {
        if self.is_attached(n) {
            return BarrierReply::AlreadyIn(self.phase());
        }
        self.join(n);
        BarrierReply::Attached(self.phase())
    }

    /// The caller `n` arrives, and ends the phase if it is the last.
    fn arrive(&mut self, n: u32) -> BarrierReply
        ensures callers { self.new.callers ≡ self.old.callers }
        ensures legal { Arrives n self.old.state result self.new.state }
        ensures fits { MayAnswer Arrive result }
    {
        if !self.is_attached(n) {
            return BarrierReply::NotIn(self.phase());
        }
        if self.has_arrived(n) {
            return BarrierReply::Twice(self.phase());
        }
        self.note_arrival(n);
        if !self.all_arrived() {
            return BarrierReply::Waiting;
        }
        self.end_phase(n);
        BarrierReply::Released(self.phase(), true)
    }

    /// Whether the phase in which the caller `n` arrived has ended.
    fn look(&self, n: u32) -> BarrierReply
        ensures legal { Looks n self.now.state result self.now.state }
        ensures fits { MayAnswer Look result }
    {
        if !self.is_attached(n) {
            return BarrierReply::NotIn(self.phase());
        }
        if self.has_arrived(n) {
            return BarrierReply::Waiting;
        }
        BarrierReply::Released(self.phase(), self.is_elected(n))
    }

    /// Whether the last end of a phase elected the caller `n`.
    fn is_elected(&self, n: u32) -> bool
        ensures { result ≡ is_elected n self.now.state.elected }
    {
        match self.elected {
            Some(party) => party == n,
            None => false,
        }
    }

    /// The caller `n` leaves.
    fn detach(&mut self, n: u32) -> BarrierReply
        ensures callers { self.new.callers ≡ self.old.callers }
        ensures legal { Detaches n self.old.state result self.new.state }
        ensures fits { MayAnswer Detach result }
    {
        if !self.is_attached(n) {
            return BarrierReply::NotIn(self.phase());
        }
        self.part(n);
        if self.is_empty() {
            return BarrierReply::Left(self.phase(), true);
        }
        BarrierReply::Left(self.settle(), false)
    }

    /// The caller `n` arrives and leaves. If it was the last that took part, the phase ends.
    fn arrive_and_detach(&mut self, n: u32) -> BarrierReply
        ensures callers { self.new.callers ≡ self.old.callers }
        ensures legal { ArrivesAndDetaches n self.old.state result self.new.state }
        ensures fits { MayAnswer ArriveAndDetach result }
    {
        if !self.is_attached(n) {
            return BarrierReply::NotIn(self.phase());
        }
        if self.has_arrived(n) {
            return BarrierReply::Twice(self.phase());
        }
        self.part(n);
        if self.is_empty() {
            self.abandon_phase();
            return BarrierReply::Left(self.phase(), true);
        }
        BarrierReply::Left(self.settle(), false)
    }

    /// The caller `n` arrives, and leaves unless it is the last that takes part: then the phase ends and elects it.
    fn arrive_and_detach_except_last(&mut self, n: u32) -> BarrierReply
        ensures callers { self.new.callers ≡ self.old.callers }
        ensures legal { ArrivesAndDetachesExceptLast n self.old.state result self.new.state }
        ensures fits { MayAnswer ArriveAndDetachExceptLast result }
    {
        if !self.is_attached(n) {
            return BarrierReply::NotIn(self.phase());
        }
        if self.has_arrived(n) {
            return BarrierReply::Twice(self.phase());
        }
        if !self.has_others(n) {
            self.end_phase(n);
            return BarrierReply::Released(self.phase(), true);
        }
        self.part(n);
        BarrierReply::Left(self.settle(), false)
    }

    /// Somebody has left others: if all of them have arrived, the phase ends, and the first of them is elected. Returns
    /// the phase that is on then.
    fn settle(&mut self) -> u64
        requires others { self.old.state.attached ≢ [] }
        ensures callers { self.new.callers ≡ self.old.callers }
        ensures legal { Leaves self.old.state (Left result false) self.new.state }
    {
        let Some(first) = self.first_arrived() else {
            return self.phase();
        };
        if !self.all_arrived() {
            return self.phase();
        }
        self.end_phase(first);
        self.phase()
    }

    /// Whether anybody but the caller `n` takes part.
    fn has_others(&self, n: u32) -> bool
        ensures { result ≡ list_any (λ m. not (m == n)) self.now.state.attached }
    {
        self.attached.iter().any(|m| *m != n)
    }

    /// The first caller to arrive, of those that have arrived.
    fn first_arrived(&self) -> Option<u32>
        ensures some { IfSome result (λ n. (others : List ℕ) × (self.now.state.arrived ≡ n ∷ others)) }
        ensures none { IsNone result → self.now.state.arrived ≡ [] }
    {
        self.arrived.first().copied()
    }

    /// Whether nobody takes part.
    fn is_empty(&self) -> bool
        ensures yes { result ≡ true → self.now.state.attached ≡ [] }
        ensures no { result ≡ false → self.now.state.attached ≢ [] }
    {
        self.attached.is_empty()
    }
}

impl Kept for Parties {
    type Env = ();

    type In = Ask;

    type Out = BarrierReply;

    /// How many callers there may be.
    type Name = u32;

    type State = BarrierState;

    type Call = BarrierCall;

    type Reply = BarrierReply;

    ghost name = { λ p. p.callers };

    ghost state = { λ p. p.state };

    ghost call = { λ ask. ask.call };

    ghost reply = { λ r. r };

    ghost env_fits = { λ _ _. Unit {0} };

    // an ask is the caller's own
    ghost in_fits = { λ callers n ask. (ask.by ≡ n) × (n < callers) };

    ghost out_fits = { λ _ ask r. MayAnswer ask.call r };

    ghost legal = { λ _ n s c r t. BarrierLegal n s c r t };

    fn apply(&mut self, _env: &(), ask: Ask) -> BarrierReply {
        let n = ask.by;
        match ask.call {
            BarrierCall::Attach => self.attach(n),
            BarrierCall::Arrive => self.arrive(n),
            BarrierCall::Look => self.look(n),
            BarrierCall::Detach => self.detach(n),
            BarrierCall::ArriveAndDetach => self.arrive_and_detach(n),
            BarrierCall::ArriveAndDetachExceptLast => self.arrive_and_detach_except_last(n),
        }
    }
}
