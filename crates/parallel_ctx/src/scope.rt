//! The scope in which the workers run while the lead works.

ghost use Rattle.agg_table.specs.Shown.{use_in};
ghost use Rattle.std.specs.Prelude.{◌≡◌, All, map};
ghost use Rattle.std.specs.List.{AllZip};
ghost use Rattle.par_model.specs.Plan.{Plan};
ghost use Rattle.plan_descriptor.specs.Planned.{HasPlan};
ghost use Rattle.scan_claim.specs.Shown.{blocks_of, draws_of};
ghost use Rattle.parallel_ctx.specs.Accounts.{heard};
ghost use Rattle.parallel_ctx.specs.Ready.{IsReady};
ghost use Rattle.parallel_ctx.specs.Returns.{CanLead, Returns};
ghost use Rattle.parallel_ctx.specs.Tokens.{AreHere, AreLeftByLead, SameQueues, SameSeats};

use crate::roles::{Lead, Worker};
use crate::start::{Back, Placed, bring_all, launch_all};
use crate::tokens::{Hand, LeaderEnds, Seats, Shared};
use region_words::Region;
use std::sync::Wait;
use std::sync::atomic::AtomicBool;
use std::thread;
use std::thread::{Scope, Threads};

/// Detaches the lead's ends of a worker's queues.
fn leave_queue(r: &Region, queue: &mut LeaderEnds)
    requires errors { queue.old.errors.region ≡ r.now }
    requires tuples { queue.old.tuples.region ≡ r.now }
    ensures same { SameQueues queue.old queue.new }
    ensures left { AreLeftByLead queue.new }
    ensures heard { heard queue.new ≡ heard queue.old }
{
    queue.errors.detach(r);
    queue.tuples.detach(r);
}

/// Detaches all ends of the lead.
fn leave_all(r: &Region, queues: &mut [LeaderEnds])
    requires { All (AreHere r.now) queues.old }
    ensures same { AllZip SameQueues queues.old queues.new }
    ensures left { All AreLeftByLead queues.new }
    ensures heard { map heard queues.new ≡ map heard queues.old }
{
    for at in 0..queues.len() {
        leave_queue(r, &mut queues[at]);
    }
}

/// Leads, and then detaches all ends of the lead.
fn lead_and_leave<L: Lead, R: Wait + Sync>(
    rt: &R,
    lead: &mut L,
    shared: &Shared,
    leader: &mut Seats,
    queues: &mut [LeaderEnds],
)
    requires { CanLead (L.asks lead.old) shared.now leader.old queues.old }
    ensures seats { SameSeats shared.now leader.old leader.new }
    ensures queues { AllZip SameQueues queues.old queues.new }
    ensures left { All AreLeftByLead queues.new }
    ensures led { (plan : Plan) → HasPlan leader.old.toc.words plan → L.led lead.old plan (blocks_of shared.now.claims) (draws_of leader.new.claim) (use_in leader.new.hash) (map heard queues.new) lead.new }
{
    lead.lead(rt, shared, leader, queues);
    leave_all(&shared.region, queues);
}

/// What is left when all threads have ended.
#[derive(Drop)]
pub(crate) struct Served<E> {
    /// What each worker brought back, in order of their numbers.
    pub(crate) backs: Vec<Back<E>>,
    /// The lead's own tokens.
    pub(crate) leader: Seats,
    /// The lead's ends of each worker's queues, detached.
    pub(crate) queues: Vec<LeaderEnds>,
}

/// Starts the workers, leads, and joins the workers.
fn in_scope<'s, S, W: Worker, L: Lead, R: Threads + Wait + Sync>(
    scope: &Scope<'s, S>,
    rt: &'s R,
    worker: &'s W,
    lead: &mut L,
    shared: &'s Shared,
    flags: &'s [AtomicBool],
    hands: Vec<Hand>,
    placed: Vec<Placed<W>>,
    backs: Vec<Back<W::End>>,
    mut leader: Seats,
    mut queues: Vec<LeaderEnds>,
) -> Served<W::End>
where
    W::End: 's,
    requires ready { IsReady (W.asks worker.now) (L.asks lead.old) shared.now flags.now hands placed backs leader queues }
    ensures workers { AllZip (Returns (W.did worker.now) shared.now) hands.items result.backs.items }
    ensures seats { SameSeats shared.now leader result.leader }
    ensures queues { AllZip SameQueues queues.items result.queues.items }
    ensures left { All AreLeftByLead result.queues.items }
    ensures led { (plan : Plan) → HasPlan leader.toc.words plan → L.led lead.old plan (blocks_of shared.now.claims) (draws_of result.leader.claim) (use_in result.leader.hash) (map heard result.queues.items) lead.new }
{
    let placed = launch_all(scope, rt, worker, shared, flags, hands, placed);
    lead_and_leave(rt, lead, shared, &mut leader, &mut queues);
    let backs = bring_all(rt, placed, backs);
    Served {
        backs,
        leader,
        queues,
    }
}

/// Serves a query in its own scope, in which all threads end.
pub(crate) fn serve<W: Worker, L: Lead, R: Threads + Wait + Sync>(
    rt: &R,
    worker: &W,
    lead: &mut L,
    shared: &Shared,
    flags: &[AtomicBool],
    hands: Vec<Hand>,
    placed: Vec<Placed<W>>,
    backs: Vec<Back<W::End>>,
    leader: Seats,
    queues: Vec<LeaderEnds>,
) -> Served<W::End>
    requires ready { IsReady (W.asks worker.now) (L.asks lead.old) shared.now flags.now hands placed backs leader queues }
    ensures workers { AllZip (Returns (W.did worker.now) shared.now) hands.items result.backs.items }
    ensures seats { SameSeats shared.now leader result.leader }
    ensures queues { AllZip SameQueues queues.items result.queues.items }
    ensures left { All AreLeftByLead result.queues.items }
    ensures led { (plan : Plan) → HasPlan leader.toc.words plan → L.led lead.old plan (blocks_of shared.now.claims) (draws_of result.leader.claim) (use_in result.leader.hash) (map heard result.queues.items) lead.new }
{
    let (served, lead) = thread::scope(
        thread::scope_env(),
        rt,
        move |scope| -> (Served<W::End>, &mut L)
            requires ready { IsReady (W.asks worker.now) (L.asks lead.now) shared.now flags.now hands placed backs leader queues }
            ensures workers { AllZip (Returns (W.did worker.entry.now) shared.entry.now) hands.items result.0.backs.items }
            ensures seats { SameSeats shared.entry.now leader result.0.leader }
            ensures queues { AllZip SameQueues queues.items result.0.queues.items }
            ensures left { All AreLeftByLead result.0.queues.items }
            ensures led { (plan : Plan) → HasPlan leader.toc.words plan → L.led lead.entry.now plan (blocks_of shared.entry.now.claims) (draws_of result.0.leader.claim) (use_in result.0.leader.hash) (map heard result.0.queues.items) result.1.now }
            ensures lent { result.1.ghost_name ≡ lead.entry.ghost_name }
        {
            let served = in_scope(
                scope, rt, worker, &mut *lead, shared, flags, hands, placed, backs, leader, queues,
            );
            (served, lead)
        },
    );
    take_back(lead);
    served
}

/// Does nothing, but this use of a returned reference ties it, for the borrow checker, to the parameter that lent it.
fn take_back<T>(x: &mut T)
    ensures { x.new ≡ x.old }
{}
