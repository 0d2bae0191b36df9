//! A parallel query's context, in the manner of parallel.c: it makes what a lead and its workers share, runs each
//! worker in its own thread while the lead works, and brings every token home.
//!
//! The context owns a region, which has a table of contents with the plan and two queues for each worker, and a counter
//! that hands out blocks. Each participant gets a share of the table and a seat at the counter (`Seats`), each worker
//! the sending ends of its queues, and the lead the receiving ends of all. Who may change what: a block's number is
//! drawn by one fetch-and-add, a ring's words are its two ends' as `mq_ring` says, and the table is frozen. What the
//! lead and the workers do is theirs to say (`Worker`, `Lead`); that all of it reaches the caller of `run` is this
//! crate's promise (`Ran`): each participant's draws and messages, with each end what it promised.

#![tactic(auto)]

ghost use Rattle.std.specs.Prelude.{◌≡◌, ◌≤◌, ◌^◌, IfOk, OnErr, length, vec_len, true};
ghost use Rattle.par_model.specs.Plain.{is_plain};
ghost use Rattle.scan_claim.specs.Shown.{blocks_of};
ghost use Rattle.parallel_ctx.specs.Making.{HasTable};
ghost use Rattle.parallel_ctx.specs.Ran.{Ran};
ghost use Rattle.plan_spec.specs.declared.plan.TheConstants.{MOST_AREA_PAGES};

mod hashing;
mod home;
mod lists;
mod making;
mod roles;
mod scope;
mod start;
mod tokens;

pub use agg_table::{HashPart, HashSeat};
use hashing::{hash_words, open_hash, wants_table};
pub use home::{Finished, Returned};
use home::{AllSettled, close_table, count_ends, keep_seat, settle_all};
use lists::{RunLists, run_lists};
use making::{Dealt, Planned, Queues, deal, keep_plan, new_queues, new_toc, words_for};
use par_model::BoundPlan;
use region_words::Region;
pub use roles::{Lead, Worker};
use scan_claim::Claims;
use scope::{Served, serve};
use std::alloc::{AllocError, Global};
use std::marker::Model;
use std::snapshot::Snapshot;
use std::sync::Wait;
use std::thread::Threads;
use tokens::Hand;
pub use tokens::{LeaderEnds, Seats, Shared, WorkerEnds};

/// The tokens of all participants, before they work. Contracts see the plan, what is shared, and the tokens in order. A
/// context that is dropped gives its memory back.
#[derive(Drop)]
pub struct Context {
    plan: Snapshot<BoundPlan>,
    shared: Shared,
    leader: Seats,
    hands: Vec<Hand>,
    receivers: Vec<LeaderEnds>,
}

impl Model for Context {
    ghost use Rattle.parallel_ctx.specs.Tokens.{IsPrepared, Prepared};
    ghost use Rattle.std.specs.Coded.{codes};
    ghost use Rattle.atomic_table.specs.Seated.{table_id_coded};
    ghost use Rattle.region_rule.specs.View.{map_code};
    ghost use Rattle.region_words.specs.Parts.{owned_code};
    ghost use Rattle.mq_ring.specs.Ends.{sending_end_code};
    ghost use Rattle.mq_handle.specs.Receives.{incoming_code};
    ghost use Rattle.free_pages.specs.PagesView.{pages_state_code, pages_view_code};
    ghost use Rattle.span_pools.specs.PoolView.{pool_state_code, pool_view_code};
    ghost use Rattle.partial_agg.specs.Groups.{state_code};
    ghost use Rattle.parallel_ctx.specs.Codes.{cells_code, part_state_code, part_view_code};

    ghost Value = { Prepared };

    ghost coded = { Prim.hlevel (codes, table_id_coded, map_code, owned_code, sending_end_code, incoming_code, pages_state_code, pages_view_code, pool_state_code, pool_view_code, state_code, cells_code, part_state_code, part_view_code) };

    ghost view = { λ c. record { plan = c.plan.value; shared = c.shared; leader = c.leader; hands = c.hands.items; receivers = c.receivers.items } };

    ghost invariant = { λ c. IsPrepared (record { plan = c.plan.value; shared = c.shared; leader = c.leader; hands = c.hands.items; receivers = c.receivers.items }) };
}

impl Context {
    /// Makes the region, the table of contents with the plan, the queues, and the tokens of the lead and of the workers
    /// asked for. Its only answer besides `Ok` is that there is no memory. It takes 82 KB for each worker and the
    /// receivers' buffers, and writes each word of the region once. It waits for nobody.
    pub fn build<R: Wait>(
        _rt: &R,
        alloc: Global,
        plan: &BoundPlan,
        workers: u32,
        area_pages: u32,
        blocks: u64,
    ) -> Result<Context, AllocError>
        requires plain { is_plain plan.now ≡ true }
        requires workers { workers ≤ 64 }
        requires pages { area_pages ≤ MOST_AREA_PAGES }
        requires blocks { blocks ≤ 2 ^ 32 }
        ensures plan { IfOk result (λ c. c.plan ≡ plan.now) }
        ensures blocks { IfOk result (λ c. blocks_of c.shared.claims ≡ blocks) }
        ensures asked { IfOk result (λ c. length c.hands ≡ workers) }
        ensures hash { IfOk result (λ c. HasTable plan.now area_pages c.shared.hash) }
    {
        let ends = Vec::with_capacity(alloc, workers as usize)?;
        let receivers = Vec::with_capacity(alloc, workers as usize)?;
        let hands = Vec::with_capacity(alloc, workers as usize)?;
        let with_table = wants_table(plan, area_pages);
        let words = words_for(workers, hash_words(with_table, area_pages));
        let (region, part) = Region::new(alloc, words as usize)?;
        let Planned { mut toc, chunk } = new_toc(&region, part, words);
        let (hash, hash_seats) = open_hash(
            alloc,
            &region,
            &mut toc,
            with_table,
            area_pages,
            workers + 1,
        )?;
        let Queues { ends, receivers } = new_queues(
            alloc, &region, &mut toc, workers, ends, receivers,
        )?;
        let toc = keep_plan(&region, toc, chunk, plan);
        let (claims, seats) = Claims::new(alloc, blocks, workers + 1)?;
        let Dealt { leader, hands } = deal(&region, toc, seats, hash_seats, ends, hands);
        Ok(Context {
            plan: Snapshot::of(plan),
            shared: Shared {
                region,
                claims,
                hash,
            },
            leader,
            hands,
            receivers,
        })
    }

    /// Starts the workers, calls the lead in the caller's own thread, joins the workers and brings all tokens home.
    /// Ends that they leave attached are detached: the lead's as soon as the lead comes back, which stops the workers
    /// that still send. A worker whose start is refused, also for lack of memory, has the end `None`. `run` itself
    /// takes memory only before it starts a worker: on `Err` neither a worker nor the lead was called, and the context
    /// is dropped.
    pub fn run<W: Worker, L: Lead, R: Threads + Wait + Sync>(
        self,
        rt: &R,
        alloc: Global,
        worker: &W,
        lead: &mut L,
    ) -> Result<Finished<W::End>, AllocError>
        requires worker { W.asks worker.now self.plan (blocks_of self.shared.claims) }
        requires lead { L.asks lead.old self.plan (blocks_of self.shared.claims) }
        ensures ran { IfOk result (λ f. Ran (W.did worker.now) (L.led lead.old) self f lead.new) }
        ensures err { OnErr result (lead.new ≡ lead.old) }
    {
        let RunLists {
            placed,
            backs,
            flags,
            workers,
            mut claims,
            mut hashes,
            tables,
            areas,
        } = run_lists(alloc, self.hands.len())?;
        let Context {
            plan: _,
            shared,
            leader,
            hands,
            receivers,
        } = self;
        let Served {
            backs,
            leader,
            queues,
        } = serve(
            rt, worker, lead, &shared, &flags, hands, placed, backs, leader, receivers,
        );
        let Seats {
            number: _,
            toc: _,
            claim,
            hash,
        } = leader;
        claims.push_reserved(claim);
        keep_seat(&mut hashes, hash);
        let AllSettled {
            workers,
            claims,
            hashes,
        } = settle_all(&shared.region, backs, queues, workers, claims, hashes);
        let launched = count_ends(&workers) as u32;
        let Shared {
            region,
            claims: counter,
            hash,
        } = shared;
        let drawn = counter.close(claims);
        let (table, areas) = close_table(hash, hashes, tables, areas);
        Ok(Finished {
            launched,
            workers,
            drawn,
            region,
            table,
            areas,
        })
    }
}
