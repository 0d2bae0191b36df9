//! Each form of the words, from the words to the status.

ghost use Rattle.std.specs.Prelude.{◌≡◌, ◌≢◌, ℕ, List, Option, IsNone, Contains};
ghost use Rattle.gen_query.specs.Words.{gen_of};
ghost use Rattle.join_query.specs.Words.{join_of};
ghost use Rattle.order_query.specs.Ordered.{merge_plan_of};
ghost use Rattle.par_io.specs.Faults.{Rose};
ghost use Rattle.group_query.specs.Answers.{plan_of};
ghost use Rattle.plan_spec.specs.Merging.{merge_of};
ghost use Rattle.plan_spec.specs.Query.{query_of};
ghost use Rattle.answer_text.specs.Lines.{IsSaid, statuses};
ghost use Rattle.answer_text.specs.Words.{texts};
ghost use Rattle.table_query.specs.declared.wanted.Wanted.TheVariants.{Groups, Order};
ghost use Rattle.par_gather.specs.Answers.{IsLine, stop_of_gen};
ghost use Rattle.par_gather.specs.Runs.{AnswersBy};
ghost use Rattle.par_gather.specs.Query.{OfTable, OfJoin, OfGen};

use crate::Ran;
use answer_text::{READ_FAULT, TABLE, WRITE_FAULT};
use gen_query::{GenAnswer, answer_generated};
use group_query::answer_plan;
use join_query::join_tables;
use order_query::answer_merge;
use par_io::{Sink, Source};
use std::alloc::Global;
use std::sync::Wait;
use std::thread::Threads;
use table_query::{Stop, Wanted};
use worker_run::Gate;

/// The table of groups that options name.
pub(crate) fn in_plan<R: Threads + Wait + Sync, S: Source, O: Sink, E: Sink, G: Gate + Sync>(
    rt: &R,
    alloc: Global,
    words: &[String],
    source: &mut S,
    out: &mut O,
    err: &mut E,
    gate: &G,
    ran: &mut Option<Ran>,
) -> u8
    ensures statuses { Contains statuses result }
    ensures nothing { (result ≢ TABLE) → (result ≢ WRITE_FAULT) → out.new ≡ out.old }
    ensures read_fault { result ≡ READ_FAULT → Rose (S.faults source.old) (S.faults source.new) }
    ensures write_fault { result ≡ WRITE_FAULT → Rose (O.faults out.old) (O.faults out.new) }
    ensures quiet { result ≡ TABLE → err.new ≡ err.old }
    ensures none { (result ≢ TABLE) → ran.new ≡ ran.old }
    ensures answers { AnswersBy (OfTable Groups (query_of (texts words.now))) (S.left source.old) result ran.new (O.taken out.old) (O.taken out.new) }
    ensures unread { IsNone (plan_of (texts words.now)) → source.new ≡ source.old }
    ensures line { (result ≢ TABLE) → (said : List ℕ) × IsLine (OfTable Groups (query_of (texts words.now))) (S.left source.old) result said
        × IsSaid (E.taken err.old) (E.taken err.new) (E.faults err.old) (E.faults err.new) said }
{
    match answer_plan(rt, alloc, words, source, out, gate) {
        Ok(gathered) => {
            *ran = Some(Ran::Gather(gathered));
            TABLE
        }
        Err(stop) => stop.end(Wanted::Groups, err),
    }
}

/// The rows of a table in order.
pub(crate) fn in_merge<R: Threads + Wait + Sync, S: Source, O: Sink, E: Sink, G: Gate + Sync>(
    rt: &R,
    alloc: Global,
    words: &[String],
    source: &mut S,
    out: &mut O,
    err: &mut E,
    gate: &G,
    ran: &mut Option<Ran>,
) -> u8
    ensures statuses { Contains statuses result }
    ensures nothing { (result ≢ TABLE) → (result ≢ WRITE_FAULT) → out.new ≡ out.old }
    ensures read_fault { result ≡ READ_FAULT → Rose (S.faults source.old) (S.faults source.new) }
    ensures write_fault { result ≡ WRITE_FAULT → Rose (O.faults out.old) (O.faults out.new) }
    ensures quiet { result ≡ TABLE → err.new ≡ err.old }
    ensures none { (result ≢ TABLE) → ran.new ≡ ran.old }
    ensures answers { AnswersBy (OfTable Order (merge_of (texts words.now))) (S.left source.old) result ran.new (O.taken out.old) (O.taken out.new) }
    ensures unread { IsNone (merge_plan_of (texts words.now)) → source.new ≡ source.old }
    ensures line { (result ≢ TABLE) → (said : List ℕ) × IsLine (OfTable Order (merge_of (texts words.now))) (S.left source.old) result said
        × IsSaid (E.taken err.old) (E.taken err.new) (E.faults err.old) (E.faults err.new) said }
{
    match answer_merge(rt, alloc, words, source, out, gate) {
        Ok(merged) => {
            *ran = Some(Ran::Merge(merged));
            TABLE
        }
        Err(stop) => stop.end(Wanted::Order, err),
    }
}

/// The join of two tables.
pub(crate) fn in_join<R: Threads + Wait + Sync, S: Source, O: Sink, E: Sink>(
    rt: &R,
    alloc: Global,
    words: &[String],
    source: &mut S,
    out: &mut O,
    err: &mut E,
    ran: &mut Option<Ran>,
) -> u8
    ensures statuses { Contains statuses result }
    ensures nothing { (result ≢ TABLE) → (result ≢ WRITE_FAULT) → out.new ≡ out.old }
    ensures read_fault { result ≡ READ_FAULT → Rose (S.faults source.old) (S.faults source.new) }
    ensures write_fault { result ≡ WRITE_FAULT → Rose (O.faults out.old) (O.faults out.new) }
    ensures quiet { result ≡ TABLE → err.new ≡ err.old }
    ensures none { (result ≢ TABLE) → ran.new ≡ ran.old }
    ensures answers { AnswersBy (OfJoin (join_of (texts words.now))) (S.left source.old) result ran.new (O.taken out.old) (O.taken out.new) }
    ensures unread { IsNone (join_of (texts words.now)) → source.new ≡ source.old }
    ensures line { (result ≢ TABLE) → (said : List ℕ) × IsLine (OfJoin (join_of (texts words.now))) (S.left source.old) result said
        × IsSaid (E.taken err.old) (E.taken err.new) (E.faults err.old) (E.faults err.new) said }
{
    match join_tables(rt, alloc, words, source, out, err) {
        Ok(joined) => {
            *ran = Some(Ran::Join(joined));
            TABLE
        }
        Err(status) => status,
    }
}

/// What is said of generated rows. Nothing is read, so it is the same whatever a source has left.
pub(crate) fn in_gen<R: Threads + Wait + Sync, O: Sink, E: Sink, G: Gate + Sync>(
    rt: &R,
    alloc: Global,
    words: &[String],
    out: &mut O,
    err: &mut E,
    gate: &G,
    ran: &mut Option<Ran>,
) -> u8
    ensures statuses { Contains statuses result }
    ensures nothing { (result ≢ TABLE) → (result ≢ WRITE_FAULT) → out.new ≡ out.old }
    ensures no_read_fault { result ≢ READ_FAULT }
    ensures write_fault { result ≡ WRITE_FAULT → Rose (O.faults out.old) (O.faults out.new) }
    ensures quiet { result ≡ TABLE → err.new ≡ err.old }
    ensures none { (result ≢ TABLE) → ran.new ≡ ran.old }
    ensures answers { (left : Option (List ℕ)) → AnswersBy (OfGen (gen_of (texts words.now))) left result ran.new (O.taken out.old) (O.taken out.new) }
    ensures line { (result ≢ TABLE) → (left : Option (List ℕ)) → (said : List ℕ) × IsLine (OfGen (gen_of (texts words.now))) left result said
        × IsSaid (E.taken err.old) (E.taken err.new) (E.faults err.old) (E.faults err.new) said }
{
    match answer_generated(rt, alloc, words, out, gate) {
        Ok(gathered) => {
            *ran = Some(Ran::Gather(gathered));
            TABLE
        }
        Err(why) => stop_of(why).end(Wanted::Groups, err),
    }
}

/// The reason that stands for an answer on generated rows.
fn stop_of(answer: GenAnswer) -> Stop
    ensures { result ≡ stop_of_gen answer }
{
    match answer {
        GenAnswer::Usage => Stop::Usage,
        GenAnswer::WriteFault => Stop::WriteFault,
        GenAnswer::Memory => Stop::Memory,
    }
}
