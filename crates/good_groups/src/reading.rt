//! The groups of the good rows.

ghost use Rattle.std.specs.Prelude.{◌≡◌, ◌<◌, ◌≤◌, ◌++◌, ◌∷◌, [], ℕ, List, None, Option, Err, IfErr, IfOk, IfSome, OnErr, OnOk, Some, length, true};
ghost use Rattle.csv_rows.specs.Cuts.{IsCut};
ghost use Rattle.csv_rows.specs.Readings.{records_as};
ghost use Rattle.csv_rows.specs.declared.place.Place.TheVariants as place;
ghost use Rattle.par_io.specs.Faults.{Rose};
ghost use Rattle.csv_rows.specs.Records.{record_at};
ghost use Rattle.stream_groups.specs.Reading.{AreGroupsOver, IsBound};
ghost use Rattle.stream_groups.specs.Sources.{bare_faults, bare_left};
ghost use Rattle.stream_groups.specs.Stops.{Tells};
ghost use Rattle.stream_groups.specs.Ways.{of_bytes, of_text};
ghost use Rattle.stream_groups.specs.declared.stop.Stop.TheVariants as stop;
ghost use Rattle.good_groups.specs.Begun.{IsBegunOver, IsFirstOf};
ghost use Rattle.good_groups.specs.Counted.{AreRules};
ghost use Rattle.good_groups.specs.Opened.{Opened};
ghost use Rattle.good_groups.specs.declared.sifter.Rules.{Rules};
ghost use Rattle.good_groups.specs.Good.{IsLeftOut, NamesIfNone, good_way};
ghost use Rattle.good_groups.specs.Sieve.{IsSieve};
ghost use Rattle.good_groups.specs.Sifting.{IsSifting, sifting_left};

use crate::bytes::Bytes;
use crate::origin::Origin;
use crate::piece::Piece;
use crate::sieve::{Sieve, Sifting};
use crate::sifter::{Rules, Sifter};
use crate::tally::Tally;
use csv_rows::{Place, scanned, without_mark};
use par_io::Source;
use par_model::BoundPlan;
use plan_spec::{MOST_WORKERS, Plan};
use std::alloc::{AllocError, Global};
use std::marker::{Brand, PhantomData};
use std::snapshot::Snapshot;
use std::sync::Wait;
use std::thread::Threads;
use stream_groups::{
    First, Progress, ReadGroups, RefusedRow, Separated, Stop, Taken, bind, first_window,
    read_groups,
};

/// How many rows were left out, at least one, and the first of them.
#[derive(Drop)]
pub struct LeftOut {
    pub count: u64,
    pub first: RefusedRow,
}

/// The groups of the good rows, and what was left out.
#[derive(Drop)]
pub struct GoodGroups {
    pub groups: ReadGroups,
    pub left_out: Option<LeftOut>,
}

/// The most bytes of the first window, unless a record is longer.
const FIRST_BYTES: usize = 4096;

/// Reads the whole source as `read_input` of `stream_groups` does, but leaves out the rows that are refused, if there are at
/// most this many of them. If there are more the reason is the first one, as it is without. Lines are judged in the caller's
/// thread, as they are read, those of a piece at once, with the memory of their fields.
pub fn read_good<R: Threads + Wait + Sync, S: Source, P: Progress>(
    rt: &R,
    alloc: Global,
    plan: &Plan,
    workers: u32,
    most: u64,
    source: &mut Separated<S>,
    size: usize,
    progress: &mut P,
) -> Result<GoodGroups, Stop>
    requires workers { workers ≤ MOST_WORKERS }
    ensures groups { IfOk result (λ g. AreGroupsOver (good_way (of_bytes plan.now.reading) plan.now) plan.now (bare_left S.left source.old) g.groups) }
    ensures left_out { IfOk result (λ g. IsLeftOut (of_bytes plan.now.reading) plan.now most (bare_left S.left source.old) g.left_out) }
    ensures why { IfErr result (Tells (of_bytes plan.now.reading) plan.now (bare_left S.left source.old)) }
    ensures many { IfErr result (NamesIfNone (of_bytes plan.now.reading) plan.now most (bare_left S.left source.old)) }
    ensures read_fault { IfErr result (λ why. why ≡ stop.ReadFault → Rose (bare_faults S.faults source.old) (bare_faults S.faults source.new)) }
    ensures no_write { IfErr result (λ why. (why ≡ stop.WriteFault) → ⊥) }
{
    source.separate(plan.reading().separator);
    read_text(rt, alloc, plan, workers, most, source, size, progress)
}

/// The same of a text in which the comma and the plan's separator are exchanged.
fn read_text<R: Threads + Wait + Sync, S: Source, P: Progress>(
    rt: &R,
    alloc: Global,
    plan: &Plan,
    workers: u32,
    most: u64,
    source: &mut S,
    size: usize,
    progress: &mut P,
) -> Result<GoodGroups, Stop>
    requires workers { workers ≤ MOST_WORKERS }
    ensures groups { IfOk result (λ g. AreGroupsOver (good_way (of_text plan.now.reading) plan.now) plan.now (S.left source.old) g.groups) }
    ensures left_out { IfOk result (λ g. IsLeftOut (of_text plan.now.reading) plan.now most (S.left source.old) g.left_out) }
    ensures why { IfErr result (Tells (of_text plan.now.reading) plan.now (S.left source.old)) }
    ensures many { IfErr result (NamesIfNone (of_text plan.now.reading) plan.now most (S.left source.old)) }
    ensures read_fault { IfErr result (λ why. why ≡ stop.ReadFault → Rose (S.faults source.old) (S.faults source.new)) }
    ensures no_write { IfErr result (λ why. (why ≡ stop.WriteFault) → ⊥) }
{
    let begun = Snapshot::of(source);
    let Front {
        first,
        bound,
        sifting,
    } = read_front(rt, alloc, plan, source, size)?;
    let rules = rules_of(plan, &bound, &first, most);
    let (read, back) = read_rows::<R, S, P, Brand>(
        rt, alloc, begun, rules, sifting, workers, source, size, progress,
    );
    give_back(back);
    read
}

/// What the lines after a header are judged by.
fn rules_of<'a>(plan: &'a Plan, bound: &'a BoundPlan, first: &'a First, most: u64) -> Rules<'a>
    requires some { 0 < length first.now.header }
    ensures plan { result.plan.now ≡ plan.now }
    ensures bound { result.bound.now ≡ bound.now }
    ensures header { result.header.now ≡ first.now.window.header }
    ensures width { result.width ≡ length (record_at first.now.header 0) }
    ensures most { result.most ≡ most }
{
    Rules {
        plan,
        bound,
        header: first.window.header(),
        width: first.header.width(0),
        most,
    }
}

/// Lets a source go that was lent.
fn give_back<S>(source: &mut S)
    ensures { source.new ≡ source.old }
{}

/// The first window of a source, the plan over its header, and what is sifted after it.
#[derive(Drop)]
struct Front {
    first: First,
    bound: BoundPlan,
    sifting: Sifting,
}

/// Reads up to the header, and maybe some lines after it.
fn read_front<R: Wait, S: Source>(
    rt: &R,
    alloc: Global,
    plan: &Plan,
    source: &mut S,
    size: usize,
) -> Result<Front, Stop>
    ensures bound { IfOk result (λ f. IsBound plan.now (record_at f.first.header 0) f.bound) }
    ensures one { IfOk result (λ f. records_as plan.now.reading f.first.window.header ≡ record_at f.first.header 0 ∷ []) }
    ensures some { IfOk result (λ f. 0 < length f.first.header) }
    ensures first { IfOk result (λ f. (o : Opened) (r : Rules) → AreRules o r → o.query ≡ plan.now → o.from ≡ S.left source.old → o.header ≡ record_at f.first.header 0 → r.header.now ≡ f.first.window.header → IsBegunOver o (S.left source.new) r f.sifting) }
    ensures why { IfErr result (Tells (of_text plan.now.reading) plan.now (S.left source.old)) }
    ensures many { IfErr result (λ why. (most : ℕ) → NamesIfNone (of_text plan.now.reading) plan.now most (S.left source.old) why) }
    ensures read_fault { IfErr result (λ why. why ≡ stop.ReadFault → Rose (S.faults source.old) (S.faults source.new)) }
    ensures faults { S.faults source.old ≤ S.faults source.new }
    ensures no_write { IfErr result (λ why. (why ≡ stop.WriteFault) → ⊥) }
{
    let mut taken = Taken::Bytes(0);
    let size = size.min(FIRST_BYTES);
    let first = first_window(rt, alloc, plan.reading(), source, size, &mut taken)?;
    let Taken::Bytes(_) = taken else {
        return Err(Stop::Memory);
    };
    let bound = bind(alloc, plan, &first.header)?;
    let sifting = begin(alloc, &first)?;
    Ok(Front {
        first,
        bound,
        sifting,
    })
}

/// The same after the header, of which some lines may be there already, of a source that was so when the reading began. Gives
/// the source back.
fn read_rows<'a, R: Threads + Wait + Sync, S: Source, P: Progress, I: Origin>(
    rt: &R,
    alloc: Global,
    _begun: Snapshot<S>,
    rules: Rules<'_>,
    sifting: Sifting,
    workers: u32,
    source: &'a mut S,
    size: usize,
    progress: &mut P,
) -> (Result<GoodGroups, Stop>, &'a mut S)
    requires workers { workers ≤ MOST_WORKERS }
    requires sieve { IsSieve I.start source.ghost_name (S.left source.now) rules sifting }
    requires fresh { sifting.lacks ≡ 0 }
    ensures same_reference { result.1.ghost_name ≡ source.entry.ghost_name }
    ensures over { IfOk result.0 (λ g. AreGroupsOver (of_text rules.entry.plan.now.reading) rules.entry.plan.now (sifting_left rules.entry (S.left source.entry.now) sifting) g.groups) }
    ensures left_out { IfOk result.0 (λ g. IfSome I.start (λ s. IsLeftOut (of_text s.query.reading) s.query s.most s.from g.left_out)) }
    ensures why { IfErr result.0 (λ why. IfSome I.start (λ s. Tells (of_text s.query.reading) s.query s.from why)) }
    ensures many { IfErr result.0 (λ why. IfSome I.start (λ s. NamesIfNone (of_text s.query.reading) s.query s.most s.from why)) }
    ensures read_fault { IfErr result.0 (λ why. why ≡ stop.ReadFault → Rose (S.faults source.entry.now) (S.faults result.1.now)) }
    ensures no_write { IfErr result.0 (λ why. (why ≡ stop.WriteFault) → ⊥) }
{
    let plan = rules.plan;
    let mut sieve: Sieve<'a, '_, S, I> = Sieve {
        source,
        alloc,
        rules,
        sifting,
        origin: PhantomData,
    };
    let mut taken = Taken::Bytes(0);
    let read = read_groups(
        rt, alloc, plan, workers, &mut sieve, size, progress, &mut taken,
    );
    let Sieve {
        source,
        sifting,
        ..
    } = sieve;
    (answer_of(alloc, read, sifting), source)
}

/// What a reading of good rows came to, as far as the text was sifted.
fn answer_of(
    alloc: Global,
    read: Result<ReadGroups, Stop>,
    sifting: Sifting,
) -> Result<GoodGroups, Stop>
    ensures groups { IfOk result (λ g. IfOk read (λ r. g.groups ≡ r)) }
    ensures ok { OnOk result (OnErr read ⊥) }
    ensures left_out { IfOk result (λ g. (o : Opened) (left : Option (List ℕ)) (r : Rules) → AreRules o r → IsSifting o left r sifting → IsLeftOut (of_text o.query.reading) o.query o.most o.from g.left_out) }
    ensures why { IfErr result (λ why. (o : Opened) (left : Option (List ℕ)) (r : Rules) → AreRules o r → IsSifting o left r sifting → Tells (of_text o.query.reading) o.query o.from why) }
    ensures many { IfErr result (λ why. (o : Opened) (left : Option (List ℕ)) (r : Rules) → AreRules o r → IsSifting o left r sifting → NamesIfNone (of_text o.query.reading) o.query o.most o.from why) }
    ensures read_fault { IfErr result (λ why. why ≡ stop.ReadFault → (read ≡ Err stop.ReadFault) × ((o : Opened) (left : Option (List ℕ)) (r : Rules) → IsSifting o left r sifting → sifting.lacks ≡ 0)) }
    ensures no_write { IfErr result (λ why. (why ≡ stop.WriteFault) → ⊥) }
{
    match read {
        Ok(groups) => {
            let left_out = sifting.end()?;
            Ok(GoodGroups { groups, left_out })
        }
        Err(Stop::ReadFault) => Err(sifting.why(alloc)),
        Err(_) => Err(Stop::Memory),
    }
}

/// Begins to sift what comes after the header: nothing, if there is no line.
fn begin(alloc: Global, first: &First) -> Result<Sifting, AllocError>
    ensures { IfOk result (λ s. (o : Opened) (left : Option (List ℕ)) (r : Rules) → AreRules o r → IsFirstOf o left r first.now → IsBegunOver o left r s) }
{
    let text = text_after(alloc, first)?;
    let mut ahead = Bytes::new(Vec::new(alloc));
    ahead.put(first.window.header())?;
    let mut line = Vec::new(alloc);
    if text.is_empty() {
        let pending = Piece::new(text)?;
        return Ok(sifting_of(line, pending, ahead, first.feeds, true));
    }
    line.push(text[0])?;
    let mut pending = Piece::new(text)?;
    pending.skip(1);
    Ok(sifting_of(line, pending, ahead, first.feeds, false))
}

/// What was read after the header, whose line ends outside quotes if there is any. The last window has no rest. If either
/// should not be so, memory is said to lack.
fn text_after(alloc: Global, first: &First) -> Result<Vec<u8>, AllocError>
    ensures text { IfOk result (λ text. text.items ≡ first.now.window.lines ++ first.now.window.rest) }
    ensures last { OnOk result (first.now.is_last ≡ true → first.now.window.rest ≡ []) }
    ensures cut { IfOk result (λ text. 0 < length text.items → IsCut first.now.window.header) }
{
    let rest = first.window.rest();
    if first.is_last && !rest.is_empty() {
        return Err(AllocError);
    }
    let mut text = Vec::from_slice(alloc, first.window.lines())?;
    text.extend_from_slice(rest)?;
    if !text.is_empty() && !is_cut(first.window.header()) {
        return Err(AllocError);
    }
    Ok(text)
}

/// Whether bytes end outside quotes.
fn is_cut(bytes: &[u8]) -> bool
    ensures { result ≡ true → IsCut bytes.now }
{
    scanned(without_mark(bytes), Place::Opens) != Place::Quoted
}

/// A text of which nothing was counted yet, after this many line feeds.
fn sifting_of(line: Vec<u8>, pending: Piece, ahead: Bytes, feeds: u64, is_done: bool) -> Sifting
    ensures { result ≡ record { sifter = record { line = line; place = place.Opens; pending = pending; ahead = ahead; tally = record { rows = 0; feeds = feeds; count = 0; first = None } }; is_done = is_done; halt = None; lacks = 0 } }
{
    Sifting {
        sifter: Sifter {
            line,
            place: Place::Opens,
            pending,
            ahead,
            tally: Tally {
                rows: 0,
                feeds,
                count: 0,
                first: None,
            },
        },
        is_done,
        halt: None,
        lacks: 0,
    }
}
