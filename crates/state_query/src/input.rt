//! The files of an input, put together.

ghost use Rattle.std.specs.Prelude.{◌≡◌, ◌≤◌, ◌++◌, IfErr, IfOk, List, Option, ℕ, false};
ghost use Rattle.std.specs.Io.KnownBytes.{Consumes};
ghost use Rattle.par_io.specs.Faults.{Rose};
ghost use Rattle.state_head.specs.Words.{keys_of};
ghost use Rattle.state_query.specs.Inputs.{IsLoaded, IsOpened, all_keys};
ghost use Rattle.state_query.specs.Whys.{IsReadStop};
ghost use Rattle.state_query.specs.declared.stop.Stop.TheVariants as stop;
ghost use Rattle.state_source.specs.Reading.{EndsAt, HasFront, IsBegun, OfLeft};

use crate::stop::Stop;
use par_io::Source;
use state_front::read_front;
use state_head::{KeyRange, Whole};
use state_load::{LoadCause, LoadFault};
use state_plan::FilePlan;
use state_source::{FirstBytes, add_source, read_first};
use state_whole::{Kept, Sum};
use std::alloc::Global;

/// What the first file of an input says, as all of them have to, and its plan.
#[derive(Drop)]
pub(crate) struct Opened<'a> {
    pub(crate) whole: Whole<'a>,
    pub(crate) range: KeyRange<'a>,
    pub(crate) plan: FilePlan,
}

/// What the files of an input say alike, their plan, and their sum.
#[derive(Drop)]
pub(crate) struct Loaded<'a, 'k> {
    pub(crate) whole: Whole<'a>,
    pub(crate) range: KeyRange<'a>,
    pub(crate) plan: FilePlan,
    pub(crate) sum: Sum<'k>,
}

/// The first bytes of a source.
pub(crate) fn first_of<S: Source>(alloc: Global, source: &mut S) -> Result<FirstBytes, Stop>
    ensures reads { IfOk result (λ first. Consumes (S.left source.old) (S.left source.new) first.bytes.items) }
    ensures begun { IfOk result (IsBegun (S.left source.new)) }
    ensures why { IfErr result (λ why. OfLeft (S.left source.old) (λ bytes. IsReadStop bytes why)) }
    ensures read_fault { IfErr result (λ why. why ≡ stop.ReadFault → Rose (S.faults source.old) (S.faults source.new)) }
    ensures faults { S.faults source.old ≤ S.faults source.new }
{
    match read_first(alloc, source) {
        Ok(first) => Ok(first),
        Err(why) => Err(Stop::of_source(why)),
    }
}

/// The first file of a source, if its first bytes begin with one.
pub(crate) fn open<'a>(alloc: Global, first: &'a FirstBytes) -> Result<Opened<'a>, Stop>
    requires { first.now.ended ≡ false → HasFront first.now.bytes.items }
    ensures opened { IfOk result (IsOpened first.now.bytes.items) }
    ensures why { (left : Option (List ℕ)) → EndsAt first.now.ended left → IfErr result (λ why. OfLeft left (λ more. IsReadStop (first.now.bytes.items ++ more) why)) }
    ensures unread { IfErr result (λ why. (why ≡ stop.ReadFault) → ⊥) }
{
    let front = match read_front(alloc, first.bytes.as_slice()) {
        Ok(front) => front,
        Err(why) => {
            let why = LoadCause::Front { why };
            return Err(Stop::of_load(LoadFault { file: 1, why }));
        }
    };
    let whole = front.head.whole;
    let range = front.head.range;
    match FilePlan::of_whole(alloc, whole) {
        Ok(plan) => Ok(Opened { whole, range, plan }),
        Err(why) => Err(Stop::of_plan(why)),
    }
}

/// The sum of the files of a source, of which the first one was opened: their groups within a range, which are the only
/// ones that take memory.
pub(crate) fn load_within<'a, 'k, S: Source>(
    alloc: Global,
    first: &'a FirstBytes,
    opened: Opened<'a>,
    source: &mut S,
    within: KeyRange<'k>,
) -> Result<Loaded<'a, 'k>, Stop>
    requires opened { IsOpened first.now.bytes.items opened }
    requires end { EndsAt first.now.ended (S.left source.old) }
    ensures loaded { IfOk result (λ loaded. OfLeft (S.left source.old) (λ more. IsLoaded (keys_of within.entry) (first.now.bytes.items ++ more) loaded)) }
    ensures plan { IfOk result (λ loaded. loaded.plan ≡ opened.entry.plan) }
    ensures why { IfErr result (λ why. OfLeft (S.left source.old) (λ more. IsReadStop (first.now.bytes.items ++ more) why)) }
    ensures read_fault { IfErr result (λ why. why ≡ stop.ReadFault → Rose (S.faults source.old) (S.faults source.new)) }
{
    let Opened { whole, range, plan } = opened;
    let columns = plan.bound.group_columns().len() as u32;
    let kept = Kept {
        columns,
        range: within,
    };
    let mut sum = Sum::new(alloc, kept);
    match add_source(alloc, &mut sum, first, source, whole, range, &plan.shape()) {
        Ok(_) => Ok(Loaded {
            whole,
            range,
            plan,
            sum,
        }),
        Err(why) => Err(Stop::of_source(why)),
    }
}

/// The sum of the files of a source, with all groups. Some bytes were read of it already.
pub(crate) fn load<'a, S: Source>(
    alloc: Global,
    first: &'a FirstBytes,
    source: &mut S,
) -> Result<Loaded<'a, 'static>, Stop>
    requires { IsBegun (S.left source.old) first.now }
    ensures loaded { IfOk result (λ loaded. OfLeft (S.left source.old) (λ more. IsLoaded all_keys (first.now.bytes.items ++ more) loaded)) }
    ensures why { IfErr result (λ why. OfLeft (S.left source.old) (λ more. IsReadStop (first.now.bytes.items ++ more) why)) }
    ensures read_fault { IfErr result (λ why. why ≡ stop.ReadFault → Rose (S.faults source.old) (S.faults source.new)) }
{
    let opened = open(alloc, first)?;
    let within = KeyRange {
        low: b"",
        high: b"",
    };
    load_within(alloc, first, opened, source, within)
}
