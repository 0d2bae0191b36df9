//! Parties that go through different numbers of rounds of an exchange, and leave.

ghost use Rattle.std.specs.Prelude.{◌≡◌, IfOk};
ghost use Rattle.lock_book.specs.Shown.{number_of};
ghost use Rattle.par_exchange.specs.Legal.{Each};
ghost use Rattle.par_exchange.specs.Phases.{HasToGive};
ghost use Rattle.par_exchange.specs.Shown.{Belongs, IsExchange, stage_of};
ghost use Rattle.par_exchange.specs.States.{who};
ghost use Rattle.par_exchange.specs.declared.history.PartyStage.TheVariants.{Free, Gone, Leaving};

use lock_book::two_of;
use par_exchange::{Departure, Exchange, ExchangePass, Gathered, Trade};
use std::alloc::{AllocError, Global};
use std::sync::Wait;
use std::thread::{Threads, join};

/// Each party brings its own number, and gets it back. Each may leave.
pub struct Numbers;

impl Trade for Numbers {
    type Token = u64;

    type Sign = ();

    ghost brings = { λ _ n x. x ≡ n };

    ghost gives = { λ _ n x. x ≡ n };

    ghost leaves = { λ _ _. Unit {0} };
}

/// Gives each its own number back.
fn give_back<R: Wait>(
    rt: &R,
    exchange: &Exchange<Numbers>,
    pass: &mut ExchangePass<Numbers>,
    places: Vec<Option<u64>>,
)
    requires exchange { (sign : _) × IsExchange sign exchange.now }
    requires own { Belongs exchange.now pass.old }
    requires has { HasToGive (stage_of pass.old) (who places.items) }
    requires each { Each (λ n x. x ≡ n) places.items }
    ensures own { Belongs exchange.now pass.new × (number_of pass.new ≡ number_of pass.old) }
    ensures gone { (stage_of pass.old ≡ Leaving (who places.items)) → stage_of pass.new ≡ Gone }
{
    let Ok(()) = exchange.scatter(rt, pass, places) else {
        unreachable!()
    };
}

/// One round: brings the number and gets it back.
fn round<R: Wait>(rt: &R, exchange: &Exchange<Numbers>, pass: &mut ExchangePass<Numbers>) -> u64
    requires exchange { (sign : _) × IsExchange sign exchange.now }
    requires own { Belongs exchange.now pass.old }
    requires free { stage_of pass.old ≡ Free }
    ensures own { Belongs exchange.now pass.new × (number_of pass.new ≡ number_of pass.old) }
    ensures free { stage_of pass.new ≡ Free }
    ensures number { result ≡ number_of pass.old }
{
    let number = u64::from(pass.number());
    match exchange.gather(rt, pass, number) {
        Ok(Gathered::Waiting) => {}
        Ok(Gathered::Elected(places)) => give_back(rt, exchange, pass, places),
        Err(_) => unreachable!(),
    }
    exchange.receive(rt, pass)
}

/// Takes part no more. If the others have all brought theirs, each gets it back first.
fn go<R: Wait>(rt: &R, exchange: &Exchange<Numbers>, pass: &mut ExchangePass<Numbers>)
    requires exchange { (sign : _) × IsExchange sign exchange.now }
    requires own { Belongs exchange.now pass.old }
    requires free { stage_of pass.old ≡ Free }
    ensures own { Belongs exchange.now pass.new × (number_of pass.new ≡ number_of pass.old) }
    ensures gone { stage_of pass.new ≡ Gone }
{
    match exchange.leave(rt, pass) {
        Ok(Departure::Left | Departure::Last) => {}
        Ok(Departure::Elected(places)) => give_back(rt, exchange, pass, places),
        Err(_) => unreachable!(),
    }
}

/// Goes through `count` rounds, and leaves: its pass, and what it got last.
pub fn rounds<R: Wait>(
    rt: &R,
    exchange: &Exchange<Numbers>,
    mut pass: ExchangePass<Numbers>,
    count: u64,
) -> (ExchangePass<Numbers>, u64)
    requires exchange { (sign : _) × IsExchange sign exchange.now }
    requires own { Belongs exchange.now pass }
    requires free { stage_of pass ≡ Free }
    ensures own { Belongs exchange.now result.0 × (number_of result.0 ≡ number_of pass) }
    ensures gone { stage_of result.0 ≡ Gone }
    ensures number { result.1 ≡ number_of pass }
{
    let mut last = u64::from(pass.number());
    for _ in 0..count {
        last = round(rt, exchange, &mut pass);
    }
    go(rt, exchange, &mut pass);
    (pass, last)
}

/// An exchange of numbers for two parties, and their passes.
fn for_two(
    alloc: Global,
) -> Result<
    (
        Exchange<Numbers>,
        ExchangePass<Numbers>,
        ExchangePass<Numbers>,
    ),
    AllocError,
>
    ensures exchange { IfOk result (λ r. IsExchange tt r.0) }
    ensures zero { IfOk result (λ r. Belongs r.0 r.1 × (number_of r.1 ≡ 0) × (stage_of r.1 ≡ Free)) }
    ensures one { IfOk result (λ r. Belongs r.0 r.2 × (number_of r.2 ≡ 1) × (stage_of r.2 ≡ Free)) }
{
    let (exchange, passes) = Exchange::new(alloc, 2, ())?;
    let (zero, one) = two_of(passes);
    Ok((exchange, zero, one))
}

/// Two parties, each in a thread: one goes through `count` rounds, and the other through one.
pub fn one_goes_on<R: Threads + Wait + Sync>(
    rt: &R,
    alloc: Global,
    count: u64,
) -> Result<(u64, u64), AllocError>
    ensures { IfOk result (λ r. r ≡ (0, 1)) }
{
    let (exchange, zero, one) = for_two(alloc)?;
    let shared = &exchange;
    let ((_, first), (_, second)) = join(
        rt,
        || rounds(rt, shared, zero, count),
        || rounds(rt, shared, one, 1),
    );
    Ok((first, second))
}
