//! Three threads write in parts of a region, exchange the parts, and each reads what another wrote.

ghost use Rattle.std.specs.Prelude.{◌≡◌, ◌+◌, ◌%◌, ◌<◌, IfOk, IsSome, length, replicate, true};
ghost use Rattle.word_map.specs.WordMap.{at as word_at};
ghost use Rattle.lock_book.specs.Shown.{number_of};
ghost use Rattle.par_exchange.specs.Legal.{Each};
ghost use Rattle.par_exchange.specs.Shown.{Belongs, IsExchange, parties_of, stage_of};
ghost use Rattle.par_exchange.specs.States.{who};
ghost use Rattle.par_exchange.specs.declared.history.PartyStage.TheVariants.{Elected, Free};
ghost use Rattle.uses_book.specs.Trading.{brings, gives};
ghost use Rattle.uses_book.specs.Hands.{IsOpen, IsReady};

use crate::trade::Parts;
use par_exchange::{Exchange, ExchangePass, Gathered};
use region_words::{Part, Region};
use std::alloc::{AllocError, Global};
use std::sync::Wait;
use std::thread::{Threads, join};

/// The party after this one, of three.
fn after(n: u64) -> u64
    requires { n < 3 }
    ensures { result ≡ (n + 1) % 3 }
{
    (n + 1) % 3
}

/// Each party's part goes to the party before it.
fn rotate(parts: &mut Vec<Option<Part>>)
    requires count { length parts.old.items ≡ 3 }
    requires all { who parts.old.items ≡ replicate 3 true }
    ensures all { who parts.new.items ≡ replicate 3 true }
    ensures each { (base : _) → Each (brings base) parts.old.items → Each (gives base) parts.new.items }
{
    parts.swap(0, 1);
    parts.swap(1, 2);
}

/// The elected gives each party the part of the next.
fn give_out<R: Wait>(
    rt: &R,
    region: &Region,
    exchange: &Exchange<Parts>,
    pass: &mut ExchangePass<Parts>,
    mut parts: Vec<Option<Part>>,
)
    requires open { IsOpen region.now exchange.now }
    requires own { Belongs exchange.now pass.old }
    requires elected { stage_of pass.old ≡ Elected (replicate 3 true) }
    requires count { length parts.items ≡ 3 }
    requires all { who parts.items ≡ replicate 3 true }
    requires parts { (base : _) → IsExchange base exchange.now → Each (brings base) parts.items }
    ensures own { Belongs exchange.now pass.new × (number_of pass.new ≡ number_of pass.old) }
{
    let _ = region;
    rotate(&mut parts);
    let Ok(()) = exchange.scatter(rt, pass, parts) else {
        unreachable!()
    };
}

/// Brings a part, and gives all parts out if the party is elected.
fn bring<R: Wait>(
    rt: &R,
    region: &Region,
    exchange: &Exchange<Parts>,
    pass: &mut ExchangePass<Parts>,
    part: Part,
)
    requires open { IsOpen region.now exchange.now }
    requires own { Belongs exchange.now pass.old }
    requires free { stage_of pass.old ≡ Free }
    requires part { (base : _) → IsExchange base exchange.now → brings base (number_of pass.old) part }
    ensures own { Belongs exchange.now pass.new × (number_of pass.new ≡ number_of pass.old) }
{
    match exchange.gather(rt, pass, part) {
        Ok(Gathered::Waiting) => {}
        Ok(Gathered::Elected(parts)) => give_out(rt, region, exchange, pass, parts),
        Err(_) => unreachable!(),
    }
}

/// What a party has: its pass, and its own part.
#[derive(Drop)]
pub struct Hand {
    pub pass: ExchangePass<Parts>,
    pub part: Part,
}

/// In phase 1 the party writes in its part, and brings it. In phase 2 it reads in the part that it is given what the
/// party after it wrote.
pub fn party<R: Wait>(rt: &R, region: &Region, exchange: &Exchange<Parts>, hand: Hand) -> u64
    requires open { IsOpen region.now exchange.now }
    requires ready { IsReady region.now exchange.now hand.pass hand.part }
    ensures { result ≡ (number_of hand.pass + 1) % 3 + 40 }
{
    let Hand { mut pass, mut part } = hand;
    let n = u64::from(pass.number());
    part.store(region, n, n + 40);
    bring(rt, region, exchange, &mut pass, part);
    let mut got = exchange.receive(rt, &mut pass);
    got.load(region, after(n))
}

/// Two of the parties, side by side.
fn two_parties<R: Threads + Wait + Sync>(
    rt: &R,
    region: &Region,
    exchange: &Exchange<Parts>,
    one: Hand,
    two: Hand,
) -> (u64, u64)
    requires open { IsOpen region.now exchange.now }
    requires one { IsReady region.now exchange.now one.pass one.part × (number_of one.pass ≡ 1) }
    requires two { IsReady region.now exchange.now two.pass two.part × (number_of two.pass ≡ 2) }
    ensures { result ≡ (42, 40) }
{
    join(
        rt,
        || -> u64
            requires { IsOpen region.now exchange.now × IsReady region.now exchange.now one.pass one.part × (number_of one.pass ≡ 1) }
            ensures { result ≡ 42 }
        { party(rt, region, exchange, one) },
        || -> u64
            requires { IsOpen region.now exchange.now × IsReady region.now exchange.now two.pass two.part × (number_of two.pass ≡ 2) }
            ensures { result ≡ 40 }
        { party(rt, region, exchange, two) },
    )
}

/// All three: what each reads is what the next one wrote.
pub fn three_parties<R: Threads + Wait + Sync>(
    rt: &R,
    region: &Region,
    exchange: &Exchange<Parts>,
    zero: Hand,
    one: Hand,
    two: Hand,
) -> (u64, (u64, u64))
    requires open { IsOpen region.now exchange.now }
    requires zero { IsReady region.now exchange.now zero.pass zero.part × (number_of zero.pass ≡ 0) }
    requires one { IsReady region.now exchange.now one.pass one.part × (number_of one.pass ≡ 1) }
    requires two { IsReady region.now exchange.now two.pass two.part × (number_of two.pass ≡ 2) }
    ensures { result ≡ (41, (42, 40)) }
{
    join(
        rt,
        || -> u64
            requires { IsOpen region.now exchange.now × IsReady region.now exchange.now zero.pass zero.part × (number_of zero.pass ≡ 0) }
            ensures { result ≡ 41 }
        { party(rt, region, exchange, zero) },
        || -> (u64, u64)
            requires { IsOpen region.now exchange.now × IsReady region.now exchange.now one.pass one.part × (number_of one.pass ≡ 1) × IsReady region.now exchange.now two.pass two.part × (number_of two.pass ≡ 2) }
            ensures { result ≡ (42, 40) }
        { two_parties(rt, region, exchange, one, two) },
    )
}

/// A region of four words, the part of the last of them, and a part of each of the others.
#[tactic(auto, using(word_map::proofs::Maps::answers, std::proofs::lemmas::Bool::Decides::nat_tests))]
fn three_parts(alloc: Global) -> Result<(Region, Part, (Part, Part, Part)), AllocError>
    ensures last { IfOk result (λ r. r.1.region ≡ r.0) }
    ensures here { IfOk result (λ r. (r.2.0.region ≡ r.0) × (r.2.1.region ≡ r.0) × (r.2.2.region ≡ r.0)) }
    ensures words { IfOk result (λ r. IsSome (word_at r.2.0.words 0) × IsSome (word_at r.2.1.words 1) × IsSome (word_at r.2.2.words 2)) }
{
    let (region, mut last) = Region::new(alloc, 4)?;
    let zero = last.split(&region, 0, 1);
    let one = last.split(&region, 1, 1);
    let two = last.split(&region, 2, 1);
    Ok((region, last, (zero, one, two)))
}

/// A region, an exchange of its parts for three parties, and what each party has: the word of its number.
pub fn for_three(alloc: Global) -> Result<(Region, Exchange<Parts>, Hand, Hand, Hand), AllocError>
    ensures open { IfOk result (λ r. IsOpen r.0 r.1) }
    ensures zero { IfOk result (λ r. IsReady r.0 r.1 r.2.pass r.2.part × (number_of r.2.pass ≡ 0)) }
    ensures one { IfOk result (λ r. IsReady r.0 r.1 r.3.pass r.3.part × (number_of r.3.pass ≡ 1)) }
    ensures two { IfOk result (λ r. IsReady r.0 r.1 r.4.pass r.4.part × (number_of r.4.pass ≡ 2)) }
{
    let (region, last, (zero, one, two)) = three_parts(alloc)?;
    let (exchange, mut passes) = Exchange::new(alloc, 3, last)?;
    let Some(third) = passes.pop() else {
        unreachable!()
    };
    let Some(second) = passes.pop() else {
        unreachable!()
    };
    let Some(first) = passes.pop() else {
        unreachable!()
    };
    let zero = Hand {
        pass: first,
        part: zero,
    };
    let one = Hand {
        pass: second,
        part: one,
    };
    let two = Hand {
        pass: third,
        part: two,
    };
    Ok((region, exchange, zero, one, two))
}
