//! A chain grows: what no caller of the library for C sees of it, whose tests call the rest by random steps (`c/tests/model_test.c`).
ghost use Rattle.std.specs.Prelude.{◌≤◌, IfOk, IfSome};
ghost use Rattle.sf_keyed_chain.specs.Chains.{IsOf, IsTokenOf};

use sf_keyed::{Audience, Claim, Name, Refusal};
use sf_keyed_chain::{ChainFront, Flight, Forgotten, KeyedChain, Reply, Settled, Stamp};
use std::alloc::{AllocError, Global};
use std::test::Fail;

const TRIES: u32 = 10;

const LOW: u64 = 0x9E37_79B9_7F4A_7C15;

const HIGH: u64 = 0xC2B2_AE3D_27D4_EB4F;

fn name(n: u64) -> Name {
    Name { low: n, high: 0 }
}

// Leads a call of the name with this number in this cell.
fn leads(chain: &KeyedChain, me: &mut ChainFront, n: u64, cell: u64) -> Option<Flight>
    requires { IsOf chain.now me.old }
    ensures of { IsOf chain.now me.new }
    ensures own { IfSome result (λ flight. IsTokenOf chain.now flight) }
{
    if chain.claim(me, cell) != Claim::Ready {
        return None;
    }
    match chain.ask(me, name(n), TRIES) {
        Reply::Led(flight, _) => Some(flight),
        Reply::Joined(_) => None,
        Reply::Refused(_) => None,
    }
}

// The number and the stamp of a call of the name that is led in this cell and settled alone.
fn loads(chain: &KeyedChain, me: &mut ChainFront, name: Name, cell: u64) -> Option<(u64, Stamp)>
    requires { IsOf chain.now me.old }
    ensures { IsOf chain.now me.new }
{
    if chain.claim(me, cell) != Claim::Ready {
        return None;
    }
    match chain.ask(me, name, TRIES) {
        Reply::Led(flight, stamp) => {
            let call = flight.call();
            chain.settle(me, flight, 0);
            Some((call, stamp))
        }
        Reply::Joined(_) => None,
        Reply::Refused(_) => None,
    }
}

// Whether the name's call is open, and is joined.
fn joins(chain: &KeyedChain, me: &mut ChainFront, n: u64) -> bool
    requires { IsOf chain.now me.old }
    ensures { IsOf chain.now me.new }
{
    match chain.ask(me, name(n), TRIES) {
        Reply::Joined(_) => true,
        Reply::Led(_, _) => false,
        Reply::Refused(_) => false,
    }
}

// Whether an asking is refused for this cause.
fn is_refused(chain: &KeyedChain, me: &mut ChainFront, n: u64, cause: Refusal) -> bool
    requires { IsOf chain.now me.old }
    ensures { IsOf chain.now me.new }
{
    match chain.ask(me, name(n), TRIES) {
        Reply::Refused(why) => why == cause,
        Reply::Led(_, _) => false,
        Reply::Joined(_) => false,
    }
}

// Makes so many tables behind the last one that the caller knows, or gets to know them. Whether there is memory.
fn grows(chain: &KeyedChain, alloc: Global, me: &mut ChainFront, times: u32) -> bool
    requires { IsOf chain.now me.old }
    ensures { IsOf chain.now me.new }
{
    for _ in 0..times {
        match chain.grow(alloc, me) {
            Ok(true) => {}
            Ok(false) => return false,
            Err(_) => return false,
        }
    }
    true
}

// A chain whose first table has so many cells, and a caller.
fn opened(alloc: Global, cells: u64) -> Result<(KeyedChain, ChainFront), AllocError>
    requires { (1 ≤ cells) × (cells ≤ 16) }
    ensures { IfOk result (λ made. IsOf made.0 made.1) }
{
    let chain = KeyedChain::new(alloc, cells, LOW, HIGH)?;
    let me = chain.caller(alloc, 1)?;
    Ok((chain, me))
}

// Leads a call in each of these cells, by a name of its own.
fn leads_all(chain: &KeyedChain, me: &mut ChainFront, from: u64, until: u64) -> bool
    requires { IsOf chain.now me.old }
    ensures { IsOf chain.now me.new }
{
    for at in from..until {
        if leads(chain, me, at, at).is_none() {
            return false;
        }
    }
    true
}

// Joins the calls of four names.
fn joins_four(chain: &KeyedChain, me: &mut ChainFront) -> bool
    requires { IsOf chain.now me.old }
    ensures { IsOf chain.now me.new }
{
    joins(chain, me, 0) && joins(chain, me, 1) && joins(chain, me, 2) && joins(chain, me, 3)
}

// Settles the call, and gives the leader's own ticket back. Returns how many hold the call, if its value is told.
fn told(chain: &KeyedChain, me: &mut ChainFront, flight: Flight, value: u64) -> Option<Audience>
    requires of { IsOf chain.now me.old }
    requires own { IsTokenOf chain.now flight }
    ensures { IsOf chain.now me.new }
{
    match chain.settle(me, flight, value) {
        Settled::Alone => None,
        Settled::Told(ticket, audience) => {
            chain.leave(me, ticket);
            Some(audience)
        }
    }
}

// Whether no cell is left for this one more.
fn is_full(chain: &KeyedChain, me: &mut ChainFront, more: u64) -> bool
    requires { IsOf chain.now me.old }
    ensures { IsOf chain.now me.new }
{
    chain.claim(me, more) == Claim::InUse && is_refused(chain, me, more, Refusal::NoCell)
}

#[test]
fn a_full_table_is_followed_by_a_larger_one(rt: HostRuntime) -> Result<(), Fail> {
    let (chain, mut me) = opened(rt.alloc(), 2)?;
    assert!(rt; leads_all(&chain, &mut me, 0, 2) && is_full(&chain, &mut me, 2));
    assert!(rt; grows(&chain, rt.alloc(), &mut me, 1) && leads_all(&chain, &mut me, 2, 4));
    // What was led in the first table is joined there.
    assert!(rt; joins_four(&chain, &mut me));
    Ok(())
}

// Makes three tables more, loads the name 1, and forgets it in all four. The stamp that it had.
fn forgotten_stamp(chain: &KeyedChain, alloc: Global, me: &mut ChainFront) -> Option<Stamp>
    requires { IsOf chain.now me.old }
    ensures { IsOf chain.now me.new }
{
    if !grows(chain, alloc, me, 3) {
        return None;
    }
    let Some((_, stamp)) = loads(chain, me, name(1), 0) else {
        return None;
    };
    if chain.forget(me, name(1), TRIES) == Forgotten::Nothing(3) {
        Some(stamp)
    } else {
        None
    }
}

// Whether the other knows one table, and all four by a note.
fn hears(chain: &KeyedChain, alloc: Global, me: &mut ChainFront, other: &mut ChainFront) -> bool
    requires { IsOf chain.now me.old × IsOf chain.now other.old }
    ensures { IsOf chain.now me.new × IsOf chain.now other.new }
{
    let Ok(note) = chain.tell(alloc, me) else {
        return false;
    };
    let before = other.tables();
    chain.hear(other, note);
    before == 1 && other.tables() == 4
}

#[test]
fn a_note_makes_its_tables_and_forgets_known(rt: HostRuntime) -> Result<(), Fail> {
    let (chain, mut me) = opened(rt.alloc(), 4)?;
    let mut other = chain.caller(rt.alloc(), 2)?;
    let Some(stamp) = forgotten_stamp(&chain, rt.alloc(), &mut me) else {
        panic!(rt; "nothing is led, or the Forget finds a call")
    };
    let heard = hears(&chain, rt.alloc(), &mut me, &mut other);
    assert!(rt; heard && !chain.is_still(&mut other, stamp));
    Ok(())
}

// Whether a table with an open call is passed over once that is settled. It has 64 slots, of which each asking sweeps 16.
fn is_passed_once_it_is_idle(chain: &KeyedChain, alloc: Global, me: &mut ChainFront) -> bool
    requires { IsOf chain.now me.old }
    ensures { IsOf chain.now me.new }
{
    let Some(flight) = leads(chain, me, 100, 0) else {
        return false;
    };
    if !grows(chain, alloc, me, 1) || !leads_all(chain, me, 0, 8) || me.passed() != 0 {
        return false;
    }
    if told(chain, me, flight, 1).is_some() {
        return false;
    }
    leads_all(chain, me, 8, 16) && me.passed() == 1
}

// Whether the name's next call is led, and forgotten, in the newer table.
fn leads_in_the_newer(chain: &KeyedChain, me: &mut ChainFront) -> bool
    requires { IsOf chain.now me.old }
    ensures { IsOf chain.now me.new }
{
    let Some(next) = leads(chain, me, 100, 20) else {
        return false;
    };
    next.table() == 1 && matches!(chain.forget(me, name(100), TRIES), Forgotten::Closed(1, _))
}

#[test]
fn tables_that_are_swept_are_passed_over(rt: HostRuntime) -> Result<(), Fail> {
    let (chain, mut me) = opened(rt.alloc(), 16)?;
    assert!(rt; is_passed_once_it_is_idle(&chain, rt.alloc(), &mut me));
    // The call of the older table is over.
    assert!(rt; leads_in_the_newer(&chain, &mut me));
    Ok(())
}

// Whether the stamp of these numbers is current.
fn is_still(chain: &KeyedChain, me: &mut ChainFront, table: usize, slot: u64, age: u64) -> bool
    requires { IsOf chain.now me.old }
    ensures { IsOf chain.now me.new }
{
    chain.is_still(me, Stamp { table, slot, age })
}

// Whether one of no table, slot or age that is there is not.
fn are_others_not(chain: &KeyedChain, me: &mut ChainFront, slot: u64, age: u64) -> bool
    requires { IsOf chain.now me.old }
    ensures { IsOf chain.now me.new }
{
    !is_still(chain, me, 1, slot, age)
        && !is_still(chain, me, 24, slot, age)
        && !is_still(chain, me, 0, 64, age)
        && !is_still(chain, me, 0, slot, age.wrapping_add(1))
}

#[test]
fn a_stamp_of_no_table_is_not_current(rt: HostRuntime) -> Result<(), Fail> {
    let (chain, mut me) = opened(rt.alloc(), 4)?;
    let Some((_, stamp)) = loads(&chain, &mut me, name(1), 0) else {
        panic!(rt; "nothing is loaded")
    };
    let Stamp { slot, age, .. } = stamp;
    assert!(rt; is_still(&chain, &mut me, 0, slot, age));
    assert!(rt; are_others_not(&chain, &mut me, slot, age));
    Ok(())
}

// The slot of a name that is loaded.
fn slot_of(chain: &KeyedChain, me: &mut ChainFront, name: Name) -> Option<u64>
    requires { IsOf chain.now me.old }
    ensures { IsOf chain.now me.new }
{
    match loads(chain, me, name, 0) {
        Some((_, stamp)) => Some(stamp.slot),
        None => None,
    }
}

#[test]
fn the_slot_of_a_name_is_by_both_seeds(rt: HostRuntime) -> Result<(), Fail> {
    let (chain, mut me) = opened(rt.alloc(), 4)?;
    // The upper six bits of the hash, since the table has 64 slots, as a program by hand has them of the definition: without the seeds, or
    // with the two in each other's place, other slots come out.
    assert!(rt; slot_of(&chain, &mut me, name(1)) == Some(59));
    let by_high = Name { low: 0, high: 1 };
    assert!(rt; slot_of(&chain, &mut me, by_high) == Some(53));
    Ok(())
}
