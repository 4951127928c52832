//! The counters of a fill.

ghost use Rattle.std.specs.Prelude.{◌≡◌, ◌-◌, ◌<◌, ◌^◌};
ghost use Rattle.sf_fill_counters.specs.Totals.{AreNamed, IsOfOneGet};

use sf_fill_counters::{Accounts, GetCounts, Ledgers, Naming, Tallies, Totals};
use sf_loaders::Counts;
use std::marker::Brand;
use std::process::Abort;

fn cache_hit() -> GetCounts
    ensures { IsOfOneGet result }
{
    GetCounts {
        gets: 1,
        cache_hits: 1,
        loads: 0,
        run: Counts::default(),
    }
}

fn peer_load() -> GetCounts
    ensures { IsOfOneGet result }
{
    let run = Counts {
        loads_deduped: 1,
        peer_loads: 1,
        ..Counts::default()
    };
    GetCounts {
        gets: 1,
        cache_hits: 0,
        loads: 1,
        run,
    }
}

// A getter's get counts so, which is entered.
fn count_get<N: Naming>(accounts: &mut Accounts<N>, tallies: &mut Tallies<N>, counts: GetCounts)
    requires room { tallies.old.counted.gets < 2 ^ 64 - 1 }
    requires one { IsOfOneGet counts }
{
    tallies.count(counts);
    accounts.enter(tallies);
}

// What the two getters gathered.
fn gathered<N: Naming>(accounts: &mut Accounts<N>, one: Tallies<N>, other: Tallies<N>) -> Totals
    requires { N.getters ≡ 2 }
{
    let mut all = accounts.end(one);
    all.take(accounts.end(other));
    accounts.gathered(&mut all)
}

// One getter hits a cache, and the other one loads from a peer: what the accounts say, and what both gathered.
fn count_two<N: Naming>(
    mut accounts: Accounts<N>,
    mut one: Tallies<N>,
    mut other: Tallies<N>,
) -> (Totals, Totals)
    requires getters { N.getters ≡ 2 }
    requires one { one.counted.gets < 2 ^ 64 - 1 }
    requires other { other.counted.gets < 2 ^ 64 - 1 }
{
    count_get(&mut accounts, &mut one, cache_hit());
    count_get(&mut accounts, &mut other, peer_load());
    let book = accounts.totals();
    (book, gathered(&mut accounts, one, other))
}

fn two_getters<N: Naming>(ledgers: Ledgers) -> (Totals, Totals)
    requires named { AreNamed N.ledgers N.getters ledgers }
    requires getters { N.getters ≡ 2 }
{
    let (accounts, mut parts) = Accounts::<N>::open(ledgers, 2);
    let one = parts.deal();
    let other = parts.deal();
    count_two(accounts, one, other)
}

fn counted() -> (Totals, Totals) {
    two_getters::<Brand>(Ledgers::new(2))
}

// The counters of that hit and that load.
fn assert_totals(rt: &impl Abort, totals: Totals, otherwise: &str) {
    let due = Totals {
        gets: 2,
        cache_hits: 1,
        loads: 1,
        loads_deduped: 1,
        peer_loads: 1,
        peer_errors: 0,
        local_loads: 0,
        local_load_errors: 0,
    };
    assert!(rt; totals == due, "{otherwise}");
}

#[test]
fn counters_are_gathered(rt: HostRuntime) {
    let (book, sums) = counted();
    assert_totals(&rt, book, "the accounts say otherwise");
    assert_totals(&rt, sums, "the parts are gathered otherwise");
}
