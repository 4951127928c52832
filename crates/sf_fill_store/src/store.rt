//! What the getters of a fill share, and what is counted under its lock.
ghost use Rattle.std.specs.Prelude.{◌≡◌, ◌+◌, ◌<◌, ◌≤◌, ◌^◌, ◌-◌};
ghost use Rattle.sf_fill_caches.specs.Trimming.{room_of};
ghost use Rattle.sf_fill_counters.specs.GetCounts.{hit_counts};
ghost use Rattle.sf_fill_counters.specs.Ledgers.{all_entered, entered_with};
ghost use Rattle.sf_fill_counters.specs.Totals.{IsOfOneGet, with_counts};

use sf_fill_caches::{CacheStats, Which};
use sf_fill_counters::{Accounts, AllParts, GetCounts, Naming, Tallies, Totals};
use sf_fill_values::{CachedLetters, FillValue};
use sf_group::Group;
use sf_loaders::Origin;
use std::marker::Model;
use std::sync::{Mutex, Wait};

// How many gets that its near letters answered a getter counts alone before it enters them.
const MOST_PENDING: u64 = 64;

/// What lies under the lock: the letters that are kept, and what all getters have counted.
#[derive(Drop)]
pub(crate) struct Locked<'d, D: Naming, N: Naming, O: Origin> {
    pub(crate) kept: CachedLetters<'d, D, N, O>,
    pub(crate) accounts: Accounts<N>,
}

/// The group that the getters of a fill ask, and two caches of its answers. A lock is held to look, to put and to count, and
/// never while a getter loads or waits for a letter.
#[derive(Drop)]
pub struct Store<'d, D: Naming, N: Naming, O: Origin> {
    pub(crate) group: Group<FillValue<'d, D, O>>,
    pub(crate) locked: Mutex<Locked<'d, D, N, O>>,
    pub(crate) limit: i64,
}

impl<'d, D: Naming, N: Naming, O: Origin> Model for Store<'d, D, N, O> {
    ghost use Rattle.std.specs.Prelude.{◌≡◌};
    ghost use Rattle.sf_group_rows.specs.Tokens.{GroupValue};

    ghost Value = { GroupValue };

    ghost view = { λ s. s.group };

    ghost invariant = { λ s. (s.group ≡ N.group) × (s.limit ≡ N.limit) × (D.space ≡ N.space) };
}

impl<'d, D: Naming, N: Naming, O: Origin> Store<'d, D, N, O> {
    /// Over this group, these caches, whose limit in bytes of keys and values this is, and these accounts.
    pub fn new(
        group: Group<FillValue<'d, D, O>>,
        kept: CachedLetters<'d, D, N, O>,
        limit: i64,
        accounts: Accounts<N>,
    ) -> Store<'d, D, N, O>
        requires group { group ≡ N.group }
        requires limit { limit ≡ N.limit }
        requires space { D.space ≡ N.space }
        ensures { result ≡ group.entry }
    {
        Store {
            group,
            locked: Mutex::new(Locked { kept, accounts }),
            limit,
        }
    }

    /// The group whose callers the getters are.
    #[inline(always)]
    pub fn group(&self) -> &Group<FillValue<'d, D, O>>
        ensures { result.now ≡ N.group }
    {
        &self.group
    }

    /// What is entered so far.
    pub fn book<R: Wait>(&self, rt: &R) -> Totals {
        self.locked.lock(rt).accounts.totals()
    }

    /// What main or hot holds now.
    pub fn cache_stats<R: Wait>(&self, rt: &R, which: Which) -> CacheStats
        ensures { result.bytes ≤ room_of N.limit }
    {
        self.locked.lock(rt).kept.stats(which)
    }

    /// Counts a get in the getter's tallies, and enters it with all that they have counted.
    #[inline(never)]
    pub fn count<R: Wait>(&self, rt: &R, tallies: &mut Tallies<N>, counts: GetCounts)
        requires room { tallies.old.counted.gets < 2 ^ 64 - 1 }
        requires one { IsOfOneGet counts }
        ensures { tallies.new ≡ entered_with tallies.old counts }
    {
        tallies.count(counts);
        self.enter(rt, tallies);
    }

    /// Counts a get that a near letter answered, without the lock, and enters what 64 gets counted that were not entered yet.
    #[inline(always)]
    pub fn count_near_hit<R: Wait>(&self, rt: &R, tallies: &mut Tallies<N>)
        requires { tallies.old.counted.gets < 2 ^ 64 - 1 }
        ensures counted { tallies.new.counted ≡ with_counts tallies.old.counted hit_counts }
        ensures lag { tallies.new.counted.gets ≤ tallies.new.entered.gets + 63 }
    {
        tallies.count_hit();
        if tallies.pending() >= MOST_PENDING {
            self.enter(rt, tallies);
        }
    }

    /// Enters what the getter has counted and not entered yet.
    #[inline(never)]
    pub fn enter<R: Wait>(&self, rt: &R, tallies: &mut Tallies<N>)
        ensures { tallies.new ≡ all_entered tallies.old }
    {
        self.locked.lock(rt).accounts.enter(tallies);
    }

    /// Enters what the getter has counted, which counts no more: its part of what all counted.
    pub fn end<R: Wait>(&self, rt: &R, tallies: Tallies<N>) -> AllParts<N>
        ensures { result ≡ record { parts = 1; counted = tallies.counted } }
    {
        self.locked.lock(rt).accounts.end(tallies)
    }

    /// What is entered, once the parts of all getters are at hand.
    pub fn gathered<R: Wait>(&self, rt: &R, all: &mut AllParts<N>) -> Totals
        requires { all.old.parts ≡ N.getters }
        ensures { result ≡ all.old.counted }
    {
        self.locked.lock(rt).accounts.gathered(all)
    }
}
