//! All counters of a fill: their names, what one get adds to each, and what all getters count.
ghost use Rattle.std.specs.Prelude.{◌≡◌, ◌+◌, ◌-◌, ◌<◌, ◌≤◌, ◌^◌, ◌↔◌, IsTrue, false};
ghost use Rattle.sf_fill_counters.specs.GetCounts.{hit_counts};
ghost use Rattle.sf_fill_counters.specs.Ledgers.{nothing_counted, new_tally, counted_on, all_entered};
ghost use Rattle.sf_fill_counters.specs.Totals.{plus, with_counts, counts_in, names_of, AreNamed, IsOfOneGet, IsWithinGets};
ghost use Rattle.sf_words.specs.declared.limits.TheConstants.{LARGEST_CALLER};

use crate::ledger::{Account, Counter, Of, Parts, open};
use crate::naming::Naming;
use sf_loaders::Counts;
use std::marker::Model;
use std::sync::ledger::Blank;

/// The sums of groupcache's counters of these names, over all getters of a fill.
#[derive(Clone, Copy, PartialEq, Eq)]
pub struct Totals {
    /// Gets.
    pub gets: u128,
    /// Gets that a cache answered.
    pub cache_hits: u128,
    /// Gets that led a call or joined one.
    pub loads: u128,
    /// Loads that were not a duplicate of an open one.
    pub loads_deduped: u128,
    /// Values that a peer gave.
    pub peer_loads: u128,
    /// Faults of a peer.
    pub peer_errors: u128,
    /// Values that the local getter gave.
    pub local_loads: u128,
    /// Faults of the local getter.
    pub local_load_errors: u128,
}

// One of these structs, of what `$one` gives for each counter; or `$one` for each counter. The counters are in the order in
// which they are printed.
macro_rules! each {
    ($Whole:ident, $one:ident) => {
        $Whole {
            gets: $one!(gets),
            cache_hits: $one!(cache_hits),
            loads: $one!(loads),
            loads_deduped: $one!(loads_deduped),
            peer_loads: $one!(peer_loads),
            peer_errors: $one!(peer_errors),
            local_loads: $one!(local_loads),
            local_load_errors: $one!(local_load_errors),
        }
    };
    ($one:ident) => {
        $one!(gets);
        $one!(cache_hits);
        $one!(loads);
        $one!(loads_deduped);
        $one!(peer_loads);
        $one!(peer_errors);
        $one!(local_loads);
        $one!(local_load_errors);
    };
}

/// The counter of gets.
pub struct Gets;

impl Counter for Gets {
    ghost its = { λ ledgers. ledgers.gets };
}

/// The counter of gets that a cache answered.
pub struct CacheHits;

impl Counter for CacheHits {
    ghost its = { λ ledgers. ledgers.cache_hits };
}

/// The counter of gets that led a call or joined one.
pub struct Loads;

impl Counter for Loads {
    ghost its = { λ ledgers. ledgers.loads };
}

/// The counter of loads that were not a duplicate of an open one.
pub struct LoadsDeduped;

impl Counter for LoadsDeduped {
    ghost its = { λ ledgers. ledgers.loads_deduped };
}

/// The counter of values that a peer gave.
pub struct PeerLoads;

impl Counter for PeerLoads {
    ghost its = { λ ledgers. ledgers.peer_loads };
}

/// The counter of faults of a peer.
pub struct PeerErrors;

impl Counter for PeerErrors {
    ghost its = { λ ledgers. ledgers.peer_errors };
}

/// The counter of values that the local getter gave.
pub struct LocalLoads;

impl Counter for LocalLoads {
    ghost its = { λ ledgers. ledgers.local_loads };
}

/// The counter of faults of the local getter.
pub struct LocalLoadErrors;

impl Counter for LocalLoadErrors {
    ghost its = { λ ledgers. ledgers.local_load_errors };
}

/// What one get counts, each 0 or 1, or what several do.
#[derive(Clone, Copy)]
pub struct GetCounts {
    /// Gets: 1 of one.
    pub gets: u64,
    /// How many a cache answered.
    pub cache_hits: u64,
    /// How many led a call or joined one.
    pub loads: u64,
    /// What their runs of the load path counted.
    pub run: Counts,
}

/// What is counted where the load path is not run.
pub const NO_RUN: Counts = Counts {
    loads_deduped: 0,
    peer_loads: 0,
    peer_errors: 0,
    local_loads: 0,
    local_load_errors: 0,
};

// What no get counts.
const NOTHING: GetCounts = GetCounts {
    gets: 0,
    cache_hits: 0,
    loads: 0,
    run: NO_RUN,
};

impl GetCounts {
    // What each counter rises by.
    fn totals(self) -> Totals
        ensures { result ≡ counts_in self }
    {
        Totals {
            gets: self.gets as u128,
            cache_hits: self.cache_hits as u128,
            loads: self.loads as u128,
            loads_deduped: self.run.loads_deduped as u128,
            peer_loads: self.run.peer_loads as u128,
            peer_errors: self.run.peer_errors as u128,
            local_loads: self.run.local_loads as u128,
            local_load_errors: self.run.local_load_errors as u128,
        }
    }
}

/// The ledgers of a fill that is to be, one a counter.
#[derive(Drop)]
pub struct Ledgers {
    pub gets: Blank,
    pub cache_hits: Blank,
    pub loads: Blank,
    pub loads_deduped: Blank,
    pub peer_loads: Blank,
    pub peer_errors: Blank,
    pub local_loads: Blank,
    pub local_load_errors: Blank,
}

impl Ledgers {
    /// The ledgers of so many getters.
    pub fn new(getters: u64) -> Ledgers
        ensures { AreNamed (names_of result) getters result }
    {
        macro_rules! blank {
            ($counter:ident) => {
                Blank::new(getters)
            };
        }
        each!(Ledgers, blank)
    }
}

/// What all getters have entered.
#[derive(Drop)]
pub struct Accounts<N: Naming> {
    gets: Account<Of<N, Gets>>,
    cache_hits: Account<Of<N, CacheHits>>,
    loads: Account<Of<N, Loads>>,
    loads_deduped: Account<Of<N, LoadsDeduped>>,
    peer_loads: Account<Of<N, PeerLoads>>,
    peer_errors: Account<Of<N, PeerErrors>>,
    local_loads: Account<Of<N, LocalLoads>>,
    local_load_errors: Account<Of<N, LocalLoadErrors>>,
}

impl<N: Naming> Model for Accounts<N> {
    ghost use Rattle.sf_fill_counters.specs.declared.totals.Totals.{Totals};

    ghost Value = { Totals };

    ghost view = { λ a.
        record {
          gets = a.gets;
          cache_hits = a.cache_hits;
          loads = a.loads;
          loads_deduped = a.loads_deduped;
          peer_loads = a.peer_loads;
          peer_errors = a.peer_errors;
          local_loads = a.local_loads;
          local_load_errors = a.local_load_errors;
        } };
}

/// The parts of getters, of each ledger.
#[derive(Drop)]
pub struct AllParts<N: Naming> {
    gets: Parts<Of<N, Gets>>,
    cache_hits: Parts<Of<N, CacheHits>>,
    loads: Parts<Of<N, Loads>>,
    loads_deduped: Parts<Of<N, LoadsDeduped>>,
    peer_loads: Parts<Of<N, PeerLoads>>,
    peer_errors: Parts<Of<N, PeerErrors>>,
    local_loads: Parts<Of<N, LocalLoads>>,
    local_load_errors: Parts<Of<N, LocalLoadErrors>>,
}

impl<N: Naming> Model for AllParts<N> {
    ghost use Rattle.std.specs.Prelude.{◌≡◌};
    ghost use Rattle.sf_fill_counters.specs.Ledgers.{AllHeld};

    ghost Value = { AllHeld };

    ghost view = { λ p.
        record {
          parts = p.gets.parts;
          counted = record {
            gets = p.gets.counted;
            cache_hits = p.cache_hits.counted;
            loads = p.loads.counted;
            loads_deduped = p.loads_deduped.counted;
            peer_loads = p.peer_loads.counted;
            peer_errors = p.peer_errors.counted;
            local_loads = p.local_loads.counted;
            local_load_errors = p.local_load_errors.counted;
          };
        } };

    ghost invariant = { λ p. (p.cache_hits.parts ≡ p.gets.parts) × (p.loads.parts ≡ p.gets.parts)
        × (p.loads_deduped.parts ≡ p.gets.parts) × (p.peer_loads.parts ≡ p.gets.parts)
        × (p.peer_errors.parts ≡ p.gets.parts) × (p.local_loads.parts ≡ p.gets.parts)
        × (p.local_load_errors.parts ≡ p.gets.parts) };
}

/// What one getter has counted: what it has entered, as its part of the ledgers says, and what it has not entered yet. No
/// counter is above its gets.
#[derive(Drop)]
pub struct Tallies<N: Naming> {
    gets: u64,
    pending: GetCounts,
    part: AllParts<N>,
}

impl<N: Naming> Model for Tallies<N> {
    ghost use Rattle.std.specs.Prelude.{◌≡◌, ◌+◌};
    ghost use Rattle.sf_fill_counters.specs.Ledgers.{Tally};
    ghost use Rattle.sf_fill_counters.specs.Totals.{with_counts, IsWithinGets};

    ghost Value = { Tally };

    ghost view = { λ t.
        record {
          counted = with_counts t.part.counted t.pending;
          entered = t.part.counted;
        } };

    ghost invariant = { λ t. (t.part.parts ≡ 1) × (t.gets ≡ t.part.counted.gets + t.pending.gets)
        × IsWithinGets (with_counts t.part.counted t.pending) };
}

impl<N: Naming> Tallies<N> {
    /// Whether no further get can be counted.
    pub fn is_full(&self) -> bool
        ensures full { IsTrue result ↔ (self.now.counted.gets ≡ 2 ^ 64 - 1) }
        ensures room { result ≡ false → self.now.counted.gets < 2 ^ 64 - 1 }
    {
        self.gets == u64::MAX
    }

    /// How many gets are counted and not entered yet.
    pub fn pending(&self) -> u64
        ensures { self.now.entered.gets + result ≡ self.now.counted.gets }
    {
        self.pending.gets
    }

    /// Counts a get that a letter at hand answered, which is to be entered.
    #[inline(always)]
    pub fn count_hit(&mut self)
        requires { self.old.counted.gets < 2 ^ 64 - 1 }
        ensures { self.new ≡ counted_on self.old hit_counts }
    {
        self.gets += 1;
        self.pending.gets += 1;
        self.pending.cache_hits += 1;
    }

    /// Counts a get, which is to be entered.
    pub fn count(&mut self, counts: GetCounts)
        requires room { self.old.counted.gets < 2 ^ 64 - 1 }
        requires one { IsOfOneGet counts }
        ensures { self.new ≡ counted_on self.old counts }
    {
        self.gets += 1;
        self.pending.gets += counts.gets;
        self.pending.cache_hits += counts.cache_hits;
        self.pending.loads += counts.loads;
        self.pending.run.loads_deduped += counts.run.loads_deduped;
        self.pending.run.peer_loads += counts.run.peer_loads;
        self.pending.run.peer_errors += counts.run.peer_errors;
        self.pending.run.local_loads += counts.run.local_loads;
        self.pending.run.local_load_errors += counts.run.local_load_errors;
    }
}

impl<N: Naming> Accounts<N> {
    /// Accounts in which nothing is entered yet, and the parts of all getters, 1 to 65,535.
    pub fn open(ledgers: Ledgers, getters: u64) -> (Accounts<N>, AllParts<N>)
        requires named { AreNamed N.ledgers N.getters ledgers }
        requires getters { (getters ≡ N.getters) × (getters ≤ LARGEST_CALLER) }
        ensures accounts { result.0 ≡ nothing_counted }
        ensures parts { result.1 ≡ record { parts = getters; counted = nothing_counted } }
    {
        let (gets, gets_parts) = open(ledgers.gets, getters);
        let (cache_hits, cache_hits_parts) = open(ledgers.cache_hits, getters);
        let (loads, loads_parts) = open(ledgers.loads, getters);
        let (loads_deduped, loads_deduped_parts) = open(ledgers.loads_deduped, getters);
        let (peer_loads, peer_loads_parts) = open(ledgers.peer_loads, getters);
        let (peer_errors, peer_errors_parts) = open(ledgers.peer_errors, getters);
        let (local_loads, local_loads_parts) = open(ledgers.local_loads, getters);
        let (local_load_errors, local_load_errors_parts) = open(ledgers.local_load_errors, getters);
        let accounts = Accounts {
            gets,
            cache_hits,
            loads,
            loads_deduped,
            peer_loads,
            peer_errors,
            local_loads,
            local_load_errors,
        };
        let parts = AllParts {
            gets: gets_parts,
            cache_hits: cache_hits_parts,
            loads: loads_parts,
            loads_deduped: loads_deduped_parts,
            peer_loads: peer_loads_parts,
            peer_errors: peer_errors_parts,
            local_loads: local_loads_parts,
            local_load_errors: local_load_errors_parts,
        };
        (accounts, parts)
    }

    // Enters in each account what a getter has counted and not entered yet.
    fn enter_each(&mut self, part: &mut AllParts<N>, pending: GetCounts)
        requires part { part.old.parts ≡ 1 }
        requires counted { IsWithinGets (with_counts part.old.counted pending)
            × (part.old.counted.gets + pending.gets ≤ 2 ^ 64 - 1) }
        ensures part { part.new
            ≡ record { parts = 1; counted = with_counts part.old.counted pending } }
        ensures all { self.new ≡ with_counts self.old pending }
    {
        let more = pending.totals();
        macro_rules! enter {
            ($counter:ident) => {
                self.$counter.enter(&mut part.$counter, more.$counter)
            };
        }
        each!(enter);
    }

    /// Enters what the getter has counted and not entered yet: the accounts rise by as much as what it has entered.
    pub fn enter(&mut self, tallies: &mut Tallies<N>)
        ensures tallies { tallies.new ≡ all_entered tallies.old }
        ensures all { plus self.new tallies.old.entered ≡ plus self.old tallies.old.counted }
    {
        self.enter_each(&mut tallies.part, tallies.pending);
        tallies.pending = NOTHING;
    }

    /// The part of a getter that has ended, whose counts are all entered then.
    pub fn end(&mut self, tallies: Tallies<N>) -> AllParts<N>
        ensures part { result ≡ record { parts = 1; counted = tallies.counted } }
        ensures all { plus self.new tallies.entered ≡ plus self.old tallies.counted }
    {
        let Tallies {
            gets: _,
            pending,
            mut part,
        } = tallies;
        self.enter_each(&mut part, pending);
        part
    }

    /// What the accounts say.
    pub fn totals(&self) -> Totals
        ensures { result ≡ self.now }
    {
        macro_rules! count {
            ($counter:ident) => {
                self.$counter.count()
            };
        }
        each!(Totals, count)
    }

    /// What the accounts say, which is what all parts entered together.
    pub fn gathered(&mut self, all: &mut AllParts<N>) -> Totals
        requires { all.old.parts ≡ N.getters }
        ensures sum { result ≡ all.old.counted }
        ensures accounts { result ≡ self.old }
        ensures same { (self.new ≡ self.old) × (all.new ≡ all.old) }
    {
        macro_rules! gathered {
            ($counter:ident) => {
                self.$counter.gathered(&mut all.$counter)
            };
        }
        each!(Totals, gathered)
    }
}

impl<N: Naming> AllParts<N> {
    /// The tallies of one getter, which has counted nothing.
    pub fn deal(&mut self) -> Tallies<N>
        requires { (0 < self.old.parts) × (self.old.counted ≡ nothing_counted) }
        ensures tallies { result ≡ new_tally }
        ensures parts { (self.new.parts + 1 ≡ self.old.parts)
            × (self.new.counted ≡ nothing_counted) }
    {
        macro_rules! deal {
            ($counter:ident) => {
                self.$counter.deal()
            };
        }
        Tallies {
            gets: 0,
            pending: NOTHING,
            part: each!(AllParts, deal),
        }
    }

    /// Other parts too.
    pub fn take(&mut self, other: AllParts<N>)
        ensures { self.new ≡ record {
          parts = self.old.parts + other.parts;
          counted = plus self.old.counted other.counted;
        } }
    {
        macro_rules! take {
            ($counter:ident) => {
                self.$counter.take(other.$counter)
            };
        }
        each!(take);
    }
}
