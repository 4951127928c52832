//! One counter that several threads add to: parts with the getters, and an account of all of them under the lock.
ghost use Rattle.std.specs.Prelude.{◌≡◌, ◌+◌, ◌-◌, ◌*◌, ◌<◌, ◌≤◌, ◌^◌, ℕ};
ghost use Rattle.sf_fill_counters.specs.Names.{LedgerNames};
ghost use Rattle.sf_words.specs.declared.limits.TheConstants.{LARGEST_CALLER};

use crate::naming::Naming;
use std::marker::{Model, PhantomData};
use std::sync::ledger::{Blank, Book, Ledger, Share};

/// What tells one counter from another.
pub trait Counter {
    /// Which of a fill's ledgers is its.
    ghost its: { LedgerNames → ℕ };
}

/// The ledger of a counter of a fill.
pub struct Of<N: Naming, K: Counter> {
    fill: PhantomData<N>,
    counter: PhantomData<K>,
}

impl<N: Naming, K: Counter> Ledger for Of<N, K> {
    ghost name = { K.its N.ledgers };

    ghost parts = { N.getters };
}

/// What all getters have entered, beside the ledger that says so.
#[derive(Drop)]
pub struct Account<L: Ledger> {
    count: u128,
    left: Book<L>,
}

impl<L: Ledger> Model for Account<L> {
    ghost use Rattle.sf_words.specs.declared.limits.TheConstants.{LARGEST_CALLER};
    ghost use Rattle.std.specs.Prelude.{◌≡◌, ◌+◌, ◌-◌, ◌*◌, ◌^◌, ◌≤◌, ℕ};

    ghost Value = { ℕ };

    ghost view = { λ a. a.count };

    ghost invariant = { λ a. (a.count + a.left.total ≡ L.parts * (2 ^ 64 - 1))
        × (L.parts ≤ LARGEST_CALLER) };
}

/// Parts of a ledger: of getters that are still to come, that count, or that have ended.
#[derive(Drop)]
pub struct Parts<L: Ledger> {
    left: Share<L>,
}

impl<L: Ledger> Model for Parts<L> {
    ghost use Rattle.std.specs.Prelude.{◌-◌, ◌*◌, ◌^◌, ◌≤◌};
    ghost use Rattle.sf_fill_counters.specs.Ledgers.{Held};

    ghost Value = { Held };

    ghost view = { λ p.
        record { parts = p.left.parts; counted = p.left.parts * (2 ^ 64 - 1) - p.left.amount } };

    ghost invariant = { λ p. p.left.amount ≤ p.left.parts * (2 ^ 64 - 1) };
}

/// A new account, and the parts of all getters.
pub fn open<L: Ledger>(blank: Blank, getters: u64) -> (Account<L>, Parts<L>)
    requires name { blank.name ≡ L.name }
    requires parts { blank.parts ≡ L.parts }
    requires getters { (getters ≡ L.parts) × (getters ≤ LARGEST_CALLER) }
    ensures account { result.0 ≡ 0 }
    ensures parts { result.1 ≡ record { parts = getters; counted = 0 } }
{
    let (mut book, mut all) = blank.open::<L>();
    for _index in 0..getters {
        book.add(&mut all, u64::MAX);
    }
    (
        Account {
            count: 0,
            left: book,
        },
        Parts { left: all },
    )
}

impl<L: Ledger> Account<L> {
    /// Enters what a getter has counted and not entered yet.
    pub fn enter(&mut self, part: &mut Parts<L>, more: u128)
        requires part { part.old.parts ≡ 1 }
        requires room { part.old.counted + more ≤ 2 ^ 64 - 1 }
        ensures part { part.new ≡ record { parts = 1; counted = part.old.counted + more } }
        ensures all { self.new ≡ self.old + more }
    {
        self.left.sub(&mut part.left, more as u64);
        self.count += more;
    }

    /// What all have entered: the account's own number.
    pub fn count(&self) -> u128
        ensures { result ≡ self.now }
    {
        self.count
    }

    /// The account's own number, which is what all parts have entered together.
    pub fn gathered(&mut self, all: &mut Parts<L>) -> u128
        requires { all.old.parts ≡ L.parts }
        ensures sum { result ≡ all.old.counted }
        ensures account { result ≡ self.old }
        ensures same { (self.new ≡ self.old) × (all.new ≡ all.old) }
    {
        self.left.audit(&mut all.left);
        self.count
    }
}

impl<L: Ledger> Parts<L> {
    /// The part of one getter, which has entered nothing.
    pub fn deal(&mut self) -> Parts<L>
        requires { (0 < self.old.parts) × (self.old.counted ≡ 0) }
        ensures part { result ≡ record { parts = 1; counted = 0 } }
        ensures parts { (self.new.parts + 1 ≡ self.old.parts) × (self.new.counted ≡ 0) }
    {
        Parts {
            left: self.left.split_off(1, u64::MAX),
        }
    }

    /// Other parts too.
    pub fn take(&mut self, other: Parts<L>)
        ensures { self.new ≡ record {
          parts = self.old.parts + other.parts;
          counted = self.old.counted + other.counted;
        } }
    {
        let Parts { left } = other;
        self.left.merge(left);
    }
}
