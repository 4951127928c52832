//! An asking of two: their seats are joined into one, which makes the steps, and is split at its end.
ghost use Rattle.std.specs.Prelude.{◌≡◌, []};
ghost use Rattle.sf_steps_laws.specs.declared.operation.Stage.TheVariants.{Free};
ghost use Rattle.sf_group_steps.specs.Stands.{IsSeatOf, Sits, next_in};
ghost use Rattle.sf_group_chans.specs.Both.{AreAskers};
ghost use Rattle.sf_group_chans.specs.Together.{HasAsked};
ghost use Rattle.sf_group_chans.specs.Exchanges.{HaveAskedSo};

use crate::askers::Askers;
use crate::asking::ask_both;
use sf_group_rows::Fit;
use sf_group_steps::{AskAttempt, Deals, WordSeat, Words, take_in};

/// The caller asks with the second, in so many tries. Answers how that ended, and the seats of the two.
pub fn ask_together<V: Fit>(
    words: &Words<V>,
    mut seat: WordSeat<V>,
    second: WordSeat<V>,
    askers: Askers,
    tries: u32,
) -> (AskAttempt, WordSeat<V>, WordSeat<V>)
    requires own { IsSeatOf seat.table_id words.now.table_id words.now.key × (seat.me.1 ≡ []) }
    requires second { (second.table_id ≡ words.now.table_id) × (second.me.1 ≡ []) }
    requires sizes { askers.sizes ≡ words.now.key }
    requires askers { AreAskers askers }
    requires free { Sits askers.sizes askers.number seat.me.0 Free
        × (next_in askers.sizes seat.me.0 askers.number ≡ askers.generation) }
    requires second_free { Sits askers.sizes askers.second second.me.0 Free
        × (next_in askers.sizes second.me.0 askers.second ≡ askers.second_generation) }
    ensures first { (result.1.table_id ≡ words.now.table_id) × (result.1.me.1 ≡ []) }
    ensures second { (result.2.table_id ≡ words.now.table_id) × (result.2.me.1 ≡ []) }
    ensures asked { HasAsked askers tries seat.me.0 second.me.0 result.1.me.0 result.2.me.0
        result.0 }
    ensures exchanged { HaveAskedSo askers tries seat.me.0 second.me.0 result.1.me.0 result.2.me.0
        result.0 }
{
    take_in(words, &mut seat, second, askers.sizes, askers.number);
    let attempt = ask_both(words, &mut seat, askers, tries);
    let first = words.split_seat::<Deals>(&mut seat);
    (attempt, first, seat)
}
