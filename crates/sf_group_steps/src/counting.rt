//! The count of those who joined a call: after its settle its leader follows every member of its list once.
ghost use Rattle.std.specs.Prelude.{◌≡◌, ◌≤◌, ◌+◌, ◌<◌, []};
ghost use Rattle.sf_steps_laws.specs.declared.operation.SettleStep.TheVariants as settle;
ghost use Rattle.sf_steps_laws.specs.declared.operation.Stage.TheVariants.{Leading, Settling};
ghost use Rattle.sf_steps_laws.specs.Schedules.{IsCaller, IsPlace};
ghost use Rattle.sf_steps_laws.specs.Turns.{after_count, at_members};
ghost use Rattle.sf_steps_laws.specs.Events.{settled};
ghost use Rattle.sf_group_steps.specs.View.{setting_of};
ghost use Rattle.sf_group_steps.specs.Stands.{IsSeatOf, Sits, Goes};
ghost use Rattle.sf_group_steps.specs.Settles.{call_of, IsJoined};

use crate::actor::Actor;
use crate::numbering::next_index;
use crate::rule::{WordSeat, Words};
use crate::settling::settle_often;
use crate::steps::load_turns;
use sf_group_rows::Fit;
use sf_history::CallId;
use sf_words::unpack_next;
use std::marker::Brand;

// Loads the next word of a member, and so counts it: `joiners` were counted before it, and `top` begins the list. Answers
// who comes after it.
fn count_one<V: Fit>(
    words: &Words<V>,
    seat: &mut WordSeat<V>,
    actor: Actor,
    generation: u32,
    own: Option<CallId>,
    value: &V,
    joiners: u32,
    member: u32,
    top: u32,
) -> Option<u32>
    requires own { IsSeatOf seat.old.table_id words.now.table_id words.now.key }
    requires sizes { actor.sizes ≡ words.now.key }
    requires member { IsCaller (setting_of actor.sizes) member }
    requires room { joiners < actor.sizes.callers }
    requires settles { Sits actor.sizes actor.number seat.old.me.0
        (Settling actor.place generation own value.now (settle.Count joiners member top)) }
    ensures own { (seat.new.table_id ≡ seat.old.table_id) × (seat.new.me.1 ≡ seat.old.me.1) }
    ensures told { Goes actor.sizes actor.number seat.old.me.0 seat.new.me.0
        (Settling actor.place generation own value.now
        (after_count (joiners + 1) top result)) [] 0 }
{
    // The contract alone reads them.
    let _ = generation;
    let _ = own;
    let _ = value;
    let _ = joiners;
    let _ = top;
    let found = load_turns::<V, u32, Brand>(
        words,
        seat,
        next_index(actor.sizes, member),
        actor.number,
        &member,
    );
    let Some(next) = unpack_next(found) else {
        unreachable!()
    };
    next.next()
}

// Counts the members of a settled call's list, which begins with this top.
fn count_joiners<V: Fit>(
    words: &Words<V>,
    seat: &mut WordSeat<V>,
    actor: Actor,
    generation: u32,
    own: Option<CallId>,
    value: &V,
    top: u32,
) -> u32
    requires own { IsSeatOf seat.old.table_id words.now.table_id words.now.key }
    requires sizes { actor.sizes ≡ words.now.key }
    requires settles { Sits actor.sizes actor.number seat.old.me.0
        (Settling actor.place generation own value.now (settle.Count 0 top top)) }
    ensures own { (seat.new.table_id ≡ seat.old.table_id) × (seat.new.me.1 ≡ seat.old.me.1) }
    ensures some { 1 ≤ result }
    ensures counted { Goes actor.sizes actor.number seat.old.me.0 seat.new.me.0
        (Settling actor.place generation own value.now (settle.Follow result top)) [] 0 }
{
    let mut member = top;
    for joiners in 0..actor.sizes.callers {
        match count_one(
            words, seat, actor, generation, own, value, joiners, member, top,
        ) {
            Some(next) => member = next,
            None => return joiners + 1,
        }
    }
    unreachable!()
}

/// A settled call: how many joined it, and the top of the list of those.
#[derive(Clone, Copy)]
pub struct Tally {
    /// How many joined the call.
    pub joiners: u32,
    /// The caller that joined it last.
    pub top: Option<u32>,
}

/// Settles the call, in callers plus one tries at most, and counts those who joined it.
pub fn settle_and_count<V: Fit>(
    words: &Words<V>,
    seat: &mut WordSeat<V>,
    actor: Actor,
    generation: u32,
    own: Option<CallId>,
    value: &V,
) -> Tally
    requires own { IsSeatOf seat.old.table_id words.now.table_id words.now.key }
    requires sizes { actor.sizes ≡ words.now.key }
    requires generation { 1 ≤ generation }
    requires leads { Sits actor.sizes actor.number seat.old.me.0
        (Leading actor.place generation own) }
    ensures own { (seat.new.table_id ≡ seat.old.table_id) × (seat.new.me.1 ≡ seat.old.me.1) }
    ensures settled { Goes actor.sizes actor.number seat.old.me.0 seat.new.me.0
        (at_members actor.place generation own value.now result.joiners result.top)
        (settled actor.number (call_of actor.number generation) own value.now result.joiners
        result.top) 0 }
    ensures joined { IsJoined result.top result.joiners }
{
    let top = settle_often(words, seat, actor, generation, own, value);
    let Some(first) = top else {
        return Tally {
            joiners: 0,
            top: None,
        };
    };
    let joiners = count_joiners(words, seat, actor, generation, own, value, first);
    Tally {
        joiners,
        top: Some(first),
    }
}
