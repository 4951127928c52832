//! Handing out the letters of a call: to the members that its list names, and last to its own channel. Each takes a copy of
//! the value, which is made before the first step for it; where there is no memory for one, the rest is still owed.
ghost use Rattle.std.specs.Prelude.{◌≡◌, [], ◌∷◌, List, Some, None, IfOk, IfErr};
ghost use Rattle.sf_history.specs.declared.event.Event.TheVariants.{Handed};
ghost use Rattle.sf_steps_laws.specs.declared.operation.SettleStep.TheVariants as settle;
ghost use Rattle.sf_steps_laws.specs.declared.operation.Stage.TheVariants.{Free};
ghost use Rattle.sf_steps_laws.specs.Turns.{at_members, at_own};
ghost use Rattle.sf_steps_laws.specs.Events.{handed};
ghost use Rattle.sf_group_steps.specs.View.{history_of};
ghost use Rattle.sf_group_steps.specs.Words.{words_in};
ghost use Rattle.sf_group_steps.specs.Stands.{IsSeatOf, Sits, Goes};
ghost use Rattle.sf_group_steps.specs.Settles.{call_of};
ghost use Rattle.sf_group_steps.specs.Delivers.{at_step, Lists, IsOwed, handed_list, handed_later};

use crate::actor::Actor;
use crate::delivering::{Delivery, deliver, deliver_own, follow, peek_member, peek_own};
use crate::resting::Wakes;
use crate::rule::{WordSeat, Words};
use sf_group_rows::Fit;
use sf_history::CallId;
use sf_steps_laws::Letter;
use std::alloc::AllocError;

// Hands a letter to a member of the list, and answers who comes after it. Refused, with nothing done, where there is no
// memory for the letter's copy of the value.
fn hand_one<V: Fit, W: Wakes>(
    words: &Words<V>,
    resting: &W,
    seat: &mut WordSeat<V>,
    actor: Actor,
    delivery: Delivery,
    value: &mut V,
    member: u32,
) -> Result<Option<u32>, AllocError>
    requires own { IsSeatOf seat.old.table_id words.now.table_id words.now.key }
    requires words { words.now.table_id.words ≡ words_in words.now.key }
    requires sizes { actor.sizes ≡ words.now.key }
    requires settles { Sits actor.sizes actor.number seat.old.me.0
        (at_step actor delivery value.old (settle.Follow delivery.joiners member)) }
    requires none { seat.old.me.1 ≡ [] }
    requires fits { V.fits actor.place (call_of actor.number delivery.generation) value.old
        (history_of actor.sizes seat.old.me.0.known.turns) }
    ensures own { (seat.new.table_id ≡ seat.old.table_id) × (seat.new.me.1 ≡ []) }
    ensures value { value.new ≡ value.old }
    ensures handed { IfOk result (λ next.
        Goes actor.sizes actor.number seat.old.me.0 seat.new.me.0
        (at_members actor.place delivery.generation delivery.own value.old delivery.joiners
        next) (handed actor.number (call_of actor.number delivery.generation)
        delivery.own next) 0) }
    ensures lists { IfOk result (λ next. (n : CallId) (l : List CallId)
        → Lists actor delivery seat.old.me.0 (Some member) (n ∷ l)
        → Lists actor delivery seat.new.me.0 next l) }
    ensures refused { IfErr result (λ e. seat.new.me ≡ seat.old.me) }
{
    let copy = value.share()?;
    let next = follow(words, seat, actor, delivery, &*value, member);
    let generation = peek_member(words, seat, actor, delivery, &*value, member, next);
    let letter = Letter {
        place: actor.place,
        call: CallId {
            caller: actor.number,
            generation: delivery.generation,
        },
        value: copy,
        joiners: delivery.joiners,
    };
    let member = CallId {
        caller: member,
        generation,
    };
    deliver(words, seat, actor, delivery, letter, member, next);
    resting.wake(words, actor.sizes, member.caller);
    Ok(next)
}

// Hands letters to the members of the list, from the first. Answers whom it could not serve, for want of memory.
fn hand_members<V: Fit, W: Wakes>(
    words: &Words<V>,
    resting: &W,
    seat: &mut WordSeat<V>,
    actor: Actor,
    delivery: Delivery,
    value: &mut V,
    first: u32,
) -> Result<(), u32>
    requires own { IsSeatOf seat.old.table_id words.now.table_id words.now.key }
    requires words { words.now.table_id.words ≡ words_in words.now.key }
    requires sizes { actor.sizes ≡ words.now.key }
    requires settles { Sits actor.sizes actor.number seat.old.me.0
        (at_step actor delivery value.old (settle.Follow delivery.joiners first)) }
    requires none { seat.old.me.1 ≡ [] }
    requires fits { V.fits actor.place (call_of actor.number delivery.generation) value.old
        (history_of actor.sizes seat.old.me.0.known.turns) }
    ensures own { (seat.new.table_id ≡ seat.old.table_id) × (seat.new.me.1 ≡ []) }
    ensures value { value.new ≡ value.old }
    ensures handed { IfOk result (λ u.
        Goes actor.sizes actor.number seat.old.me.0 seat.new.me.0
        (at_own actor.place delivery.generation value.old delivery.joiners delivery.own)
        (handed actor.number (call_of actor.number delivery.generation) delivery.own None)
        0) }
    ensures refused { IfErr result (λ member.
        Goes actor.sizes actor.number seat.old.me.0 seat.new.me.0
        (at_step actor delivery value.old (settle.Follow delivery.joiners member)) [] 0) }
{
    let mut top = Some(first);
    for served in 0..actor.sizes.callers {
        let Some(member) = top else {
            return Ok(());
        };
        match hand_one(words, resting, seat, actor, delivery, value, member) {
            Ok(next) => top = next,
            Err(_) => return Err(member),
        }
    }
    unreachable!()
}

// Hands a letter to the own channel. Refused, with nothing done, where there is no memory for its copy of the value.
fn hand_own<V: Fit, W: Wakes>(
    words: &Words<V>,
    resting: &W,
    seat: &mut WordSeat<V>,
    actor: Actor,
    delivery: Delivery,
    value: &mut V,
    channel: CallId,
) -> Result<(), AllocError>
    requires own { IsSeatOf seat.old.table_id words.now.table_id words.now.key }
    requires words { words.now.table_id.words ≡ words_in words.now.key }
    requires sizes { actor.sizes ≡ words.now.key }
    requires channel { delivery.own ≡ Some channel }
    requires settles { Sits actor.sizes actor.number seat.old.me.0
        (at_step actor delivery value.old (settle.PeekOwn delivery.joiners)) }
    requires none { seat.old.me.1 ≡ [] }
    requires fits { V.fits actor.place (call_of actor.number delivery.generation) value.old
        (history_of actor.sizes seat.old.me.0.known.turns) }
    ensures own { (seat.new.table_id ≡ seat.old.table_id) × (seat.new.me.1 ≡ []) }
    ensures value { value.new ≡ value.old }
    ensures handed { IfOk result (λ u.
        Goes actor.sizes actor.number seat.old.me.0 seat.new.me.0 Free
        (Handed actor.number (call_of actor.number delivery.generation) ∷ []) 0) }
    ensures refused { IfErr result (λ e. seat.new.me ≡ seat.old.me) }
{
    let copy = value.share()?;
    let generation = peek_own(words, seat, actor, delivery, &*value, channel);
    let letter = Letter {
        place: actor.place,
        call: CallId {
            caller: actor.number,
            generation: delivery.generation,
        },
        value: copy,
        joiners: delivery.joiners,
    };
    let member = CallId {
        caller: channel.caller,
        generation,
    };
    deliver_own(words, seat, actor, delivery, letter, member);
    resting.wake(words, actor.sizes, member.caller);
    Ok(())
}

// Hands the letters of a list, which may be empty, to its members.
fn hand_list<V: Fit, W: Wakes>(
    words: &Words<V>,
    resting: &W,
    seat: &mut WordSeat<V>,
    actor: Actor,
    delivery: Delivery,
    value: &mut V,
    top: Option<u32>,
) -> Result<(), u32>
    requires own { IsSeatOf seat.old.table_id words.now.table_id words.now.key }
    requires words { words.now.table_id.words ≡ words_in words.now.key }
    requires sizes { actor.sizes ≡ words.now.key }
    requires settles { Sits actor.sizes actor.number seat.old.me.0
        (at_members actor.place delivery.generation delivery.own value.old delivery.joiners
        top) }
    requires none { seat.old.me.1 ≡ [] }
    requires fits { V.fits actor.place (call_of actor.number delivery.generation) value.old
        (history_of actor.sizes seat.old.me.0.known.turns) }
    ensures own { (seat.new.table_id ≡ seat.old.table_id) × (seat.new.me.1 ≡ []) }
    ensures value { value.new ≡ value.old }
    ensures handed { IfOk result (λ u.
        Goes actor.sizes actor.number seat.old.me.0 seat.new.me.0
        (at_own actor.place delivery.generation value.old delivery.joiners delivery.own)
        (handed_list actor.number (call_of actor.number delivery.generation) delivery.own
        top) 0) }
    ensures refused { IfErr result (λ member.
        Goes actor.sizes actor.number seat.old.me.0 seat.new.me.0
        (at_step actor delivery value.old (settle.Follow delivery.joiners member)) [] 0) }
{
    let Some(first) = top else {
        return Ok(());
    };
    hand_members(words, resting, seat, actor, delivery, value, first)
}

/// Hands out all letters that the call owes: to the list's members from the top on, and to its own channel. Where there is
/// no memory for a copy it answers the top of what is left of the list.
pub fn hand_out<V: Fit, W: Wakes>(
    words: &Words<V>,
    resting: &W,
    seat: &mut WordSeat<V>,
    actor: Actor,
    delivery: Delivery,
    value: &mut V,
    top: Option<u32>,
) -> Result<(), Option<u32>>
    requires own { IsSeatOf seat.old.table_id words.now.table_id words.now.key }
    requires words { words.now.table_id.words ≡ words_in words.now.key }
    requires sizes { actor.sizes ≡ words.now.key }
    requires settles { Sits actor.sizes actor.number seat.old.me.0
        (at_members actor.place delivery.generation delivery.own value.old delivery.joiners
        top) }
    requires none { seat.old.me.1 ≡ [] }
    requires fits { V.fits actor.place (call_of actor.number delivery.generation) value.old
        (history_of actor.sizes seat.old.me.0.known.turns) }
    ensures own { (seat.new.table_id ≡ seat.old.table_id) × (seat.new.me.1 ≡ []) }
    ensures value { value.new ≡ value.old }
    ensures handed { IfOk result (λ u.
        Goes actor.sizes actor.number seat.old.me.0 seat.new.me.0 Free
        (handed_later actor.number (call_of actor.number delivery.generation) delivery.own
        top) 0) }
    ensures refused { IfErr result (λ left.
        Goes actor.sizes actor.number seat.old.me.0 seat.new.me.0
        (at_members actor.place delivery.generation delivery.own value.old delivery.joiners
        left) [] 0) }
    ensures owed { IfErr result (λ left. IsOwed left delivery.own) }
{
    if let Err(member) = hand_list(words, resting, seat, actor, delivery, value, top) {
        return Err(Some(member));
    }
    let Some(channel) = delivery.own else {
        return Ok(());
    };
    if let Err(_) = hand_own(words, resting, seat, actor, delivery, value, channel) {
        return Err(None);
    }
    Ok(())
}
