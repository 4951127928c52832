//! Steps of a settle that hand the call's letters out: to the members that its list names, and last to its own channel.
//!
//! A letter lies in its member's cell. The load that looks at the member's word takes that cell out of the table for the
//! leader, since the next step of its settle writes the member's word; that store brings the cell back.
ghost use Rattle.std.specs.Prelude.{◌≡◌, [], ◌∷◌, List, Some};
ghost use Rattle.sf_history.specs.declared.event.Event.TheVariants.{Handed};
ghost use Rattle.sf_steps_laws.specs.declared.operation.SettleStep.TheVariants as settle;
ghost use Rattle.sf_steps_laws.specs.declared.operation.Stage.TheVariants.{Free};
ghost use Rattle.sf_steps_laws.specs.Schedules.{IsCaller};
ghost use Rattle.sf_steps_laws.specs.Turns.{at_members};
ghost use Rattle.sf_steps_laws.specs.Events.{handed};
ghost use Rattle.sf_words.specs.CallWord.{IsGeneration};
ghost use Rattle.sf_group_steps.specs.View.{setting_of, history_of};
ghost use Rattle.sf_group_steps.specs.Stands.{IsSeatOf, Sits, SitsWith, Goes, GoesWith};
ghost use Rattle.sf_group_steps.specs.Settles.{call_of};
ghost use Rattle.sf_group_steps.specs.Delivers.{at_step, Lists, IsOut, letter_for};

use crate::actor::Actor;
use crate::numbering::{call_index, next_index};
use crate::rule::{WordSeat, Words};
use crate::steps::{load_cell, load_turns, store_cell};
use sf_group_rows::Fit;
use sf_history::CallId;
use sf_steps_laws::Letter;
use sf_words::{CallState, CallWord, pack_call, unpack_call, unpack_next};
use std::marker::Brand;

/// The call that a leader hands out: its generation, its own channel, and how many joined it.
#[derive(Clone, Copy)]
pub struct Delivery {
    /// The generation of the leader that the call has.
    pub generation: u32,
    /// The member that holds the call's own channel.
    pub own: Option<CallId>,
    /// How many joined the call.
    pub joiners: u32,
}

/// Loads the next word of a member: who comes after it on the list.
pub(crate) fn follow<V: Fit>(
    words: &Words<V>,
    seat: &mut WordSeat<V>,
    actor: Actor,
    delivery: Delivery,
    value: &V,
    member: u32,
) -> Option<u32>
    requires own { IsSeatOf seat.old.table_id words.now.table_id words.now.key }
    requires sizes { actor.sizes ≡ words.now.key }
    requires member { IsCaller (setting_of actor.sizes) member }
    requires settles { Sits actor.sizes actor.number seat.old.me.0
        (at_step actor delivery value.now (settle.Follow delivery.joiners member)) }
    ensures own { (seat.new.table_id ≡ seat.old.table_id) × (seat.new.me.1 ≡ seat.old.me.1) }
    ensures told { Goes actor.sizes actor.number seat.old.me.0 seat.new.me.0
        (at_step actor delivery value.now
        (settle.PeekMember delivery.joiners member result)) [] 0 }
    ensures lists { (l : List CallId) → Lists actor delivery seat.old.me.0 (Some member) l
        → Lists actor delivery seat.new.me.0 (Some member) l }
{
    // The contract alone reads them.
    let _ = delivery;
    let _ = value;
    let found = load_turns::<V, u32, Brand>(
        words,
        seat,
        next_index(actor.sizes, member),
        actor.number,
        &member,
    );
    let Some(next) = unpack_next(found) else {
        unreachable!()
    };
    next.next()
}

/// Loads the call word of a member, which waits, and takes its cell out of the table. Answers its generation.
pub(crate) fn peek_member<V: Fit>(
    words: &Words<V>,
    seat: &mut WordSeat<V>,
    actor: Actor,
    delivery: Delivery,
    value: &V,
    member: u32,
    next: Option<u32>,
) -> u32
    requires own { IsSeatOf seat.old.table_id words.now.table_id words.now.key }
    requires sizes { actor.sizes ≡ words.now.key }
    requires member { IsCaller (setting_of actor.sizes) member }
    requires settles { Sits actor.sizes actor.number seat.old.me.0
        (at_step actor delivery value.now (settle.PeekMember delivery.joiners member next)) }
    requires none { seat.old.me.1 ≡ [] }
    ensures own { (seat.new.table_id ≡ seat.old.table_id) × IsOut seat.new.me.1 member }
    ensures told { GoesWith actor.sizes actor.number seat.old.me.0 seat.new.me.0
        (at_step actor delivery value.now
        (settle.Deliver delivery.joiners (call_of member result) next)) [] 0 (member ∷ []) }
    ensures lists { (l : List CallId) → Lists actor delivery seat.old.me.0 (Some member) l
        → Lists actor delivery seat.new.me.0 (Some member) l }
    ensures generation { IsGeneration result }
{
    // The contract alone reads them.
    let _ = delivery;
    let _ = value;
    let _ = next;
    let found = load_cell::<V, u32, Brand>(
        words,
        seat,
        call_index(actor.sizes, member),
        actor.number,
        &member,
    );
    let Some(word) = unpack_call(found) else {
        unreachable!()
    };
    let CallState::Listed { generation } = word.state() else {
        unreachable!()
    };
    generation
}

/// Loads the call word of the own channel, which waits, and takes its cell out of the table. Answers its generation.
pub(crate) fn peek_own<V: Fit>(
    words: &Words<V>,
    seat: &mut WordSeat<V>,
    actor: Actor,
    delivery: Delivery,
    value: &V,
    channel: CallId,
) -> u32
    requires own { IsSeatOf seat.old.table_id words.now.table_id words.now.key }
    requires sizes { actor.sizes ≡ words.now.key }
    requires channel { delivery.own ≡ Some channel }
    requires member { IsCaller (setting_of actor.sizes) channel.caller }
    requires settles { Sits actor.sizes actor.number seat.old.me.0
        (at_step actor delivery value.now (settle.PeekOwn delivery.joiners)) }
    requires none { seat.old.me.1 ≡ [] }
    ensures own { (seat.new.table_id ≡ seat.old.table_id) × IsOut seat.new.me.1 channel.caller }
    ensures told { GoesWith actor.sizes actor.number seat.old.me.0 seat.new.me.0
        (at_step actor delivery value.now
        (settle.DeliverOwn delivery.joiners (call_of channel.caller result))) [] 0
        (channel.caller ∷ []) }
    ensures generation { IsGeneration result }
{
    // The contract alone reads them.
    let _ = delivery;
    let _ = value;
    let found = load_cell::<V, u32, Brand>(
        words,
        seat,
        call_index(actor.sizes, channel.caller),
        actor.number,
        &channel.caller,
    );
    let Some(word) = unpack_call(found) else {
        unreachable!()
    };
    let CallState::Listed { generation } = word.state() else {
        unreachable!()
    };
    generation
}

/// Puts the letter into the member's cell, and says in its word that it is full, which brings the cell back.
pub(crate) fn deliver<V: Fit>(
    words: &Words<V>,
    seat: &mut WordSeat<V>,
    actor: Actor,
    delivery: Delivery,
    letter: Letter<V>,
    member: CallId,
    next: Option<u32>,
)
    requires own { IsSeatOf seat.old.table_id words.now.table_id words.now.key }
    requires sizes { actor.sizes ≡ words.now.key }
    requires member { IsCaller (setting_of actor.sizes) member.caller
        × IsGeneration member.generation }
    requires settles { SitsWith actor.sizes actor.number seat.old.me.0
        (at_step actor delivery letter.value (settle.Deliver delivery.joiners member next))
        (member.caller ∷ []) }
    requires out { IsOut seat.old.me.1 member.caller }
    requires letter { letter ≡ letter_for actor delivery letter.value }
    requires fits { V.fits actor.place (call_of actor.number delivery.generation) letter.value
        (history_of actor.sizes seat.old.me.0.known.turns) }
    ensures own { (seat.new.table_id ≡ seat.old.table_id) × (seat.new.me.1 ≡ []) }
    ensures told { Goes actor.sizes actor.number seat.old.me.0 seat.new.me.0
        (at_members actor.place delivery.generation delivery.own letter.value delivery.joiners
        next) (handed actor.number (call_of actor.number delivery.generation) delivery.own
        next) 0 }
    ensures lists { (n : CallId) (l : List CallId)
        → Lists actor delivery seat.old.me.0 (Some member.caller) (n ∷ l)
        → Lists actor delivery seat.new.me.0 next l }
{
    // The contract alone reads them.
    let _ = delivery;
    let _ = next;
    let Some(full) = CallWord::new(CallState::Full {
        generation: member.generation,
    }) else {
        unreachable!()
    };
    let _ = words.exchange(seat, member.caller as usize, Some(letter));
    store_cell::<V, CallId, Brand>(
        words,
        seat,
        call_index(actor.sizes, member.caller),
        pack_call(full),
        actor.number,
        &member,
    );
}

/// Puts the letter into the own channel's call, which comes last, and fills that.
pub(crate) fn deliver_own<V: Fit>(
    words: &Words<V>,
    seat: &mut WordSeat<V>,
    actor: Actor,
    delivery: Delivery,
    letter: Letter<V>,
    channel: CallId,
)
    requires own { IsSeatOf seat.old.table_id words.now.table_id words.now.key }
    requires sizes { actor.sizes ≡ words.now.key }
    requires member { IsCaller (setting_of actor.sizes) channel.caller
        × IsGeneration channel.generation }
    requires settles { SitsWith actor.sizes actor.number seat.old.me.0
        (at_step actor delivery letter.value (settle.DeliverOwn delivery.joiners channel))
        (channel.caller ∷ []) }
    requires out { IsOut seat.old.me.1 channel.caller }
    requires letter { letter ≡ letter_for actor delivery letter.value }
    requires fits { V.fits actor.place (call_of actor.number delivery.generation) letter.value
        (history_of actor.sizes seat.old.me.0.known.turns) }
    ensures own { (seat.new.table_id ≡ seat.old.table_id) × (seat.new.me.1 ≡ []) }
    ensures told { Goes actor.sizes actor.number seat.old.me.0 seat.new.me.0 Free
        (Handed actor.number (call_of actor.number delivery.generation) ∷ []) 0 }
{
    // The contract alone reads it.
    let _ = delivery;
    let Some(full) = CallWord::new(CallState::Full {
        generation: channel.generation,
    }) else {
        unreachable!()
    };
    let _ = words.exchange(seat, channel.caller as usize, Some(letter));
    store_cell::<V, CallId, Brand>(
        words,
        seat,
        call_index(actor.sizes, channel.caller),
        pack_call(full),
        actor.number,
        &channel,
    );
}
