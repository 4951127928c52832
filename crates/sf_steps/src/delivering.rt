//! The steps of a settle over its list: follow, peek and deliver for each member, then for the own channel.

ghost use Rattle.std.specs.Prelude.{◌≡◌, ◌≤◌, None, [], ◌∷◌, IfOk, OnOk, OnErr};
ghost use Rattle.sf_history.specs.declared.event.Event.TheVariants.{Handed};
ghost use Rattle.sf_steps_laws.specs.World.{generation_in};
ghost use Rattle.sf_steps_laws.specs.Turns.{stepped, delivered};
ghost use Rattle.sf_steps_laws.specs.Events as added;
ghost use Rattle.sf_steps.specs.Acts.{act_at};
ghost use Rattle.sf_steps_laws.specs.declared.operation.Stage.TheVariants.{Settling};
ghost use Rattle.sf_steps_laws.specs.declared.operation.SettleStep.TheVariants as step_of;

use crate::events::{one_event, room_for_events};
use crate::settling::LedCall;
use crate::trace::{Act, Step};
use crate::world::World;
use sf_history::{CallId, Event, Memory, Share};
use sf_steps_laws::{Letter, SettleStep};
use sf_words::{CallState, PlaceNo};
use std::alloc::Global;

// The generation that a call word bears, 0 where the caller has never asked.
fn generation_of(found: CallState) -> u32
    ensures { result ≡ generation_in found }
{
    match found {
        CallState::Free => 0,
        CallState::Open(leader) | CallState::Forgot(leader) | CallState::Done(leader) =>
            leader.generation,
        CallState::Listed { generation } | CallState::Full { generation } => generation,
    }
}

// The Handed of a call, as the only event of its step.
fn one_handed<V: Drop>(alloc: Global, call: CallId) -> Result<Vec<Event<PlaceNo, V>>, Memory>
    ensures { IfOk result (λ events. events.items ≡ Handed call.caller call ∷ []) }
{
    let room = room_for_events(alloc)?;
    let by = call.caller;
    Ok(one_event(room, Event::Handed { by, call }))
}

// What a deliver adds after which this is next: the Handed, where no letter is owed any more.
fn handed<V: Drop>(
    alloc: Global,
    led: LedCall,
    next: Option<u32>,
) -> Result<Vec<Event<PlaceNo, V>>, Memory>
    ensures { IfOk result (λ events.
        events.items ≡ added.handed led.call.caller led.call led.own next) }
{
    if next.is_none() && led.own.is_none() {
        return one_handed(alloc, led.call);
    }
    Ok(Vec::new(alloc))
}

impl<V: Share> World<V> {
    ghost use Rattle.sf_steps.specs.Running.{SameSizes, world_of};

    // Puts a letter into a member's cell, and stores its call word as full.
    fn put_letter(&mut self, member: CallId, letter: Letter<V>)
        requires { member.caller ≤ self.old.callers }
        ensures world { world_of self.new ≡ delivered (world_of self.old) member letter }
        ensures sizes { SameSizes self.old self.new }
    {
        self.set_cell(member.caller, Some(letter));
        let generation = member.generation;
        self.set_call(member.caller, CallState::Full { generation });
    }

    /// The leader loads the next word of a member.
    pub(crate) fn follow(&mut self, led: LedCall, joiners: u32, member: u32) -> Step<V>
        requires caller { led.call.caller ≤ self.old.callers }
        requires settles { (v : V)
            × ((world_of self.old).stages led.call.caller
            ≡ Settling led.place led.call.generation led.own v
            (step_of.Follow joiners member)) }
        ensures world { world_of self.new ≡ stepped (world_of self.old) led.call.caller
            ((world_of self.old).stages led.call.caller) }
        ensures act { (result.caller ≡ led.call.caller)
            × (result.act ≡ act_at (world_of self.old) led.call.caller
            ((world_of self.old).stages led.call.caller)) }
        ensures quiet { (result.events.items ≡ []) × (result.answer ≡ None) }
        ensures sizes { SameSizes self.old self.new }
    {
        let caller = led.call.caller;
        let next = self.next(member);
        self.settles_on(
            caller,
            SettleStep::PeekMember {
                joiners,
                member,
                next,
            },
        );
        Step::quiet(self.alloc(), caller, Act::Follow { member, next })
    }

    /// The leader loads the call word of a member.
    pub(crate) fn peek_member(
        &mut self,
        led: LedCall,
        joiners: u32,
        member: u32,
        next: Option<u32>,
    ) -> Step<V>
        requires caller { led.call.caller ≤ self.old.callers }
        requires settles { (v : V)
            × ((world_of self.old).stages led.call.caller
            ≡ Settling led.place led.call.generation led.own v
            (step_of.PeekMember joiners member next)) }
        ensures world { world_of self.new ≡ stepped (world_of self.old) led.call.caller
            ((world_of self.old).stages led.call.caller) }
        ensures act { (result.caller ≡ led.call.caller)
            × (result.act ≡ act_at (world_of self.old) led.call.caller
            ((world_of self.old).stages led.call.caller)) }
        ensures quiet { (result.events.items ≡ []) × (result.answer ≡ None) }
        ensures sizes { SameSizes self.old self.new }
    {
        let found = self.call(member);
        let joined = CallId {
            caller: member,
            generation: generation_of(found),
        };
        self.settles_on(
            led.call.caller,
            SettleStep::Deliver {
                joiners,
                member: joined,
                next,
            },
        );
        let act = Act::Peek {
            caller: member,
            found,
        };
        Step::quiet(self.alloc(), led.call.caller, act)
    }

    /// The leader delivers a member's letter, and adds the Handed where that was the last one.
    pub(crate) fn deliver(
        &mut self,
        led: LedCall,
        joiners: u32,
        member: CallId,
        next: Option<u32>,
    ) -> Result<Step<V>, Memory>
        requires caller { led.call.caller ≤ self.old.callers }
        requires settles { (v : V)
            × ((world_of self.old).stages led.call.caller
            ≡ Settling led.place led.call.generation led.own v
            (step_of.Deliver joiners member next)) }
        ensures world { OnOk result
            (world_of self.new ≡ stepped (world_of self.old) led.call.caller
            ((world_of self.old).stages led.call.caller)) }
        ensures caller { IfOk result (λ step. (step.caller ≡ led.call.caller)
            × (step.answer ≡ None)) }
        ensures act { IfOk result (λ step.
            step.act ≡ act_at (world_of self.old) led.call.caller
            ((world_of self.old).stages led.call.caller)) }
        ensures events { IfOk result (λ step.
            step.events.items ≡ added.step_events (world_of self.old) led.call.caller
            ((world_of self.old).stages led.call.caller)) }
        ensures unchanged { OnErr result (world_of self.new ≡ world_of self.old) }
        ensures sizes { SameSizes self.old self.new }
    {
        let LedCall { place, call, .. } = led;
        let events = handed(self.alloc(), led, next)?;
        let value = self.pass_on(led, joiners, next)?;
        let letter = Letter {
            place,
            call,
            value,
            joiners,
        };
        self.put_letter(member, letter);
        Ok(Step {
            caller: call.caller,
            act: Act::Deliver { member },
            events,
            answer: None,
        })
    }

    /// The leader loads the call word of its own channel.
    pub(crate) fn peek_channel(&mut self, led: LedCall, joiners: u32) -> Step<V>
        requires caller { led.call.caller ≤ self.old.callers }
        requires settles { (v : V)
            × ((world_of self.old).stages led.call.caller
            ≡ Settling led.place led.call.generation led.own v (step_of.PeekOwn joiners)) }
        ensures world { world_of self.new ≡ stepped (world_of self.old) led.call.caller
            ((world_of self.old).stages led.call.caller) }
        ensures act { (result.caller ≡ led.call.caller)
            × (result.act ≡ act_at (world_of self.old) led.call.caller
            ((world_of self.old).stages led.call.caller)) }
        ensures quiet { (result.events.items ≡ []) × (result.answer ≡ None) }
        ensures sizes { SameSizes self.old self.new }
    {
        let caller = led.call.caller;
        let channel = match led.own {
            None => caller,
            Some(member) => member.caller,
        };
        let found = self.call(channel);
        let step = match led.own {
            None => SettleStep::PeekOwn { joiners },
            Some(_) => {
                let member = CallId {
                    caller: channel,
                    generation: generation_of(found),
                };
                SettleStep::DeliverOwn { joiners, member }
            }
        };
        self.settles_on(caller, step);
        let act = Act::Peek {
            caller: channel,
            found,
        };
        Step::quiet(self.alloc(), caller, act)
    }

    /// The leader delivers the letter of its own channel, and adds the Handed.
    pub(crate) fn deliver_own(
        &mut self,
        led: LedCall,
        joiners: u32,
        member: CallId,
    ) -> Result<Step<V>, Memory>
        requires caller { led.call.caller ≤ self.old.callers }
        requires settles { (v : V)
            × ((world_of self.old).stages led.call.caller
            ≡ Settling led.place led.call.generation led.own v
            (step_of.DeliverOwn joiners member)) }
        ensures world { OnOk result
            (world_of self.new ≡ stepped (world_of self.old) led.call.caller
            ((world_of self.old).stages led.call.caller)) }
        ensures caller { IfOk result (λ step. (step.caller ≡ led.call.caller)
            × (step.answer ≡ None)) }
        ensures act { IfOk result (λ step.
            step.act ≡ act_at (world_of self.old) led.call.caller
            ((world_of self.old).stages led.call.caller)) }
        ensures events { IfOk result (λ step.
            step.events.items ≡ added.step_events (world_of self.old) led.call.caller
            ((world_of self.old).stages led.call.caller)) }
        ensures unchanged { OnErr result (world_of self.new ≡ world_of self.old) }
        ensures sizes { SameSizes self.old self.new }
    {
        let LedCall { place, call, .. } = led;
        let events = one_handed(self.alloc(), call)?;
        let value = self.take_result(call.caller);
        let letter = Letter {
            place,
            call,
            value,
            joiners,
        };
        self.put_letter(member, letter);
        Ok(Step {
            caller: call.caller,
            act: Act::Deliver { member },
            events,
            answer: None,
        })
    }
}
