//! The steps of a settle up to its list: peek, close, clear.

ghost use Rattle.std.specs.Prelude.{◌≡◌, ◌≤◌, None, Some, [], IfOk, OnOk, OnErr, true};
ghost use Rattle.std.specs.Vec.{vec_capacity};
ghost use Rattle.sf_steps_laws.specs.World.{with_stage, count, one_more};
ghost use Rattle.sf_steps_laws.specs.Turns as turns;
ghost use Rattle.sf_steps_laws.specs.Turns.{stepped};
ghost use Rattle.sf_steps_laws.specs.Events as added;
ghost use Rattle.sf_steps.specs.Acts.{act_at};
ghost use Rattle.sf_steps_laws.specs.Stages.{field_of, top_in, settle_member, settle_top, settle_count, is_settling};
ghost use Rattle.sf_steps.specs.Settling.{result_in, settling_at, members_at, count_at};
ghost use Rattle.sf_steps_laws.specs.declared.operation.SettleStep.{SettleStep as AnyStep};
ghost use Rattle.sf_steps_laws.specs.declared.operation.Stage.TheVariants.{Free, Settling};
ghost use Rattle.sf_steps_laws.specs.declared.operation.SettleStep.TheVariants as step_of;

use crate::events::room_for_events;
use crate::trace::{Act, Step};
use crate::world::{World, named};
use sf_history::{CallId, Event, Memory, Share};
use sf_steps_laws::{SettleStep, Stage};
use sf_words::{CallState, LeaderState, PlaceNo};

/// The call that a caller settles.
#[derive(Clone, Copy)]
pub(crate) struct LedCall {
    pub(crate) place: u32,
    pub(crate) call: CallId,
    pub(crate) own: Option<CallId>,
}

// What a settle does after its peek of the own call word.
fn after_own_peek(found: CallState) -> SettleStep
    ensures step { result ≡ turns.after_own_peek found }
    ensures member { settle_member result ≡ 0 }
    ensures top { settle_top result ≤ top_in found }
    ensures uncounted { settle_count result ≡ 0 }
{
    match found {
        CallState::Open(seen) => SettleStep::Close { seen },
        CallState::Forgot(leader) => SettleStep::Clear { top: leader.top },
        _ => SettleStep::Peek,
    }
}

// One member more is counted, of no more than there are callers.
fn one_more(callers: u32, joiners: u32) -> u32
    ensures same { result ≡ one_more callers joiners }
{
    if joiners < callers {
        joiners + 1
    } else {
        joiners
    }
}

// What a settle does after it has counted a member after which this is next.
fn after_count(joiners: u32, top: u32, next: Option<u32>) -> SettleStep
    ensures step { result ≡ turns.after_count joiners top next }
{
    match next {
        Some(member) => SettleStep::Count {
            joiners,
            member,
            top,
        },
        None => SettleStep::Follow {
            joiners,
            member: top,
        },
    }
}

// Adds the Settle of a call that so many joined, with this top of its list, and its Handed where no letter is owed.
fn push_settled<V: Drop>(
    events: &mut Vec<Event<PlaceNo, V>>,
    led: LedCall,
    value: V,
    joiners: u32,
    top: Option<u32>,
)
    requires room { 2 ≤ vec_capacity events.old }
    requires empty { events.old.items ≡ [] }
    ensures { events.new.items ≡ added.settled led.call.caller led.call led.own value joiners top }
{
    let call = led.call;
    let by = call.caller;
    events
        .push(Event::Settle {
            by,
            call,
            result: value,
            joiners,
        })
        .unwrap();
    if top.is_none() && led.own.is_none() {
        events.push(Event::Handed { by, call }).unwrap();
    }
}

impl<V: Share> World<V> {
    ghost use Rattle.sf_steps.specs.Running.{SameSizes, world_of};

    /// The settle goes on at this step.
    pub(crate) fn settles_on(&mut self, caller: u32, step: SettleStep)
        requires caller { caller ≤ self.old.callers }
        requires settles { is_settling ((world_of self.old).stages caller) ≡ true }
        requires member { settle_member step ≤ self.old.callers }
        requires top { settle_top step ≤ self.old.callers }
        requires count { settle_count step ≤ self.old.callers }
        ensures world { world_of self.new ≡ with_stage (world_of self.old) caller
            (settling_at step ((world_of self.old).stages caller)) }
        ensures sizes { SameSizes self.old self.new }
    {
        let Stage::Settling {
            place,
            generation,
            own,
            result,
            ..
        } = self.take_stage(caller)
        else {
            unreachable!();
        };
        self.set_stage(
            caller,
            Stage::Settling {
                place,
                generation,
                own,
                result,
                step,
            },
        );
    }

    /// The value with which the caller settles, which is free then.
    pub(crate) fn take_result(&mut self, caller: u32) -> V
        requires caller { caller ≤ self.old.callers }
        requires settles { is_settling ((world_of self.old).stages caller) ≡ true }
        ensures value { result_in ((world_of self.old).stages caller) ≡ Some result }
        ensures world { world_of self.new ≡ with_stage (world_of self.old) caller Free }
        ensures sizes { SameSizes self.old self.new }
    {
        let Stage::Settling { result, .. } = self.take_stage(caller) else {
            unreachable!();
        };
        result
    }

    // The settle goes on to the members from this top on, and then to the own channel; with neither it ends.
    fn goes_to_members(&mut self, led: LedCall, joiners: u32, top: Option<u32>)
        requires caller { led.call.caller ≤ self.old.callers }
        requires settles { (v : V) × (before : AnyStep)
            × ((world_of self.old).stages led.call.caller
            ≡ Settling led.place led.call.generation led.own v before) }
        requires top { field_of top ≤ self.old.callers }
        ensures world { world_of self.new ≡ with_stage (world_of self.old) led.call.caller
            (members_at joiners top ((world_of self.old).stages led.call.caller)) }
        ensures sizes { SameSizes self.old self.new }
    {
        let caller = led.call.caller;
        match (top, led.own) {
            (Some(member), _) => self.settles_on(caller, SettleStep::Follow { joiners, member }),
            (None, Some(_)) => self.settles_on(caller, SettleStep::PeekOwn { joiners }),
            (None, None) => self.set_stage(caller, Stage::Free),
        }
    }

    /// The value for an event or a letter, while the settle goes on to these members: itself where nobody else is owed
    /// it, and else another one.
    pub(crate) fn pass_on(
        &mut self,
        led: LedCall,
        joiners: u32,
        top: Option<u32>,
    ) -> Result<V, Memory>
        requires caller { led.call.caller ≤ self.old.callers }
        requires settles { (v : V) × (before : AnyStep)
            × ((world_of self.old).stages led.call.caller
            ≡ Settling led.place led.call.generation led.own v before) }
        requires top { field_of top ≤ self.old.callers }
        ensures value { IfOk result (λ value.
            result_in ((world_of self.old).stages led.call.caller) ≡ Some value) }
        ensures world { OnOk result
            (world_of self.new ≡ with_stage (world_of self.old) led.call.caller
            (members_at joiners top ((world_of self.old).stages led.call.caller))) }
        ensures unchanged { OnErr result (world_of self.new ≡ world_of self.old) }
        ensures sizes { SameSizes self.old self.new }
    {
        if let (None, None) = (top, led.own) {
            return Ok(self.take_result(led.call.caller));
        }
        let value = self.share_result(led.call.caller)?;
        self.goes_to_members(led, joiners, top);
        Ok(value)
    }

    // The settle goes on to the count of the members from this top on; with none it goes on as after the count.
    fn goes_to_count(&mut self, led: LedCall, top: Option<u32>)
        requires caller { led.call.caller ≤ self.old.callers }
        requires settles { (v : V) × (before : AnyStep)
            × ((world_of self.old).stages led.call.caller
            ≡ Settling led.place led.call.generation led.own v before) }
        requires top { field_of top ≤ self.old.callers }
        ensures world { world_of self.new ≡ with_stage (world_of self.old) led.call.caller
            (count_at top ((world_of self.old).stages led.call.caller)) }
        ensures sizes { SameSizes self.old self.new }
    {
        match top {
            Some(member) => self.settles_on(
                led.call.caller,
                SettleStep::Count {
                    joiners: 0,
                    member,
                    top: member,
                },
            ),
            None => self.goes_to_members(led, 0, None),
        }
    }

    // The value for the Settle, while the settle goes on to the count: itself where nobody else is owed it, and else
    // another one.
    fn settle_on(&mut self, led: LedCall, top: Option<u32>) -> Result<V, Memory>
        requires caller { led.call.caller ≤ self.old.callers }
        requires settles { (v : V) × (before : AnyStep)
            × ((world_of self.old).stages led.call.caller
            ≡ Settling led.place led.call.generation led.own v before) }
        requires top { field_of top ≤ self.old.callers }
        ensures value { IfOk result (λ value.
            result_in ((world_of self.old).stages led.call.caller) ≡ Some value) }
        ensures world { OnOk result
            (world_of self.new ≡ with_stage (world_of self.old) led.call.caller
            (count_at top ((world_of self.old).stages led.call.caller))) }
        ensures unchanged { OnErr result (world_of self.new ≡ world_of self.old) }
        ensures sizes { SameSizes self.old self.new }
    {
        if let None = top {
            return self.pass_on(led, 0, None);
        }
        let value = self.share_result(led.call.caller)?;
        self.goes_to_count(led, top);
        Ok(value)
    }

    // How many callers stand on the list from this top on.
    fn joiners_from(&self, top: Option<u32>) -> u32
        ensures { result ≡ count top (world_of self.now).callers (world_of self.now).nexts }
    {
        let mut joiners = 0;
        let mut next = top;
        for seen in 0..self.callers() {
            let Some(member) = next else {
                return joiners;
            };
            joiners += 1;
            next = self.next(member);
        }
        joiners
    }

    // The leader loads its own call word, which is open, or was closed by a Forget.
    fn peek_own(&mut self, led: LedCall) -> Result<Step<V>, Memory>
        requires caller { led.call.caller ≤ self.old.callers }
        requires settles { (v : V)
            × ((world_of self.old).stages led.call.caller
            ≡ Settling led.place led.call.generation led.own v step_of.Peek) }
        ensures world { OnOk result
            (world_of self.new ≡ stepped (world_of self.old) led.call.caller
            ((world_of self.old).stages led.call.caller)) }
        ensures caller { IfOk result (λ step. (step.caller ≡ led.call.caller)
            × (step.answer ≡ None)) }
        ensures act { IfOk result (λ step.
            step.act ≡ act_at (world_of self.old) led.call.caller
            ((world_of self.old).stages led.call.caller)) }
        ensures events { IfOk result (λ step.
            step.events.items ≡ added.step_events (world_of self.old) led.call.caller
            ((world_of self.old).stages led.call.caller)) }
        ensures unchanged { OnErr result (world_of self.new ≡ world_of self.old) }
        ensures sizes { SameSizes self.old self.new }
    {
        let caller = led.call.caller;
        let found = self.call(caller);
        let events = self.settled_by_forget(led, found)?;
        self.settles_on(caller, after_own_peek(found));
        Ok(Step {
            caller,
            act: Act::Peek { caller, found },
            events,
            answer: None,
        })
    }

    // What a peek of the own call word adds: the Settle, where a Forget closed the call.
    fn settled_by_forget(
        &mut self,
        led: LedCall,
        found: CallState,
    ) -> Result<Vec<Event<PlaceNo, V>>, Memory>
        requires caller { led.call.caller ≤ self.old.callers }
        requires settles { (v : V)
            × ((world_of self.old).stages led.call.caller
            ≡ Settling led.place led.call.generation led.own v step_of.Peek) }
        requires found { found ≡ (world_of self.old).calls led.call.caller }
        ensures events { IfOk result (λ events.
            events.items ≡ added.step_events (world_of self.old) led.call.caller
            ((world_of self.old).stages led.call.caller)) }
        ensures world { world_of self.new ≡ world_of self.old }
        ensures sizes { SameSizes self.old self.new }
    {
        let CallState::Forgot(leader) = found else {
            return Ok(Vec::new(self.alloc()));
        };
        let mut events = room_for_events(self.alloc())?;
        let value = self.share_result(led.call.caller)?;
        let joiners = self.joiners_from(leader.top);
        push_settled(&mut events, led, value, joiners, leader.top);
        Ok(events)
    }

    // The leader exchanges its own call word to done.
    fn close_own(&mut self, led: LedCall, seen: LeaderState) -> Result<Step<V>, Memory>
        requires caller { led.call.caller ≤ self.old.callers }
        requires settles { (v : V)
            × ((world_of self.old).stages led.call.caller
            ≡ Settling led.place led.call.generation led.own v (step_of.Close seen)) }
        ensures world { OnOk result
            (world_of self.new ≡ stepped (world_of self.old) led.call.caller
            ((world_of self.old).stages led.call.caller)) }
        ensures caller { IfOk result (λ step. (step.caller ≡ led.call.caller)
            × (step.answer ≡ None)) }
        ensures act { IfOk result (λ step.
            step.act ≡ act_at (world_of self.old) led.call.caller
            ((world_of self.old).stages led.call.caller)) }
        ensures events { IfOk result (λ step.
            step.events.items ≡ added.step_events (world_of self.old) led.call.caller
            ((world_of self.old).stages led.call.caller)) }
        ensures unchanged { OnErr result (world_of self.new ≡ world_of self.old) }
        ensures sizes { SameSizes self.old self.new }
    {
        let call = led.call;
        let caller = call.caller;
        let done = self.is_open(caller, seen);
        let forgot = false;
        let act = Act::Close { call, forgot, done };
        if !done {
            self.settles_on(caller, SettleStep::Peek);
            return Ok(Step::quiet(self.alloc(), caller, act));
        }
        let mut events = room_for_events(self.alloc())?;
        let joiners = self.joiners_from(seen.top);
        let value = self.settle_on(led, seen.top)?;
        self.set_call(caller, CallState::Done(seen));
        push_settled(&mut events, led, value, joiners, seen.top);
        Ok(Step {
            caller,
            act,
            events,
            answer: None,
        })
    }

    // The leader of a forgotten call clears the key word, if it still names the call.
    fn clear_own(&mut self, led: LedCall, top: Option<u32>) -> Step<V>
        requires caller { led.call.caller ≤ self.old.callers }
        requires settles { (v : V)
            × ((world_of self.old).stages led.call.caller
            ≡ Settling led.place led.call.generation led.own v (step_of.Clear top)) }
        ensures world { world_of self.new ≡ stepped (world_of self.old) led.call.caller
            ((world_of self.old).stages led.call.caller) }
        ensures act { (result.caller ≡ led.call.caller)
            × (result.act ≡ act_at (world_of self.old) led.call.caller
            ((world_of self.old).stages led.call.caller)) }
        ensures quiet { (result.events.items ≡ []) × (result.answer ≡ None) }
        ensures sizes { SameSizes self.old self.new }
    {
        let call = led.call;
        let done = self.exchange_key(led.place, named(call, false), named(call, true));
        self.goes_to_count(led, top);
        let place = led.place;
        Step::quiet(self.alloc(), call.caller, Act::Clear { place, call, done })
    }

    // The leader loads the next word of a member, and counts it.
    fn count(&mut self, led: LedCall, joiners: u32, member: u32, top: u32) -> Step<V>
        requires caller { led.call.caller ≤ self.old.callers }
        requires settles { (v : V)
            × ((world_of self.old).stages led.call.caller
            ≡ Settling led.place led.call.generation led.own v
            (step_of.Count joiners member top)) }
        ensures world { world_of self.new ≡ stepped (world_of self.old) led.call.caller
            ((world_of self.old).stages led.call.caller) }
        ensures act { (result.caller ≡ led.call.caller)
            × (result.act ≡ act_at (world_of self.old) led.call.caller
            ((world_of self.old).stages led.call.caller)) }
        ensures quiet { (result.events.items ≡ []) × (result.answer ≡ None) }
        ensures sizes { SameSizes self.old self.new }
    {
        let caller = led.call.caller;
        let next = self.next(member);
        let joiners = one_more(self.callers(), joiners);
        self.settles_on(caller, after_count(joiners, top, next));
        Step::quiet(self.alloc(), caller, Act::Follow { member, next })
    }

    /// The next step of a settle.
    pub(crate) fn step_settling(
        &mut self,
        led: LedCall,
        step: SettleStep,
    ) -> Result<Step<V>, Memory>
        requires caller { led.call.caller ≤ self.old.callers }
        requires settles { (v : V)
            × ((world_of self.old).stages led.call.caller
            ≡ Settling led.place led.call.generation led.own v step) }
        ensures world { OnOk result
            (world_of self.new ≡ stepped (world_of self.old) led.call.caller
            ((world_of self.old).stages led.call.caller)) }
        ensures caller { IfOk result (λ done. (done.caller ≡ led.call.caller)
            × (done.answer ≡ None)) }
        ensures act { IfOk result (λ done.
            done.act ≡ act_at (world_of self.old) led.call.caller
            ((world_of self.old).stages led.call.caller)) }
        ensures events { IfOk result (λ done.
            done.events.items ≡ added.step_events (world_of self.old) led.call.caller
            ((world_of self.old).stages led.call.caller)) }
        ensures unchanged { OnErr result (world_of self.new ≡ world_of self.old) }
        ensures sizes { SameSizes self.old self.new }
    {
        match step {
            SettleStep::Peek => self.peek_own(led),
            SettleStep::Close { seen } => self.close_own(led, seen),
            SettleStep::Clear { top } => Ok(self.clear_own(led, top)),
            SettleStep::Count {
                joiners,
                member,
                top,
            } => Ok(self.count(led, joiners, member, top)),
            SettleStep::Follow { joiners, member } => Ok(self.follow(led, joiners, member)),
            SettleStep::PeekMember {
                joiners,
                member,
                next,
            } => Ok(self.peek_member(led, joiners, member, next)),
            SettleStep::Deliver {
                joiners,
                member,
                next,
            } => self.deliver(led, joiners, member, next),
            SettleStep::PeekOwn { joiners } => Ok(self.peek_channel(led, joiners)),
            SettleStep::DeliverOwn { joiners, member } => self.deliver_own(led, joiners, member),
        }
    }
}
