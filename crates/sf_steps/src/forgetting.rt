//! The steps of a forget, of a key or of one call: look, peek, close, first clear, last clear.

ghost use Rattle.std.specs.Prelude.{◌≡◌, ◌≤◌, None, [], ◌∷◌, IfOk, OnOk, OnErr, Some, true};
ghost use Rattle.sf_steps_laws.specs.World.{with_stage, key_of, same_key, open_in, is_open_with, is_forgot_in};
ghost use Rattle.sf_steps_laws.specs.Turns as turns;
ghost use Rattle.sf_steps_laws.specs.Events as adds;
ghost use Rattle.sf_steps.specs.Acts.{forget_act};
ghost use Rattle.sf_steps_laws.specs.Stages.{field_of, forget_top};
ghost use Rattle.sf_steps_laws.specs.declared.operation.ForgetStep.{ForgetStep as AnyStep};
ghost use Rattle.sf_steps_laws.specs.declared.operation.Stage.TheVariants.{Free, Forgetting};
ghost use Rattle.sf_steps.specs.declared.trace.Act.TheVariants as act_of;
ghost use Rattle.sf_history.specs.declared.event.Event.TheVariants as event_of;
ghost use Rattle.sf_history.specs.declared.event.Hit.TheVariants.{Missed};
ghost use Rattle.sf_words.specs.declared.limits.TheConstants.{LARGEST_PLACE};

use crate::asking::is_forgot;
use crate::events::{key_of, one_event, room_for_events};
use crate::trace::{Act, Step};
use crate::world::{World, is_same_key, named};
use sf_history::{CallId, Event, Hit, Memory};
use sf_steps_laws::{ForgetStep, Stage};
use sf_words::{CallState, KeyState, LeaderState, PlaceNo};
use std::alloc::Global;

// What a forget does after its peek.
fn peeked(call: CallId, found: CallState) -> ForgetStep
    ensures { result ≡ turns.forget_peeked call (open_in call.generation found) }
{
    match found {
        CallState::Open(seen) if seen.generation == call.generation => ForgetStep::Close {
            call,
            seen,
        },
        _ => ForgetStep::FirstClear { call },
    }
}

// Whether a forget of one call misses it at its peek, which finds it forgotten.
fn misses(target: Option<CallId>, call: CallId, found: CallState) -> bool
    ensures { result ≡ turns.misses target (is_forgot_in call.generation found) }
{
    target.is_some() && is_forgot(call, found)
}

// A Forget that finds no call, as the only event of its step.
fn one_idle<V: Drop>(alloc: Global, by: u32, place: u32) -> Result<Vec<Event<PlaceNo, V>>, Memory>
    requires { (1 ≤ place) × (place ≤ LARGEST_PLACE) }
    ensures { IfOk result (λ events. events.items ≡ event_of.Forget by place None ∷ []) }
{
    let room = room_for_events(alloc)?;
    let key = key_of(place);
    let closed = None;
    Ok(one_event(room, Event::Forget { by, key, closed }))
}

// A Forget of one call that misses it, as the only event of its step.
fn one_missed<V: Drop>(
    alloc: Global,
    by: u32,
    place: u32,
    call: CallId,
) -> Result<Vec<Event<PlaceNo, V>>, Memory>
    requires { (1 ≤ place) × (place ≤ LARGEST_PLACE) }
    ensures { IfOk result (λ events. events.items ≡ event_of.ForgetCall by place call Missed ∷ []) }
{
    let room = room_for_events(alloc)?;
    let key = key_of(place);
    let hit = Hit::Missed;
    Ok(one_event(room, Event::ForgetCall { by, key, call, hit }))
}

// A Forget that closes the call, as the only event of its step.
fn one_closed<V: Drop>(
    alloc: Global,
    by: u32,
    place: u32,
    target: Option<CallId>,
    call: CallId,
) -> Result<Vec<Event<PlaceNo, V>>, Memory>
    requires { (1 ≤ place) × (place ≤ LARGEST_PLACE) }
    ensures { IfOk result (λ events. events.items ≡ adds.closes by place target call ∷ []) }
{
    let room = room_for_events(alloc)?;
    let key = key_of(place);
    let event = match target {
        None => {
            let closed = Some(call);
            Event::Forget { by, key, closed }
        }
        Some(_) => {
            let hit = Hit::Closed;
            Event::ForgetCall { by, key, call, hit }
        }
    };
    Ok(one_event(room, event))
}

// A Forget that clears the key word of a call that is not open, as the only event of its step.
fn one_cleared<V: Drop>(
    alloc: Global,
    by: u32,
    place: u32,
    target: Option<CallId>,
    call: CallId,
) -> Result<Vec<Event<PlaceNo, V>>, Memory>
    requires { (1 ≤ place) × (place ≤ LARGEST_PLACE) }
    ensures { IfOk result (λ events. events.items ≡ adds.clears by place target call ∷ []) }
{
    let room = room_for_events(alloc)?;
    let key = key_of(place);
    let event = match target {
        None => {
            let closed = None;
            Event::Forget { by, key, closed }
        }
        Some(_) => {
            let hit = Hit::Cleared;
            Event::ForgetCall { by, key, call, hit }
        }
    };
    Ok(one_event(room, event))
}

impl<V: Drop> World<V> {
    ghost use Rattle.sf_steps.specs.Running.{SameSizes, world_of};

    // The forget goes on to a step.
    fn forgets_on(&mut self, caller: u32, place: u32, target: Option<CallId>, step: ForgetStep)
        requires caller { caller ≤ self.old.callers }
        requires forgets { (before : AnyStep)
            × ((world_of self.old).stages caller ≡ Forgetting place target before) }
        requires top { forget_top step ≤ self.old.callers }
        ensures world { world_of self.new ≡ with_stage (world_of self.old) caller
            (Forgetting place target step) }
        ensures sizes { SameSizes self.old self.new }
    {
        self.set_stage(
            caller,
            Stage::Forgetting {
                place,
                target,
                step,
            },
        );
    }

    // The forget loads the key word.
    fn look_to_forget(&mut self, caller: u32, place: u32) -> Result<Step<V>, Memory>
        requires caller { caller ≤ self.old.callers }
        requires forgets { (before : AnyStep)
            × ((world_of self.old).stages caller ≡ Forgetting place None before) }
        ensures world { OnOk result
            (world_of self.new ≡ with_stage (world_of self.old) caller
            (turns.key_looked place ((world_of self.old).keys place))) }
        ensures caller { IfOk result (λ step. (step.caller ≡ caller) × (step.answer ≡ None)) }
        ensures act { IfOk result (λ step.
            step.act ≡ act_of.Look place ((world_of self.old).keys place)) }
        ensures events { IfOk result (λ step.
            step.events.items ≡ adds.key_look_events caller place
            ((world_of self.old).keys place)) }
        ensures unchanged { OnErr result (world_of self.new ≡ world_of self.old) }
        ensures sizes { SameSizes self.old self.new }
    {
        let found = self.key(place);
        let mut events = Vec::new(self.alloc());
        match found {
            KeyState::Names {
                caller: leader,
                generation,
                cleared: false,
            } => {
                let call = CallId {
                    caller: leader,
                    generation,
                };
                self.forgets_on(caller, place, None, ForgetStep::Peek { call });
            }
            _ => {
                events = one_idle(self.alloc(), caller, place)?;
                self.set_stage(caller, Stage::Free);
            }
        }
        Ok(Step {
            caller,
            act: Act::Look { place, found },
            events,
            answer: None,
        })
    }

    // The forget of one call loads the key word, and misses the call where that does not name it.
    fn look_for_call(&mut self, caller: u32, place: u32, call: CallId) -> Result<Step<V>, Memory>
        requires caller { caller ≤ self.old.callers }
        requires forgets { (before : AnyStep)
            × ((world_of self.old).stages caller ≡ Forgetting place (Some call) before) }
        ensures world { OnOk result
            (world_of self.new ≡ with_stage (world_of self.old) caller
            (turns.call_looked place call
            (same_key ((world_of self.old).keys place) (key_of call)))) }
        ensures caller { IfOk result (λ step. (step.caller ≡ caller) × (step.answer ≡ None)) }
        ensures act { IfOk result (λ step.
            step.act ≡ act_of.Look place ((world_of self.old).keys place)) }
        ensures events { IfOk result (λ step.
            step.events.items ≡ adds.missed_unless caller place call
            (same_key ((world_of self.old).keys place) (key_of call))) }
        ensures unchanged { OnErr result (world_of self.new ≡ world_of self.old) }
        ensures sizes { SameSizes self.old self.new }
    {
        let found = self.key(place);
        let mut events = Vec::new(self.alloc());
        if is_same_key(found, named(call, false)) {
            self.forgets_on(caller, place, Some(call), ForgetStep::Peek { call });
        } else {
            events = one_missed(self.alloc(), caller, place, call)?;
            self.set_stage(caller, Stage::Free);
        }
        Ok(Step {
            caller,
            act: Act::Look { place, found },
            events,
            answer: None,
        })
    }

    // The forget exchanges the leader's call word to forgot.
    fn close_to_forget(
        &mut self,
        caller: u32,
        place: u32,
        target: Option<CallId>,
        call: CallId,
        seen: LeaderState,
    ) -> Result<Step<V>, Memory>
        requires caller { caller ≤ self.old.callers }
        requires forgets { (before : AnyStep)
            × ((world_of self.old).stages caller ≡ Forgetting place target before) }
        requires top { field_of seen.top ≤ self.old.callers }
        ensures world { OnOk result
            (world_of self.new ≡ turns.forgot (world_of self.old) caller place target call seen
            (is_open_with seen ((world_of self.old).calls call.caller))) }
        ensures caller { IfOk result (λ step. (step.caller ≡ caller) × (step.answer ≡ None)) }
        ensures act { IfOk result (λ step.
            step.act ≡ act_of.Close call true
            (is_open_with seen ((world_of self.old).calls call.caller))) }
        ensures events { IfOk result (λ step.
            step.events.items ≡ adds.forget_one (adds.closes caller place target call)
            (is_open_with seen ((world_of self.old).calls call.caller))) }
        ensures unchanged { OnErr result (world_of self.new ≡ world_of self.old) }
        ensures sizes { SameSizes self.old self.new }
    {
        let mut events = one_closed(self.alloc(), caller, place, target, call)?;
        let done = self.exchange_call(call.caller, seen, CallState::Forgot(seen));
        if done {
            self.forgets_on(caller, place, target, ForgetStep::LastClear { call });
        } else {
            events = Vec::new(self.alloc());
            self.forgets_on(caller, place, target, ForgetStep::Look { failed: true });
        }
        let forgot = true;
        Ok(Step {
            caller,
            act: Act::Close { call, forgot, done },
            events,
            answer: None,
        })
    }

    // The forget clears the key word of a call that is not open.
    fn first_clear(
        &mut self,
        caller: u32,
        place: u32,
        target: Option<CallId>,
        call: CallId,
    ) -> Result<Step<V>, Memory>
        requires caller { caller ≤ self.old.callers }
        requires forgets { (before : AnyStep)
            × ((world_of self.old).stages caller ≡ Forgetting place target before) }
        ensures world { OnOk result
            (world_of self.new ≡ turns.forget_cleared (world_of self.old) caller place target
            call (same_key ((world_of self.old).keys place) (key_of call))) }
        ensures caller { IfOk result (λ step. (step.caller ≡ caller) × (step.answer ≡ None)) }
        ensures act { IfOk result (λ step.
            step.act ≡ act_of.Clear place call
            (same_key ((world_of self.old).keys place) (key_of call))) }
        ensures events { IfOk result (λ step.
            step.events.items ≡ adds.forget_one (adds.clears caller place target call)
            (same_key ((world_of self.old).keys place) (key_of call))) }
        ensures unchanged { OnErr result (world_of self.new ≡ world_of self.old) }
        ensures sizes { SameSizes self.old self.new }
    {
        let mut events = one_cleared(self.alloc(), caller, place, target, call)?;
        let done = self.exchange_key(place, named(call, false), named(call, true));
        if done {
            self.set_stage(caller, Stage::Free);
        } else {
            events = Vec::new(self.alloc());
            self.forgets_on(caller, place, target, ForgetStep::Look { failed: true });
        }
        Ok(Step {
            caller,
            act: Act::Clear { place, call, done },
            events,
            answer: None,
        })
    }

    // The forget clears the key word of the call that it closed, if the key word still names it.
    fn last_clear(
        &mut self,
        caller: u32,
        place: u32,
        target: Option<CallId>,
        call: CallId,
    ) -> Step<V>
        requires caller { caller ≤ self.old.callers }
        requires forgets { (before : AnyStep)
            × ((world_of self.old).stages caller ≡ Forgetting place target before) }
        ensures world { world_of self.new
            ≡ with_stage (turns.cleared (world_of self.old) place call
            (same_key ((world_of self.old).keys place) (key_of call))) caller Free }
        ensures caller { (result.caller ≡ caller) × (result.answer ≡ None) }
        ensures act { result.act ≡ act_of.Clear place call
            (same_key ((world_of self.old).keys place) (key_of call)) }
        ensures events { result.events.items ≡ [] }
        ensures sizes { SameSizes self.old self.new }
    {
        let done = self.exchange_key(place, named(call, false), named(call, true));
        self.set_stage(caller, Stage::Free);
        Step {
            caller,
            act: Act::Clear { place, call, done },
            events: Vec::new(self.alloc()),
            answer: None,
        }
    }

    // The forget loads the call word of the call's leader. A forget of one call misses it where that is forgotten.
    fn peek_to_forget(
        &mut self,
        caller: u32,
        place: u32,
        target: Option<CallId>,
        call: CallId,
    ) -> Result<Step<V>, Memory>
        requires caller { caller ≤ self.old.callers }
        requires forgets { (before : AnyStep)
            × ((world_of self.old).stages caller ≡ Forgetting place target before) }
        ensures world { OnOk result (world_of self.new ≡ with_stage (world_of self.old) caller
            (turns.peek_missed place target call
            (open_in call.generation ((world_of self.old).calls call.caller))
            (turns.misses target (is_forgot_in call.generation
            ((world_of self.old).calls call.caller))))) }
        ensures caller { IfOk result (λ step. (step.caller ≡ caller) × (step.answer ≡ None)) }
        ensures act { IfOk result (λ step.
            step.act ≡ act_of.Peek call.caller ((world_of self.old).calls call.caller)) }
        ensures events { IfOk result (λ step.
            step.events.items ≡ adds.forget_one (event_of.ForgetCall caller place call Missed)
            (turns.misses target (is_forgot_in call.generation
            ((world_of self.old).calls call.caller)))) }
        ensures unchanged { OnErr result (world_of self.new ≡ world_of self.old) }
        ensures sizes { SameSizes self.old self.new }
    {
        let found = self.call(call.caller);
        let mut events = Vec::new(self.alloc());
        if misses(target, call, found) {
            events = one_missed(self.alloc(), caller, place, call)?;
            self.set_stage(caller, Stage::Free);
        } else {
            self.forgets_on(caller, place, target, peeked(call, found));
        }
        Ok(Step {
            caller,
            act: Act::Peek {
                caller: call.caller,
                found,
            },
            events,
            answer: None,
        })
    }

    /// The next step of a forget.
    pub(crate) fn step_forgetting(
        &mut self,
        caller: u32,
        place: u32,
        target: Option<CallId>,
        step: ForgetStep,
    ) -> Result<Step<V>, Memory>
        requires caller { caller ≤ self.old.callers }
        requires forgets { (world_of self.old).stages caller ≡ Forgetting place target step }
        ensures world { OnOk result
            (world_of self.new ≡ turns.forget_stepped (world_of self.old) caller place target
            step) }
        ensures caller { IfOk result (λ done. (done.caller ≡ caller) × (done.answer ≡ None)) }
        ensures act { IfOk result (λ done. done.act ≡ forget_act (world_of self.old) place step) }
        ensures events { IfOk result (λ done.
            done.events.items ≡ adds.forget_events (world_of self.old) caller place target
            step) }
        ensures unchanged { OnErr result (world_of self.new ≡ world_of self.old) }
        ensures sizes { SameSizes self.old self.new }
    {
        match step {
            ForgetStep::Look { .. } => match target {
                None => self.look_to_forget(caller, place),
                Some(call) => self.look_for_call(caller, place, call),
            },
            ForgetStep::Peek { call } => self.peek_to_forget(caller, place, target, call),
            ForgetStep::Close { call, seen } => self.close_to_forget(
                caller, place, target, call, seen,
            ),
            ForgetStep::FirstClear { call } => self.first_clear(caller, place, target, call),
            ForgetStep::LastClear { call } => Ok(self.last_clear(caller, place, target, call)),
        }
    }
}
