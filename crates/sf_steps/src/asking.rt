//! The steps of an asking that reads and leads: look, peek, ready, lead.

ghost use Rattle.std.specs.Prelude.{◌≡◌, ◌≤◌, None, [], IfOk, OnOk, OnErr, false};
ghost use Rattle.sf_steps_laws.specs.World.{with_stage, with_used, next_id, same_key, open_in, is_forgot_in};
ghost use Rattle.sf_steps_laws.specs.Askings as askings;
ghost use Rattle.sf_steps_laws.specs.Events.{lead_events, ask_events};
ghost use Rattle.sf_steps.specs.Acts.{ask_act, ask_stepper, ready_own_act};
ghost use Rattle.sf_steps_laws.specs.Stages.{ask_top, top_in};
ghost use Rattle.sf_steps_laws.specs.declared.operation.AskStep.{AskStep as AnyStep};
ghost use Rattle.sf_steps_laws.specs.declared.operation.Stage.TheVariants.{Asking, Leading};
ghost use Rattle.sf_steps_laws.specs.declared.operation.AskStep.TheVariants.{ReadyLead};
ghost use Rattle.sf_steps.specs.declared.trace.Act.TheVariants as act_of;

use crate::events::{key_of, one_event, room_for_events};
use crate::trace::{Act, Step};
use crate::world::{World, named};
use sf_history::{CallId, Event, Memory};
use sf_steps_laws::{AskStep, Stage};
use sf_words::{CallState, KeyState, LeaderState};

// What an asking does that is to lead: a chan makes its second's word ready first.
fn prepares(second: Option<u32>, seen: KeyState, forgot: bool) -> AskStep
    ensures step { result ≡ askings.prepares second seen forgot }
    ensures top { ask_top result ≡ 0 }
{
    match second {
        None => AskStep::ReadyLead { seen, forgot },
        Some(_) => AskStep::ReadyOwn { seen, forgot },
    }
}

// What an asking does after its look.
fn looked(second: Option<u32>, found: KeyState) -> AskStep
    ensures step { result ≡ askings.looked second found }
    ensures top { ask_top result ≡ 0 }
{
    match found {
        KeyState::Names {
            caller,
            generation,
            cleared: false,
        } => AskStep::Peek {
            call: CallId { caller, generation },
        },
        _ => prepares(second, found, false),
    }
}

// What an asking does after its peek.
fn peeked(second: Option<u32>, call: CallId, found: CallState) -> AskStep
    ensures step { result ≡ askings.peeked second call (is_forgot_in call.generation found)
        (open_in call.generation found) }
    ensures top { ask_top result ≤ top_in found }
{
    match found {
        CallState::Open(seen) if seen.generation == call.generation => AskStep::ReadyJoin {
            call,
            seen,
        },
        _ => prepares(second, named(call, false), is_forgot(call, found)),
    }
}

/// Whether the word says that a Forget closed the call.
pub(crate) fn is_forgot(call: CallId, found: CallState) -> bool
    ensures { result ≡ is_forgot_in call.generation found }
{
    match found {
        CallState::Forgot(leader) => leader.generation == call.generation,
        _ => false,
    }
}

impl<V: Drop> World<V> {
    ghost use Rattle.sf_steps.specs.Running.{SameSizes, world_of};

    /// The next step of an asking.
    pub(crate) fn step_asking(
        &mut self,
        caller: u32,
        place: u32,
        second: Option<u32>,
        step: AskStep,
    ) -> Result<Step<V>, Memory>
        requires caller { caller ≤ self.old.callers }
        requires asks { (world_of self.old).stages caller ≡ Asking place second step }
        ensures world { OnOk result
            (world_of self.new ≡ askings.ask_stepped (world_of self.old) caller place second
            step) }
        ensures caller { IfOk result (λ done. (done.caller ≡ ask_stepper caller second step)
            × (done.answer ≡ None)) }
        ensures act { IfOk result (λ done.
            done.act ≡ ask_act (world_of self.old) caller place second step) }
        ensures events { IfOk result (λ done.
            done.events.items ≡ ask_events (world_of self.old) caller place second step) }
        ensures unchanged { OnErr result (world_of self.new ≡ world_of self.old) }
        ensures sizes { SameSizes self.old self.new }
    {
        match step {
            AskStep::Look { .. } => {
                let found = self.key(place);
                self.asks_on(caller, place, second, looked(second, found));
                Ok(Step::quiet(self.alloc(), caller, Act::Look { place, found }))
            }
            AskStep::Peek { call } => Ok(self.peek_to_ask(caller, place, second, call)),
            AskStep::ReadyOwn { seen, forgot } => Ok(self.ready_own(
                caller, place, second, seen, forgot,
            )),
            AskStep::ReadyLead { seen, forgot } => Ok(self.ready_to_lead(
                caller, place, second, seen, forgot,
            )),
            AskStep::Lead { seen, forgot: _ } => self.lead(caller, place, second, seen),
            AskStep::ReadyJoin { call, seen } => Ok(self.ready_to_join(
                caller, place, second, call, seen,
            )),
            AskStep::Link { call, seen } => Ok(self.link(caller, place, second, call, seen)),
            AskStep::Enter { call, seen } => self.enter(caller, place, second, call, seen),
        }
    }

    /// The asking goes on at a step.
    pub(crate) fn asks_on(&mut self, caller: u32, place: u32, second: Option<u32>, step: AskStep)
        requires caller { caller ≤ self.old.callers }
        requires asks { (before : AnyStep)
            × ((world_of self.old).stages caller ≡ Asking place second before) }
        requires top { ask_top step ≤ self.old.callers }
        ensures world { world_of self.new ≡ with_stage (world_of self.old) caller
            (Asking place second step) }
        ensures sizes { SameSizes self.old self.new }
    {
        self.set_stage(
            caller,
            Stage::Asking {
                place,
                second,
                step,
            },
        );
    }

    // The caller loads the call word of the call's leader.
    fn peek_to_ask(&mut self, caller: u32, place: u32, second: Option<u32>, call: CallId) -> Step<V>
        requires caller { caller ≤ self.old.callers }
        requires asks { (before : AnyStep)
            × ((world_of self.old).stages caller ≡ Asking place second before) }
        ensures world { world_of self.new ≡ with_stage (world_of self.old) caller
            (Asking place second (askings.peeked second call
            (is_forgot_in call.generation ((world_of self.old).calls call.caller))
            (open_in call.generation ((world_of self.old).calls call.caller)))) }
        ensures act { (result.caller ≡ caller)
            × (result.act ≡ act_of.Peek call.caller ((world_of self.old).calls call.caller)) }
        ensures quiet { (result.events.items ≡ []) × (result.answer ≡ None) }
        ensures sizes { SameSizes self.old self.new }
    {
        let found = self.call(call.caller);
        self.asks_on(caller, place, second, peeked(second, call, found));
        let act = Act::Peek {
            caller: call.caller,
            found,
        };
        Step::quiet(self.alloc(), caller, act)
    }

    // A chan makes its second's call word ready to serve as the own channel of the call to be led.
    fn ready_own(
        &mut self,
        caller: u32,
        place: u32,
        second: Option<u32>,
        seen: KeyState,
        forgot: bool,
    ) -> Step<V>
        requires caller { caller ≤ self.old.callers }
        requires asks { (before : AnyStep)
            × ((world_of self.old).stages caller ≡ Asking place second before) }
        ensures world { world_of self.new ≡ askings.ready_own (world_of self.old) caller place
            second seen forgot }
        ensures act { (result.caller ≡ askings.joiner caller second)
            × (result.act ≡ ready_own_act (world_of self.old) caller second) }
        ensures quiet { (result.events.items ≡ []) × (result.answer ≡ None) }
        ensures sizes { SameSizes self.old self.new }
    {
        let by = self.joiner(caller, second);
        let call = self.next_call(by);
        if second.is_some() {
            let generation = call.generation;
            self.set_call(by, CallState::Listed { generation });
            self.asks_on(caller, place, second, AskStep::ReadyLead { seen, forgot });
        }
        let listed = true;
        Step::quiet(self.alloc(), by, Act::Ready { call, listed })
    }

    // The caller makes its own call word ready to lead.
    fn ready_to_lead(
        &mut self,
        caller: u32,
        place: u32,
        second: Option<u32>,
        seen: KeyState,
        forgot: bool,
    ) -> Step<V>
        requires caller { caller ≤ self.old.callers }
        requires asks { (world_of self.old).stages caller
            ≡ Asking place second (ReadyLead seen forgot) }
        ensures world { world_of self.new ≡ askings.ask_stepped (world_of self.old) caller place
            second (ReadyLead seen forgot) }
        ensures act { (result.caller ≡ caller)
            × (result.act ≡ act_of.Ready (next_id (world_of self.old) caller) false) }
        ensures quiet { (result.events.items ≡ []) × (result.answer ≡ None) }
        ensures sizes { SameSizes self.old self.new }
    {
        let call = self.next_call(caller);
        let word = CallState::Open(LeaderState {
            generation: call.generation,
            own: second.is_some(),
            top: None,
        });
        self.set_call(caller, word);
        self.asks_on(caller, place, second, AskStep::Lead { seen, forgot });
        let listed = false;
        Step::quiet(self.alloc(), caller, Act::Ready { call, listed })
    }

    // The caller tries to lead: it exchanges the key word that it saw.
    fn lead(
        &mut self,
        caller: u32,
        place: u32,
        second: Option<u32>,
        seen: KeyState,
    ) -> Result<Step<V>, Memory>
        requires caller { caller ≤ self.old.callers }
        requires asks { (before : AnyStep)
            × ((world_of self.old).stages caller ≡ Asking place second before) }
        ensures world { OnOk result
            (world_of self.new ≡ askings.after_lead (world_of self.old) caller place second
            (same_key ((world_of self.old).keys place) seen)) }
        ensures caller { IfOk result (λ done. (done.caller ≡ caller) × (done.answer ≡ None)) }
        ensures act { IfOk result (λ done.
            done.act ≡ act_of.Lead place (next_id (world_of self.old) caller)
            (same_key ((world_of self.old).keys place) seen)) }
        ensures events { IfOk result (λ done.
            done.events.items ≡ lead_events (world_of self.old) caller place second
            (same_key ((world_of self.old).keys place) seen)) }
        ensures unchanged { OnErr result (world_of self.new ≡ world_of self.old) }
        ensures sizes { SameSizes self.old self.new }
    {
        let room = room_for_events(self.alloc())?;
        let call = self.next_call(caller);
        let done = self.exchange_key(place, seen, named(call, false));
        let act = Act::Lead { place, call, done };
        if !done {
            self.asks_on(caller, place, second, AskStep::Look { failed: true });
            return Ok(Step::quiet(self.alloc(), caller, act));
        }
        let own = self.take_lead(caller, place, second);
        let (by, key) = (caller, key_of(place));
        let events = one_event(room, Event::Lead { by, key, call, own });
        Ok(Step {
            caller,
            act,
            events,
            answer: None,
        })
    }

    // The caller leads, and the second of a chan holds the ticket of the own channel, which is the result.
    fn take_lead(&mut self, caller: u32, place: u32, second: Option<u32>) -> Option<CallId>
        requires caller { caller ≤ self.old.callers }
        requires asks { (before : AnyStep)
            × ((world_of self.old).stages caller ≡ Asking place second before) }
        ensures own { result ≡ askings.own_of (world_of self.old) second }
        ensures world { world_of self.new
            ≡ with_used (with_stage (askings.holds_own (world_of self.old) caller place second)
            caller
            (Leading place ((world_of self.old).generations caller)
            (askings.own_of (world_of self.old) second))) caller }
        ensures sizes { SameSizes self.old self.new }
    {
        let call = self.next_call(caller);
        let generation = call.generation;
        let Some(second) = second else {
            let own = None;
            self.set_stage(
                caller,
                Stage::Leading {
                    place,
                    generation,
                    own,
                },
            );
            self.use_generation(caller);
            return None;
        };
        let member = self.next_call(second);
        let own = Some(member);
        self.set_stages(
            second,
            Stage::Holding {
                place,
                generation: member.generation,
                call,
            },
            caller,
            Stage::Leading {
                place,
                generation,
                own,
            },
        );
        self.use_generation(second);
        self.use_generation(caller);
        own
    }
}
