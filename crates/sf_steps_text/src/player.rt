//! A schedule that is played turn by turn.

ghost use Rattle.std.specs.Prelude.{◌≡◌, ◌↔◌, List, ◌++◌, [], ◌∷◌, replicate, IsTrue, IfOk};
ghost use Rattle.std.specs.Bool.{MatchBool};
ghost use Rattle.std.specs.List.{list_any};
ghost use Rattle.sf_steps_laws.specs.declared.turn.Turn.{Turn};
ghost use Rattle.sf_steps_laws.specs.declared.turn.Turn.TheVariants as turn;
ghost use Rattle.sf_steps_laws.specs.Events.{events_of};
ghost use Rattle.sf_steps_text.specs.TraceText.{Outcome};
ghost use Rattle.sf_steps_laws.specs.Schedules.{leads_on, was_led_on, AsksOfLed, IsSchedule};
ghost use Rattle.sf_steps_text.specs.Played.{text_setting};
ghost use Rattle.sf_steps_text.specs.PlayerState.{IsAfter};
ghost use Rattle.sf_steps_text.specs.ScheduleText.{turns_of};

use crate::schedule_line::ScheduleLine;
use sf_history::{CallId, Event, Memory};
use sf_steps::{Step, World};
use sf_steps_laws::Op;
use sf_text::Outcome;
use sf_words::PlaceNo;
use std::alloc::Global;

fn is_lead_on<V>(event: &Event<PlaceNo, V>, place: u32, led: CallId) -> bool
    ensures { result ≡ leads_on place led event.now }
{
    match event {
        Event::Lead { key, call, .. } => key.number() == place && *call == led,
        _ => false,
    }
}

// Whether the call was led on the place.
fn is_led_on<V>(events: &[Event<PlaceNo, V>], place: u32, call: CallId) -> bool
    ensures { result ≡ was_led_on events.now place call }
{
    events.iter().any(|event| is_lead_on(event, place, call))
}

/// The world after a schedule, and the steps that it made.
#[derive(Drop)]
pub(crate) struct Player {
    pub(crate) world: World<Outcome>,
    pub(crate) steps: Vec<Step<Outcome>>,
}

impl Player {
    /// Nothing has been played yet.
    pub(crate) fn new(alloc: Global) -> Result<Self, Memory>
        ensures { IfOk result (λ p. IsAfter p []) }
    {
        Ok(Player {
            world: World::new(alloc, 64, 64)?,
            steps: Vec::new(alloc),
        })
    }

    // Whether one of the steps led the call on the place.
    fn was_led(&self, place: u32, call: CallId) -> bool
        ensures { result ≡ list_any (λ s.
            was_led_on s.events.items place call) self.now.steps.items }
    {
        self.steps
            .iter()
            .any(|step| is_led_on(step.events.as_slice(), place, call))
    }

    // Whether a question is of a call that was led.
    fn asks_of_led(&self, op: &Op<Outcome>) -> bool
        ensures { (ts : List (Turn Outcome)) → IsAfter self.now ts → IsTrue result
            ↔ AsksOfLed (events_of 64 1 ts) op.now }
    {
        match op {
            Op::Current { place, call } => self.was_led(*place, *call),
            _ => true,
        }
    }

    /// Starts an operation; false, and nothing changes, where that is no turn of a schedule.
    pub(crate) fn start(&mut self, caller: u32, op: Op<Outcome>) -> bool
        ensures turn { (ts : List (Turn Outcome)) → IsAfter self.old ts
            → MatchBool result (IsAfter self.new (ts ++ turn.Start caller op ∷ []))
            (IsSchedule text_setting (ts ++ turn.Start caller op ∷ []) → ⊥) }
    {
        if !self.world.may_start(caller, &op) || !self.asks_of_led(&op) {
            return false;
        }
        self.world.start(caller, op);
        true
    }

    /// Makes the next step of a caller's operation; false, and nothing changes, where that is no turn of a schedule.
    pub(crate) fn step(&mut self, caller: u32) -> Result<bool, Memory>
        ensures turn { (ts : List (Turn Outcome)) → IsAfter self.old ts
            → IfOk result (λ done.
            MatchBool done (IsAfter self.new (ts ++ turn.Step caller ∷ []))
            (IsSchedule text_setting (ts ++ turn.Step caller ∷ []) → ⊥)) }
    {
        if !self.world.may_step(caller) {
            return Ok(false);
        }
        self.steps.reserve(1)?;
        let step = self.world.step(caller)?;
        self.steps.push(step).unwrap();
        Ok(true)
    }

    /// Leaves a caller's operation; false, and nothing changes, where that is no turn of a schedule.
    pub(crate) fn leave(&mut self, caller: u32) -> bool
        ensures turn { (ts : List (Turn Outcome)) → IsAfter self.old ts
            → MatchBool result (IsAfter self.new (ts ++ turn.Leave caller ∷ []))
            (IsSchedule text_setting (ts ++ turn.Leave caller ∷ []) → ⊥) }
    {
        if !self.world.may_leave(caller) {
            return false;
        }
        self.world.leave(caller);
        true
    }

    // Makes so many steps of a caller's operation; false where one of them is no turn of a schedule.
    fn steps(&mut self, caller: u32, count: u32) -> Result<bool, Memory>
        ensures turns { (ts : List (Turn Outcome)) → IsAfter self.old ts
            → IfOk result (λ done.
            MatchBool done (IsAfter self.new (ts ++ replicate count (turn.Step caller)))
            (IsSchedule text_setting (ts ++ replicate count (turn.Step caller)) → ⊥)) }
    {
        for _i in 0..count {
            if !self.step(caller)? {
                return Ok(false);
            }
        }
        Ok(true)
    }

    /// Makes the turns that a line says; false where one of them is no turn of a schedule.
    pub(crate) fn obey(&mut self, line: ScheduleLine) -> Result<bool, Memory>
        ensures turns { (ts : List (Turn Outcome)) → IsAfter self.old ts
            → IfOk result (λ done.
            MatchBool done (IsAfter self.new (ts ++ turns_of line))
            (IsSchedule text_setting (ts ++ turns_of line) → ⊥)) }
    {
        match line {
            ScheduleLine::Do { caller, op } => Ok(self.start(caller, op)),
            ScheduleLine::Steps { caller, count } => self.steps(caller, count),
            ScheduleLine::Drop { caller } => Ok(self.leave(caller)),
        }
    }
}
