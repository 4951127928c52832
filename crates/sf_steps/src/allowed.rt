//! Which turns a schedule may have next.

ghost use Rattle.std.specs.Prelude.{◌≡◌, ℕ, ◌≤◌, ◌↔◌, Option, IsTrue};
ghost use Rattle.sf_history.specs.declared.call.CallId.{CallId};
ghost use Rattle.sf_steps_laws.specs.Schedules.{IsCaller, IsPlace, MayAsk, MayStart};
ghost use Rattle.sf_steps_laws.specs.Schedules.{HasOperation, MayLeave};
ghost use Rattle.sf_steps_laws.specs.declared.operation.Op.TheVariants as op_of;
ghost use Rattle.sf_steps_laws.specs.declared.operation.Stage.TheVariants.{Free, Leading, Holding};

use crate::world::World;
use sf_steps_laws::{AskStep, ForgetStep, Op, Stage};

impl<V: Drop> World<V> {
    ghost use Rattle.sf_steps.specs.Running.{world_of, setting_of};

    fn is_caller(&self, caller: u32) -> bool
        ensures { IsTrue result ↔ IsCaller (setting_of self.now) caller }
    {
        1 <= caller && caller <= self.callers()
    }

    fn is_place(&self, place: u32) -> bool
        ensures { IsTrue result ↔ IsPlace (setting_of self.now) place }
    {
        1 <= place && place <= self.places()
    }

    fn is_free(&self, caller: u32) -> bool
        requires { caller ≤ self.now.callers }
        ensures { IsTrue result ↔ ((world_of self.now).stages caller ≡ Free) }
    {
        matches!(self.stage(caller), Stage::Free)
    }

    fn may_ask(&self, caller: u32) -> bool
        requires { caller ≤ self.now.callers }
        ensures { IsTrue result ↔ MayAsk (world_of self.now) caller }
    {
        self.is_free(caller) && self.generation(caller) <= u64::from(u32::MAX)
    }

    fn is_leading(&self, caller: u32) -> bool
        requires { caller ≤ self.now.callers }
        ensures { IsTrue result
            ↔ ((k g : ℕ) × (own : Option CallId)
            × ((world_of self.now).stages caller ≡ Leading k g own)) }
    {
        matches!(self.stage(caller), Stage::Leading { .. })
    }

    fn is_holding(&self, caller: u32) -> bool
        requires { caller ≤ self.now.callers }
        ensures { IsTrue result
            ↔ ((k g : ℕ) × (c : CallId) × ((world_of self.now).stages caller ≡ Holding k g c)) }
    {
        matches!(self.stage(caller), Stage::Holding { .. })
    }

    /// Whether the caller may start the operation. That a call of which a question is asked was led is not looked at.
    pub fn may_start(&self, caller: u32, op: &Op<V>) -> bool
        ensures { IsTrue result ↔ (IsCaller (setting_of self.now) caller
            × MayStart (setting_of self.now) (world_of self.now) caller op.now) }
    {
        self.is_caller(caller)
            && match op {
                Op::Ask { place } => self.is_place(*place) && self.may_ask(caller),
                Op::Chan { second, place } => self.may_start_chan(caller, *second, *place),
                Op::Settle { .. } => self.is_leading(caller),
                Op::Forget { place }
                | Op::ForgetCall { place, .. }
                | Op::Named { place }
                | Op::Current { place, .. } => self.is_place(*place) && self.is_free(caller),
                Op::Poll => self.is_holding(caller),
            }
    }

    fn may_start_chan(&self, caller: u32, second: u32, place: u32) -> bool
        requires { caller ≤ self.now.callers }
        ensures { IsTrue result
            ↔ MayStart (setting_of self.now) (world_of self.now) caller (op_of.Chan second place) }
    {
        self.is_place(place)
            && self.is_caller(second)
            && second != caller
            && self.may_ask(caller)
            && self.may_ask(second)
    }

    /// Whether the caller has an operation, which may make its next step.
    pub fn may_step(&self, caller: u32) -> bool
        ensures { IsTrue result
            ↔ (IsCaller (setting_of self.now) caller
            × HasOperation ((world_of self.now).stages caller)) }
    {
        self.is_caller(caller)
            && matches!(
                self.stage(caller),
                Stage::Polling { .. }
                    | Stage::Asking { .. }
                    | Stage::Settling { .. }
                    | Stage::Forgetting { .. }
                    | Stage::Naming { .. }
                    | Stage::Questioning { .. }
            )
    }

    /// Whether the caller may leave its operation.
    pub fn may_leave(&self, caller: u32) -> bool
        ensures { IsTrue result
            ↔ (IsCaller (setting_of self.now) caller
            × MayLeave ((world_of self.now).stages caller)) }
    {
        self.is_caller(caller)
            && match self.stage(caller) {
                Stage::Asking { step, .. } => matches!(step, AskStep::Look { failed: true }),
                Stage::Forgetting { step, .. } => matches!(step, ForgetStep::Look { failed: true }),
                _ => false,
            }
    }
}
