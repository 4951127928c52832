//! Forgets: of a place, and of one call.
ghost use Rattle.std.specs.Prelude.{◌≡◌, ◌≤◌, IfOk, IfErr};
ghost use Rattle.sf_group_rows.specs.Same.{IsPlaceOf};
ghost use Rattle.sf_group_rows.specs.Forgets.{HasForgotten, HasForgotCall};
ghost use Rattle.sf_group.specs.Calls.{HasTriedAtMost, HasNotForgotten};

use crate::group::{Group, MOST_TRIES};
use crate::tokens::Caller;
use sf_group_rows::{Busy, Fit};
use sf_group_steps::{Actor, ForgetAttempt, forget_often};
use sf_history::{CallId, Forgotten, Hit};

impl<V: Fit> Group<V> {
    /// The caller forgets the place: it closes the place's open call, or finds none. Refused as busy is one whose
    /// exchanges failed so often.
    pub fn forget(&self, caller: &mut Caller<V>, place: u32, tries: u32) -> Result<Forgotten, Busy>
        requires own { caller.old.group ≡ self.now }
        requires place { IsPlaceOf self.now place }
        requires tries { (1 ≤ tries) × (tries ≤ MOST_TRIES) }
        ensures forgotten { IfOk result (λ forgotten.
            HasForgotten caller.old place caller.new forgotten) }
        ensures tried { IfOk result (λ _. HasTriedAtMost caller.old tries caller.new.turns) }
        ensures refused { IfErr result (λ busy.
            HasNotForgotten caller.old place tries caller.new busy.0) }
    {
        let actor = Actor {
            sizes: self.sizes,
            number: caller.seated.number as u32,
            place,
        };
        let words = &self.table.shared;
        let attempt = forget_often(words, &mut caller.seated.seat, actor, None, tries);
        match attempt {
            ForgetAttempt::Closed(call) => return Ok(Forgotten::Closed(call)),
            ForgetAttempt::Cleared(_) => return Ok(Forgotten::Idle),
            ForgetAttempt::Missed => return Ok(Forgotten::Idle),
            ForgetAttempt::Lost => {}
        }
        Err(Busy(tries))
    }

    /// The caller forgets this call of the place, whichever call it is, and leaves a newer one as it is: it closes the call
    /// where that is the open one, clears it where it is the current one and not open, and else misses it. Refused as busy
    /// is one whose exchanges failed so often.
    pub fn forget_call(
        &self,
        caller: &mut Caller<V>,
        place: u32,
        call: CallId,
        tries: u32,
    ) -> Result<Hit, Busy>
        requires own { caller.old.group ≡ self.now }
        requires place { IsPlaceOf self.now place }
        requires tries { (1 ≤ tries) × (tries ≤ MOST_TRIES) }
        ensures forgot { IfOk result (λ hit. HasForgotCall caller.old place call hit caller.new) }
        ensures tried { IfOk result (λ _. HasTriedAtMost caller.old tries caller.new.turns) }
        ensures refused { IfErr result (λ busy.
            HasNotForgotten caller.old place tries caller.new busy.0) }
    {
        let actor = Actor {
            sizes: self.sizes,
            number: caller.seated.number as u32,
            place,
        };
        let words = &self.table.shared;
        let attempt = forget_often(words, &mut caller.seated.seat, actor, Some(call), tries);
        match attempt {
            ForgetAttempt::Closed(_) => return Ok(Hit::Closed),
            ForgetAttempt::Cleared(_) => return Ok(Hit::Cleared),
            ForgetAttempt::Missed => return Ok(Hit::Missed),
            ForgetAttempt::Lost => {}
        }
        Err(Busy(tries))
    }
}
