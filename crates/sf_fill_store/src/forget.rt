//! Forgets of the call that a place names.
ghost use Rattle.std.specs.Prelude.{◌≡◌};
ghost use Rattle.sf_group_rows.specs.Same.{IsPlaceOf};
ghost use Rattle.sf_fill_store.specs.Forgets.{ForgetsNamed, forgot_of};

use crate::store::Store;
use sf_fill_counters::Naming;
use sf_fill_values::FillValue;
use sf_group::Caller;
use sf_history::{CallId, Hit};
use sf_loaders::Origin;
use sf_wait::forget_call_wait;
use std::sync::Wait;

/// What became of the call that a key named.
#[derive(Clone, Copy)]
pub enum Forgot {
    /// It was open, and takes no more callers.
    Closed(CallId),
    /// It was settled and current, and is current no more.
    Cleared(CallId),
    /// It was not current any more.
    Missed(CallId),
    /// The key named no call.
    Idle,
}

impl Forgot {
    // What a Forget of this call came to.
    pub(crate) fn of(call: CallId, hit: Hit) -> Forgot
        ensures { result ≡ forgot_of call hit }
    {
        match hit {
            Hit::Closed => Forgot::Closed(call),
            Hit::Cleared => Forgot::Cleared(call),
            Hit::Missed => Forgot::Missed(call),
        }
    }
}

impl<'d, D: Naming, N: Naming, O: Origin> Store<'d, D, N, O> {
    /// Forgets the call that the place names, whose entries then leave both caches. The lock is held all the while: who leads a call
    /// that follows the named one has its second look before, so that its own call is named, or after, so that it finds nothing to
    /// take over, and loads.
    pub fn forget_named<R: Wait>(
        &self,
        rt: &R,
        caller: &mut Caller<FillValue<'d, D, O>>,
        place: u32,
    ) -> Forgot
        requires caller { caller.old.group ≡ N.group }
        requires place { IsPlaceOf N.group place }
        ensures { ForgetsNamed caller.old place result caller.new }
    {
        let mut locked = self.locked.lock(rt);
        let Some(call) = self.group.named(caller, place) else {
            return Forgot::Idle;
        };
        let hit = forget_call_wait(rt, &self.group, caller, place, call);
        locked.kept.remove_call(place, call);
        Forgot::of(call, hit)
    }
}
