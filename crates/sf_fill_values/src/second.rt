//! A leader's second look: groupcache's leaders look in the caches again before they load, since another may have filled them
//! between a getter's look and its lead.
ghost use Rattle.std.specs.Prelude.{◌≡◌, ◌≤ℤ◌, ◌<ℤ◌, ◌⊎◌, pos, None, Some, IfErr, IfOk};
ghost use Rattle.sf_group_rows.specs.Afters.{FollowsCall};
ghost use Rattle.sf_fill_keys.specs.Spots.{MayBe};
ghost use Rattle.sf_fill_values.specs.Keeping.{LooksAgain};
ghost use Rattle.sf_fill_values.specs.Settled.{CopiesFollowed};

use crate::cached::CachedLetters;
use crate::value::FillValue;
use sf_fill_caches::Which;
use sf_fill_counters::Naming;
use sf_group::{Fit, Flight, Group, Letter, Memory};
use sf_history::CallId;
use sf_loaders::Origin;

/// A letter that a cache has.
pub struct InCache<V: Fit> {
    /// A copy of it, or want of memory for one.
    pub copy: Result<Letter<V>, Memory>,
    /// Which cache has it.
    pub which: Which,
}

/// That the second look of a call's leader found nothing. Who loads has to have one, and none is made elsewhere.
#[derive(Drop)]
pub struct Missed {
    call: CallId,
}

impl Missed {
    /// The leader's call.
    pub fn call(&self) -> CallId
        ensures { result ≡ self.now.call }
    {
        self.call
    }
}

impl<'d, D: Naming, N: Naming, O: Origin> CachedLetters<'d, D, N, O> {
    /// The call whose letter a leader looks for, which its own follows. There is none where the flight's follows none, or where
    /// the limit keeps nothing.
    pub fn to_find(limit: i64, flight: &Flight<FillValue<'d, D, O>>) -> Result<CallId, Missed>
        requires limit { limit ≡ N.limit }
        ensures found { IfOk result (λ call. FollowsCall flight.now (Some call)
            × (pos 0 <ℤ N.limit)) }
        ensures missed { IfErr result (λ missed. FollowsCall flight.now None ⊎ (N.limit ≤ℤ pos 0)) }
        ensures call { IfErr result (λ missed. missed.call ≡ flight.now.call) }
    {
        match flight.after() {
            Some(call) if limit > 0 => Ok(call),
            _ => Err(Missed {
                call: flight.call(),
            }),
        }
    }

    /// A copy of the letter of the key and of the call, which the flight's follows, that main, or else hot, has.
    pub fn look_again(
        &mut self,
        group: &Group<FillValue<'d, D, O>>,
        flight: &Flight<FillValue<'d, D, O>>,
        key: &[u8],
        call: CallId,
    ) -> Result<InCache<FillValue<'d, D, O>>, Missed>
        requires group { group.now ≡ N.group }
        requires flight { flight.now.group ≡ N.group }
        requires call { FollowsCall flight.now (Some call) }
        ensures caches { LooksAgain (λ l. (l.place ≡ flight.now.place) × (l.call ≡ call)
            × MayBe l.value.spot key.now) flight.now.place self.old result self.new }
        ensures follows { IfOk result (λ found. CopiesFollowed flight.now found.copy) }
        ensures of_key { IfOk result (λ found.
            IfOk found.copy (λ letter. MayBe letter.value.spot key.now)) }
        ensures call { IfErr result (λ missed. missed.call ≡ flight.now.call) }
    {
        let place = flight.place();
        if let Some(copy) = self.copy_of(group, Which::Main, place, key, call) {
            let which = Which::Main;
            return Ok(InCache { copy, which });
        }
        if let Some(copy) = self.copy_of(group, Which::Hot, place, key, call) {
            let which = Which::Hot;
            return Ok(InCache { copy, which });
        }
        Err(Missed {
            call: flight.call(),
        })
    }
}
