//! Letters that a look found.
ghost use Rattle.std.specs.Prelude.{◌≡◌, IfOk};
ghost use Rattle.sf_fill_keys.specs.Spots.{IsInSpace, place_at, spot_at, spot_key};
ghost use Rattle.sf_fill_values.specs.Answers.{IsLoadedFor};
ghost use Rattle.sf_fill.specs.Lookups.{IsHitFor, ShowsBytes, ShowsHit};

use bytes::Bytes;
use sf_fill_counters::Naming;
use sf_fill_keys::KeyPlace;
use sf_fill_near::NearView;
use sf_fill_values::{FillValue, LoadFault, View, show};
use sf_group::{Group, Letter, Memory};
use sf_loaders::Origin;

/// A letter that a look found for a key, which is current. It gives a view, or the bytes alone.
pub(crate) enum Hit<'g, 'd, D: Naming, N: Naming, O: Origin> {
    /// One that the getter keeps near.
    Near(&'g mut NearView<'d, D, N, O>),
    /// A copy of one that a cache has, or want of memory for it.
    Far(Result<Letter<FillValue<'d, D, O>>, Memory>),
}

impl<'g, 'd, D: Naming, N: Naming, O: Origin> Hit<'g, 'd, D, N, O> {
    // What it answers for the key at the place: its bytes, or why there are none.
    #[inline(always)]
    pub(crate) fn view(
        self,
        group: &Group<FillValue<'d, D, O>>,
        at: &mut KeyPlace<'d>,
        key: &[u8],
    ) -> Result<View<'d, D, O>, LoadFault>
        requires group { group.now ≡ N.group }
        requires space { IsInSpace D.space (spot_at key.now at.old) }
        requires fits { IsHitFor (place_at at.old) key.now self }
        ensures shown { ShowsHit self.entry result }
        ensures keyed { IfOk result (λ view.
            spot_key view.value.spot ≡ spot_key (spot_at key.now at.old)) }
        ensures loaded { IfOk result (IsLoadedFor O.loaded (spot_key (spot_at key.now at.old))) }
        ensures same { at.new ≡ at.old }
    {
        match self {
            Hit::Near(letter) => match letter.show(group, at, key) {
                Ok(view) => Ok(view),
                Err(_) => Err(LoadFault::Memory),
            },
            Hit::Far(found) => match found {
                Ok(letter) => show(letter, at, key),
                Err(_) => Err(LoadFault::Memory),
            },
        }
    }

    // The bytes alone of that.
    #[inline(always)]
    pub(crate) fn bytes(self, at: &mut KeyPlace<'d>, key: &[u8]) -> Result<Bytes, LoadFault>
        requires space { IsInSpace D.space (spot_at key.now at.old) }
        requires fits { IsHitFor (place_at at.old) key.now self }
        ensures shown { ShowsBytes O.loaded (spot_key (spot_at key.now at.old)) self.entry result }
        ensures same { at.new ≡ at.old }
    {
        match self {
            Hit::Near(letter) => match letter.bytes(at, key) {
                Ok(bytes) => Ok(bytes),
                Err(_) => Err(LoadFault::Memory),
            },
            Hit::Far(found) => match found {
                Ok(letter) => match show(letter, at, key) {
                    Ok(view) => Ok(view.into_bytes()),
                    Err(fault) => Err(fault),
                },
                Err(_) => Err(LoadFault::Memory),
            },
        }
    }
}
