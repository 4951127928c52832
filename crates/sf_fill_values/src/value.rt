//! What a fill settles its calls with.
ghost use Rattle.std.specs.Prelude.{◌≡◌, ◌↔◌, IfOk, IsTrue, false};
ghost use Rattle.sf_fill_keys.specs.Spots.{IsInSpace, IsOther, MayBe, place_at, spot_at, spot_key, spot_place};
ghost use Rattle.sf_fill_values.specs.ByteCounts.{count_of};

use bytes::Bytes;
use sf_fill_counters::Naming;
use sf_fill_keys::{HashedKey, KeyPlace, Spot};
use sf_group_rows::Fit;
use sf_history::{CallId, Memory, Share};
use sf_loaders::{LocalFault, Origin};
use std::alloc::Global;
use std::marker::{Model, PhantomData};

/// The bytes of a key, or why there are none: with the key and its place, and the call whose run loaded them.
#[derive(Drop)]
pub struct FillValue<'d, D: Naming, O: Origin> {
    spot: Spot<'d>,
    root: CallId,
    result: Result<Bytes, LocalFault>,
    of: PhantomData<D>,
    from: PhantomData<O>,
}

impl<'d, D: Naming, O: Origin> Model for FillValue<'d, D, O> {
    ghost use Rattle.std.specs.Prelude.{IfOk};
    ghost use Rattle.sf_fill_keys.specs.Spots.{IsInSpace, spot_key};
    ghost use Rattle.sf_fill_values.specs.FillValue.{Filled};

    ghost Value = { Filled };

    ghost view = { λ v. record { spot = v.spot; root = v.root; result = v.result } };

    ghost invariant = { λ v.
        IsInSpace D.space v.spot × IfOk v.result (λ bytes.
        O.loaded (spot_key v.spot) v.root bytes) };
}

impl<'d, D: Naming, O: Origin> FillValue<'d, D, O> {
    /// What the run of a call gave for the spot's key.
    pub fn of_run(spot: Spot<'d>, root: CallId, loaded: Result<Bytes, LocalFault>) -> Self
        requires space { IsInSpace D.space spot }
        requires loaded { IfOk loaded (λ bytes. O.loaded (spot_key spot) root bytes) }
        ensures { result ≡ record { spot = spot.entry; root = root; result = loaded } }
    {
        FillValue {
            spot,
            root,
            result: loaded,
            of: PhantomData,
            from: PhantomData,
        }
    }

    /// The spot, the call whose run loaded the bytes, and the bytes or why there are none.
    pub fn into_parts(self) -> (Spot<'d>, CallId, Result<Bytes, LocalFault>)
        ensures spot { (result.0 ≡ self.entry.spot) × IsInSpace D.space self.entry.spot }
        ensures root { result.1 ≡ self.entry.root }
        ensures result { result.2 ≡ self.entry.result }
        ensures loaded { IfOk self.entry.result (λ bytes.
            O.loaded (spot_key self.entry.spot) self.entry.root bytes) }
    {
        let FillValue {
            spot,
            root,
            result,
            of: _,
            from: _,
        } = self;
        (spot, root, result)
    }

    /// This value with a copy of its bytes that no other value shares; refused where there is no memory for them.
    pub fn into_own(self, alloc: Global) -> Result<Self, Memory>
        ensures { IfOk result (λ own. own ≡ self.entry) }
    {
        let FillValue {
            spot,
            root,
            result,
            of: _,
            from: _,
        } = self;
        let spot = match spot {
            Spot::Directory(place) => Spot::Directory(place),
            Spot::Hashed(hashed) => Spot::Hashed(HashedKey {
                key: Bytes::copy_from_slice(alloc, hashed.key.as_slice())?,
                place: hashed.place,
            }),
        };
        let result = match result {
            Ok(bytes) => Ok(Bytes::copy_from_slice(alloc, bytes.as_slice())?),
            Err(fault) => Err(fault),
        };
        Ok(FillValue {
            spot,
            root,
            result,
            of: PhantomData,
            from: PhantomData,
        })
    }

    /// How many bytes there are; none where there is a fault in their place.
    pub fn byte_count(&self) -> Option<usize>
        ensures { result ≡ count_of self.now.result }
    {
        match &self.result {
            Ok(bytes) => Some(bytes.len()),
            Err(_) => None,
        }
    }

    /// Whether the value may be of the key, whose place is its own: by a directory it is, and by a hash where the bytes are.
    pub fn is_of(&self, key: &[u8]) -> bool
        ensures may_be { IsTrue result ↔ MayBe self.now.spot key.now }
        ensures other { result ≡ false → IsOther self.now.spot key.now }
        ensures space { IsInSpace D.space self.now.spot }
    {
        self.spot.is_of(key)
    }

    /// Shows that the value is of the key that was asked for, where both are of one place and it may be.
    pub fn agree(&mut self, at: &mut KeyPlace<'d>, key: &[u8])
        requires space { IsInSpace D.space (spot_at key.now at.old) }
        requires number { place_at at.old ≡ spot_place self.old.spot }
        requires may_be { MayBe self.old.spot key.now }
        ensures same { spot_key self.old.spot ≡ spot_key (spot_at key.now at.old) }
        ensures loaded { IfOk self.old.result (λ bytes.
            O.loaded (spot_key (spot_at key.now at.old)) self.old.root bytes) }
        ensures kept { (self.new ≡ self.old) × (at.new ≡ at.old) }
    {
        self.spot.agree(at, key);
    }
}

impl<'d, D: Naming, O: Origin> Share for FillValue<'d, D, O> {
    fn share(&mut self) -> Result<Self, Memory> {
        let result = match &self.result {
            Ok(bytes) => Ok(bytes.clone()?),
            Err(LocalFault::Failed(text)) => Err(LocalFault::Failed(text.clone()?)),
            Err(LocalFault::Memory) => Err(LocalFault::Memory),
        };
        Ok(FillValue {
            spot: self.spot.again()?,
            root: self.root,
            result,
            of: PhantomData,
            from: PhantomData,
        })
    }
}

impl<'d, D: Naming, O: Origin> Fit for FillValue<'d, D, O> {
    ghost use Rattle.sf_fill_values.specs.FillValue.{FitsFill, fill_lasts};

    ghost fits = { FitsFill };

    ghost lasts = { fill_lasts };
}
