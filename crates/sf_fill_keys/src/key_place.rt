//! Places of keys that were asked for.
ghost use Rattle.std.specs.Prelude.{◌≡◌, IfOk};
ghost use Rattle.sf_fill_keys.specs.Spots.{place_at, spot_at};

use crate::spot::{HashedKey, Spot};
use bytes::Bytes;
use sf_dir::{Memory, Place};
use sf_words::PlaceNo;
use std::alloc::Global;

/// The place of a key that one has at hand.
#[derive(Drop)]
pub enum KeyPlace<'d> {
    /// The place that a directory gave it.
    Directory(Place<'d>),
    /// The number that its hash says.
    Hashed(PlaceNo),
}

impl<'d> KeyPlace<'d> {
    /// The place's number.
    pub fn number(&self) -> PlaceNo
        ensures { result ≡ place_at self.now }
    {
        match self {
            KeyPlace::Directory(place) => place.number(),
            KeyPlace::Hashed(number) => *number,
        }
    }

    /// The key with its place. A hashed key is copied, and refused where there is no memory.
    pub fn spot(&mut self, alloc: Global, key: &[u8]) -> Result<Spot<'d>, Memory>
        ensures spot { IfOk result (λ spot. spot ≡ spot_at key.now self.old) }
        ensures kept { self.new ≡ self.old }
    {
        match self {
            KeyPlace::Directory(place) => Ok(Spot::Directory(place.again())),
            KeyPlace::Hashed(number) => Ok(Spot::Hashed(HashedKey {
                key: Bytes::copy_from_slice(alloc, key)?,
                place: *number,
            })),
        }
    }
}
