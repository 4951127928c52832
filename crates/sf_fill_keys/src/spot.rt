//! Keys with their places.
ghost use Rattle.std.specs.Prelude.{◌≡◌, ◌↔◌, IfOk, IsTrue, false};
ghost use Rattle.sf_fill_keys.specs.Spots.{AreOfOneSpace, IsOther, MayBe, spot_key, place_at, spot_place, spot_at};

use crate::key_place::KeyPlace;
use bytes::Bytes;
use sf_dir::Place;
use sf_history::Memory;
use sf_words::PlaceNo;

/// A key with its place. A fill's values keep one, so that each shows its key.
#[derive(Drop)]
pub enum Spot<'d> {
    /// A place of a directory, which shows its key.
    Directory(Place<'d>),
    /// A key, and the place that its hash says.
    Hashed(HashedKey),
}

/// A key, and the place that its hash says.
#[derive(Drop)]
pub struct HashedKey {
    /// The key's bytes, which are counted and not copied.
    pub key: Bytes,
    /// The place.
    pub place: PlaceNo,
}

impl<'d> Spot<'d> {
    /// The place's number.
    pub fn number(&self) -> PlaceNo
        ensures { result ≡ spot_place self.now }
    {
        match self {
            Spot::Directory(place) => place.number(),
            Spot::Hashed(hashed) => hashed.place,
        }
    }

    /// Another one of the same key and place; refused where the count of the key's bytes is at its greatest.
    #[inline(always)]
    pub fn again(&mut self) -> Result<Spot<'d>, Memory>
        ensures same { IfOk result (λ other. other ≡ self.old) }
        ensures kept { self.new ≡ self.old }
    {
        match self {
            Spot::Directory(place) => Ok(Spot::Directory(place.again())),
            Spot::Hashed(hashed) => Ok(Spot::Hashed(HashedKey {
                key: hashed.key.clone()?,
                place: hashed.place,
            })),
        }
    }

    /// Whether it may be of the key, whose place is this one: a directory's place is of one key alone, so that nothing is
    /// compared; a hashed one is of several.
    pub fn is_of(&self, key: &[u8]) -> bool
        ensures may_be { IsTrue result ↔ MayBe self.now key.now }
        ensures other { result ≡ false → IsOther self.now key.now }
    {
        match self {
            Spot::Directory(_) => true,
            Spot::Hashed(hashed) => hashed.key.as_slice() == key,
        }
    }

    /// Shows that it is of the key that was asked for, where both are of one place and it may be.
    pub fn agree(&mut self, at: &mut KeyPlace<'d>, key: &[u8])
        requires space { AreOfOneSpace self.old (spot_at key.now at.old) }
        requires number { spot_place self.old ≡ place_at at.old }
        requires may_be { MayBe self.old key.now }
        ensures same { spot_key self.old ≡ spot_key (spot_at key.now at.old) }
        ensures kept { (self.new ≡ self.old) × (at.new ≡ at.old) }
    {
        if let (Spot::Directory(place), KeyPlace::Directory(other)) = (self, at) {
            place.agree(other);
        }
    }
}
