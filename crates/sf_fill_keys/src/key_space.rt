//! Key spaces, and what looks keys up in them.
ghost use Rattle.std.specs.Prelude.{◌<◌, ◌≡◌, ◌≤◌, IfOk, IfErr};
ghost use Rattle.sf_words.specs.declared.limits.TheConstants.{LARGEST_PLACE};
ghost use Rattle.sf_fill_keys.specs.Spaces.{IsDeskOf, places_in, space_of};
ghost use Rattle.sf_fill_keys.specs.Spots.{IsInSpace, IsSpotOfKey, IsRefusedSpot, IsSeeingSpace, place_at, spot_at, spot_key};

use crate::key_place::KeyPlace;
use sf_dir::{Desk, Directory, Refusal};
use sf_keys_places::Places;
use sf_words::{LARGEST_PLACE, PlaceNo};

/// Where keys have their places.
#[derive(Clone, Copy)]
pub enum KeySpace<'d> {
    /// In a directory, which is full once each place has a key.
    Directory(&'d Directory),
    /// By a seeded hash: no key is refused, and keys share places.
    Hashed(Places),
}

/// What one getter looks keys up with.
#[derive(Drop)]
pub enum KeyDesk {
    /// A desk of the directory.
    Directory(Desk),
    /// Nothing, where a hash says the place.
    Hashed,
}

impl<'d> KeySpace<'d> {
    /// How many places it has.
    pub fn place_count(&self) -> u32
        ensures count { result ≡ places_in (space_of self.now) }
        ensures some { 1 ≤ result }
    {
        match self {
            KeySpace::Directory(directory) => directory.place_count(),
            KeySpace::Hashed(places) => places.count,
        }
    }

    /// The key's place. A directory gives it one where it has none, or refuses it; a hash has one for each.
    pub fn find(&self, desk: &mut KeyDesk, key: &[u8]) -> Result<KeyPlace<'d>, Refusal>
        requires desk { IsDeskOf (space_of self.now) desk.old }
        requires few { places_in (space_of self.now) ≤ LARGEST_PLACE }
        ensures found { IfOk result (λ at.
            IsSpotOfKey (space_of self.now) key.now desk.old desk.new (spot_at key.now at)) }
        ensures space { IfOk result (λ at. IsInSpace (space_of self.now) (spot_at key.now at)) }
        ensures keyed { IfOk result (λ at. spot_key (spot_at key.now at) ≡ key.now) }
        ensures place { IfOk result (λ at.
            (0 < place_at at) × (place_at at ≤ places_in (space_of self.now))) }
        ensures refused { IfErr result (λ refusal.
            IsRefusedSpot (space_of self.now) key.now desk.old desk.new refusal) }
        ensures seeing { IsSeeingSpace (space_of self.now) desk.old desk.new }
        ensures desk { IsDeskOf (space_of self.now) desk.new }
    {
        match self {
            KeySpace::Directory(directory) => {
                let KeyDesk::Directory(desk) = desk else {
                    unreachable!()
                };
                let place = directory.resolve(desk, key)?;
                Ok(KeyPlace::Directory(place))
            }
            KeySpace::Hashed(places) => {
                let number = places.of(key);
                Ok(KeyPlace::Hashed(PlaceNo::from_index(number as usize - 1)))
            }
        }
    }
}
