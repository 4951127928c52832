//! How a fill is made, from its sizes to its end.
ghost use Rattle.std.specs.Prelude.{◌≡◌, ◌≤◌, All, IfOk, vec_len};
ghost use Rattle.sf_group_rows.specs.Making.{IsNewCaller};
ghost use Rattle.sf_words.specs.declared.limits.TheConstants.{LARGEST_PLACE, LARGEST_CALLER};
ghost use Rattle.sf_fill_keys.specs.Spaces.{AreDesksOf, places_in, space_of};
ghost use Rattle.sf_fill.specs.Made.{AreParts};
ghost use Rattle.sf_fill_open.specs.Opened.{places_for};

use crate::body::Body;
use crate::sizes::{FillSizes, Keys};
use sf_fill::{Fill, FillParts, Naming};
use sf_fill_keys::{KeyDesk, KeySpace, hash_desks, open_directory};
use sf_group::Memory;
use sf_loaders::{LoadPath, Origin};
use std::alloc::Global;
use std::marker::Brand;

/// Makes a fill with a getter for each set of loaders, 1 to 65,535, and does the body with them. Refused where there is no
/// memory for it; then the body is not done.
pub fn with_fill<O: Origin + Send + Sync, L: LoadPath<Origin = O> + Send + Drop, B: Body + Drop>(
    alloc: Global,
    sizes: FillSizes,
    loaders: Vec<L>,
    body: B,
) -> Result<B::Answer, Memory>
    requires places { places_for sizes.keys ≤ LARGEST_PLACE }
    requires getters { (1 ≤ vec_len loaders) × (vec_len loaders ≤ LARGEST_CALLER) }
    requires wants { B.wants body (vec_len loaders) O.loaded }
    requires room { sizes.keeps.log ≡ B.room body }
    ensures { IfOk result (λ answer. B.ends body answer) }
{
    let getters = loaders.len() as u32;
    match sizes.keys {
        Keys::Directory(of) => {
            let (directory, desks) = open_directory(
                alloc,
                of.keys,
                of.key_bytes,
                getters,
                of.seed0,
                of.seed1,
            )?;
            let space = KeySpace::Directory(&directory);
            with_space::<Brand, O, L, B>(alloc, space, desks, sizes, loaders, body)
        }
        Keys::Hashed(places) => {
            let desks = hash_desks(alloc, places, getters)?;
            let space = KeySpace::Hashed(places);
            with_space::<Brand, O, L, B>(alloc, space, desks, sizes, loaders, body)
        }
    }
}

// The key space is named here, and the group made.
fn with_space<
    'd,
    D: Naming + Send + Sync,
    O: Origin + Send + Sync,
    L: LoadPath<Origin = O> + Send + Drop,
    B: Body + Drop,
>(
    alloc: Global,
    space: KeySpace<'d>,
    desks: Vec<KeyDesk>,
    sizes: FillSizes,
    loaders: Vec<L>,
    body: B,
) -> Result<B::Answer, Memory>
    requires space { (space_of space ≡ D.space) × (places_in D.space ≤ LARGEST_PLACE) }
    requires getters { (1 ≤ vec_len loaders) × (vec_len loaders ≤ LARGEST_CALLER) }
    requires desks { (vec_len desks ≡ vec_len loaders) × AreDesksOf D.space desks.items }
    requires wants { B.wants body (vec_len loaders) O.loaded }
    requires room { sizes.keeps.log ≡ B.room body }
    ensures { IfOk result (λ answer. B.ends body answer) }
{
    let Ok(parts) = FillParts::new(alloc, space, desks, loaders, sizes.first_generation) else {
        return Err(Memory);
    };
    with_all::<D, Brand, O, L, B>(alloc, space, parts, sizes, body)
}

// All is named here.
fn with_all<
    'd,
    D: Naming + Send + Sync,
    N: Naming + Send + Sync,
    O: Origin + Send + Sync,
    L: LoadPath<Origin = O> + Send + Drop,
    B: Body + Drop,
>(
    alloc: Global,
    space: KeySpace<'d>,
    parts: FillParts<'d, D, O, L>,
    sizes: FillSizes,
    body: B,
) -> Result<B::Answer, Memory>
    requires space { (space_of space ≡ N.space) × (D.space ≡ N.space) }
    requires parts { AreParts N.space N.group N.getters N.ledgers parts }
    requires limit { sizes.keeps.limit ≡ N.limit }
    requires callers { All (IsNewCaller N.group) parts.callers.items }
    requires wants { B.wants body N.getters O.loaded }
    requires room { sizes.keeps.log ≡ B.room body }
    ensures { IfOk result (λ answer. B.ends body answer) }
{
    let made = Fill::<'d, D, N, O>::new(alloc, space, parts, sizes.keeps);
    let Ok((fill, getters)) = made else {
        return Err(Memory);
    };
    Ok(body.run(&fill, getters))
}
