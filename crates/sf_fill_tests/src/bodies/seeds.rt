//! Where a fill of a body has its keys: by both halves of the seed.
ghost use Rattle.std.specs.Prelude.{◌≡◌, ◌≤◌, All, vec_len};
ghost use Rattle.sf_words.specs.declared.limits.TheConstants.{LARGEST_PLACE};
ghost use Rattle.sf_fill_open.specs.Opened.{IsNewGetter, places_for};

use crate::bodies::leaders::{loaders, only};
use crate::getting::get;
use sf_fill::{Fill, Getter, Naming};
use sf_fill_open::{Body, DirectoryKeys, FillSizes, Keys, Places, with_fill};
use sf_history::Event;
use sf_loaders::{LoadPath, Origin};
use sf_words::PlaceNo;
use std::alloc::Global;
use std::process::Abort;
use std::sync::Wait;
use std::test::Fail;

// The place of the first call, of the key `a`.
#[derive(Drop)]
struct FirstPlace<'a, R> {
    rt: &'a R,
}

impl<'a, R: Wait> Body for FirstPlace<'a, R> {
    type Answer = Option<u32>;

    ghost use Rattle.std.specs.Prelude.{◌≡◌, ⊤};

    ghost wants = { λ first getters loaded. getters ≡ 1 };

    ghost room = { λ first. 3 };

    ghost ends = { λ first place. ⊤ };

    fn run<
        'd,
        D: Naming + Send + Sync,
        N: Naming + Send + Sync,
        O: Origin + Send + Sync,
        L: LoadPath<Origin = O> + Send + Drop,
    >(self, fill: &Fill<'d, D, N, O>, getters: Vec<Getter<'d, D, N, O, L>>) -> Option<u32>
        requires wants { N.getters ≡ 1 }
        requires getters { vec_len getters ≡ N.getters }
        requires new { All (IsNewGetter N.group 3) getters.items }
    {
        let rt = self.rt;
        let mut getter = only(getters);
        get(rt, fill, &mut getter, b"a");
        let log = getter.take_log();
        getter.end(rt, fill);
        first_led(log)
    }
}

// The place of the first call that was led.
fn first_led<V: Drop>(log: Vec<Event<PlaceNo, V>>) -> Option<u32> {
    for event in log {
        if let Event::Lead { key, .. } = event {
            return Some(key.number());
        }
    }
    None
}

// The key has this place.
fn check<R: Wait + Abort>(rt: &R, alloc: Global, keys: Keys, due: u32) -> Result<(), Fail>
    requires { places_for keys ≤ LARGEST_PLACE }
{
    let mut sizes = FillSizes::new(keys, 100);
    sizes.keeps.log = 3;
    let sets = vec![in alloc; loaders(alloc)?]?;
    let place = with_fill(alloc, sizes, sets, FirstPlace { rt })?;
    assert!(rt; place == Some(due), "another place than {due}");
    Ok(())
}

// An empty directory gives the key the place that a hash gives it: its SipHash-1-3 by the seed, scaled down.
#[test]
fn places_of_a_body_by_both_halves_of_the_seed(rt: HostRuntime) -> Result<(), Fail> {
    let (low, high) = (0x0706_0504_0302_0100, 0x0f0e_0d0c_0b0a_0908);
    let directory = DirectoryKeys {
        keys: 65_536,
        key_bytes: 8,
        seed0: low,
        seed1: high,
    };
    check(&rt, rt.alloc(), Keys::Directory(directory), 7207)?;
    let places = Places {
        count: 65_536,
        seed0: high,
        seed1: low,
    };
    check(&rt, rt.alloc(), Keys::Hashed(places), 46_885)
}
