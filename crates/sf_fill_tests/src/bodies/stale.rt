//! What a look takes out of a cache: an entry whose call a caller of the group forgot that is no getter, so that no reload took
//! it out.
ghost use Rattle.std.specs.Prelude.{◌≡◌, All, vec_len};
ghost use Rattle.sf_fill_open.specs.Opened.{IsNewGetter};

use crate::bodies::leaders::both;
use crate::getting::get;
use bytes::{ByteStr, Bytes};
use sf_fill::{Fill, FillValue, Getter, Naming, Which};
use sf_fill_open::{Body, FillSizes, Keys, Places, with_fill};
use sf_group::{Caller, Memory};
use sf_loaders::scripted::{Answer, FixedPicker, RoundChance, Script};
use sf_loaders::{LoadPath, Loaders, Origin};
use sf_wait::forget_wait;
use std::alloc::Global;
use std::sync::Wait;
use std::test::Fail;

// How many entries main has after a get, and after a Forget and another get.
#[derive(Drop)]
struct Stale<'a, R> {
    rt: &'a R,
}

impl<'a, R: Wait> Body for Stale<'a, R> {
    type Answer = [usize; 2];

    ghost use Rattle.std.specs.Prelude.{◌≡◌, ⊤};

    ghost wants = { λ stale getters loaded. getters ≡ 2 };

    ghost room = { λ stale. 0 };

    ghost ends = { λ stale items. ⊤ };

    fn run<
        'd,
        D: Naming + Send + Sync,
        N: Naming + Send + Sync,
        O: Origin + Send + Sync,
        L: LoadPath<Origin = O> + Send + Drop,
    >(self, fill: &Fill<'d, D, N, O>, getters: Vec<Getter<'d, D, N, O, L>>) -> [usize; 2]
        requires wants { N.getters ≡ 2 }
        requires getters { vec_len getters ≡ N.getters }
        requires new { All (IsNewGetter N.group 0) getters.items }
    {
        let rt = self.rt;
        let (mut one, two) = both(getters);
        let kept = kept_after_get(rt, fill, &mut one);
        leave_and_forget(rt, fill, two);
        let left = kept_after_get(rt, fill, &mut one);
        one.end(rt, fill);
        [kept, left]
    }
}

// How many entries main has after a get.
fn kept_after_get<'d, D: Naming, N: Naming, O: Origin, L: LoadPath<Origin = O>>(
    rt: &impl Wait,
    fill: &Fill<'d, D, N, O>,
    getter: &mut Getter<'d, D, N, O, L>,
) -> usize {
    get(rt, fill, getter, b"a");
    fill.cache_stats(rt, Which::Main).items
}

// The getter's caller forgets place 1.
fn leave_and_forget<'d, D: Naming, N: Naming, O: Origin, L: Drop>(
    rt: &impl Wait,
    fill: &Fill<'d, D, N, O>,
    getter: Getter<'d, D, N, O, L>,
) {
    if let Some(caller) = getter.into_caller(rt, fill) {
        forget_place(rt, fill, caller);
    }
}

// The caller forgets place 1, behind the fill's back.
fn forget_place<'d, D: Naming, N: Naming, O: Origin, R: Wait>(
    rt: &R,
    fill: &Fill<'d, D, N, O>,
    mut caller: Caller<FillValue<'d, D, O>>,
)
    requires own { caller.group ≡ N.group }
{
    if fill.group().has(1) {
        let _ = forget_wait(rt, fill.group(), &mut caller, 1);
    }
}

// The first load gives a value, and the second one a fault, which is not kept.
fn loaders(alloc: Global) -> Result<Loaders<FixedPicker, Script, Script, RoundChance>, Memory> {
    let value = Answer::Value(Bytes::from("v"));
    let fault = Answer::Failed(ByteStr::from("down"));
    Ok(Loaders::new(
        FixedPicker::new(None),
        Script::new(vec![in alloc; Answer::Failed(ByteStr::from("down"))]?),
        Script::new(vec![in alloc; value, fault]?),
        RoundChance::default(),
    ))
}

#[test]
fn stale_entry_leaves(rt: HostRuntime) -> Result<(), Fail> {
    let alloc = rt.alloc();
    let places = Places {
        count: 1,
        seed0: 0,
        seed1: 0,
    };
    // The caches are tried: nothing is kept near.
    let mut sizes = FillSizes::new(Keys::Hashed(places), 100);
    sizes.keeps.near = 0;
    let sets = vec![in alloc; loaders(alloc)?, loaders(alloc)?]?;
    let items = with_fill(alloc, sizes, sets, Stale { rt: &rt })?;
    assert!(rt; items == [1, 0], "the stale entry stayed");
    Ok(())
}
