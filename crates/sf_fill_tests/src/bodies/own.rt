//! Whose memory the bytes of a near letter are: its getter's own, so that the answers of two threads count in no memory of both.
ghost use Rattle.std.specs.Prelude.{◌≡◌, All, vec_len};
ghost use Rattle.sf_fill_open.specs.Opened.{IsNewGetter};

use crate::bodies::leaders::only;
use crate::getting::get;
use bytes::Bytes;
use sf_fill::{Fill, Getter, Naming};
use sf_fill_open::{Body, FillSizes, Keys, Places, with_fill};
use sf_group::Memory;
use sf_loaders::scripted::{Answer, FixedPicker, RoundChance, Script};
use sf_loaders::{LoadPath, Loaders, Origin};
use std::alloc::Global;
use std::sync::Wait;
use std::test::Fail;

// Whether the bytes of a near letter are shared with nobody once the getter has ended, though main has its letter still.
#[derive(Drop)]
struct Own<'a, R> {
    rt: &'a R,
}

impl<'a, R: Wait> Body for Own<'a, R> {
    type Answer = Option<bool>;

    ghost use Rattle.std.specs.Prelude.{◌≡◌, ⊤};

    ghost wants = { λ own getters loaded. getters ≡ 1 };

    ghost room = { λ own. 0 };

    ghost ends = { λ own unique. ⊤ };

    fn run<
        'd,
        D: Naming + Send + Sync,
        N: Naming + Send + Sync,
        O: Origin + Send + Sync,
        L: LoadPath<Origin = O> + Send + Drop,
    >(self, fill: &Fill<'d, D, N, O>, getters: Vec<Getter<'d, D, N, O, L>>) -> Option<bool>
        requires wants { N.getters ≡ 1 }
        requires getters { vec_len getters ≡ N.getters }
        requires new { All (IsNewGetter N.group 0) getters.items }
    {
        let rt = self.rt;
        let mut getter = only(getters);
        // The first get loads, the second one is answered by main, and the third one near.
        get(rt, fill, &mut getter, b"a");
        get(rt, fill, &mut getter, b"a");
        let near = fill.get_bytes_if_present(rt, &mut getter, b"a");
        getter.end(rt, fill);
        match near {
            Some(Ok(bytes)) => Some(bytes.is_unique()),
            _ => None,
        }
    }
}

// A value of so many bytes.
fn value(alloc: Global, count: u32) -> Result<Bytes, Memory> {
    let mut bytes = Vec::new(alloc);
    for _ in 0..count {
        bytes.push(b'v')?;
    }
    Ok(Bytes::from_vec(bytes)?)
}

// Loaders that answer this value, with no peer.
fn loaders(
    alloc: Global,
    value: Bytes,
) -> Result<Loaders<FixedPicker, Script, Script, RoundChance>, Memory> {
    Ok(Loaders::new(
        FixedPicker::new(None),
        Script::new(vec![in alloc; Answer::Value(Bytes::from("p"))]?),
        Script::new(vec![in alloc; Answer::Value(value)]?),
        RoundChance::default(),
    ))
}

// Both a short value and a long one are copied for the getter.
#[test]
fn near_bytes_are_the_getters_own(rt: HostRuntime) -> Result<(), Fail> {
    let alloc = rt.alloc();
    let places = Places {
        count: 1,
        seed0: 0,
        seed1: 0,
    };
    for count in [1, 70_000] {
        let sizes = FillSizes::new(Keys::Hashed(places), 100_000);
        let sets = vec![in alloc; loaders(alloc, value(alloc, count)?)?]?;
        let unique = with_fill(alloc, sizes, sets, Own { rt: &rt })?;
        assert!(rt; unique == Some(true), "{count} bytes are shared");
    }
    Ok(())
}
