//! What a leader's second look finds. No getters can be made to show it by turns, since the first look of a get finds the same
//! letters; so a caller of the group that is no getter leads.
ghost use Rattle.std.specs.Prelude.{◌≡◌, All, vec_len};
ghost use Rattle.sf_group_rows.specs.Same.{IsPlaceOf};
ghost use Rattle.sf_fill_open.specs.Opened.{IsNewGetter};

use crate::getting::get;
use bytes::Bytes;
use sf_fill::{Fill, FillValue, Getter, Naming};
use sf_fill_open::{Body, FillSizes, Keys, Places, with_fill};
use sf_group::{Begun, Caller, Forgotten, Memory};
use sf_history::CallId;
use sf_loaders::scripted::{Answer, FixedPicker, RoundChance, Script};
use sf_loaders::{LoadPath, Loaders, Origin};
use sf_wait::{begin_wait, forget_wait};
use std::alloc::Global;
use std::process::Abort;
use std::sync::Wait;
use std::test::Fail;

// What the leader does before it leads, and for which key.
#[derive(Clone, Copy)]
struct Case {
    forgets: bool,
    key: &'static str,
}

// The call of the letter that the second look of a leader of place 1 finds.
fn found_by<'d, D: Naming, N: Naming, O: Origin, R: Wait>(
    rt: &R,
    fill: &Fill<'d, D, N, O>,
    leader: Caller<FillValue<'d, D, O>>,
    key: &[u8],
) -> Option<CallId>
    requires leader { leader.group ≡ N.group }
    requires place { IsPlaceOf N.group 1 }
{
    match begin_wait(rt, fill.group(), leader, 1) {
        Ok(Begun::Lead(flight)) => {
            let found = fill.followed(rt, &flight, key);
            flight.abandon();
            match found? {
                Ok(letter) => Some(letter.call()),
                Err(_) => None,
            }
        }
        Ok(Begun::Join(ticket)) => {
            ticket.abandon();
            None
        }
        Err(_) => None,
    }
}

// What the leader's Forget came to, if it made one, and the call that its second look finds.
#[derive(Clone, Copy, PartialEq, Eq)]
struct Looked {
    forgot: Option<Forgotten>,
    found: Option<CallId>,
}

// What the second look finds, once the first getter's letter of the key `a` lies in main, and the other's caller leads; and maybe a
// Forget came before.
#[derive(Drop)]
struct SecondLook<'a, R> {
    rt: &'a R,
    case: Case,
}

impl<'a, R: Wait> Body for SecondLook<'a, R> {
    type Answer = Option<Looked>;

    ghost use Rattle.std.specs.Prelude.{◌≡◌, ⊤};

    ghost wants = { λ look getters loaded. getters ≡ 2 };

    ghost room = { λ look. 0 };

    ghost ends = { λ look looked. ⊤ };

    fn run<
        'd,
        D: Naming + Send + Sync,
        N: Naming + Send + Sync,
        O: Origin + Send + Sync,
        L: LoadPath<Origin = O> + Send + Drop,
    >(self, fill: &Fill<'d, D, N, O>, getters: Vec<Getter<'d, D, N, O, L>>) -> Option<Looked>
        requires wants { N.getters ≡ 2 }
        requires getters { vec_len getters ≡ N.getters }
        requires new { All (IsNewGetter N.group 0) getters.items }
    {
        let SecondLook { rt, case } = self;
        let (mut one, two) = both(getters);
        get(rt, fill, &mut one, b"a");
        one.end(rt, fill);
        found_after(rt, fill, two.into_caller(rt, fill)?, case)
    }
}

// What the second look of a leader of place 1 finds, after a Forget or without one.
fn found_after<'d, D: Naming, N: Naming, O: Origin, R: Wait>(
    rt: &R,
    fill: &Fill<'d, D, N, O>,
    mut leader: Caller<FillValue<'d, D, O>>,
    case: Case,
) -> Option<Looked>
    requires leader { leader.group ≡ N.group }
{
    if !fill.group().has(1) {
        return None;
    }
    let forgot = if case.forgets {
        Some(forget_wait(rt, fill.group(), &mut leader, 1))
    } else {
        None
    };
    let found = found_by(rt, fill, leader, case.key.as_bytes());
    Some(Looked { forgot, found })
}

// The two getters of a fill.
pub(crate) fn both<'d, D: Naming, N: Naming, O: Origin, L: Drop>(
    getters: Vec<Getter<'d, D, N, O, L>>,
) -> (Getter<'d, D, N, O, L>, Getter<'d, D, N, O, L>)
    requires { vec_len getters ≡ 2 }
{
    let mut getters = getters;
    let Some(two) = getters.pop() else {
        unreachable!()
    };
    let Some(one) = getters.pop() else {
        unreachable!()
    };
    getters.destroy_empty();
    (one, two)
}

// The only getter of a fill.
pub(crate) fn only<'d, D: Naming, N: Naming, O: Origin, L: Drop>(
    getters: Vec<Getter<'d, D, N, O, L>>,
) -> Getter<'d, D, N, O, L>
    requires { vec_len getters ≡ 1 }
{
    let mut getters = getters;
    let Some(getter) = getters.pop() else {
        unreachable!()
    };
    getters.destroy_empty();
    getter
}

// Loaders that answer `v`, with no peer.
pub(crate) fn loaders(
    alloc: Global,
) -> Result<Loaders<FixedPicker, Script, Script, RoundChance>, Memory> {
    Ok(Loaders::new(
        FixedPicker::new(None),
        Script::new(vec![in alloc; Answer::Value(Bytes::from("v"))]?),
        Script::new(vec![in alloc; Answer::Value(Bytes::from("v"))]?),
        RoundChance::default(),
    ))
}

fn try_out<R: Wait>(rt: &R, alloc: Global, case: Case) -> Result<Option<Looked>, Memory> {
    let places = Places {
        count: 1,
        seed0: 0,
        seed1: 0,
    };
    // The caches are tried: nothing is kept near.
    let mut sizes = FillSizes::new(Keys::Hashed(places), 100);
    sizes.keeps.near = 0;
    let sets = vec![in alloc; loaders(alloc)?, loaders(alloc)?]?;
    with_fill(alloc, sizes, sets, SecondLook { rt, case })
}

// The leader does so, and its second look finds this.
fn check<R: Wait + Abort>(
    rt: &R,
    alloc: Global,
    case: Case,
    forgot: Option<Forgotten>,
    found: Option<CallId>,
) -> Result<(), Memory> {
    let due = Looked { forgot, found };
    let looked = try_out(rt, alloc, case)?;
    assert!(rt; looked == Some(due), "another second look for {}", case.key);
    Ok(())
}

// The settled letter 1.1 of the key `a` lies in main. The next leader's second look finds it, unless the place was forgotten
// before, by an idle Forget, since no call is open; or the leader is one of another key of the place.
#[test]
fn second_look(rt: HostRuntime) -> Result<(), Fail> {
    let first = CallId {
        caller: 1,
        generation: 1,
    };
    let own = Case {
        forgets: false,
        key: "a",
    };
    let after = Case {
        forgets: true,
        ..own
    };
    let other = Case { key: "b", ..own };
    check(&rt, rt.alloc(), own, None, Some(first))?;
    check(&rt, rt.alloc(), after, Some(Forgotten::Idle), None)?;
    check(&rt, rt.alloc(), other, None, None)?;
    Ok(())
}
