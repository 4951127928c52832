//! Getters that are added while a fill runs, and one whose caller is spent and that goes on with a spare one.
ghost use Rattle.std.specs.Prelude.{◌≡◌, ◌≤◌, vec_len, pos};
ghost use Rattle.sf_words.specs.declared.limits.TheConstants.{LARGEST_PLACE};
ghost use Rattle.sf_fill_keys.specs.Spaces.{AreDesksOf, places_in, space_of};
ghost use Rattle.sf_fill.specs.Made.{AreParts};

use crate::bodies::leaders::loaders;
use sf_fill::{Fill, FillParts, Getter, Keeps, LoadFault, Naming, Totals, View};
use sf_fill_keys::{KeyDesk, KeySpace, open_directory};
use sf_group::{CallId, Memory};
use sf_loaders::Loaders;
use sf_loaders::scripted::{AnyValue, FixedPicker, RoundChance, Script};
use std::alloc::Global;
use std::fmt::Write;
use std::marker::Brand;
use std::sync::Wait;
use std::test::Fail;

// Nothing is kept, so each get asks.
const SIZES: Keeps = Keeps {
    limit: 0,
    log: 0,
    near: 0,
    near_limit: 0,
};

type OneLoaders = Loaders<FixedPicker, Script, Script, RoundChance>;

type Seat<'d, D, N> = Getter<'d, D, N, AnyValue, ()>;

type OneGetter<'d, D, N> = Getter<'d, D, N, AnyValue, OneLoaders>;

// The call of the answer, or the fault.
fn say<'d, D: Naming>(said: &mut String, answer: Result<View<'d, D, AnyValue>, LoadFault>) {
    let _ = match answer {
        Ok(view) => {
            let CallId { caller, generation } = view.call();
            write!(said, "{caller}.{generation}\n")
        }
        Err(fault) => write!(said, "{fault}\n"),
    };
}

// A get of the key, and what it says.
fn get<'d, D: Naming, N: Naming, R: Wait>(
    rt: &R,
    fill: &Fill<'d, D, N, AnyValue>,
    getter: &mut OneGetter<'d, D, N>,
    said: &mut String,
) {
    let answer = fill.get(rt, getter, b"a");
    say(said, answer);
}

// The book's gets and loads.
fn say_book(said: &mut String, book: Totals) {
    let Totals { gets, loads, .. } = book;
    let _ = write!(said, "{gets} gets, {loads} loads\n");
}

// The seat's first get, which is its caller's last one, and the next one.
fn add<'d, D: Naming, N: Naming, R: Wait>(
    rt: &R,
    fill: &Fill<'d, D, N, AnyValue>,
    seat: Seat<'d, D, N>,
    with: OneLoaders,
    said: &mut String,
) -> OneGetter<'d, D, N> {
    let (mut getter, ()) = seat.with_loaders(with);
    get(rt, fill, &mut getter, said);
    get(rt, fill, &mut getter, said);
    say_book(said, fill.book(rt));
    getter
}

// The getter gets a spare caller, and gets with it.
fn renew<'d, D: Naming, N: Naming, R: Wait>(
    rt: &R,
    fill: &Fill<'d, D, N, AnyValue>,
    getter: &mut OneGetter<'d, D, N>,
    spare: Seat<'d, D, N>,
    said: &mut String,
) {
    let Some(mut caller) = spare.into_caller(rt, fill) else {
        return;
    };
    if getter.renew(fill, &mut caller) {
        let number = caller.number();
        let _ = write!(said, "{number} is spare\n");
    }
    get(rt, fill, getter, said)
}

// What the getters of the seats say: the first one's caller is spent, and it goes on with the last one's; then the second is added.
fn play<'d, D: Naming, N: Naming, R: Wait>(
    rt: &R,
    alloc: Global,
    fill: &Fill<'d, D, N, AnyValue>,
    seats: Vec<Seat<'d, D, N>>,
    first: OneLoaders,
    second: OneLoaders,
) -> String
    requires { vec_len seats ≡ 3 }
{
    let mut said = String::new(alloc);
    let mut seats = seats;
    let Some(three) = seats.pop() else {
        unreachable!()
    };
    let Some(two) = seats.pop() else {
        unreachable!()
    };
    let Some(one) = seats.pop() else {
        unreachable!()
    };
    seats.destroy_empty();
    let mut one = add(rt, fill, one, first, &mut said);
    renew(rt, fill, &mut one, three, &mut said);
    one.end(rt, fill);
    let two = add(rt, fill, two, second, &mut said);
    two.end(rt, fill);
    said
}

// All is named here.
fn with_all<'d, D: Naming, N: Naming, R: Wait>(
    rt: &R,
    alloc: Global,
    space: KeySpace<'d>,
    parts: FillParts<'d, D, AnyValue, ()>,
) -> Result<String, Memory>
    requires space { (space_of space ≡ N.space) × (D.space ≡ N.space) }
    requires parts { AreParts N.space N.group N.getters N.ledgers parts }
    requires getters { N.getters ≡ 3 }
    requires limit { N.limit ≡ pos 0 }
{
    let (first, second) = (loaders(alloc)?, loaders(alloc)?);
    let Ok((fill, seats)) = Fill::<'d, D, N, AnyValue>::new(alloc, space, parts, SIZES) else {
        return Err(Memory);
    };
    Ok(play(rt, alloc, &fill, seats, first, second))
}

// The key space is named here. Each caller has one generation, the last one.
fn with_space<'d, D: Naming, R: Wait>(
    rt: &R,
    alloc: Global,
    space: KeySpace<'d>,
    desks: Vec<KeyDesk>,
) -> Result<String, Memory>
    requires space { (space_of space ≡ D.space) × (places_in D.space ≤ LARGEST_PLACE) }
    requires desks { (vec_len desks ≡ 3) × AreDesksOf D.space desks.items }
{
    let seats = vec![in alloc; (), (), ()]?;
    let Ok(parts) = FillParts::new(alloc, space, desks, seats, u32::MAX) else {
        return Err(Memory);
    };
    with_all::<D, Brand, R>(rt, alloc, space, parts)
}

const SAID: &str = "\
1.4294967295
spent
2 gets, 2 loads
1 is spare
3.4294967295
2.4294967295
spent
5 gets, 5 loads
";

// A getter whose caller has no generation left is spent, until it has a spare caller; and a getter is added meanwhile.
#[test]
fn spent_getter_goes_on_and_one_is_added(rt: HostRuntime) -> Result<(), Fail> {
    let alloc = rt.alloc();
    let (directory, desks) = open_directory(alloc, 1, 4, 3, 0, 0)?;
    let said = with_space::<Brand, HostRuntime>(
        &rt,
        alloc,
        KeySpace::Directory(&directory),
        desks,
    )?;
    assert!(rt; said.as_str() == SAID, "{said}");
    Ok(())
}
