//! A page server's fill: two threads get a page at once, and it is loaded once. Then the page changes; one thread reloads it
//! and tells a note, and who learns the note gets the new page.
#![tactic(auto)]

ghost use Rattle.std.specs.Prelude.{◌≡◌, vec_len};

mod pages;

use crate::pages::{Pages, loaders};
use sf_fill::{Fill, Getter, Naming, Totals};
use sf_fill_open::{FillSizes, Keys, Places, Team, with_team};
use sf_loaders::{LoadPath, Origin};
use std::io;
use std::process::ExitCode;
use std::sync::Wait;

const PAGE: &[u8] = b"/index.html";

// What the two threads do with the fill.
#[derive(Drop)]
struct Serve<'a, R> {
    rt: &'a R,
    pages: &'a Pages,
}

impl<'a, R: Wait> Team for Serve<'a, R> {
    type Part = ();

    /// Whether the last get had the new page, and what was counted.
    type Answer = (bool, Totals);

    ghost use Rattle.std.specs.Prelude.{◌≡◌, ⊤};

    ghost wants = { λ serve getters loaded. getters ≡ 2 };

    ghost room = { λ serve. 0 };

    ghost gives = { λ serve space group index getter part. ⊤ };

    ghost ends = { λ serve parts answer. ⊤ };

    fn work<'d, D: Naming, N: Naming, O: Origin, L: LoadPath<Origin = O> + Drop>(
        &self,
        fill: &Fill<'d, D, N, O>,
        getter: &mut Getter<'d, D, N, O, L>,
        _index: u32,
    )
        requires wants { N.getters ≡ 2 }
    {
        let _page = fill.get(self.rt, getter, PAGE);
    }

    fn finish<'d, D: Naming, N: Naming, O: Origin, L: LoadPath<Origin = O> + Drop>(
        &self,
        fill: &Fill<'d, D, N, O>,
        getters: Vec<Getter<'d, D, N, O, L>>,
        parts: Vec<()>,
    ) -> (bool, Totals)
        requires wants { N.getters ≡ 2 }
        requires getters { vec_len getters ≡ N.getters }
        requires parts { vec_len parts ≡ N.getters }
    {
        let rt = self.rt;
        let mut getters = getters;
        let Some(mut two) = getters.pop() else {
            unreachable!()
        };
        let Some(mut one) = getters.pop() else {
            unreachable!()
        };

        self.pages.change();
        let _forgot = fill.reload(rt, &mut two, PAGE);
        let mut note = two.tell(fill);
        one.learn(fill, &mut note);
        let page = fill.get(rt, &mut one, PAGE);

        let is_new = page.is_ok_and(|view| view.into_bytes().as_slice() == b"version 2".as_slice());
        getters.push_reserved(one);
        getters.push_reserved(two);
        (is_new, fill.gather(rt, getters))
    }
}

fn main(rt: HostRuntime) -> io::Result<ExitCode> {
    let alloc = rt.alloc();
    let pages = Pages::new();
    let places = Places::new(&rt, 1_024)?;
    let sizes = FillSizes::new(Keys::Hashed(places), 1_000_000);
    let sets = vec![in alloc; loaders(&pages), loaders(&pages)]?;
    let serve = Serve {
        rt: &rt,
        pages: &pages,
    };
    let (is_new, totals) = with_team(&rt, alloc, sizes, sets, &serve)?;
    let Totals {
        gets,
        local_loads,
        ..
    } = totals;
    println!(rt; "{gets} gets, {local_loads} loads, new page: {is_new}")?;
    Ok(ExitCode::SUCCESS)
}
