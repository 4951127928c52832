//! One who does keys, with a count of its loads.
ghost use Rattle.std.specs.Prelude.{◌≡◌, All, length};

use crate::keys::item::{Item, item, size_in};
use crate::wait::callers::next_caller;
use sf_group::{Caller, Group};
use sf_keys::{KeyAnswer, Places, do_key, forget_key};
use sf_wait::DoFault;
use std::marker::Model;
use std::process::Abort;
use std::sync::Wait;
use std::sync::atomic::{AtomicU32, Ordering};
use std::thread::yield_now;

/// One of the callers of the group, with the count of all loads.
#[derive(Drop)]
pub struct Asker<'a> {
    group: &'a Group<Item>,
    places: Places,
    caller: Caller<Item>,
    loads: &'a AtomicU32,
}

impl<'a> Model for Asker<'a> {
    ghost use Rattle.std.specs.Prelude.{◌≡◌};

    ghost Value = { Unit {0} };

    ghost view = { λ _. tt };

    ghost invariant = { λ a. (a.caller.group ≡ a.group.now)
        × (a.places.count ≡ a.group.now.sizes.places) };
}

impl<'a> Asker<'a> {
    /// The last caller of the list.
    pub fn next(
        rt: &impl Abort,
        group: &'a Group<Item>,
        places: Places,
        list: &mut Vec<Caller<Item>>,
        loads: &'a AtomicU32,
    ) -> Asker<'a>
        requires own { All (λ c. c.group ≡ group.now) list.old.items }
        requires places { places.count ≡ group.now.sizes.places }
        ensures { All (λ c. c.group ≡ group.now) list.new.items }
    {
        let caller = next_caller(rt, group, list);
        Asker {
            group,
            places,
            caller,
            loads,
        }
    }

    /// A do of the key, which asks so often for a letter of its own: whether it was alone, and the number.
    pub fn ask(
        self,
        rt: &(impl Abort + Wait),
        key: &'static [u8],
        rounds: u32,
    ) -> (Asker<'a>, bool, usize) {
        let Self {
            group,
            places,
            caller,
            loads,
        } = self;
        let load = || -> Item
            ensures key { result.key ≡ key.entry.now }
            ensures size { result.value.0 ≡ length key.entry.now }
        {
            loads.fetch_add(1, Ordering::SeqCst);
            yield_now();
            item(key)
        };
        match do_key(rt, group, places, caller, key, rounds, load) {
            Ok(KeyAnswer::Letter(caller, letter, _)) => {
                let size = size_in(&letter, key);
                let asker = Asker {
                    group,
                    places,
                    caller,
                    loads,
                };
                (asker, false, size)
            }
            Ok(KeyAnswer::Alone(caller, item)) => {
                let asker = Asker {
                    group,
                    places,
                    caller,
                    loads,
                };
                (asker, true, item.value.0)
            }
            Err(DoFault::Held(settled)) => {
                settled.abandon();
                panic!(rt; "letters are owed")
            }
            Err(DoFault::Spent(_, _)) => panic!(rt; "a caller is spent"),
        }
    }

    /// Forgets the key.
    pub fn forget(&mut self, rt: &impl Wait, key: &[u8]) {
        let _ = forget_key(rt, self.group, self.places, &mut self.caller, key);
    }
}
