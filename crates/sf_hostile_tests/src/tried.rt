//! Getters of a pair, whose gets may be refused memory.

use crate::meeting::{Flags, PairLoaders};
use sf_fill::{Fill, Getter, LoadFault, Naming, View};
use sf_group::Event;
use sf_loaders::scripted::AnyValue;
use sf_words::PlaceNo;
use std::process::Abort;
use std::sync::Wait;

/// A getter of a pair.
pub(crate) type PairGetter<'d, 'f, D, N> = Getter<'d, D, N, AnyValue, PairLoaders<'f>>;

/// A getter of the fill, and how often it was refused memory.
pub(crate) struct Tried<'a, 'd, 'f, D: Naming, N: Naming> {
    pub(crate) fill: &'a Fill<'d, D, N, AnyValue>,
    getter: PairGetter<'d, 'f, D, N>,
    refused: u32,
}

impl<'a, 'd, 'f, D: Naming, N: Naming> Drop for Tried<'a, 'd, 'f, D, N> {
    fn drop(self) {
        let Tried {
            fill: _,
            getter,
            refused: _,
        } = self;
        getter.abandon();
    }
}

// The answer is the value, or the fault for want of memory. Whether it is the fault.
fn check_answer<'d, D: Naming>(
    rt: &impl Abort,
    answer: Result<View<'d, D, AnyValue>, LoadFault>,
) -> bool {
    match answer {
        Ok(view) => {
            let bytes = view.into_bytes();
            assert!(rt; bytes.as_slice() == b"v".as_slice(), "another value");
            false
        }
        Err(LoadFault::Memory | LoadFault::LeaderMemory) => true,
        Err(fault) => panic!(rt; "{fault}"),
    }
}

// The getter loaded once for each call that it led, and each call that it settled was handed out.
fn check_log(rt: &impl Abort, loads: u64, log: &[Event<PlaceNo, ()>]) {
    let (mut led, mut settled, mut handed) = (0_u64, 0_u64, 0_u64);
    for event in log {
        match event {
            Event::Lead { .. } => led = led.wrapping_add(1),
            Event::Settle { .. } => settled = settled.wrapping_add(1),
            Event::Handed { .. } => handed = handed.wrapping_add(1),
            _ => {}
        }
    }
    assert!(rt; led == loads, "{loads} loads of {led} calls");
    assert!(rt;
        settled == led && handed == led,
        "{settled} settled and {handed} handed out of {led}"
    );
}

impl<'a, 'd, 'f, D: Naming, N: Naming> Tried<'a, 'd, 'f, D, N> {
    pub(crate) fn new(
        fill: &'a Fill<'d, D, N, AnyValue>,
        getter: PairGetter<'d, 'f, D, N>,
    ) -> Self {
        Tried {
            fill,
            getter,
            refused: 0,
        }
    }

    // The value, or the fault for want of memory.
    pub(crate) fn get<R: Wait + Abort>(self, rt: &R) -> Self {
        let Tried {
            fill,
            mut getter,
            refused,
        } = self;
        let answer = fill.get(rt, &mut getter, b"a");
        let refused = refused.wrapping_add(u32::from(check_answer(rt, answer)));
        Tried {
            fill,
            getter,
            refused,
        }
    }

    // A get that tells the spare caller when it was answered.
    pub(crate) fn get_beside<R: Wait + Abort>(self, rt: &R, flags: &Flags) -> Self {
        let tried = self.get(rt);
        flags.end_get();
        tried
    }

    // A Forget, or the fault for want of memory where letters are owed.
    pub(crate) fn reload<R: Wait + Abort>(self, rt: &R) -> Self {
        let Tried {
            fill,
            mut getter,
            refused,
        } = self;
        let answer = fill.reload(rt, &mut getter, b"a");
        let refused = match answer {
            Ok(_) => refused,
            Err(LoadFault::Memory) => refused.wrapping_add(1),
            Err(fault) => panic!(rt; "{fault}"),
        };
        Tried {
            fill,
            getter,
            refused,
        }
    }

    // What is owed is delivered, with memory, and stands in the log then.
    fn settle_up(self, rt: &impl Abort) -> Self {
        let Tried {
            fill,
            mut getter,
            refused,
        } = self;
        let settled = getter.settle_up(fill);
        assert!(rt; settled.is_ok(), "it is refused memory again");
        assert!(rt; !getter.owes(), "it owes letters still");
        let log = getter.take_log();
        check_log(rt, getter.loaders().picker.asked, log.as_slice());
        Tried {
            fill,
            getter,
            refused,
        }
    }

    // What is owed is delivered, and a get then answers the value. How many were refused memory, and how many loads there were
    // in all.
    pub(crate) fn end<R: Wait + Abort>(self, rt: &R) -> (u32, u64) {
        let tried = self.settle_up(rt).get(rt);
        (tried.refused, tried.getter.loaders().picker.asked)
    }
}
