//! What a getter loads with whose load another caller meets, and what the two tell each other.

use bytes::{ByteStr, Bytes};
use sf_group::{CallId, Memory};
use sf_loaders::scripted::{Answer, AnyValue, FixedPicker, RoundChance, Script};
use sf_loaders::{Loaders, Local, LocalFault};
use std::alloc::Global;
use std::sync::atomic::{AtomicBool, Ordering};
use std::thread::yield_now;

/// What the first getter's load and the spare caller tell each other.
#[derive(Drop)]
pub(crate) struct Flags {
    // The first getter loads.
    loading: AtomicBool,
    // The spare caller has asked.
    asked: AtomicBool,
    // The first getter was answered.
    answered: AtomicBool,
    // A wait was given up.
    unmet: AtomicBool,
}

impl Flags {
    pub(crate) fn new() -> Flags {
        Flags {
            loading: AtomicBool::new(false),
            asked: AtomicBool::new(false),
            answered: AtomicBool::new(false),
            unmet: AtomicBool::new(false),
        }
    }

    // Looks at the two flags until one is set, 1,000,000 times at most.
    fn wait(&self, flag: &AtomicBool, other: &AtomicBool) {
        for _ in 0..1_000_000 {
            if flag.load(Ordering::SeqCst) || other.load(Ordering::SeqCst) {
                return;
            }
            yield_now();
        }
        self.unmet.store(true, Ordering::SeqCst);
    }

    // The first getter loads, and waits until the spare caller has asked.
    fn load(&self) {
        self.loading.store(true, Ordering::SeqCst);
        self.wait(&self.asked, &self.asked);
    }

    // Waits until the first getter loads or was answered. Whether it loads.
    pub(crate) fn meets_load(&self) -> bool {
        self.wait(&self.loading, &self.answered);
        self.loading.load(Ordering::SeqCst)
    }

    // The spare caller has asked, or will not.
    pub(crate) fn end_asking(&self) {
        self.asked.store(true, Ordering::SeqCst);
    }

    // The first getter was answered.
    pub(crate) fn end_get(&self) {
        self.answered.store(true, Ordering::SeqCst);
    }

    // Whether no wait was given up.
    pub(crate) fn met(&self) -> bool {
        !self.unmet.load(Ordering::SeqCst)
    }
}

/// A local getter of a script, which says when it loads, and waits until the spare caller has asked, where there are flags.
#[derive(Drop)]
pub(crate) struct Meeting<'f> {
    script: Script,
    flags: Option<&'f Flags>,
}

impl<'f> Local for Meeting<'f> {
    type Origin = AnyValue;

    ghost use Rattle.sf_loaders.specs.Scripted.{PlaysAsLocal};

    ghost load_gives = { λ old key call answer new. PlaysAsLocal old.script answer new.script };

    fn load(&mut self, key: &[u8], call: CallId) -> Result<Bytes, LocalFault> {
        if let Some(flags) = self.flags {
            flags.load();
        }
        self.script.load(key, call)
    }
}

/// What a getter of a pair loads with.
pub(crate) type PairLoaders<'f> = Loaders<FixedPicker, Script, Meeting<'f>, RoundChance>;

// The peer, where there is one, fails; the local getter gives `v`.
pub(crate) fn loaders<'f>(
    alloc: Global,
    peer: Option<u32>,
    flags: Option<&'f Flags>,
) -> Result<PairLoaders<'f>, Memory> {
    let down = vec![in alloc; Answer::Failed(ByteStr::from("down"))]?;
    let value = vec![in alloc; Answer::Value(Bytes::from("v"))]?;
    let local = Meeting {
        script: Script::new(value),
        flags,
    };
    Ok(Loaders::new(
        FixedPicker::new(peer),
        Script::new(down),
        local,
        RoundChance::default(),
    ))
}
