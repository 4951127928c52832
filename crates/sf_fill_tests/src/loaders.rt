//! Loaders whose answers are scripted, and that wait where a test says so.

use bytes::Bytes;
use sf_history::CallId;
use sf_loaders::scripted::{AnyValue, FixedPicker, RoundChance, Script};
use sf_loaders::{Loaders, Local, LocalFault};
use std::alloc::{AllocError, Global};
use std::sync::atomic::{AtomicBool, AtomicU8, Ordering};
use std::thread::yield_now;

/// What getters tell each other.
#[derive(Drop)]
pub struct Flags {
    /// The first loads.
    pub loading: AtomicBool,
    /// The second was answered.
    pub answered: AtomicBool,
    /// The first was answered.
    pub got: AtomicBool,
    /// A wait was given up.
    pub failed: AtomicBool,
    /// Of the key `a`.
    first: Versions,
    /// Of the key `b`.
    second: Versions,
}

/// The versions of a key.
#[derive(Drop)]
pub struct Versions {
    /// What a load gives by now.
    pub source: AtomicU8,
    /// The one whose reload has returned.
    pub reloaded: AtomicU8,
}

impl Versions {
    fn new() -> Versions {
        Versions {
            source: AtomicU8::new(0),
            reloaded: AtomicU8::new(0),
        }
    }
}

impl Flags {
    pub fn new() -> Flags {
        Flags {
            loading: AtomicBool::new(false),
            answered: AtomicBool::new(false),
            got: AtomicBool::new(false),
            failed: AtomicBool::new(false),
            first: Versions::new(),
            second: Versions::new(),
        }
    }

    /// The versions of the key `a`, and of any other one.
    pub fn versions(&self, key: &[u8]) -> &Versions {
        if key == b"a".as_slice() {
            &self.first
        } else {
            &self.second
        }
    }

    /// The flag of this name.
    pub fn named(&self, name: &str) -> &AtomicBool {
        match name {
            "loading" => &self.loading,
            "answered" => &self.answered,
            _ => &self.got,
        }
    }

    /// Looks at the flag until it is set, 1,000,000 times at most; a wait that is given up is noted.
    pub fn wait_for(&self, flag: &AtomicBool) {
        for _ in 0..1_000_000 {
            if flag.load(Ordering::SeqCst) {
                return;
            }
            yield_now();
        }
        self.failed.store(true, Ordering::SeqCst);
    }
}

fn one_byte(alloc: Global, byte: u8) -> Result<Bytes, AllocError> {
    Ok(Bytes::from_vec(vec![in alloc; byte]?)?)
}

/// The local getter of a test.
#[derive(Drop)]
pub enum TestLocal<'f> {
    /// What a script says.
    Plays(Script),
    /// What a script says, once the second getter was answered.
    Waits(Script, &'f Flags),
    /// The version of the key's source.
    Reads(Global, &'f Flags),
}

impl<'f> Local for TestLocal<'f> {
    type Origin = AnyValue;

    ghost use Rattle.std.specs.Prelude.{⊤};

    ghost load_gives = { λ old key call answer new. ⊤ };

    fn load(&mut self, key: &[u8], call: CallId) -> Result<Bytes, LocalFault> {
        match self {
            TestLocal::Plays(script) => script.load(key, call),
            TestLocal::Waits(script, flags) => {
                if key == b"a".as_slice() {
                    flags.loading.store(true, Ordering::SeqCst);
                    flags.wait_for(&flags.answered);
                }
                script.load(key, call)
            }
            TestLocal::Reads(alloc, flags) => {
                let version = flags.versions(key).source.load(Ordering::SeqCst);
                match one_byte(*alloc, version) {
                    Ok(bytes) => Ok(bytes),
                    Err(AllocError) => Err(LocalFault::Memory),
                }
            }
        }
    }
}

/// The loaders of one getter.
pub type TestLoaders<'f> = Loaders<FixedPicker, Script, TestLocal<'f>, RoundChance>;
