//! What callers on threads of their own tell each other, and the loads that they call.

use crate::wait::value::Value;
use std::alloc::Global;
use std::process::Abort;
use std::sync::atomic::{AtomicBool, AtomicU32, Ordering};
use std::thread::yield_now;

/// What all callers of a scene share.
#[derive(Drop)]
pub struct Stage<'r, R> {
    pub rt: &'r R,
    pub alloc: Global,
    led: AtomicBool,
    joined: AtomicBool,
    done: AtomicBool,
    loads: AtomicU32,
    cleared: AtomicU32,
}

// Whether the flag is seen within 1,000,000 looks.
fn is_seen(flag: &AtomicBool) -> bool {
    for _ in 0..1_000_000 {
        if flag.load(Ordering::SeqCst) {
            return true;
        }
        yield_now();
    }
    false
}

impl<'r, R: Abort> Stage<'r, R> {
    /// Where nothing is told, and no load called.
    pub fn new(rt: &'r R, alloc: Global) -> Stage<'r, R> {
        Stage {
            rt,
            alloc,
            led: AtomicBool::new(false),
            joined: AtomicBool::new(false),
            done: AtomicBool::new(false),
            loads: AtomicU32::new(0),
            cleared: AtomicU32::new(0),
        }
    }

    fn named(&self, name: &str) -> &AtomicBool {
        match name {
            "led" => &self.led,
            "joined" => &self.joined,
            "done" => &self.done,
            _ => panic!(self.rt; "nobody tells {name}"),
        }
    }

    /// Tells it to who awaits it.
    pub fn tell(&self, name: &str) {
        self.named(name).store(true, Ordering::SeqCst);
    }

    /// Waits until it is told. A wait that is given up fails.
    pub fn wait_for(&self, name: &str) {
        let seen = is_seen(self.named(name));
        assert!(self.rt; seen, "{name} is awaited in vain");
    }

    /// A load that answers the value of the text, and waits before for what that says behind `once`.
    pub fn load(&self, text: &str) -> Value {
        self.loads.fetch_add(1, Ordering::SeqCst);
        self.led.store(true, Ordering::SeqCst);
        match text.split_once(" once ") {
            Some((value, name)) => {
                self.wait_for(name);
                Value::read(value)
            }
            None => Value::read(text),
        }
    }

    /// A call is cleared.
    pub fn add_cleared(&self) {
        self.cleared.fetch_add(1, Ordering::SeqCst);
    }

    /// How many calls were cleared.
    pub fn cleared(&self) -> u32 {
        self.cleared.load(Ordering::SeqCst)
    }

    /// How many loads were called.
    pub fn loads(&self) -> u32 {
        self.loads.load(Ordering::SeqCst)
    }
}
