//! How many entered each call in the lines before, as a mark of the first format wants to know.

ghost use Rattle.std.specs.Prelude.{◌≡◌, ◌+◌, ◌^◌, ◌<◌, OnOk, if◌then◌else◌};
ghost use Rattle.sf_history.specs.History.{enters};
ghost use Rattle.sf_replay.specs.Entered.{entered_in};

use crate::record::{FIRST_FORMAT, TextEvent};
use sf_history::{CallId, Event, Memory};
use std::alloc::Global;
use std::collections::BTreeMap;

/// How many entered each call; a call that nobody entered has no count.
#[derive(Drop)]
pub(crate) struct Entered {
    counts: BTreeMap<(u32, u32), u64>,
}

impl Entered {
    /// The counts before any record; it allocates nothing.
    pub fn new(alloc: Global) -> Self
        ensures { (c : CallId) → entered_in result c ≡ 0 }
    {
        Entered {
            counts: BTreeMap::new(alloc),
        }
    }

    /// How many entered the call.
    pub fn count(&self, call: CallId) -> u64
        ensures { result ≡ entered_in self.now call }
    {
        match self.counts.get(&(call.caller, call.generation)) {
            Some(count) => *count,
            None => 0,
        }
    }

    /// Notes the event of one more line, where the format asks for counts.
    pub fn note(&mut self, format: u32, event: &TextEvent) -> Result<(), Memory>
        requires room { format ≡ 1 → (c : CallId) → entered_in self.now c + 1 < 2 ^ 64 }
        ensures { OnOk result (format ≡ 1 → (c : CallId)
            → entered_in self.new c ≡ entered_in self.old c
            + (if enters c event.now then 1 else 0)) }
    {
        match event {
            Event::Enter { call, .. } if format == FIRST_FORMAT => {
                let count = self.count(*call) + 1;
                self.counts.insert((call.caller, call.generation), count)?;
                Ok(())
            }
            _ => Ok(()),
        }
    }
}
