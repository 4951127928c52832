//! Events and histories.

ghost use Rattle.std.specs.Prelude.{◌≡◌, ◌==◌, [], ◌∷◌, ◌++◌, OnOk, OnErr, IfOk, IfErr, None, if◌then◌else◌, length};
ghost use Rattle.sf_history.specs.declared.event.Event.TheVariants.{Settle, Handed};
ghost use Rattle.sf_history.specs.History.{settles, result_in, result_of};

use crate::call::CallId;
use crate::share::{Memory, Share};
use std::alloc::{AllocFailed, Global};
use std::fmt;
use std::marker::Model;

/// What a Forget came to.
#[derive(Clone, Copy, PartialEq, Eq)]
pub enum Forgotten {
    /// It closed this open call.
    Closed(CallId),
    /// The key had no open call.
    Idle,
}

/// What a Forget of one call found.
#[derive(Clone, Copy, PartialEq, Eq)]
pub enum Hit {
    /// The call was the key's open one, and is closed now.
    Closed,
    /// The call was the key's current one, though not open, and is current no more.
    Cleared,
    /// The call was not the key's current one, and nothing changed.
    Missed,
}

impl fmt::Display for Hit {
    ghost use Rattle.std.specs.Prelude.{Some};
    ghost use Rattle.sf_history.specs.Hits.{hit_text};

    ghost output = { λ h. Some (hit_text h) };

    fn fmt<W: fmt::Write>(&self, f: &mut fmt::Formatter<W>) -> fmt::Result {
        match self {
            Hit::Closed => f.write_str("closed"),
            Hit::Cleared => f.write_str("cleared"),
            Hit::Missed => f.write_str("missed"),
        }
    }
}

/// One thing that happened in a group, with the caller `by` that made it.
#[derive(PartialEq, Eq, Drop)]
pub enum Event<K, V> {
    /// A caller leads a new call of the key, perhaps with a channel of its own, held by the member `own`.
    Lead {
        by: u32,
        key: K,
        call: CallId,
        own: Option<CallId>,
    },
    /// A caller enters the key's open call as a new member, and waits for its answer.
    Enter {
        by: u32,
        key: K,
        call: CallId,
        member: CallId,
    },
    /// A caller forgets the key, which closes its open call, if it has one.
    Forget {
        by: u32,
        key: K,
        closed: Option<CallId>,
    },
    /// A caller forgets one call of the key, which ends that call alone: a newer one of the key stays.
    ForgetCall {
        by: u32,
        key: K,
        call: CallId,
        hit: Hit,
    },
    /// A leader settles its call for good; `joiners` callers joined it.
    Settle {
        by: u32,
        call: CallId,
        result: V,
        joiners: u32,
    },
    /// Each letter that a settled call owed is in its owner's cell.
    Handed {
        by: u32,
        call: CallId,
    },
}

// Another value equal to the one that the event settles the call with, if it does.
fn share_settled<K, V: Share>(event: &mut Event<K, V>, settled: CallId) -> Result<Option<V>, Memory>
    ensures shared { IfOk result (λ found.
        found ≡ (if settles settled event.old then result_in event.old else None)) }
    ensures same { event.new ≡ event.old }
{
    match event {
        Event::Settle { call, result, .. } if *call == settled => Ok(Some(result.share()?)),
        _ => Ok(None),
    }
}

/// What happened in a group, oldest first; contracts see it as the list of its events.
#[derive(Drop)]
pub struct History<K, V> {
    events: Vec<Event<K, V>>,
}

impl<K, V> Model for History<K, V> {
    ghost use Rattle.std.specs.Prelude.{List};
    ghost use Rattle.sf_history.specs.declared.event.Event.{Event};

    ghost Value = { List (Event K V) };

    ghost view = { λ h. h.events.items };
}

impl<K, V> History<K, V> {
    /// A history in which nothing has happened; it allocates nothing.
    pub fn new(alloc: Global) -> Self
        ensures { result ≡ [] }
    {
        History {
            events: Vec::new(alloc),
        }
    }

    /// The history of these events, oldest first; it allocates nothing.
    pub fn from_vec(events: Vec<Event<K, V>>) -> Self
        ensures { result ≡ events.items }
    {
        History { events }
    }

    /// The events, oldest first; it allocates nothing.
    pub fn into_vec(self) -> Vec<Event<K, V>>
        ensures { result.items ≡ self }
    {
        let History { events } = self;
        events
    }

    /// The events, oldest first.
    pub fn events(&self) -> &[Event<K, V>]
        ensures { result.now ≡ self.now }
    {
        self.events.as_slice()
    }

    /// How many events there are.
    pub fn len(&self) -> usize
        ensures { result ≡ length self.now }
    {
        self.events.len()
    }

    /// Whether nothing has happened.
    pub fn is_empty(&self) -> bool
        ensures { result ≡ (length self.now == 0) }
    {
        self.events.is_empty()
    }

    /// Adds an event at the end. Where memory for it is refused, it comes back and nothing changes.
    pub fn push(&mut self, event: Event<K, V>) -> Result<(), AllocFailed<Event<K, V>>>
        ensures ok { OnOk result (self.new ≡ self.old ++ event ∷ []) }
        ensures err { IfErr result (λ refused. refused.value ≡ event) }
        ensures unchanged { OnErr result (self.new ≡ self.old) }
    {
        self.events.push(event)
    }

    /// Adds the Settle of a call and its Handed, both or neither. Where memory for them is refused, the value comes back.
    pub fn push_settled(&mut self, by: u32, call: CallId, value: V, joiners: u32) -> Result<(), V>
        ensures ok { OnOk result
            (self.new ≡ self.old ++ Settle by call value joiners ∷ Handed by call ∷ []) }
        ensures refused { IfErr result (λ back. back ≡ value) }
        ensures unchanged { OnErr result (self.new ≡ self.old) }
    {
        if self.events.reserve(2).is_err() {
            return Err(value);
        }
        self.events
            .push(Event::Settle {
                by,
                call,
                result: value,
                joiners,
            })
            .unwrap();
        self.events.push(Event::Handed { by, call }).unwrap();
        Ok(())
    }

    /// Another value equal to the one that the call was settled with, if it is settled.
    pub fn share_result(&mut self, settled: CallId) -> Result<Option<V>, Memory>
    where
        V: Share,
        ensures shared { IfOk result (λ found. found ≡ result_of self.old settled) }
        ensures same { self.new ≡ self.old }
    {
        for event in self.events.iter_mut() {
            if let Some(value) = share_settled(event, settled)? {
                return Ok(Some(value));
            }
        }
        Ok(None)
    }
}
