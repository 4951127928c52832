//! Rests of those who wait for a letter, and what wakes them.
//!
//! Who rests counts itself first, and sleeps only while its word says that it waits. Who delivers writes that word first,
//! and then looks at the count. The two are steps on words that all threads see in one order, so either the one sees the
//! count, and wakes, or the other sees the letter, and does not sleep. Where nobody rests, nobody is woken.
ghost use Rattle.std.specs.Prelude.{◌≡◌};
ghost use Rattle.sf_steps_laws.specs.Schedules.{IsCaller};
ghost use Rattle.sf_group_steps.specs.View.{setting_of};
ghost use Rattle.sf_group_steps.specs.Words.{words_in};

use crate::numbering::call_index;
use crate::rule::Words;
use sf_group_rows::{Fit, Sizes};
use sf_history::CallId;
use sf_words::{CallState, CallWord, pack_call};
use std::sync::Wait;
use std::sync::atomic::{AtomicU32, Ordering};

/// How many of a group's callers rest at the moment.
#[derive(Drop)]
pub struct Resting {
    count: AtomicU32,
}

impl Resting {
    /// Nobody rests.
    pub fn new() -> Self {
        Resting {
            count: AtomicU32::new(0),
        }
    }

    /// Sleeps while the member's call word says that it waits, until a delivery wakes it. It may come back at any time.
    pub fn rest<V: Fit, R: Wait>(&self, rt: &R, words: &Words<V>, sizes: Sizes, member: CallId)
        requires words { words.now.table_id.words ≡ words_in words.now.key }
        requires sizes { sizes ≡ words.now.key }
        requires member { IsCaller (setting_of sizes) member.caller }
    {
        let Some(listed) = CallWord::new(CallState::Listed {
            generation: member.generation,
        }) else {
            return;
        };
        // The low half says that the word is listed, and nothing of its generation.
        let waits = (pack_call(listed) & 0xffff_ffff) as u32;
        self.count.fetch_add(1, Ordering::SeqCst);
        words.park(rt, call_index(sizes, member.caller), waits);
        self.count.fetch_sub(1, Ordering::SeqCst);
    }
}

/// What is done where a letter was delivered to a caller, which may rest.
pub trait Wakes {
    /// Wakes the caller, if it rests.
    fn wake<V: Fit>(&self, words: &Words<V>, sizes: Sizes, caller: u32)
        requires words { words.now.table_id.words ≡ words_in words.now.key }
        requires sizes { sizes ≡ words.now.key }
        requires caller { IsCaller (setting_of sizes) caller };
}

impl Wakes for Resting {
    fn wake<V: Fit>(&self, words: &Words<V>, sizes: Sizes, caller: u32) {
        if self.count.load(Ordering::SeqCst) != 0 {
            words.wake_one(call_index(sizes, caller));
        }
    }
}

/// Nobody is woken: callers that never rest, and poll alone.
#[derive(Drop)]
pub struct Unrested;

impl Wakes for Unrested {
    fn wake<V: Fit>(&self, _words: &Words<V>, _sizes: Sizes, _caller: u32) {}
}
