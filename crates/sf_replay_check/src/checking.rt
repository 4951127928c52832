//! Whether a history is legal.

ghost use Rattle.std.specs.Prelude.{◌≡◌, ◌↔◌, IfOk};
ghost use Rattle.sf_history.specs.Legal.{IsLegal};
ghost use Rattle.sf_replay_check.specs.Checker.{IsVerdictOf, NoCauseMayFollow, HasOneVerdict};

use crate::cause::Cause;
use crate::faults::first_cause;
use crate::index::Index;
use sf_history::{History, Memory};
use std::alloc::Global;
use std::fmt;

/// What the checker says of a history.
#[derive(Clone, Copy, PartialEq, Eq)]
pub enum Verdict {
    /// Each event may follow the events before it.
    Legal,
    /// The event at the index, counted from 1, is the first that may not follow those before it.
    Illegal {
        /// Which event, counted from 1.
        index: u64,
        /// The first cause, in the order in which they are looked at.
        cause: Cause,
    },
}

impl fmt::Display for Verdict {
    ghost use Rattle.std.specs.Prelude.{Some};
    ghost use Rattle.sf_replay_check.specs.Checker.{verdict_text};

    ghost output = { λ v. Some (verdict_text v) };

    fn fmt<W: fmt::Write>(&self, f: &mut fmt::Formatter<W>) -> fmt::Result {
        match self {
            Verdict::Legal => f.write_str("legal"),
            Verdict::Illegal { index, cause } => write!(f, "event {index}: {cause}"),
        }
    }
}

/// Whether a history is legal, and where it is not, its first fault, for any keys that can be compared and any values. It
/// takes no memory, and its time grows with the square of the history.
pub fn check<K: Eq, V>(history: &History<K, V>) -> Verdict
    ensures legal { (result ≡ Verdict.Legal) ↔ IsLegal K.eq history.now }
    ensures verdict { IsVerdictOf K.eq history.now result }
{
    let events = history.events();
    for (i, event) in events.iter().enumerate() {
        if let Some(cause) = first_cause(&&events[..i], event) {
            return Verdict::Illegal {
                index: i as u64 + 1,
                cause,
            };
        }
    }
    Verdict::Legal
}

/// What `check` says, in a time that grows as n log n, by ordered maps over calls and keys. Where memory for them is
/// refused nothing is said, and `check` can be asked.
pub fn check_indexed<K: Ord, V>(alloc: Global, history: &History<K, V>) -> Result<Verdict, Memory>
    ensures legal { IfOk result (λ verdict. (verdict ≡ Verdict.Legal) ↔ IsLegal K.eq history.now) }
    ensures verdict { IfOk result (λ verdict. IsVerdictOf K.eq history.now verdict) }
{
    let events = history.events();
    let mut index = Index::new(alloc);
    for (i, event) in events.iter().enumerate() {
        if let Some(cause) = first_cause(&index, event) {
            return Ok(Verdict::Illegal {
                index: i as u64 + 1,
                cause,
            });
        }
        index.note(event)?;
    }
    Ok(Verdict::Legal)
}

/// What `check` says, by `check_indexed` where there is memory for its maps, and by `check` where it is refused.
pub fn verdict_on<K: Ord, V>(alloc: Global, history: &History<K, V>) -> Verdict
    ensures legal { (result ≡ Verdict.Legal) ↔ IsLegal K.eq history.now }
    ensures verdict { IsVerdictOf K.eq history.now result }
{
    match check_indexed(alloc, history) {
        Ok(verdict) => verdict,
        Err(_) => check(history),
    }
}

/// An event may follow the events before it exactly where it has no cause: a law of the definitions, with nothing to run.
pub fn no_cause_may_follow<K: Eq, V>()
    ensures { NoCauseMayFollow K V K.eq }
{}

/// A history has one verdict: a law of the definitions, with nothing to run.
pub fn histories_have_one_verdict<K: Eq, V>()
    ensures { HasOneVerdict K V K.eq }
{}
