//! The headline, by names: laws over what the calls of a keyed group leave.
//!
//! Each caller's `seen` is a beginning of the group's one history: `KeyedGroup::learn` leaves a `seen` that begins with both. These
//! functions have no code: their contracts are the laws.
ghost use Rattle.sf_keyed.specs.Headline.{AnswersTheOneRun, EntersTheOpenCall, LeadsTheNewCall, NeverAForgottenCall, SettlesOnce, SharesWhatWasJoined};

/// An asking that leads does so where the name has no open call. Its call is new, and the name's open call then.
pub fn leads_the_new_call()
    ensures { LeadsTheNewCall }
{}

/// An asking that joins enters the name's open call.
pub fn enters_the_open_call()
    ensures { EntersTheOpenCall }
{}

/// An asking never leads or enters a call that a Forget of the name had closed which the caller had seen before.
pub fn never_a_forgotten_call()
    ensures { NeverAForgottenCall }
{}

/// A call is settled once, with the number of all that joined it.
pub fn settles_once()
    ensures { SettlesOnce }
{}

/// A call is shared exactly when somebody joined it.
pub fn shares_what_was_joined()
    ensures { SharesWhatWasJoined }
{}

/// An answer is the value that the call's one run was settled with.
pub fn answers_the_one_run()
    ensures { AnswersTheOneRun }
{}
