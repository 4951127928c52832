//! The headline over a chain, by names: laws over what the calls leave. The value that a call is settled with, and its joiners, are told by the
//! laws of its table, `sf_keyed::laws`.
//!
//! These functions have no code: their contracts are the laws.
ghost use Rattle.sf_keyed_chain.specs.Headline.{CallsStandInOneHistory, EntersTheOpenCall, LeadsTheNewCall, NeverAForgottenCall, NeverAForgottenCallOfAnother, NoStampFromBefore, NoStampFromBeforeAnother};

/// An asking that leads does so where the name has no open call in any table that its caller knows. Its call is new, and the name's open call then.
pub fn leads_the_new_call()
    ensures { LeadsTheNewCall }
{}

/// An asking that joins enters the name's open call.
pub fn enters_the_open_call()
    ensures { EntersTheOpenCall }
{}

/// An asking never leads or enters a call that a Forget of the name had closed which the caller had seen before.
pub fn never_a_forgotten_call()
    ensures { NeverAForgottenCall }
{}

/// The name's history over the tables that a caller knows, one behind the other, is legal up to the table where its asking or Forget ended. Its
/// open call at the end is the call that was led or joined; after a Forget it has none.
pub fn calls_stand_in_one_history()
    ensures { CallsStandInOneHistory }
{}

/// After a Forget of the name by a caller, no stamp of it that this caller had known before is current.
pub fn no_stamp_from_before_a_forget()
    ensures { NoStampFromBefore }
{}

/// An asking never leads or enters a call that a Forget of the name had closed which another caller had seen, whose note this caller had heard.
pub fn never_a_forgotten_call_of_another()
    ensures { NeverAForgottenCallOfAnother }
{}

/// After a Forget of the name by a caller, no stamp of it that this caller had known before is current for another that has heard its note.
pub fn no_stamp_from_before_a_forget_of_another()
    ensures { NoStampFromBeforeAnother }
{}
