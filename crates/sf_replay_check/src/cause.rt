//! Why an event may not follow the events before it.

use std::fmt;

/// Why an event may not follow the events before it.
#[derive(Clone, Copy, PartialEq, Eq)]
pub enum Cause {
    /// A lead whose call names another caller than the one that made it.
    LedByAnotherCaller,
    /// A lead whose call some lead or enter named before.
    CallIsNotNew,
    /// A lead whose own channel some lead or enter named before, or that is the call itself.
    OwnChannelIsNotNew,
    /// A lead on a key that has an open call.
    KeyHasAnOpenCall,
    /// An enter whose member names another caller than the one that made it.
    EnteredByAnotherCaller,
    /// An enter whose member some lead or enter named before.
    MemberIsNotNew,
    /// An enter on a call that is not the key's open one.
    CallIsNotTheOpenOne,
    /// A forget that names another call than the key's open one, or one where none is open, or none where one is.
    ForgetNamesAnotherCall,
    /// A forget of one call that found it otherwise.
    HitIsWrong,
    /// A settle or a handed of a call that nobody led.
    CallWasNotLed,
    /// A settle by a caller that did not lead the call.
    SettledByACallerThatDidNotLead,
    /// A settle of a call that is settled.
    CallIsSettledAlready,
    /// A settle whose number of joiners is not how many entered the call.
    NumberOfJoinersIsWrong,
    /// A handed by a caller that did not lead the call.
    HandedByACallerThatDidNotLead,
    /// A handed of a call that is not settled.
    CallIsNotSettled,
    /// A handed of a call whose letters are handed out.
    CallIsHandedAlready,
}

impl fmt::Display for Cause {
    ghost use Rattle.std.specs.Prelude.{Some};
    ghost use Rattle.sf_replay_check.specs.Checker.{cause_text};

    ghost output = { λ c. Some (cause_text c) };

    fn fmt<W: fmt::Write>(&self, f: &mut fmt::Formatter<W>) -> fmt::Result {
        f.write_str(match self {
            Cause::LedByAnotherCaller => "led by another caller",
            Cause::CallIsNotNew => "call is not new",
            Cause::OwnChannelIsNotNew => "own channel is not new",
            Cause::KeyHasAnOpenCall => "key has an open call",
            Cause::EnteredByAnotherCaller => "entered by another caller",
            Cause::MemberIsNotNew => "member is not new",
            Cause::CallIsNotTheOpenOne => "call is not the open one",
            Cause::ForgetNamesAnotherCall => "forget names another call",
            Cause::HitIsWrong => "hit is wrong",
            Cause::CallWasNotLed => "call was not led",
            Cause::SettledByACallerThatDidNotLead => "settled by a caller that did not lead",
            Cause::CallIsSettledAlready => "call is settled already",
            Cause::NumberOfJoinersIsWrong => "number of joiners is wrong",
            Cause::HandedByACallerThatDidNotLead => "handed by a caller that did not lead",
            Cause::CallIsNotSettled => "call is not settled",
            Cause::CallIsHandedAlready => "call is handed already",
        })
    }
}
