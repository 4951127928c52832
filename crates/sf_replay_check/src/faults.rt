//! The causes for which an event may not follow the events before it, in the order in which they are looked at.

ghost use Rattle.std.specs.Prelude.{◌≡◌};
ghost use Rattle.sf_replay_check.specs.Checker.{lead_cause, enter_cause, forget_cause, forget_call_cause, hit_fits, settle_cause, handed_cause, cause_of, same_option, own_is};

use crate::cause::Cause;
use crate::past::Past;
use sf_history::{CallId, Event, Hit};
use sf_sequential::walk::is_call;

fn is_same(call: Option<CallId>, other: Option<CallId>) -> bool
    ensures { result ≡ same_option call other }
{
    match call {
        Some(call) => is_call(other, call),
        None => other.is_none(),
    }
}

fn is_own_taken<'a, K, P: Past<'a, K>>(past: &P, call: CallId, own: Option<CallId>) -> bool
    ensures { result ≡ own_is (P.known past.now).named call own }
{
    match own {
        Some(own) => past.is_named(own) || own == call,
        None => false,
    }
}

fn lead_cause<'a, K, P: Past<'a, K>>(
    past: &P,
    by: u32,
    key: &'a K,
    call: CallId,
    own: Option<CallId>,
) -> Option<Cause>
    ensures { result ≡ lead_cause (P.known past.now) by key.now call own }
{
    if by != call.caller {
        Some(Cause::LedByAnotherCaller)
    } else if past.is_named(call) {
        Some(Cause::CallIsNotNew)
    } else if is_own_taken(past, call, own) {
        Some(Cause::OwnChannelIsNotNew)
    } else if past.open_call(key).is_some() {
        Some(Cause::KeyHasAnOpenCall)
    } else {
        None
    }
}

fn enter_cause<'a, K, P: Past<'a, K>>(
    past: &P,
    by: u32,
    key: &'a K,
    call: CallId,
    member: CallId,
) -> Option<Cause>
    ensures { result ≡ enter_cause (P.known past.now) by key.now call member }
{
    if by != member.caller {
        Some(Cause::EnteredByAnotherCaller)
    } else if past.is_named(member) {
        Some(Cause::MemberIsNotNew)
    } else if !is_call(past.open_call(key), call) {
        Some(Cause::CallIsNotTheOpenOne)
    } else {
        None
    }
}

fn forget_cause<'a, K, P: Past<'a, K>>(
    past: &P,
    key: &'a K,
    closed: Option<CallId>,
) -> Option<Cause>
    ensures { result ≡ forget_cause (P.known past.now) key.now closed }
{
    if is_same(closed, past.open_call(key)) {
        None
    } else {
        Some(Cause::ForgetNamesAnotherCall)
    }
}

// Whether a forget of one call found what it says.
fn is_hit(hit: Hit, opened: Option<CallId>, current: Option<CallId>, call: CallId) -> bool
    ensures { result ≡ hit_fits hit opened current call }
{
    match hit {
        Hit::Closed => is_call(opened, call),
        Hit::Cleared => is_call(current, call) && !is_call(opened, call),
        Hit::Missed => !is_call(current, call),
    }
}

fn forget_call_cause<'a, K, P: Past<'a, K>>(
    past: &P,
    key: &'a K,
    call: CallId,
    hit: Hit,
) -> Option<Cause>
    ensures { result ≡ forget_call_cause (P.known past.now) key.now call hit }
{
    if is_hit(hit, past.open_call(key), past.current_call(key), call) {
        None
    } else {
        Some(Cause::HitIsWrong)
    }
}

fn settle_cause<'a, K, P: Past<'a, K>>(
    past: &P,
    by: u32,
    call: CallId,
    joiners: u32,
) -> Option<Cause>
    ensures { result ≡ settle_cause (P.known past.now) by call joiners }
{
    if !past.has_begun(call) {
        Some(Cause::CallWasNotLed)
    } else if !past.was_led(by, call) {
        Some(Cause::SettledByACallerThatDidNotLead)
    } else if past.is_settled(call) {
        Some(Cause::CallIsSettledAlready)
    } else if joiners as usize != past.joined(call) {
        Some(Cause::NumberOfJoinersIsWrong)
    } else {
        None
    }
}

fn handed_cause<'a, K, P: Past<'a, K>>(past: &P, by: u32, call: CallId) -> Option<Cause>
    ensures { result ≡ handed_cause (P.known past.now) by call }
{
    if !past.has_begun(call) {
        Some(Cause::CallWasNotLed)
    } else if !past.was_led(by, call) {
        Some(Cause::HandedByACallerThatDidNotLead)
    } else if !past.is_settled(call) {
        Some(Cause::CallIsNotSettled)
    } else if past.is_handed(call) {
        Some(Cause::CallIsHandedAlready)
    } else {
        None
    }
}

/// The first cause for which the event may not follow the events before it.
pub(crate) fn first_cause<'a, K, V, P: Past<'a, K>>(
    past: &P,
    event: &'a Event<K, V>,
) -> Option<Cause>
    ensures { result ≡ cause_of (P.known past.now) event.now }
{
    match event {
        Event::Lead { by, key, call, own } => lead_cause(past, *by, key, *call, *own),
        Event::Enter {
            by,
            key,
            call,
            member,
        } => enter_cause(past, *by, key, *call, *member),
        Event::Forget { key, closed, .. } => forget_cause(past, key, *closed),
        Event::ForgetCall { key, call, hit, .. } => forget_call_cause(past, key, *call, *hit),
        Event::Settle {
            by,
            call,
            joiners,
            ..
        } => settle_cause(past, *by, *call, *joiners),
        Event::Handed { by, call } => handed_cause(past, *by, *call),
    }
}
