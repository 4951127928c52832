//! The sequential group at its last generation, and histories. Scripts of all its calls are in `examples/cases`.

ghost use Rattle.std.specs.Prelude.{◌≡◌};
ghost use Rattle.sf_sequential.specs.State.{IsCaller};

use crate::parts::reading::text;
use sf_history::{CallId, Event, Forgotten, History, Share, laws};
use sf_sequential::{Asked, ChanAsked, ModelRefusal, SeqGroup};
use sf_text::{Outcome, Text};
use std::alloc::{AllocError, Global};
use std::process::Abort;

// A group of texts.
type TextGroup = SeqGroup<Text, Outcome>;

const LAST: u32 = 4_294_967_295;

fn id(caller: u32, generation: u32) -> CallId {
    CallId { caller, generation }
}

// The caller asks for the key `k`, which comes to this.
fn asks(
    rt: &impl Abort,
    alloc: Global,
    group: &mut TextGroup,
    caller: u32,
    due: Result<Asked, ModelRefusal>,
    otherwise: &str,
)
    requires { IsCaller group.old caller }
    ensures { group.new.callers ≡ group.old.callers }
{
    let asked = group.ask(caller, text(rt, alloc, "k"));
    assert!(rt; asked == due, "{otherwise}");
}

// The caller asks for it with a second, which comes to this.
fn asks_with_second(
    rt: &impl Abort,
    alloc: Global,
    group: &mut TextGroup,
    caller: u32,
    second: u32,
    due: Result<ChanAsked, ModelRefusal>,
    otherwise: &str,
)
    requires caller { IsCaller group.old caller }
    requires second { IsCaller group.old second }
    ensures { group.new.callers ≡ group.old.callers }
{
    let asked = group.ask_chan(caller, second, text(rt, alloc, "k"));
    assert!(rt; asked == due, "{otherwise}");
}

// The caller settles this call, which so many joined.
fn settles(
    rt: &impl Abort,
    group: &mut TextGroup,
    caller: u32,
    value: Outcome,
    call: CallId,
    joiners: u32,
)
    requires { IsCaller group.old caller }
    ensures { group.new.callers ≡ group.old.callers }
{
    let settled = group.settle(caller, value).ok();
    assert!(rt; settled == Some((call, joiners)), "it settles otherwise");
}

// The caller forgets the key `k`, which comes to this.
fn forgets(
    rt: &impl Abort,
    alloc: Global,
    group: &mut TextGroup,
    caller: u32,
    due: Forgotten,
    otherwise: &str,
)
    requires { IsCaller group.old caller }
    ensures { group.new.callers ≡ group.old.callers }
{
    let forgotten = group.forget(caller, text(rt, alloc, "k"));
    assert!(rt; forgotten == Ok(due), "{otherwise}");
}

fn has_events(rt: &impl Abort, group: &TextGroup, due: usize) {
    assert!(rt; group.history().len() == due, "another number of events");
}

// Caller 1 has no generation left, to ask or to be a second.
fn asks_though_spent(rt: &impl Abort, alloc: Global, group: &mut TextGroup)
    requires { group.old.callers ≡ 3 }
    ensures { group.new.callers ≡ group.old.callers }
{
    let spent = ModelRefusal::Spent(1);
    let otherwise = "it asks though it is spent";
    asks(rt, alloc, group, 1, Err(spent), otherwise);
    let otherwise = "it asks with a second though it is spent";
    asks_with_second(rt, alloc, group, 1, 2, Err(spent), otherwise);
    let otherwise = "it is a second though it is spent";
    asks_with_second(rt, alloc, group, 2, 1, Err(spent), otherwise);
}

#[test]
fn last_generation_is_spent(rt: HostRuntime) {
    let alloc = rt.alloc();
    let mut group = TextGroup::new(alloc, 3, LAST);
    let led = Ok(Asked::Lead(id(1, LAST)));
    asks(&rt, alloc, &mut group, 1, led, "it leads no last call");
    let value = Ok(text(&rt, alloc, "v"));
    settles(&rt, &mut group, 1, value, id(1, LAST), 0);
    asks_though_spent(&rt, alloc, &mut group);
    let idle = Forgotten::Idle;
    forgets(&rt, alloc, &mut group, 1, idle, "the key is not idle");
    has_events(&rt, &group, 4);
}

#[test]
fn laws_of_histories(_rt: HostRuntime) {
    laws::open_call_is_last_lead::<Text, Outcome>();
    laws::current_call_is_last_lead::<Text, Outcome>();
    laws::past_calls_stay_past::<Text, Outcome>();
    laws::current_call_is_last_led::<Text, Outcome>();
    laws::forgotten_calls_are_past::<Text, Outcome>();
    laws::open_call_is_current::<Text, Outcome>();
}

// Whether a copy of the value is this text.
fn is_shared(value: &mut Outcome, due: &str) -> bool {
    match value.share() {
        Ok(Ok(text)) => text.as_str() == due,
        _ => false,
    }
}

#[test]
fn values_are_shared(rt: HostRuntime) {
    let alloc = rt.alloc();
    let mut value: Outcome = Ok(text(&rt, alloc, "v"));
    let is_same = is_shared(&mut value, "v");
    assert!(rt; is_same, "another value");
    assert!(rt; ().share() == Ok(()), "another unit");
}

fn handed() -> Event<u32, u32> {
    Event::Handed {
        by: 1,
        call: id(1, 1),
    }
}

fn forgotten() -> Event<u32, u32> {
    Event::Forget {
        by: 2,
        key: 5,
        closed: None,
    }
}

fn assert_event(rt: &impl Abort, event: Option<&Event<u32, u32>>, due: Event<u32, u32>) {
    assert!(rt; event == Some(&due), "another event");
}

fn assert_two_events(rt: &impl Abort, history: &History<u32, u32>) {
    assert!(rt; history.len() == 2, "an event is lost");
    assert!(rt; !history.is_empty(), "it is empty");
}

#[test]
fn histories_keep_their_events(rt: HostRuntime) -> Result<(), AllocError> {
    let mut history = History::from_vec(vec![in rt.alloc(); handed()]?);
    history.push(forgotten())?;
    assert_two_events(&rt, &history);
    let events = history.into_vec();
    assert_event(&rt, events.get(0), handed());
    assert_event(&rt, events.get(1), forgotten());
    Ok(())
}
