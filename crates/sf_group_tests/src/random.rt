//! Calls at random by eight callers of one thread on three places, with copies refused at random, beside the sequential
//! group, which is told the same.
ghost use Rattle.std.specs.Prelude.{◌<◌};

use crate::commands::Command;
use crate::player::{Player, had_memory, seat};
use crate::replies::{Reply, caller_of};
use crate::value::Value;
use sf_group::{CallId, Forgotten, Group, Memory, Share};
use sf_sequential::{Asked, ChanAsked, ModelRefusal, SeqGroup, Taken};
use std::process::Abort;
use std::test::Fail;

const CALLERS: u32 = 8;

const PLACES: u32 = 3;

const CALLS: u32 = 9_000;

// Each caller may ask this often.
const ASKINGS: u32 = 40;

// A number in the sequential group.
#[derive(Clone, Copy)]
struct Plain(u32);

impl Share for Plain {
    fn share(&mut self) -> Result<Self, Memory> {
        Ok(*self)
    }
}

// A caller that waits for the letter of a call, since which asking, and whether that is to be there.
#[derive(Clone, Copy)]
struct Waiting {
    caller: u32,
    call: CallId,
    since: u32,
    due: bool,
}

// A caller that owes letters, what they are to say, and what its value refuses.
#[derive(Clone, Copy)]
struct Owing {
    caller: u32,
    letter: Expected,
    refused: u32,
}

// What a letter is to say.
#[derive(Clone, Copy)]
struct Expected {
    call: CallId,
    place: Option<u32>,
    number: u32,
    joiners: u32,
}

// How often a caller has to have done what: each is met.
const LEAST: &str = "50 joins
20 leads with a channel
5 sends a channel to
20 forgot
50 owes letters
50 waits for
50 is spent
50 finds current
50 finds outdated
";

// Of 29, which verb is drawn how often.
const VERBS: &str =
    "ask ask ask ask chan chan chan chan chan chan chan chan settle settle settle go go poll poll poll poll \
forget forget give current current current tell meet";

// Numbers that look random, by a linear congruence.
#[derive(Drop)]
struct Draws(u64);

impl Draws {
    fn below(&mut self, bound: u32) -> u32
        requires { 0 < bound }
        ensures { result < bound }
    {
        let Draws(seed) = self;
        *seed = seed
            .wrapping_mul(6_364_136_223_846_793_005)
            .wrapping_add(1_442_695_040_888_963_407);
        (*seed >> 33) as u32 % bound
    }

    // A command to any caller, with any other one.
    fn command(&mut self) -> Command<'static> {
        let verb = VERBS
            .split(' ')
            .nth(self.below(29) as usize)
            .unwrap_or("ask");
        let caller = self.below(CALLERS) + 1;
        let other = match verb {
            "chan" | "give" | "tell" | "meet" => self.below(CALLERS) + 1,
            _ => 0,
        };
        Command {
            other,
            place: self.below(PLACES) + 1,
            number: self.below(1_000_000),
            refused: self.below(8),
            ..Command::new(verb, caller)
        }
    }
}

fn check(rt: &impl Abort, reply: Reply, did: &str, call: Option<CallId>) {
    let (caller, found) = (reply.caller, reply.did);
    assert!(rt;
        found == did,
        "{caller} {found}, but in the sequential group {did}"
    );
    assert!(rt; reply.call == call, "{caller} {found} another call");
}

fn check_letter(rt: &impl Abort, reply: Reply, did: &str, letter: Expected) {
    check(rt, reply, did, Some(letter.call));
    assert!(rt; reply.place == letter.place, "a letter of another place");
    assert!(rt; reply.number == Some(letter.number), "another value");
    assert!(rt;
        reply.joiners == Some(letter.joiners),
        "another number of joiners"
    );
}

// The sequential group, as it is told what callers do.
type Told = SeqGroup<u32, Plain>;

#[derive(Drop)]
struct Trial<'a> {
    player: Player<'a>,
    told: Told,
    waiting: Vec<Waiting>,
    owing: Vec<Owing>,
    done: Vec<&'static str>,
    asked: u32,
}

// These functions have no clauses: the test compares what the sequential group says, and uses none of its promises.

fn tell_ask(
    rt: &impl Abort,
    told: &mut Told,
    caller: u32,
    place: u32,
) -> Result<Asked, ModelRefusal> {
    assert!(rt; told.has_caller(caller), "another caller");
    told.ask(caller, place)
}

fn tell_chan(
    rt: &impl Abort,
    told: &mut Told,
    caller: u32,
    second: u32,
    place: u32,
) -> Result<ChanAsked, ModelRefusal> {
    let both = told.has_caller(caller) && told.has_caller(second);
    assert!(rt; both, "other callers");
    told.ask_chan(caller, second, place)
}

fn tell_settle(rt: &impl Abort, told: &mut Told, caller: u32, number: u32) -> (CallId, u32) {
    assert!(rt; told.has_caller(caller), "another leader");
    let Ok(settled) = told.settle(caller, Plain(number)) else {
        panic!(rt; "it is not leading")
    };
    settled
}

fn tell_take(rt: &impl Abort, told: &mut Told, caller: u32) -> Result<Taken<Plain>, ModelRefusal> {
    assert!(rt; told.has_caller(caller), "another member");
    told.take(caller)
}

fn tell_forget(
    rt: &impl Abort,
    told: &mut Told,
    caller: u32,
    place: u32,
) -> Result<Forgotten, ModelRefusal> {
    assert!(rt; told.has_caller(caller), "another forgetter");
    told.forget(caller, place)
}

impl<'a> Trial<'a> {
    // The player obeys; where it can, the sequential group is told the same.
    fn obey(&mut self, rt: &impl Abort, command: Command) {
        let reply = self.player.obey(command);
        if reply.did == "cannot" {
            return;
        }
        let did = match (command.verb, reply.did) {
            ("chan", "is spent") => "is spent, or its second",
            (_, did) => did,
        };
        had_memory(rt, self.done.push(did).is_ok());
        match command.verb {
            "ask" => self.check_asked(rt, command, reply),
            "chan" => self.check_chan(rt, command, reply),
            "settle" => self.check_settled(rt, command, reply),
            "go" => self.check_gone_on(rt, command.caller, reply),
            "poll" => self.check_polled(rt, command.caller, reply),
            "forget" => self.check_forgot(rt, command, reply),
            "current" => self.check_current(rt, reply),
            _ => {}
        }
    }

    // The caller waits for the letter of the call, since this asking.
    fn wait(&mut self, rt: &impl Abort, caller: u32, call: CallId, since: u32) {
        self.asked = self.asked.wrapping_add(1);
        let waiting = Waiting {
            caller,
            call,
            since,
            due: false,
        };
        had_memory(rt, self.waiting.push(waiting).is_ok());
    }

    fn check_asked(&mut self, rt: &impl Abort, command: Command, reply: Reply) {
        match tell_ask(rt, &mut self.told, command.caller, command.place) {
            Ok(Asked::Lead(call)) => {
                check(rt, reply, "leads", Some(call));
                assert!(rt; reply.place == Some(command.place), "another place");
            }
            Ok(Asked::Join(call)) => {
                check(rt, reply, "joins", Some(call));
                self.wait(rt, reply.caller, call, self.asked.wrapping_add(1));
            }
            Err(refusal) => {
                check(rt, reply, "is spent", None);
                assert!(rt;
                    refusal == ModelRefusal::Spent(reply.caller),
                    "it is refused"
                );
            }
        }
    }

    // The own channel of a call is served last.
    fn check_chan(&mut self, rt: &impl Abort, command: Command, reply: Reply) {
        let (caller, other) = (command.caller, command.other);
        assert!(rt; reply.caller == caller, "other callers");
        match tell_chan(rt, &mut self.told, caller, other, command.place) {
            Ok(ChanAsked::Led(call, member)) => {
                check(rt, reply, "leads with a channel", Some(call));
                let same = reply.place == Some(command.place) && reply.member == Some(member);
                assert!(rt; same, "another channel");
                self.wait(rt, other, call, 0);
            }
            Ok(ChanAsked::Joined(call)) => {
                check(rt, reply, "sends a channel to", Some(call));
                assert!(rt; caller_of(reply.member) == other, "another second");
                self.wait(rt, other, call, self.asked.wrapping_add(1));
            }
            Err(refusal) => {
                check(rt, reply, "is spent", None);
                assert!(rt; matches!(refusal, ModelRefusal::Spent(_)), "it is refused");
            }
        }
    }

    // The place among those who wait for the call of the one that is served next: who joined last is the first, and the own
    // channel the last.
    fn next_served(&self, call: CallId) -> Option<usize> {
        let mut found: Option<usize> = None;
        let mut since: u32 = 0;
        let mut index: usize = 0;
        for waiting in self.waiting.as_slice() {
            let is_first = found.is_none() || since < waiting.since;
            if waiting.call == call && !waiting.due && is_first {
                found = Some(index);
                since = waiting.since;
            }
            index = index.wrapping_add(1);
        }
        found
    }

    // Those who wait for the call get their letters until a copy is refused; whether all got one, and what is left of the
    // refusals.
    fn deliver(&mut self, call: CallId, refused: u32) -> (bool, u32) {
        let mut refused = refused;
        for _ in 0..CALLERS {
            let Some(index) = self.next_served(call) else {
                return (true, refused);
            };
            let is_refused = refused & 1 == 1;
            refused >>= 1;
            if is_refused {
                return (false, refused);
            }
            if let Some(waiting) = self.waiting.get_mut(index) {
                waiting.due = true;
            }
        }
        (true, refused)
    }

    // The call is settled: all its letters are handed out, or some are owed still.
    fn hand_out(&mut self, rt: &impl Abort, reply: Reply, owing: Owing) {
        let (done, refused) = self.deliver(owing.letter.call, owing.refused);
        if done {
            check_letter(rt, reply, "settled", owing.letter);
            return;
        }
        check(rt, reply, "owes letters", reply.call);
        had_memory(rt, self.owing.push(Owing { refused, ..owing }).is_ok());
    }

    fn check_settled(&mut self, rt: &impl Abort, command: Command, reply: Reply) {
        let caller = command.caller;
        let (call, joiners) = tell_settle(rt, &mut self.told, caller, command.number);
        assert!(rt; reply.call == Some(call), "it leads another call");
        let letter = Expected {
            call,
            place: reply.place,
            number: command.number,
            joiners,
        };
        let refused = command.refused;
        self.hand_out(
            rt,
            reply,
            Owing {
                caller,
                letter,
                refused,
            },
        )
    }

    // The place of the caller among those who owe letters.
    fn owing_at(&self, caller: u32) -> usize {
        let mut index: usize = 0;
        for owing in self.owing.as_slice() {
            if owing.caller == caller {
                return index;
            }
            index = index.wrapping_add(1);
        }
        index
    }

    fn check_gone_on(&mut self, rt: &impl Abort, caller: u32, reply: Reply) {
        let index = self.owing_at(caller);
        if index >= self.owing.len() {
            panic!(rt; "it owes no letters");
        }
        let owing = self.owing.remove(index);
        self.hand_out(rt, reply, owing)
    }

    // The place of the caller among those who wait.
    fn waiting_at(&self, caller: u32) -> usize {
        let mut index: usize = 0;
        for waiting in self.waiting.as_slice() {
            if waiting.caller == caller {
                return index;
            }
            index = index.wrapping_add(1);
        }
        index
    }

    fn check_polled(&mut self, rt: &impl Abort, caller: u32, reply: Reply) {
        let index = self.waiting_at(caller);
        if index >= self.waiting.len() {
            panic!(rt; "it does not wait");
        }
        let waiting = self.waiting.remove(index);
        if waiting.due {
            self.check_taken(rt, waiting, reply);
        } else {
            check(rt, reply, "waits for", Some(waiting.call));
            had_memory(rt, self.waiting.push(waiting).is_ok());
        }
    }

    // The letter is due.
    fn check_taken(&mut self, rt: &impl Abort, waiting: Waiting, reply: Reply) {
        let caller = waiting.caller;
        assert!(rt; reply.caller == caller, "another member");
        match tell_take(rt, &mut self.told, caller) {
            Ok(Taken::Got(call, Plain(number), joiners)) => {
                assert!(rt; waiting.call == call, "a letter too early");
                let place = reply.place;
                check_letter(
                    rt,
                    reply,
                    "got",
                    Expected {
                        call,
                        place,
                        number,
                        joiners,
                    },
                );
            }
            _ => panic!(rt; "there is no letter"),
        }
    }

    fn check_forgot(&mut self, rt: &impl Abort, command: Command, reply: Reply) {
        match tell_forget(rt, &mut self.told, command.caller, command.place) {
            Ok(Forgotten::Closed(call)) => check(rt, reply, "forgot", Some(call)),
            Ok(Forgotten::Idle) => check(rt, reply, "forgot nothing", None),
            Err(_) => panic!(rt; "another Forget"),
        }
    }

    fn check_current(&mut self, rt: &impl Abort, reply: Reply) {
        let (Some(call), Some(place)) = (reply.call, reply.place) else {
            panic!(rt; "a letter of no call")
        };
        let said = self.told.is_current(&place, call);
        assert!(rt;
            said == (reply.did == "finds current"),
            "another answer to a question"
        );
    }

    // Each caller does the same.
    fn all(&mut self, rt: &impl Abort, verb: &str) {
        for index in 0..CALLERS {
            self.obey(rt, Command::new(verb, index + 1));
        }
    }

    // All that is open is ended, each letter is taken, and each caller is free.
    fn end_all(&mut self, rt: &impl Abort) {
        self.all(rt, "settle");
        for _ in 0..4 {
            self.all(rt, "go");
        }
        self.all(rt, "poll");
        for index in 0..CALLERS {
            let reply = self.player.obey(Command::new("name", index + 1));
            assert!(rt; reply.caller == index + 1, "a caller is lost");
        }
    }

    // How often a caller has done this.
    fn times(&self, did: &str) -> u32 {
        let mut count: u32 = 0;
        for done in self.done.as_slice() {
            if *done == did {
                count = count.wrapping_add(1);
            }
        }
        count
    }

    // Each kind of call was met often enough.
    fn check_met(&self, rt: &impl Abort) {
        for line in LEAST.lines() {
            let (least, did) = line.split_once(' ').unwrap_or((line, ""));
            let count = self.times(did);
            let least = least.parse::<u32>().unwrap_or(u32::MAX);
            assert!(rt; least <= count, "{count}, and not {line}");
        }
    }
}

#[test]
fn calls_at_random(rt: HostRuntime) -> Result<(), Fail> {
    let alloc = rt.alloc();
    let first = u32::MAX - ASKINGS + 1;
    let (group, mut list) = Group::<Value>::new(alloc, PLACES, CALLERS, first)?;
    let mut draws = Draws(20_261_123);
    let mut trial = Trial {
        player: seat(&rt, alloc, &group, &mut list, CALLERS),
        told: SeqGroup::new(alloc, CALLERS, first),
        waiting: Vec::new(alloc),
        owing: Vec::new(alloc),
        done: Vec::new(alloc),
        asked: 0,
    };
    for _ in 0..CALLS {
        trial.obey(&rt, draws.command());
    }
    trial.end_all(&rt);
    trial.check_met(&rt);
    Ok(())
}
