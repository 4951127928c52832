//! Seats of callers, and the steps that a caller on one makes. Each says what comes of it.
ghost use Rattle.std.specs.Prelude.{◌≡◌, All};
ghost use Rattle.sf_group_rows.specs.Same.{IsPlaceOf};

use crate::wait::stage::Stage;
use crate::wait::value::{Value, call};
use sf_group::{
    Begun, CallId, Caller, Finished, Flight, Forgotten, Group, Hit, Letter, Polled, Settled, Spent,
    Ticket,
};
use sf_wait::{
    DoFault, begin_wait, do_with, finish_wait, forget_call_wait, forget_wait, go_on_wait, wait,
};
use std::fmt::Write;
use std::marker::Model;
use std::process::Abort;
use std::sync::Wait;
use std::thread::yield_now;

/// What stands for a caller.
pub enum Token {
    Away,
    Free(Caller<Value>),
    Leading(Flight<Value>),
    Waiting(Ticket<Value>),
    Owing(Settled<Value>),
}

/// A caller at a place of the group, or nobody.
pub struct Seat<'a> {
    group: &'a Group<Value>,
    place: u32,
    token: Token,
}

impl<'a> Model for Seat<'a> {
    ghost use Rattle.std.specs.Prelude.{◌≡◌};
    ghost use Rattle.sf_group_rows.specs.Same.{IsPlaceOf};
    ghost use Rattle.sf_group_rows.specs.Tokens.{GroupValue};
    ghost use Rattle.sf_group_tests.specs.declared.wait.seats.Token.TheVariants.{Away, Free, Leading, Waiting, Owing};

    ghost Value = { Unit {0} };

    ghost view = { λ _. tt };

    ghost invariant = { λ s. IsPlaceOf s.group.now s.place × ((elim s.token as (λ _. GroupValue) [
      | Away ↦ s.group.now
      | Free caller ↦ caller.group
      | Leading flight ↦ flight.group
      | Waiting ticket ↦ ticket.group
      | Owing settled ↦ settled.group
    ]) ≡ s.group.now) };
}

impl<'a> Drop for Seat<'a> {
    fn drop(self) {
        let Seat {
            group: _,
            place: _,
            token,
        } = self;
        match token {
            Token::Away => {}
            Token::Free(_) => {}
            Token::Leading(flight) => flight.abandon(),
            Token::Waiting(ticket) => ticket.abandon(),
            Token::Owing(settled) => settled.abandon(),
        }
    }
}

/// What the letter says, and where it isn't of the place.
pub fn say_letter(said: &mut String, caller: u32, did: &str, letter: &Letter<Value>, place: u32) {
    letter.known();
    let (call, number) = (letter.call(), letter.value().number);
    let (joiners, shared) = (letter.joiners(), letter.shared());
    let elsewhere = if letter.place() == place {
        ""
    } else {
        " elsewhere"
    };
    let _ = write!(
        said,
        "{caller} {did} {call} with {number} joiners={joiners} shared={shared}{elsewhere}"
    );
}

fn say_call(said: &mut String, did: &str, call: CallId) {
    let _ = write!(said, "{did} {call}");
}

fn say(said: &mut String, did: &str) {
    let _ = said.push_str(did);
}

fn say_spent(said: &mut String, caller: u32, value: u32) {
    let _ = write!(said, "{caller} is spent, and its load answers {value}");
}

// Whether a load is back, which is dropped then.
fn is_back<F: Drop>(load: Option<F>) -> bool {
    load.is_some()
}

fn say_forgotten(said: &mut String, forgotten: Forgotten) {
    match forgotten {
        Forgotten::Closed(call) => say_call(said, "forgot", call),
        Forgotten::Idle => say(said, "forgot nothing"),
    }
}

fn say_hit<R: Abort>(said: &mut String, stage: &Stage<R>, hit: Hit, call: CallId) {
    match hit {
        Hit::Closed => say_call(said, "closed", call),
        Hit::Cleared => {
            stage.add_cleared();
            say_call(said, "cleared", call);
        }
        Hit::Missed => say_call(said, "missed", call),
    }
}

// Whether it is one of those that are due.
fn is_one_of(said: &str, due: &str) -> bool {
    for one in due.split(" or ") {
        if one == said {
            return true;
        }
    }
    false
}

impl<'a> Seat<'a> {
    /// The last caller of the list sits down at the place; nobody does where none is left.
    pub fn next(group: &'a Group<Value>, list: &mut Vec<Caller<Value>>, place: u32) -> Seat<'a>
        requires own { All (λ c. c.group ≡ group.now) list.old.items }
        requires place { IsPlaceOf group.now place }
        ensures { All (λ c. c.group ≡ group.now) list.new.items }
    {
        let token = match list.pop() {
            Some(caller) => Token::Free(caller),
            None => Token::Away,
        };
        Seat {
            group,
            place,
            token,
        }
    }

    /// A leader at the place.
    pub fn leading(group: &'a Group<Value>, flight: Flight<Value>, place: u32) -> Seat<'a>
        requires flight { flight.group ≡ group.now }
        requires place { IsPlaceOf group.now place }
    {
        let token = Token::Leading(flight);
        Seat {
            group,
            place,
            token,
        }
    }

    /// A caller that waits for a letter of the place.
    pub fn waiting(group: &'a Group<Value>, ticket: Ticket<Value>, place: u32) -> Seat<'a>
        requires ticket { ticket.group ≡ group.now }
        requires place { IsPlaceOf group.now place }
    {
        let token = Token::Waiting(ticket);
        Seat {
            group,
            place,
            token,
        }
    }

    /// Makes the steps of those lines of the scene that begin so.
    pub fn play<R: Abort + Wait>(self, stage: &Stage<R>, begin: &str, scene: &str) {
        let mut seat = self;
        for line in scene.lines() {
            if let Some(step) = line.strip_prefix(begin) {
                seat = seat.obey(stage, step);
            }
        }
    }

    /// Makes the step, and compares what is said of it with what stands behind a colon.
    pub fn obey<R: Abort + Wait>(self, stage: &Stage<R>, line: &str) -> Seat<'a> {
        let (step, due) = line.split_once(": ").unwrap_or((line, ""));
        let mut said = String::new(stage.alloc);
        let seat = self.step(stage, step, &mut said);
        let as_due = is_one_of(said.as_str(), due);
        assert!(stage.rt; as_due, "{line}, but {said}");
        seat
    }

    /// Makes the step, whatever comes of it.
    pub fn make<R: Abort + Wait>(self, stage: &Stage<R>, step: &str) -> Seat<'a> {
        let mut said = String::new(stage.alloc);
        let seat = self.step(stage, step, &mut said);
        seat
    }

    // Makes the step, and says what comes of it.
    fn step<R: Abort + Wait>(self, stage: &Stage<R>, step: &str, said: &mut String) -> Seat<'a> {
        let (verb, rest) = step.split_once(' ').unwrap_or((step, ""));
        match verb {
            "ask" => self.ask(stage, said),
            "settle" | "go" | "wait" => self.end(stage, rest, said),
            "leave" => self.leave(),
            "forget" => self.forget(stage, rest, said),
            "do" => self.load(stage, rest, said),
            _ => {
                look(stage, verb, rest, said);
                self
            }
        }
    }

    fn ask<R: Abort + Wait>(self, stage: &Stage<R>, said: &mut String) -> Seat<'a> {
        let Seat {
            group,
            place,
            token,
        } = self;
        let token = match token {
            Token::Free(caller) => match begin_wait(stage.rt, group, caller, place) {
                Ok(Begun::Lead(flight)) => {
                    say_call(said, "leads", flight.call());
                    stage.tell("led");
                    Token::Leading(flight)
                }
                Ok(Begun::Join(ticket)) => {
                    say_call(said, "joins", ticket.call());
                    stage.tell("joined");
                    Token::Waiting(ticket)
                }
                Err(Spent { back }) => {
                    say(said, "is spent");
                    Token::Free(back)
                }
            },
            token => {
                say(said, "cannot");
                token
            }
        };
        Seat {
            group,
            place,
            token,
        }
    }

    // Settles its call, goes on with its delivery, or waits for its letter.
    fn end<R: Abort + Wait>(self, stage: &Stage<R>, rest: &str, said: &mut String) -> Seat<'a> {
        let Seat {
            group,
            place,
            token,
        } = self;
        let token = match token {
            Token::Leading(flight) => match finish_wait(group, flight, stage.load(rest)) {
                Finished::Done(caller, letter) => {
                    say_letter(said, caller.number(), "settled", &letter, place);
                    Token::Free(caller)
                }
                Finished::Held(settled) => {
                    say(said, "owes letters");
                    Token::Owing(settled)
                }
            },
            Token::Owing(settled) => match go_on_wait(group, settled) {
                Finished::Done(caller, letter) => {
                    say_letter(said, caller.number(), "delivered", &letter, place);
                    Token::Free(caller)
                }
                Finished::Held(settled) => {
                    say(said, "owes letters still");
                    Token::Owing(settled)
                }
            },
            Token::Waiting(ticket) => {
                let (caller, letter) = wait(stage.rt, group, ticket);
                say_letter(said, caller.number(), "got", &letter, place);
                Token::Free(caller)
            }
            token => {
                say(said, "cannot");
                token
            }
        };
        Seat {
            group,
            place,
            token,
        }
    }

    // Gives up what it has. Nobody is left on the seat.
    fn leave(self) -> Seat<'a> {
        let (group, place) = (self.group, self.place);
        drop(self);
        Seat {
            group,
            place,
            token: Token::Away,
        }
    }

    // Forgets its place, or the call of the text.
    fn forget<R: Abort + Wait>(self, stage: &Stage<R>, text: &str, said: &mut String) -> Seat<'a> {
        let Seat {
            group,
            place,
            token,
        } = self;
        let token = match token {
            Token::Free(mut caller) => {
                if text == "" {
                    say_forgotten(said, forget_wait(stage.rt, group, &mut caller, place));
                } else {
                    let call = call(text);
                    let hit = forget_call_wait(stage.rt, group, &mut caller, place, call);
                    say_hit(said, stage, hit, call);
                }
                Token::Free(caller)
            }
            token => {
                say(said, "cannot");
                token
            }
        };
        Seat {
            group,
            place,
            token,
        }
    }

    // A do with a load.
    fn load<R: Abort + Wait>(self, stage: &Stage<R>, rest: &str, said: &mut String) -> Seat<'a> {
        let Seat {
            group,
            place,
            token,
        } = self;
        let token = match token {
            Token::Free(caller) => {
                match do_with(stage.rt, group, caller, place, || stage.load(rest)) {
                    Ok((caller, letter, back)) => {
                        let did = if is_back(back) { "got" } else { "loaded" };
                        say_letter(said, caller.number(), did, &letter, place);
                        Token::Free(caller)
                    }
                    Err(DoFault::Held(settled)) => {
                        say(said, "owes letters");
                        Token::Owing(settled)
                    }
                    Err(DoFault::Spent(caller, load)) => {
                        say_spent(said, caller.number(), load().number);
                        Token::Free(caller)
                    }
                }
            }
            token => {
                say(said, "cannot");
                token
            }
        };
        Seat {
            group,
            place,
            token,
        }
    }
}

// A step that leaves the caller as it is.
fn look<R: Abort>(stage: &Stage<R>, verb: &str, rest: &str, said: &mut String) {
    match verb {
        "tell" => stage.tell(rest),
        "await" => stage.wait_for(rest),
        "pause" => pause(),
        "loads" => {
            let _ = write!(said, "{}", stage.loads());
        }
        _ => panic!(stage.rt; "no step {verb}"),
    }
}

// So long that another rests by then.
fn pause() {
    for _ in 0..20_000 {
        yield_now();
    }
}
