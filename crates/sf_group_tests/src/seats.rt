//! Seats of callers, and what the callers on them do, alone or two together.
ghost use Rattle.std.specs.Prelude.{◌≡◌, None, Some};
ghost use Rattle.sf_group.specs.Tokens.{GroupValue};
ghost use Rattle.sf_group.specs.Same.{IsPlaceOf};
ghost use Rattle.sf_group_tests.specs.declared.seats.Token.TheVariants.{Away, Free, Leading, Waiting, Owing};

use crate::commands::Command;
use crate::replies::Reply;
use crate::value::Value;
use sf_group::{
    Begun, CallId, Caller, ChanBegun, Finished, Flight, Group, Letter, NotBegun, Note, Polled,
    Settled, Ticket,
};

/// What stands for a caller. One that is free has its last letter.
pub(crate) enum Token {
    Away,
    Free(Caller<Value>, Option<Letter<Value>>),
    Leading(Flight<Value>),
    Waiting(Ticket<Value>),
    Owing(Settled<Value>),
}

/// A caller of the group, or nobody.
pub(crate) struct Seat<'a> {
    pub(crate) group: &'a Group<Value>,
    pub(crate) token: Token,
    ghost own: { (elim token as (λ _. GroupValue) [
      | Away ↦ group.now
      | Free caller _ ↦ caller.group
      | Leading flight ↦ flight.group
      | Waiting ticket ↦ ticket.group
      | Owing settled ↦ settled.group
    ]) ≡ group.now },
    ghost letter_own: { (elim token as (λ _. GroupValue) [
      | Free _ letter ↦ elim letter as (λ _. GroupValue) [ None ↦ group.now | Some l ↦ l.group ]
      | _ ↦ group.now
    ]) ≡ group.now },
}

impl<'a> Drop for Seat<'a> {
    fn drop(self) {
        let Seat { group: _, token } = self;
        match token {
            Token::Away => {}
            Token::Free(_, _) => {}
            Token::Leading(flight) => flight.abandon(),
            Token::Waiting(ticket) => ticket.abandon(),
            Token::Owing(settled) => settled.abandon(),
        }
    }
}

// Both callers are free, as they were.
fn both_free<'a>(
    group: &'a Group<Value>,
    caller: Caller<Value>,
    second: Caller<Value>,
    reply: Reply,
) -> (Seat<'a>, Seat<'a>, Reply)
    requires caller { caller.group ≡ group.now }
    requires second { second.group ≡ group.now }
    ensures one { result.0.group.now ≡ group.entry.now }
    ensures other { result.1.group.now ≡ group.entry.now }
{
    let token = Token::Free(second, None);
    let other = Seat { group, token };
    let token = Token::Free(caller, None);
    (Seat { group, token }, other, reply)
}

// The caller asks for the place, and the second is to have the channel.
fn ask_together<'a>(
    group: &'a Group<Value>,
    caller: Caller<Value>,
    second: Caller<Value>,
    place: u32,
) -> (Seat<'a>, Seat<'a>, Reply)
    requires caller { caller.group ≡ group.now }
    requires second { second.group ≡ group.now }
    requires place { IsPlaceOf group.now place }
    ensures one { result.0.group.now ≡ group.entry.now }
    ensures other { result.1.group.now ≡ group.entry.now }
{
    let number = caller.number();
    match group.begin_chan(caller, second, place, 1) {
        Ok(ChanBegun::Led(flight, ticket)) => {
            let reply = Reply::leading_chan(number, &flight, &ticket);
            let token = Token::Waiting(ticket);
            let other = Seat { group, token };
            let token = Token::Leading(flight);
            (Seat { group, token }, other, reply)
        }
        Ok(ChanBegun::Joined(ticket, caller)) => {
            let reply = Reply::waiting(caller.number(), "sends a channel to", &ticket);
            let token = Token::Waiting(ticket);
            let other = Seat { group, token };
            let token = Token::Free(caller, None);
            (Seat { group, token }, other, reply)
        }
        Err(NotBegun::Spent((caller, second))) => {
            let reply = Reply::counted(caller.number(), "is spent", second.number());
            both_free(group, caller, second, reply)
        }
        Err(NotBegun::Busy(tries, (caller, second))) => {
            let reply = Reply::counted(caller.number(), "is busy", tries);
            both_free(group, caller, second, reply)
        }
    }
}

impl<'a> Seat<'a> {
    /// Does what the command says, alone.
    pub(crate) fn obey(self, command: Command) -> (Seat<'a>, Reply)
        requires { IsPlaceOf self.group.now command.place }
        ensures { result.0.group.now ≡ self.entry.group.now }
    {
        match command.verb {
            "ask" => self.ask(command.place),
            "settle" => self.settle(command.value()),
            "go" => self.go_on(command.caller),
            "poll" => self.poll(),
            "forget" => self.forget(command.place),
            "forgetcall" => self.forget_call(command.place, command.call),
            "name" => self.name(command.place),
            "still" => self.is_told(command.caller, command.place, command.call),
            "current" => self.question(),
            "after" => self.follow(),
            "copy" => self.copy(),
            _ => (self, Reply::did(command.caller, "knows no such verb")),
        }
    }

    /// Does what the command says, with the other.
    pub(crate) fn obey_with(self, other: Seat<'a>, command: Command) -> (Seat<'a>, Seat<'a>, Reply)
        requires other { other.group.now ≡ self.group.now }
        requires place { IsPlaceOf self.group.now command.place }
        ensures one { result.0.group.now ≡ self.entry.group.now }
        ensures other { result.1.group.now ≡ self.entry.group.now }
    {
        match command.verb {
            "chan" => self.ask_chan(other, command.place),
            "tell" => self.tell(other),
            "meet" => self.meet(other),
            "show" => self.show(other),
            "give" => self.give(other),
            _ => (
                self,
                other,
                Reply::did(command.caller, "knows no such verb"),
            ),
        }
    }

    fn ask(self, place: u32) -> (Seat<'a>, Reply)
        requires { IsPlaceOf self.group.now place }
        ensures { result.0.group.now ≡ self.entry.group.now }
    {
        let Seat { group, token } = self;
        match token {
            Token::Free(caller, letter) => {
                let number = caller.number();
                match group.begin(caller, place, 1) {
                    Ok(Begun::Lead(flight)) => {
                        let reply = Reply::leading(number, "leads", &flight);
                        let token = Token::Leading(flight);
                        (Seat { group, token }, reply)
                    }
                    Ok(Begun::Join(ticket)) => {
                        let reply = Reply::waiting(number, "joins", &ticket);
                        let token = Token::Waiting(ticket);
                        (Seat { group, token }, reply)
                    }
                    Err(NotBegun::Spent(caller)) => {
                        let reply = Reply::did(caller.number(), "is spent");
                        let token = Token::Free(caller, letter);
                        (Seat { group, token }, reply)
                    }
                    Err(NotBegun::Busy(tries, caller)) => {
                        let reply = Reply::counted(caller.number(), "is busy", tries);
                        let token = Token::Free(caller, letter);
                        (Seat { group, token }, reply)
                    }
                }
            }
            token => (Seat { group, token }, Reply::cannot()),
        }
    }

    fn settle(self, value: Value) -> (Seat<'a>, Reply)
        ensures { result.0.group.now ≡ self.entry.group.now }
    {
        let Seat { group, token } = self;
        match token {
            Token::Leading(flight) => {
                let led = Reply::leading(flight.call().caller, "owes letters", &flight);
                match group.finish(flight, value) {
                    Finished::Done(caller, letter) => {
                        let reply = Reply::settled(caller.number(), led, &letter);
                        let token = Token::Free(caller, Some(letter));
                        (Seat { group, token }, reply)
                    }
                    Finished::Held(settled) => {
                        let reply = led.joined_by(settled.joiners());
                        let token = Token::Owing(settled);
                        (Seat { group, token }, reply)
                    }
                }
            }
            token => (Seat { group, token }, Reply::cannot()),
        }
    }

    fn go_on(self, number: u32) -> (Seat<'a>, Reply)
        ensures { result.0.group.now ≡ self.entry.group.now }
    {
        let Seat { group, token } = self;
        match token {
            Token::Owing(settled) => match group.go_on(settled) {
                Finished::Done(caller, letter) => {
                    let reply = Reply::of_letter(caller.number(), "settled", &letter);
                    let token = Token::Free(caller, Some(letter));
                    (Seat { group, token }, reply)
                }
                Finished::Held(settled) => {
                    let reply = Reply::did(number, "owes letters").joined_by(settled.joiners());
                    let token = Token::Owing(settled);
                    (Seat { group, token }, reply)
                }
            },
            token => (Seat { group, token }, Reply::cannot()),
        }
    }

    fn poll(self) -> (Seat<'a>, Reply)
        ensures { result.0.group.now ≡ self.entry.group.now }
    {
        let Seat { group, token } = self;
        match token {
            Token::Waiting(ticket) => match group.poll(ticket) {
                Polled::Ready(caller, letter) => {
                    let reply = Reply::of_letter(caller.number(), "got", &letter);
                    let token = Token::Free(caller, Some(letter));
                    (Seat { group, token }, reply)
                }
                Polled::Pending(ticket) => {
                    let reply = Reply::waiting(ticket.member().caller, "waits for", &ticket);
                    let token = Token::Waiting(ticket);
                    (Seat { group, token }, reply)
                }
            },
            token => (Seat { group, token }, Reply::cannot()),
        }
    }

    fn forget(self, place: u32) -> (Seat<'a>, Reply)
        requires { IsPlaceOf self.group.now place }
        ensures { result.0.group.now ≡ self.entry.group.now }
    {
        let Seat { group, token } = self;
        match token {
            Token::Free(mut caller, letter) => {
                let forgotten = group.forget(&mut caller, place, 1);
                let reply = Reply::forgot(caller.number(), forgotten);
                let token = Token::Free(caller, letter);
                (Seat { group, token }, reply)
            }
            token => (Seat { group, token }, Reply::cannot()),
        }
    }

    fn forget_call(self, place: u32, call: CallId) -> (Seat<'a>, Reply)
        requires { IsPlaceOf self.group.now place }
        ensures { result.0.group.now ≡ self.entry.group.now }
    {
        let Seat { group, token } = self;
        match token {
            Token::Free(mut caller, letter) => {
                let hit = group.forget_call(&mut caller, place, call, 1);
                let reply = Reply::hit(caller.number(), call, hit);
                let token = Token::Free(caller, letter);
                (Seat { group, token }, reply)
            }
            token => (Seat { group, token }, Reply::cannot()),
        }
    }

    // Which call the place names.
    fn name(self, place: u32) -> (Seat<'a>, Reply)
        requires { IsPlaceOf self.group.now place }
        ensures { result.0.group.now ≡ self.entry.group.now }
    {
        let Seat { group, token } = self;
        match token {
            Token::Free(mut caller, letter) => {
                let named = group.named(&mut caller, place);
                let reply = Reply::maybe(
                    caller.number(),
                    "finds named",
                    "finds nothing named",
                    named,
                );
                let token = Token::Free(caller, letter);
                (Seat { group, token }, reply)
            }
            token => (Seat { group, token }, Reply::cannot()),
        }
    }

    // What the caller, whatever it does, is told of the call.
    fn is_told(self, number: u32, place: u32, call: CallId) -> (Seat<'a>, Reply)
        requires { IsPlaceOf self.group.now place }
        ensures { result.0.group.now ≡ self.entry.group.now }
    {
        let Seat { group, token } = self;
        match token {
            Token::Free(mut caller, letter) => {
                let said = group.is_still_current(&mut caller, place, call);
                let token = Token::Free(caller, letter);
                (
                    Seat { group, token },
                    Reply::told(number, place, call, said),
                )
            }
            Token::Leading(mut flight) => {
                let said = flight.is_still_current(group, place, call);
                let token = Token::Leading(flight);
                (
                    Seat { group, token },
                    Reply::told(number, place, call, said),
                )
            }
            Token::Waiting(mut ticket) => {
                let said = ticket.is_still_current(group, place, call);
                let token = Token::Waiting(ticket);
                (
                    Seat { group, token },
                    Reply::told(number, place, call, said),
                )
            }
            Token::Owing(mut settled) => {
                let said = settled.is_still_current(group, place, call);
                let token = Token::Owing(settled);
                (
                    Seat { group, token },
                    Reply::told(number, place, call, said),
                )
            }
            token => (Seat { group, token }, Reply::cannot()),
        }
    }

    // What the caller is told of the call of its letter.
    fn question(self) -> (Seat<'a>, Reply)
        ensures { result.0.group.now ≡ self.entry.group.now }
    {
        let Seat { group, token } = self;
        match token {
            Token::Free(mut caller, letter) => match letter {
                Some(mut letter) => {
                    let said = group.is_current(&mut caller, &mut letter);
                    let reply = Reply::told(caller.number(), letter.place(), letter.call(), said);
                    let token = Token::Free(caller, Some(letter));
                    (Seat { group, token }, reply)
                }
                None => {
                    let token = Token::Free(caller, None);
                    (Seat { group, token }, Reply::cannot())
                }
            },
            token => (Seat { group, token }, Reply::cannot()),
        }
    }

    // Which call was before the one that the caller leads.
    fn follow(self) -> (Seat<'a>, Reply)
        ensures { result.0.group.now ≡ self.entry.group.now }
    {
        let Seat { group, token } = self;
        match token {
            Token::Leading(flight) => {
                let reply = Reply::maybe(
                    flight.call().caller,
                    "follows",
                    "follows nothing",
                    flight.after(),
                );
                let token = Token::Leading(flight);
                (Seat { group, token }, reply)
            }
            token => (Seat { group, token }, Reply::cannot()),
        }
    }

    // Copies its letter.
    fn copy(self) -> (Seat<'a>, Reply)
        ensures { result.0.group.now ≡ self.entry.group.now }
    {
        let Seat { group, token } = self;
        match token {
            Token::Free(caller, letter) => match letter {
                Some(mut letter) => {
                    let reply = Reply::copied(caller.number(), group.copy(&mut letter));
                    let token = Token::Free(caller, Some(letter));
                    (Seat { group, token }, reply)
                }
                None => {
                    let token = Token::Free(caller, None);
                    (Seat { group, token }, Reply::cannot())
                }
            },
            token => (Seat { group, token }, Reply::cannot()),
        }
    }

    // Asks for the place with the other, which is to have the channel.
    fn ask_chan(self, other: Seat<'a>, place: u32) -> (Seat<'a>, Seat<'a>, Reply)
        requires other { other.group.now ≡ self.group.now }
        requires place { IsPlaceOf self.group.now place }
        ensures one { result.0.group.now ≡ self.entry.group.now }
        ensures other { result.1.group.now ≡ self.entry.group.now }
    {
        let Seat { group, token } = self;
        let Seat {
            group: _,
            token: second,
        } = other;
        match (token, second) {
            (Token::Free(caller, _), Token::Free(second, _)) => {
                ask_together(group, caller, second, place)
            }
            (token, second) => {
                let other = Seat {
                    group,
                    token: second,
                };
                (Seat { group, token }, other, Reply::cannot())
            }
        }
    }

    fn meet(self, other: Seat<'a>) -> (Seat<'a>, Seat<'a>, Reply)
        requires other { other.group.now ≡ self.group.now }
        ensures one { result.0.group.now ≡ self.entry.group.now }
        ensures other { result.1.group.now ≡ self.entry.group.now }
    {
        let Seat { group, token } = self;
        let Seat {
            group: _,
            token: second,
        } = other;
        match (token, second) {
            (Token::Free(mut caller, letter), Token::Free(mut second, second_letter)) => {
                group.meet(&mut caller, &mut second);
                let reply = Reply::counted(caller.number(), "met", second.number());
                let token = Token::Free(second, second_letter);
                let other = Seat { group, token };
                let token = Token::Free(caller, letter);
                (Seat { group, token }, other, reply)
            }
            (token, second) => {
                let other = Seat {
                    group,
                    token: second,
                };
                (Seat { group, token }, other, Reply::cannot())
            }
        }
    }

    // Gives its letter to the other.
    fn give(self, other: Seat<'a>) -> (Seat<'a>, Seat<'a>, Reply)
        requires other { other.group.now ≡ self.group.now }
        ensures one { result.0.group.now ≡ self.entry.group.now }
        ensures other { result.1.group.now ≡ self.entry.group.now }
    {
        let Seat { group, token } = self;
        let Seat {
            group: _,
            token: second,
        } = other;
        match (token, second) {
            (Token::Free(caller, letter), Token::Free(second, _)) => {
                let reply = Reply::counted(caller.number(), "gave its letter", second.number());
                let token = Token::Free(second, letter);
                let other = Seat { group, token };
                let token = Token::Free(caller, None);
                (Seat { group, token }, other, reply)
            }
            (token, second) => {
                let other = Seat {
                    group,
                    token: second,
                };
                (Seat { group, token }, other, Reply::cannot())
            }
        }
    }

    // The caller, whether it is free or leads, learns what the note shows.
    fn learn(self, note: &mut Note<Value>) -> (Seat<'a>, Reply)
        requires { note.old.group ≡ self.group.now }
        ensures seat { result.0.group.now ≡ self.entry.group.now }
        ensures note { note.new.group ≡ self.entry.group.now }
    {
        let Seat { group, token } = self;
        match token {
            Token::Free(mut caller, letter) => {
                group.learn(&mut caller, note);
                let reply = Reply::did(caller.number(), "learns");
                let token = Token::Free(caller, letter);
                (Seat { group, token }, reply)
            }
            Token::Leading(mut flight) => {
                flight.learn(group, note);
                let reply = Reply::leading(flight.call().caller, "learns and leads", &flight);
                let token = Token::Leading(flight);
                (Seat { group, token }, reply)
            }
            token => (Seat { group, token }, Reply::cannot()),
        }
    }

    // Tells the other what it has seen, by a note and by another of that.
    fn tell(self, other: Seat<'a>) -> (Seat<'a>, Seat<'a>, Reply)
        requires other { other.group.now ≡ self.group.now }
        ensures one { result.0.group.now ≡ self.entry.group.now }
        ensures other { result.1.group.now ≡ self.entry.group.now }
    {
        let Seat { group, token } = self;
        match token {
            Token::Free(mut caller, letter) => {
                let mut note = group.tell(&mut caller);
                let mut again = group.again(&mut note);
                let (other, _) = other.learn(&mut again);
                let (other, reply) = other.learn(&mut note);
                let token = Token::Free(caller, letter);
                (Seat { group, token }, other, reply)
            }
            token => (Seat { group, token }, other, Reply::cannot()),
        }
    }

    // The other learns what the letter shows, and what a copy of it does.
    fn show(self, other: Seat<'a>) -> (Seat<'a>, Seat<'a>, Reply)
        requires other { other.group.now ≡ self.group.now }
        ensures one { result.0.group.now ≡ self.entry.group.now }
        ensures other { result.1.group.now ≡ self.entry.group.now }
    {
        let Seat { group, token } = self;
        match token {
            Token::Free(caller, letter) => match letter {
                Some(mut letter) => {
                    let (other, reply) = other.learn_from(&mut letter);
                    let token = Token::Free(caller, Some(letter));
                    (Seat { group, token }, other, reply)
                }
                None => {
                    let token = Token::Free(caller, None);
                    (Seat { group, token }, other, Reply::cannot())
                }
            },
            token => (Seat { group, token }, other, Reply::cannot()),
        }
    }

    // The caller learns what the letter shows, and what a copy of it does.
    fn learn_from(self, letter: &mut Letter<Value>) -> (Seat<'a>, Reply)
        requires { letter.old.group ≡ self.group.now }
        ensures seat { result.0.group.now ≡ self.entry.group.now }
        ensures letter { letter.new.group ≡ self.entry.group.now }
    {
        let group = self.group;
        let mut note = letter.note(group);
        let (seat, learnt) = self.learn(&mut note);
        match group.copy(letter) {
            Ok(copy) => {
                let (value, mut shown) = copy.into_parts();
                let (seat, learnt) = seat.learn(&mut shown);
                (seat, learnt.with(value.number))
            }
            Err(_) => (seat, learnt),
        }
    }
}
