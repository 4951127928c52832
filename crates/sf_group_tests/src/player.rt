//! One who obeys scripts: a line has a command and the reply that is due.
ghost use Rattle.std.specs.Prelude.{◌≡◌, ◌≤◌, All};

use crate::commands::Command;
use crate::replies::Reply;
use crate::seats::{Seat, Token};
use crate::value::Value;
use sf_group::{Caller, Group, Memory};
use std::alloc::Global;
use std::process::Abort;
use std::test::Fail;
use std::{mem, thread};

/// Callers of a group by their numbers, of which the last sits first.
#[derive(Drop)]
pub(crate) struct Player<'a> {
    group: &'a Group<Value>,
    last: u32,
    seats: Vec<Seat<'a>>,
    ghost own: { All (λ s. s.group.now ≡ group.now) seats.items },
}

/// Fails where memory was refused. A test that returned the error would have to give up each token that it has by then.
pub(crate) fn had_memory(rt: &impl Abort, had: bool) {
    assert!(rt; had, "no memory");
}

/// So many callers of the list, from its end.
pub(crate) fn seat<'a>(
    rt: &impl Abort,
    alloc: Global,
    group: &'a Group<Value>,
    list: &mut Vec<Caller<Value>>,
    count: u32,
) -> Player<'a>
    requires { All (λ c. c.group ≡ group.now) list.old.items }
    ensures group { result.group.now ≡ group.entry.now }
    ensures rest { All (λ c. c.group ≡ group.entry.now) list.new.items }
{
    let mut player = Player {
        group,
        last: u32::try_from(list.len()).unwrap_or(0),
        seats: Vec::new(alloc),
    };
    for _ in 0..count {
        player.seat_last(rt, list);
    }
    player
}

impl<'a> Player<'a> {
    // The last caller of the list sits down behind the others.
    fn seat_last(&mut self, rt: &impl Abort, list: &mut Vec<Caller<Value>>)
        requires { All (λ c. c.group ≡ self.old.group.now) list.old.items }
        ensures group { self.new.group.now ≡ self.old.group.now }
        ensures rest { All (λ c. c.group ≡ self.old.group.now) list.new.items }
    {
        let group = self.group;
        if let Some(caller) = list.pop() {
            let token = Token::Free(caller, None);
            had_memory(rt, self.seats.push(Seat { group, token }).is_ok());
        }
    }

    fn take(&mut self, number: u32) -> Seat<'a>
        ensures seat { result.group.now ≡ self.new.group.now }
        ensures group { self.new.group.now ≡ self.old.group.now }
    {
        let empty = Seat {
            group: self.group,
            token: Token::Away,
        };
        match self.seats.get_mut(self.last.wrapping_sub(number) as usize) {
            Some(seat) => mem::replace(seat, empty),
            None => empty,
        }
    }

    fn put(&mut self, number: u32, seat: Seat<'a>)
        requires { seat.group.now ≡ self.old.group.now }
        ensures { self.new.group.now ≡ self.old.group.now }
    {
        if let Some(old) = self.seats.get_mut(self.last.wrapping_sub(number) as usize) {
            *old = seat;
        }
    }

    /// Does what the command says; what is replied to it.
    pub(crate) fn obey(&mut self, command: Command) -> Reply
        ensures { self.new.group.now ≡ self.old.group.now }
    {
        if !self.group.has(command.place) {
            return Reply {
                place: Some(command.place),
                ..Reply::did(command.caller, "finds no place")
            };
        }
        let seat = self.take(command.caller);
        if command.other == 0 {
            let (seat, reply) = seat.obey(command);
            self.put(command.caller, seat);
            return reply;
        }
        let other = self.take(command.other);
        let (seat, other, reply) = seat.obey_with(other, command);
        self.put(command.other, other);
        self.put(command.caller, seat);
        reply
    }

    /// The number of its last caller.
    pub(crate) fn last(&self) -> u32 {
        self.last
    }

    /// Does what the line says, again while a caller waits, 1,000,000 times at most. It gives way between two times.
    pub(crate) fn obey_often(self, line: &str) -> Reply {
        let command = Command::read(line);
        let mut player = self;
        for _ in 0..1_000_000 {
            let reply = player.obey(command);
            if reply.did != "waits for" {
                return reply;
            }
            thread::yield_now();
        }
        Reply::cannot()
    }

    /// Obeys the lines of the script in turn. Each is a command, and the reply that is due; or a comment, `# ..`.
    pub(crate) fn play(&mut self, rt: &impl Abort, alloc: Global, script: &str) {
        for line in script.lines() {
            let (command, _) = line.split_once(": ").unwrap_or((line, ""));
            if !command.starts_with('#') {
                let reply = self.obey(Command::read(command));
                check_line(rt, alloc, reply, line);
            }
        }
    }
}

/// The reply is the one that the line has behind its command.
pub(crate) fn check_line(rt: &impl Abort, alloc: Global, reply: Reply, line: &str) {
    let (_, due) = line.split_once(": ").unwrap_or((line, ""));
    let Ok(found) = reply.text(alloc) else {
        panic!(rt; "no memory")
    };
    assert!(rt; found.as_str() == due, "{line}, but {found}");
}

// How many places and callers a group has, and their first generation.
#[derive(Clone, Copy)]
struct Sizes {
    places: u32,
    callers: u32,
    first: u32,
}

// Of a line `group PLACES CALLERS FIRST NAME`.
fn sizes_of(rt: &impl Abort, line: &str) -> Sizes
    ensures places { (1 ≤ result.places) × (result.places ≤ 100) }
    ensures callers { (1 ≤ result.callers) × (result.callers ≤ 65535) }
    ensures first { 1 ≤ result.first }
{
    let mut words = line.split(' ');
    let is_group = words.next() == Some("group");
    let places = words.next().unwrap_or("").parse::<u32>().unwrap_or(0);
    let callers = words.next().unwrap_or("").parse::<u32>().unwrap_or(0);
    let first = words.next().unwrap_or("").parse::<u32>().unwrap_or(0);
    assert!(rt; is_group && 1 <= first, "{line}");
    assert!(rt; 1 <= places && places <= 100, "{line}");
    assert!(rt; 1 <= callers && callers <= 65_535, "{line}");
    Sizes {
        places,
        callers,
        first,
    }
}

// Callers of a new group obey the script below its first line, which says how large the group is.
fn play(rt: &impl Abort, alloc: Global, text: &str) -> Result<(), Fail> {
    let (head, script) = text.split_once('\n').unwrap_or((text, ""));
    let sizes = sizes_of(rt, head);
    let (group, mut list) = Group::<Value>::new(alloc, sizes.places, sizes.callers, sizes.first)?;
    assert!(rt; group.places() == sizes.places, "another number of places");
    let mut player = seat(rt, alloc, &group, &mut list, sizes.callers);
    player.play(rt, alloc, script);
    Ok(())
}

/// Plays each of these scripts. An empty line stands between two of them.
pub(crate) fn plays(rt: &impl Abort, alloc: Global, text: &str) -> Result<(), Fail> {
    for one in text.split("\n\n") {
        play(rt, alloc, one)?;
    }
    Ok(())
}
