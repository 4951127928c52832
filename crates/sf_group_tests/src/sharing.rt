//! Four threads that ask for one place, and never look twice; again and again, until one was busy.

ghost use Rattle.std.specs.Prelude.{◌≤◌};

use crate::commands::Command;
use crate::player::{Player, seat};
use crate::replies::{Reply, caller_of};
use crate::value::Value;
use sf_group::{Group, Memory};
use std::alloc::Global;
use std::process::Abort;
use std::test::Fail;
use std::thread::{Threads, join, yield_now};

// How many rounds there are at most, of which the first is enough wherever threads run side by side.
const ROUNDS: u32 = 2000;

// What a thread's askings came to.
#[derive(Drop)]
struct Asked<'a> {
    player: Player<'a>,
    led: u32,
    // Of those that joined, what was replied.
    joined: Vec<Reply>,
    // Tries that were busy.
    busy: u32,
}

impl<'a> Asked<'a> {
    // The caller asks, with one try each time, until it leads or joins; at most 1,000,000 times. A leader settles its call with
    // its own number.
    fn ask(&mut self, caller: u32) {
        for _ in 0..1_000_000 {
            let reply = self.player.obey(Command::new("ask", caller));
            match reply.did {
                "leads" => return self.settle(caller),
                "joins" => {
                    let _ = self.joined.push(reply);
                    return;
                }
                "is busy" if reply.number == Some(1) => self.busy = self.busy.wrapping_add(1),
                _ => return,
            }
            yield_now();
        }
    }

    fn settle(&mut self, caller: u32) {
        let reply = self.player.obey(Command {
            number: caller,
            ..Command::new("settle", caller)
        });
        if reply.did == "settled" {
            self.led = self.led.wrapping_add(1);
        }
    }

    // The letter of the call that was joined is there at the first look.
    fn take_letter(&mut self, rt: &impl Abort, joined: Reply) {
        let letter = self.player.obey(Command::new("poll", joined.caller));
        assert!(rt;
            letter.did == "got" && letter.call == joined.call,
            "another letter"
        );
        let leader = caller_of(letter.call);
        assert!(rt; letter.number == Some(leader), "a value of another call");
        assert!(rt; letter.joiners.unwrap_or(0) > 0, "it is not shared");
    }

    // Each letter is there. How many askings led or joined, and how many tries were busy.
    fn check(self, rt: &impl Abort) -> (usize, u32) {
        let mut asked = self;
        let ended = asked.joined.len().wrapping_add(asked.led as usize);
        for _ in 0..asked.joined.len() {
            if let Some(joined) = asked.joined.pop() {
                asked.take_letter(rt, joined);
            }
        }
        (ended, asked.busy)
    }
}

// Each caller of the player asks.
fn work(alloc: Global, player: Player, each: u32) -> Asked {
    let last = player.last();
    let mut asked = Asked {
        player,
        led: 0,
        joined: Vec::new(alloc),
        busy: 0,
    };
    for index in 0..each {
        asked.ask(last.wrapping_sub(index));
    }
    asked
}

// Each caller of both players asks, on two threads.
fn work_beside<'a, 'b>(
    rt: &(impl Threads + Sync),
    alloc: Global,
    one: Player<'a>,
    other: Player<'b>,
    each: u32,
) -> (Asked<'a>, Asked<'b>) {
    join(rt, || work(alloc, one, each), || work(alloc, other, each))
}

// Each asking of a thread led or joined. How many tries were busy.
fn check_ended(rt: &impl Abort, asked: Asked, each: u32) -> u32 {
    let (ended, busy) = asked.check(rt);
    assert!(rt; ended == each as usize, "not all askings ended");
    busy
}

// The same of two threads.
fn check_both(rt: &impl Abort, both: (Asked, Asked), each: u32) -> u32 {
    let (one, other) = both;
    check_ended(rt, one, each).wrapping_add(check_ended(rt, other, each))
}

// Each asking led or joined, each letter is there once all have ended, and no call is left open: one more caller leads. How many
// tries were busy.
fn round<R: Abort + Threads + Sync>(
    rt: &R,
    alloc: Global,
    each: u32,
    script: &str,
) -> Result<u32, Memory>
    requires { (1 ≤ each) × (each ≤ 1000) }
{
    let (group, mut list) = Group::<Value>::new(alloc, 1, 4 * each + 1, 1)?;
    let mut last = seat(rt, alloc, &group, &mut list, 1);
    let one = seat(rt, alloc, &group, &mut list, each);
    let two = seat(rt, alloc, &group, &mut list, each);
    let three = seat(rt, alloc, &group, &mut list, each);
    let four = seat(rt, alloc, &group, &mut list, each);
    let (half, other) = join(
        rt,
        || work_beside(rt, alloc, one, two, each),
        || work_beside(rt, alloc, three, four, each),
    );
    let busy = check_both(rt, half, each);
    let more = check_both(rt, other, each);
    last.play(rt, alloc, script);
    Ok(busy.wrapping_add(more))
}

#[test]
fn four_threads_on_one_place(rt: HostRuntime) -> Result<(), Fail> {
    round(
        &rt,
        rt.alloc(),
        250,
        "ask 1001 on 1: 1001 leads 1001.1 on 1",
    )?;
    Ok(())
}

#[test]
fn four_thousand_askings_of_one_place(rt: HostRuntime) -> Result<(), Fail> {
    for _ in 0..ROUNDS {
        let script = "ask 4001 on 1: 4001 leads 4001.1 on 1";
        if round(&rt, rt.alloc(), 1000, script)? > 0 {
            return Ok(());
        }
    }
    panic!(rt; "none is busy")
}
