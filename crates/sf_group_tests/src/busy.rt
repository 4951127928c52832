//! Two threads that ask for one place with one try each time, until one of them meets the other.

use crate::commands::Command;
use crate::player::{Player, seat};
use crate::value::Value;
use sf_group::Group;
use std::process::Abort;
use std::sync::atomic::{AtomicBool, Ordering};
use std::test::Fail;
use std::thread;

// How a thread's askings ended.
#[derive(Clone, Copy)]
enum AskEnd {
    // One was busy after its one try, and its caller came back.
    Busy,
    // The other's was.
    Others,
    // None was, or one ended otherwise.
    Wrong,
}

// The caller is free again once its letter is there, or its call is settled.
fn is_free(player: &mut Player, caller: u32, verb: &str) -> bool {
    for _ in 0..10_000_000 {
        match player.obey(Command::new(verb, caller)).did {
            "settled" | "got" => return true,
            "waits for" => thread::yield_now(),
            _ => return false,
        }
    }
    false
}

fn ask(player: Player, met: &AtomicBool) -> AskEnd {
    let mut player = player;
    let caller = player.last();
    for _ in 0..10_000_000 {
        if met.load(Ordering::SeqCst) {
            return AskEnd::Others;
        }
        let reply = player.obey(Command::new("ask", caller));
        let free = match reply.did {
            "leads" => is_free(&mut player, caller, "settle"),
            "joins" => is_free(&mut player, caller, "poll"),
            "is busy" if reply.number == Some(1) && reply.caller == caller => return AskEnd::Busy,
            _ => false,
        };
        if !free {
            return AskEnd::Wrong;
        }
    }
    AskEnd::Wrong
}

// The other stops where this one has ended.
fn work(player: Player, met: &AtomicBool) -> AskEnd {
    let ended = ask(player, met);
    met.store(true, Ordering::SeqCst);
    ended
}

// One is busy at least, and the other is not wrong.
fn check_ended(rt: &impl Abort, one: AskEnd, two: AskEnd) {
    let is_wrong = matches!(one, AskEnd::Wrong) || matches!(two, AskEnd::Wrong);
    let is_busy = matches!(one, AskEnd::Busy) || matches!(two, AskEnd::Busy);
    assert!(rt; !is_wrong, "an asking ended otherwise");
    assert!(rt; is_busy, "none is busy");
}

#[test]
fn one_try_is_busy_beside_another(rt: HostRuntime) -> Result<(), Fail> {
    let alloc = rt.alloc();
    let (group, mut list) = Group::<Value>::new(alloc, 1, 2, 1)?;
    let met = AtomicBool::new(false);
    let two = seat(&rt, alloc, &group, &mut list, 1);
    let one = seat(&rt, alloc, &group, &mut list, 1);
    let (one, two) = thread::join(&rt, || work(one, &met), || work(two, &met));
    check_ended(&rt, one, two);
    Ok(())
}
