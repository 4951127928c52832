//! What is made where memory may be refused once: it is asked for again, and is then there.

ghost use Rattle.std.specs.Prelude.{◌≡◌, All, IfOk};

use crate::askings::{join, lead, letter, make};
use bytes::Bytes;
use sf_dir::{Desk, Directory, Refusal};
use sf_group::{CallId, Finished, Fit, Flight, Group, Letter, Share};
use sf_history::Memory;
use std::alloc::Global;
use std::process::Abort;
use std::test::Fail;

// A directory of one place, and two desks.
fn make_directory(alloc: Global) -> Result<(Directory, Vec<Desk>), Memory>
    ensures { IfOk result (λ made. All (λ d. d.directory ≡ made.0) made.1.items) }
{
    if let Ok(made) = Directory::new(alloc, 1, 4, 2, 0, 0) {
        return Ok(made);
    }
    Directory::new(alloc, 1, 4, 2, 0, 0)
}

// A key has the place, and there is none for another.
fn check_one_place(rt: &impl Abort, directory: &Directory, desk: Desk)
    requires { desk.directory ≡ directory.now }
{
    let mut desk = desk;
    match directory.resolve(&mut desk, b"key") {
        Ok(place) => assert!(rt; place.number().number() == 1, "another place"),
        Err(refusal) => panic!(rt; "{refusal}"),
    }
    let refusal = directory.resolve(&mut desk, b"k").err();
    assert!(rt; refusal == Some(Refusal::Full), "there is room");
}

#[test]
fn directory_is_made(rt: HostRuntime) -> Result<(), Fail> {
    let (directory, mut desks) = make_directory(rt.alloc())?;
    let Some(desk) = desks.pop() else {
        panic!(rt; "no desk")
    };
    assert!(rt; desk.number() == 2 && desks.len() == 1, "other desks");
    check_one_place(&rt, &directory, desk);
    Ok(())
}

// A value whose copies take memory.
#[derive(Drop)]
struct Text {
    text: Bytes,
}

impl Share for Text {
    fn share(&mut self) -> Result<Self, Memory> {
        let text = self.text.clone()?;
        Ok(Text { text })
    }
}

impl Fit for Text {
    ghost lasts = { λ _ _ _ _ _ f. f };
}

fn check_letter(rt: &impl Abort, letter: &Letter<Text>) {
    let call = CallId {
        caller: 2,
        generation: 1,
    };
    assert!(rt;
        letter.call() == call && letter.place() == 1,
        "another call's letter"
    );
    assert!(rt;
        letter.value().text.as_slice() == b"v".as_slice(),
        "another value"
    );
    assert!(rt; letter.joiners() == 1, "not of one joiner");
}

fn make_text(alloc: Global) -> Result<Text, Memory> {
    if let Ok(text) = Bytes::copy_from_slice(alloc, b"v") {
        return Ok(Text { text });
    }
    let text = Bytes::copy_from_slice(alloc, b"v")?;
    Ok(Text { text })
}

// The flight's letter. A delivery that is held for want of memory goes on to it.
fn finish(rt: &impl Abort, group: &Group<Text>, flight: Flight<Text>, text: Text) -> Letter<Text>
    requires { flight.group ≡ group.now }
{
    let finished = match group.finish(flight, text) {
        Finished::Held(settled) => group.go_on(settled),
        Finished::Done(leader, letter) => Finished::Done(leader, letter),
    };
    match finished {
        Finished::Done(_, letter) => letter,
        Finished::Held(settled) => {
            settled.abandon();
            panic!(rt; "it is held again")
        }
    }
}

#[test]
fn joined_call_with_copies_that_take_memory(rt: HostRuntime) -> Result<(), Fail> {
    let text = make_text(rt.alloc())?;
    let (group, mut callers) = make(rt.alloc(), 2)?;
    let flight = lead(&rt, &group, &mut callers);
    let ticket = join(&rt, &group, &mut callers);
    check_letter(&rt, &finish(&rt, &group, flight, text));
    check_letter(&rt, &letter(&rt, &group, ticket));
    Ok(())
}
