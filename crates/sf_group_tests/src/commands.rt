//! Commands to callers, as lines of scripts have them.

use crate::value::Value;
use sf_group::CallId;

/// What a caller is to do, with whom, and on which place.
#[derive(Clone, Copy)]
pub(crate) struct Command<'t> {
    pub(crate) verb: &'t str,
    pub(crate) caller: u32,
    pub(crate) other: u32,
    pub(crate) place: u32,
    pub(crate) call: CallId,
    pub(crate) number: u32,
    pub(crate) is_fault: bool,
    pub(crate) refused: u32,
}

pub(crate) fn id(caller: u32, generation: u32) -> CallId {
    CallId { caller, generation }
}

fn number(word: &str) -> u32 {
    word.parse::<u32>().unwrap_or(0)
}

fn call(word: &str) -> CallId {
    let (caller, generation) = word.split_once('.').unwrap_or((word, ""));
    id(number(caller), number(generation))
}

impl<'t> Command<'t> {
    /// The caller is to do this on place 1, alone.
    pub(crate) fn new(verb: &'t str, caller: u32) -> Command<'t> {
        Command {
            verb,
            caller,
            other: 0,
            place: 1,
            call: id(0, 0),
            number: 0,
            is_fault: false,
            refused: 0,
        }
    }

    /// A verb and a caller, and then what the command needs: `and` another caller, `on` a place, `of` a call, `with` a number
    /// or a `fault`, and which copies of that are `refused`, each by a bit.
    pub(crate) fn read(line: &'t str) -> Command<'t> {
        let mut words = line.split(' ');
        let verb = words.next().unwrap_or("");
        let mut command = Command::new(verb, number(words.next().unwrap_or("")));
        for _ in 0..line.len() {
            let (Some(name), Some(word)) = (words.next(), words.next()) else {
                return command;
            };
            command.set(name, word);
        }
        command
    }

    fn set(&mut self, name: &str, word: &str) {
        match name {
            "and" => self.other = number(word),
            "on" => self.place = number(word),
            "of" => self.call = call(word),
            "refused" => self.refused = number(word),
            _ => {
                self.is_fault = name == "fault";
                self.number = number(word);
            }
        }
    }

    /// What the command settles a call with.
    pub(crate) fn value(self) -> Value {
        Value::new(self.number, self.is_fault, self.refused)
    }
}
