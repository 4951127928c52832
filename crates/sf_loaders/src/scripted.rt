//! Scripted loaders, for tests: their answers are given beforehand, and each counts how often it was asked.

ghost use Rattle.std.specs.Prelude.{◌≡◌, ◌<◌, Option, ℕ, vec_len};
ghost use Rattle.sf_loaders.specs.Scripted.{IsAgain, Plays};

use crate::faults::{LocalFault, PeerFault};
use crate::traits::{Chance, Local, Origin, Peer, Picker};
use bytes::{ByteStr, Bytes};
use sf_history::CallId;
use std::marker::Model;

/// The origin of scripted values, of which nothing is stated.
#[derive(Clone, Copy)]
pub struct AnyValue;

impl Origin for AnyValue {
    ghost use Rattle.std.specs.Prelude.{⊤};

    ghost loaded = { λ key call value. ⊤ };
}

/// A picker that names one peer for every key, or none.
#[derive(Clone, Copy)]
pub struct FixedPicker {
    /// The peer that it names.
    pub peer: Option<u32>,
    /// How often it was asked; the greatest `u64` stays.
    pub asked: u64,
}

impl FixedPicker {
    /// A picker that was not asked yet.
    pub fn new(peer: Option<u32>) -> Self
        ensures { result ≡ record { peer = peer; asked = 0 } }
    {
        FixedPicker { peer, asked: 0 }
    }
}

impl Picker for FixedPicker {
    ghost use Rattle.sf_loaders.specs.Scripted.{NamesItsPeer};

    ghost pick_gives = { λ old key picked new. NamesItsPeer old picked new };

    fn pick(&mut self, _key: &[u8]) -> Option<u32> {
        self.asked = self.asked.saturating_add(1);
        self.peer
    }
}

/// One answer of a script.
#[derive(Drop)]
pub enum Answer {
    /// The value.
    Value(Bytes),
    /// The fault with this text.
    Failed(ByteStr),
    /// The fault for want of memory.
    Memory,
}

impl Answer {
    // This answer once more; the fault for want of memory where the copy is refused.
    fn again(&self) -> Answer
        ensures { IsAgain self.now result }
    {
        match self {
            Answer::Value(value) => value.clone().map_or(Answer::Memory, Answer::Value),
            Answer::Failed(text) => text.clone().map_or(Answer::Memory, Answer::Failed),
            Answer::Memory => Answer::Memory,
        }
    }
}

/// A peer, or a local getter, that gives the answers of a script in turn, and from its first one again after its last.
#[derive(Drop)]
pub struct Script {
    answers: Vec<Answer>,
    asked: u64,
}

impl Model for Script {
    ghost use Rattle.std.specs.Prelude.{◌<◌, length};
    ghost use Rattle.sf_loaders.specs.Scripted.{Played};

    ghost Value = { Played };

    ghost view = { λ s. record { answers = s.answers.items; asked = s.asked } };

    ghost invariant = { λ s. 0 < length s.answers.items };
}

impl Script {
    /// A script that was not asked yet.
    pub fn new(answers: Vec<Answer>) -> Self
        requires { 0 < vec_len answers }
        ensures { result ≡ record { answers = answers.items; asked = 0 } }
    {
        Script { answers, asked: 0 }
    }

    /// How often it was asked; the greatest `u64` stays.
    pub fn asked(&self) -> u64
        ensures { result ≡ self.now.asked }
    {
        self.asked
    }

    // The answer whose turn it is; the fault for want of memory where its copy is refused.
    fn play(&mut self) -> Answer
        ensures { Plays self.old result self.new }
    {
        let turn = self.asked % self.answers.len() as u64;
        self.asked = self.asked.saturating_add(1);
        self.answers[turn as usize].again()
    }
}

impl Peer for Script {
    type Origin = AnyValue;

    ghost use Rattle.sf_loaders.specs.Scripted.{PlaysAsPeer};

    ghost fetch_gives = { λ old peer key call answer new. PlaysAsPeer old answer new };

    fn fetch(&mut self, _peer: u32, _key: &[u8], _call: CallId) -> Result<Bytes, PeerFault> {
        match self.play() {
            Answer::Value(value) => Ok(value),
            Answer::Failed(text) => Err(PeerFault::Failed(text)),
            Answer::Memory => Err(PeerFault::Memory),
        }
    }
}

impl Local for Script {
    type Origin = AnyValue;

    ghost use Rattle.sf_loaders.specs.Scripted.{PlaysAsLocal};

    ghost load_gives = { λ old key call answer new. PlaysAsLocal old answer new };

    fn load(&mut self, _key: &[u8], _call: CallId) -> Result<Bytes, LocalFault> {
        match self.play() {
            Answer::Value(value) => Ok(value),
            Answer::Failed(text) => Err(LocalFault::Failed(text)),
            Answer::Memory => Err(LocalFault::Memory),
        }
    }
}

/// A source of chance that draws 0 to 9 in turn, and from 0 again after 9.
#[derive(Drop)]
pub struct RoundChance {
    next: u32,
}

impl Model for RoundChance {
    ghost use Rattle.std.specs.Prelude.{ℕ, ◌<◌};

    ghost Value = { ℕ };

    ghost view = { λ c. c.next };

    ghost invariant = { λ c. c.next < 10 };
}

impl Default for RoundChance {
    ghost use Rattle.std.specs.Prelude.{◌≡◌};

    ghost is_default = { λ c. c ≡ 0 };

    /// A source whose first draw is 0.
    fn default() -> Self {
        RoundChance { next: 0 }
    }
}

impl Chance for RoundChance {
    ghost use Rattle.std.specs.Prelude.{◌+◌, ◌%◌};

    ghost draw_gives = { λ old draw new. (draw ≡ old) × (new ≡ (old + 1) % 10) };

    fn draw(&mut self) -> u32 {
        let draw = self.next;
        self.next = (draw + 1) % 10;
        draw
    }
}
