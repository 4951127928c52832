//! Threads ask, leave, forget and look at stamps of chains that grow meanwhile. Each key has a number that is written, and then the key is
//! forgotten. A call's value is the number that its leader reads. Whatever is answered after a Forget has returned is no older than what was written
//! before that Forget. Of each call whose value is told, one holder is told that it is the last.
ghost use Rattle.std.specs.Prelude.{◌≡◌};
ghost use Rattle.sf_keyed_chain.specs.Chains.{IsOf, IsTokenOf};

use sf_keyed::Name;
use sf_keyed_chain::{ChainFront, Flight, Forgotten, KeyedChain, Reply, Settled, Stamp, Ticket};
use std::alloc::{AllocError, Global};
use std::sync::atomic::AtomicU64;
use std::sync::atomic::Ordering::SeqCst;
use std::test::Fail;
use std::thread::map_vec;

const TRIES: u32 = 1_000;

// How often a caller that joined looks for the value, before it leaves.
const LOOKS: u32 = 1_000;

// How many keys a chain has, and how many tables at most.
const KEYS: usize = 4;

const TABLES: usize = 4;

// Chains are played in rounds of so many, by so many threads, of which each plays so often at each chain.
const CHAINS: usize = 256;

const THREADS: u64 = 4;

const PLAYS: usize = 64;

// 2,048 chains in all.
const ROUNDS: u64 = 8;

// What was written of a key, up to where Forgets of it have returned, and how many calls of it are told whose last holder has not left.
#[derive(Drop)]
struct Board {
    written: AtomicU64,
    forgotten: AtomicU64,
    told: AtomicU64,
}

// A value that is kept, with its stamp.
#[derive(Clone, Copy)]
struct Kept {
    value: u64,
    stamp: Stamp,
}

// A caller of a chain, the boards of its keys, and for each key what the caller keeps.
#[derive(Drop)]
struct Player<'a> {
    chain: &'a KeyedChain,
    boards: &'a [Board],
    me: ChainFront,
    kept: Vec<Option<Kept>>,
    ghost own: { IsOf chain.now me },
}

fn name(key: usize) -> Name {
    Name {
        low: key as u64,
        high: 0,
    }
}

// Settles the call with what is written by now. Returns that, and whether a Forget had closed the call.
fn load(chain: &KeyedChain, me: &mut ChainFront, board: &Board, flight: Flight) -> (u64, bool)
    requires of { IsOf chain.now me.old }
    requires own { IsTokenOf chain.now flight }
    ensures { IsOf chain.now me.new }
{
    let value = board.written.load(SeqCst);
    match chain.settle(me, flight, value) {
        Settled::Alone => (value, false),
        Settled::Told(ticket, audience) => {
            board.told.fetch_add(1, SeqCst);
            leave(chain, me, board, ticket);
            (value, audience.forgotten)
        }
    }
}

// Leaves the call.
fn leave(chain: &KeyedChain, me: &mut ChainFront, board: &Board, ticket: Ticket)
    requires of { IsOf chain.now me.old }
    requires own { IsTokenOf chain.now ticket }
    ensures { IsOf chain.now me.new }
{
    if chain.leave(me, ticket).is_some() {
        board.told.fetch_sub(1, SeqCst);
    }
}

// What the call was settled with, unless the caller leaves before.
fn wait(chain: &KeyedChain, me: &mut ChainFront, board: &Board, ticket: Ticket) -> Option<u64>
    requires of { IsOf chain.now me.old }
    requires own { IsTokenOf chain.now ticket }
    ensures { IsOf chain.now me.new }
{
    let mut ticket = ticket;
    for _ in 0..LOOKS {
        let (value, back) = chain.look(me, ticket);
        ticket = back;
        if value.is_some() {
            leave(chain, me, board, ticket);
            return value;
        }
    }
    leave(chain, me, board, ticket);
    None
}

// Asks for the key. Returns the value and its stamp, if it has one.
fn ask(
    chain: &KeyedChain,
    me: &mut ChainFront,
    board: &Board,
    key: usize,
) -> Option<(u64, Option<Stamp>)>
    requires { IsOf chain.now me.old }
    ensures { IsOf chain.now me.new }
{
    match chain.ask(me, name(key), TRIES) {
        Reply::Led(flight, stamp) => {
            let (value, forgotten) = load(chain, me, board, flight);
            Some((value, if forgotten { None } else { Some(stamp) }))
        }
        Reply::Joined(ticket) => match wait(chain, me, board, ticket) {
            Some(value) => Some((value, None)),
            None => None,
        },
        Reply::Refused(_) => None,
    }
}

// Writes, and forgets the key.
fn write(chain: &KeyedChain, me: &mut ChainFront, board: &Board, key: usize)
    requires { IsOf chain.now me.old }
    ensures { IsOf chain.now me.new }
{
    let value = board.written.fetch_add(1, SeqCst).wrapping_add(1);
    if chain.forget(me, name(key), TRIES) != Forgotten::Busy {
        board.forgotten.fetch_max(value, SeqCst);
    }
}

impl Player<'_> {
    // Asks for the key, and keeps what has a stamp. Whether the answer is no older than a Forget that had returned.
    fn asks(&mut self, board: &Board, key: usize) -> bool {
        let least = board.forgotten.load(SeqCst);
        match ask(self.chain, &mut self.me, board, key) {
            None => true,
            Some((value, stamp)) => {
                if let (Some(stamp), Some(place)) = (stamp, self.kept.get_mut(key)) {
                    *place = Some(Kept { value, stamp });
                }
                value >= least
            }
        }
    }

    // Whether a value that is kept and current is no older than a Forget that had returned.
    fn hits(&mut self, board: &Board, key: usize) -> bool {
        let least = board.forgotten.load(SeqCst);
        match self.kept.get(key) {
            Some(Some(kept)) => {
                !self.chain.is_still(&mut self.me, kept.stamp) || kept.value >= least
            }
            _ => true,
        }
    }

    // One play, drawn by this number. Whether all was right.
    fn play(&mut self, alloc: Global, drawn: u64) -> bool {
        let key = (drawn % 4) as usize;
        let Some(board) = self.boards.get(key) else {
            return false;
        };
        match drawn / 4 % 16 {
            0 => {
                write(self.chain, &mut self.me, board, key);
                true
            }
            1 => {
                if self.me.tables() < TABLES {
                    let _ = self.chain.grow(alloc, &mut self.me);
                }
                true
            }
            2..=5 => self.hits(board, key),
            _ => {
                self.chain.claim(&mut self.me, drawn / 64);
                self.asks(board, key)
            }
        }
    }
}

// A number that looks random, by a linear congruence.
fn next_state(state: u64) -> u64 {
    state
        .wrapping_mul(6_364_136_223_846_793_005)
        .wrapping_add(1_442_695_040_888_963_407)
}

// A play at this chain or at one of the three behind it, as the number says. Whether all was right.
fn play_near(alloc: Global, players: &mut Vec<Player<'_>>, at: usize, drawn: u64) -> bool {
    let near = at.wrapping_add((drawn / 0x1000_0000 % 4) as usize);
    match players.get_mut(near) {
        Some(player) => player.play(alloc, drawn),
        None => true,
    }
}

// A thread's plays: at each chain so many, and at the four next ones too, so that threads which are somewhat ahead meet. Returns how many were
// wrong.
fn plays(alloc: Global, players: Vec<Player>, seed: u64) -> u64 {
    let mut players = players;
    let mut wrong: u64 = 0;
    let mut state = seed;
    for at in 0..players.len() {
        for _ in 0..PLAYS {
            state = next_state(state);
            if !play_near(alloc, &mut players, at, state / 0x1_0000_0000) {
                wrong = wrong.wrapping_add(1);
            }
        }
    }
    wrong
}

// A caller of each chain, by this number.
fn players<'a>(
    alloc: Global,
    chains: &'a [KeyedChain],
    boards: &'a [Board],
    number: u64,
) -> Result<Vec<Player<'a>>, AllocError> {
    let mut players = Vec::with_capacity(alloc, chains.len())?;
    for (chain, boards) in chains.iter().zip(boards.chunks(KEYS)) {
        players.push(Player {
            chain,
            boards,
            me: chain.caller(alloc, number)?,
            kept: Vec::from_elem(alloc, None, KEYS)?,
        })?;
    }
    Ok(players)
}

// A thread's round.
fn round(alloc: Global, chains: &[KeyedChain], boards: &[Board], seed: u64) -> u64 {
    match players(alloc, chains, boards, seed) {
        Ok(players) => plays(alloc, players, seed),
        Err(_) => u64::MAX,
    }
}

// Chains of two cells, of which no two have the same seeds.
fn new_chains(alloc: Global, number: u64) -> Result<Vec<KeyedChain>, AllocError> {
    let mut chains = Vec::with_capacity(alloc, CHAINS)?;
    for at in 0..CHAINS {
        chains.push(KeyedChain::new(alloc, 2, at as u64, number)?)?;
    }
    Ok(chains)
}

// The boards of all their keys.
fn new_boards(alloc: Global) -> Result<Vec<Board>, AllocError> {
    let mut boards = Vec::with_capacity(alloc, CHAINS * KEYS)?;
    for _ in 0..CHAINS * KEYS {
        boards.push(Board {
            written: AtomicU64::new(0),
            forgotten: AtomicU64::new(0),
            told: AtomicU64::new(0),
        })?;
    }
    Ok(boards)
}

// Whether of each call whose value was told the last holder has left.
fn have_left(boards: &[Board]) -> bool {
    for board in boards {
        if board.told.load(SeqCst) != 0 {
            return false;
        }
    }
    true
}

#[test]
fn chains_that_grow_give_no_old_answer(rt: HostRuntime) -> Result<(), Fail> {
    for number in 0..ROUNDS {
        let (chains, boards) = (new_chains(rt.alloc(), number)?, new_boards(rt.alloc())?);
        let seeds = vec![in rt.alloc(); 1, 2, 3, THREADS]?;
        let (alloc, chains, boards) = (rt.alloc(), chains.as_slice(), boards.as_slice());
        let first = number.wrapping_mul(THREADS);
        let wrong = map_vec(
            &rt,
            seeds,
            &|seed: u64| { round(alloc, chains, boards, seed.wrapping_add(first)) },
        )?;
        for count in wrong {
            assert!(rt; count == 0);
        }
        assert!(rt; have_left(boards));
    }
    Ok(())
}
