//! In which order keys are got.
use crate::fault::Fault;
use std::alloc::Global;

/// How many turns keys have, until they begin again.
pub(crate) const TURNS: usize = 65_536;

// How many keys there are by zipf.
const PAGES: usize = 1_000;

// How often the first key would have its turn, before the others' share is known.
const FIRST: usize = 1_000_000;

// From one turn of a key to its next, modulo the turns: odd, so that each turn is given once, in scattered order.
const STRIDE: usize = 40_503;

/// Keys, and whose turn it is when.
#[derive(Drop)]
pub(crate) struct Order {
    names: Vec<[u8; 14]>,
    turns: Vec<u16>,
    /// How many turns there are until each key has had two.
    to_warm: u32,
}

// The name of the page of this number, 0 to 999.
fn name_of(number: usize) -> [u8; 14] {
    let mut name = *b"/page-000.html";
    name[6] = b'0' + (number / 100 % 10) as u8;
    name[7] = b'0' + (number / 10 % 10) as u8;
    name[8] = b'0' + (number % 10) as u8;
    name
}

impl Order {
    // So many keys, of which the first has all turns.
    fn of_pages(alloc: Global, pages: usize) -> Result<Order, Fault> {
        let mut names = Vec::with_capacity(alloc, pages)?;
        for number in 0..pages {
            if names.push(name_of(number)).is_err() {
                return Err(Fault::Memory);
            }
        }
        let mut turns = Vec::with_capacity(alloc, TURNS)?;
        for _ in 0..TURNS {
            if turns.push(0).is_err() {
                return Err(Fault::Memory);
            }
        }
        Ok(Order {
            names,
            turns,
            to_warm: 2,
        })
    }

    // One key.
    pub(crate) fn of_one(alloc: Global) -> Result<Order, Fault> {
        Order::of_pages(alloc, 1)
    }

    // 1,000 keys by zipf, exponent 1: the second has half of the first one's turns, the third a third, and so on.
    pub(crate) fn by_zipf(alloc: Global) -> Result<Order, Fault> {
        let mut order = Order::of_pages(alloc, PAGES)?;
        order.to_warm = 2 * TURNS as u32;
        let mut all = 0usize;
        for page in 0..PAGES {
            all = all.saturating_add(FIRST / (page + 1));
        }
        let mut turn = 0usize;
        for page in 0..PAGES {
            let share = (FIRST / (page + 1) * TURNS).checked_div(all).unwrap_or(0);
            for _ in 0..share {
                if let Some(slot) = order.turns.get_mut(turn) {
                    *slot = page as u16;
                }
                turn = turn.wrapping_add(STRIDE) % TURNS;
            }
        }
        Ok(order)
    }

    // How many turns there are until each key has had two: one that loads it, and one whose letter can be near then.
    pub(crate) fn to_warm(&self) -> u32 {
        self.to_warm
    }

    // The key whose turn it is.
    pub(crate) fn key(&self, turn: usize) -> &[u8] {
        let page = self.turns.get(turn % TURNS).copied().unwrap_or(0);
        match self.names.get(page as usize) {
            Some(name) => name,
            None => b"",
        }
    }
}
