//! The least and the median of the times of some rounds.
ghost use Rattle.sf_bench.specs.Times.{IsLeast, IsMedian};

/// How many rounds are timed.
pub const ROUNDS: usize = 9;

/// The least and the median of the times of nine rounds.
#[derive(Clone, Copy)]
pub struct Times {
    /// The least.
    pub least: u64,
    /// The median.
    pub median: u64,
}

impl Times {
    /// Those of these times.
    pub fn of(times: [u64; ROUNDS]) -> Times
        ensures least { IsLeast times result.least }
        ensures median { IsMedian times result.median }
    {
        let mut sorted = times;
        sorted.sort_unstable();
        Times {
            least: sorted[0],
            median: sorted[ROUNDS / 2],
        }
    }
}
