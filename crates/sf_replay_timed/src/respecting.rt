//! Whether an order of events respects their times.

ghost use Rattle.std.specs.Prelude.{◌≡◌, true, IfSome};
ghost use Rattle.sf_replay_timed.specs.InTime.{RespectsTime};

use sf_replay::Interval;

// The time, and for one that is not known any time.
fn known_or_any(time: Option<Interval>) -> Interval
    ensures { IfSome time (λ known. known ≡ result) }
{
    match time {
        Some(time) => time,
        None => Interval {
            from: 0,
            to: u64::MAX,
        },
    }
}

/// Whether each time ended no sooner than any of those before it began. It takes one walk.
pub(crate) fn respects_time(times: &[Option<Interval>]) -> bool
    ensures { result ≡ true → RespectsTime times.now }
{
    let mut latest = 0;
    for time in times {
        let time = known_or_any(*time);
        if time.to < latest {
            return false;
        }
        latest = latest.max(time.from);
    }
    true
}
