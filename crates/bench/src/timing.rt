// How long a report takes.
use anyhow::anyhow;
use std::time::Instant;

// The pattern stands at so many places, which are asked in turn, so that no two runs on end are the same call.
pub const PLACES: usize = 2;

const ROUNDS: usize = 40;

// The nanoseconds that one run takes, in the best of some rounds. A round takes at least so many nanoseconds: one that is shorter does
// not count, and the next has twice as many runs. A run is a report on the line by the pattern at a place, and answers a number from it
// (0 where it is refused), so that no run can be left out.
pub(crate) fn time<F: FnMut(usize) -> usize>(
    rt: &HostRuntime,
    least: u128,
    mut report: F,
) -> anyhow::Result<u128>
    requires { F.IsAlwaysCallable report }
{
    let answer = report(0);
    let mut runs = 1usize;
    let mut best = u128::MAX;
    for _ in 0..ROUNDS {
        let mut sum = 0usize;
        let start = Instant::now(rt)?;
        for run in 0..runs {
            sum = sum.wrapping_add(report(run % PLACES));
        }
        let taken = start.elapsed(rt)?.as_nanos();
        if sum != answer.wrapping_mul(runs) {
            return Err(anyhow!("the answers differ"));
        }
        if taken < least {
            runs = runs.saturating_mul(2);
        } else {
            best = best.min(taken / runs.max(1) as u128);
        }
    }
    Ok(best)
}
