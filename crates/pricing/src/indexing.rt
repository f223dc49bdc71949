// The indexed amount of a year, in whole dollars.
ghost use Rattle.std.specs.Prelude.{◌≡◌, Bool, ℕ, ◌≤◌};
ghost use Rattle.pricing.specs.Indexing.{between, quarters_ok, sum, index_ok, indexed, answered};

use crate::rounding::nearest;

// Refusal 30, the one that there is.
#[derive(Clone, Copy)]
pub struct OutOfRange;

// The four quarters of a year, in tenths.
#[derive(Clone, Copy)]
pub struct Quarters {
    pub q1: u32,
    pub q2: u32,
    pub q3: u32,
    pub q4: u32,
}

fn between(low: u64, high: u64, x: u64) -> bool
    ensures { result ≡ between low high x }
{
    (low <= x) & (x <= high)
}

fn quarters_ok(y: Quarters) -> bool
    ensures { result ≡ quarters_ok y }
{
    between(1, 100000, y.q1 as u64)
        & between(1, 100000, y.q2 as u64)
        & between(1, 100000, y.q3 as u64)
        & between(1, 100000, y.q4 as u64)
}

fn index_ok(amount: u64, c: Quarters, b: Quarters, last: u64) -> bool
    ensures { result ≡ index_ok amount c b last }
{
    between(1, 100000000, amount) & quarters_ok(c) & quarters_ok(b) & (last <= 10000000000000)
}

fn sum(y: Quarters) -> u64
    ensures { result ≡ sum y }
{
    y.q1 as u64 + y.q2 as u64 + y.q3 as u64 + y.q4 as u64
}

// The amount by the quarters of year c over those of year b, to the nearest 100 dollars, and never below last year's.
pub fn indexed(amount: u64, c: Quarters, b: Quarters, last: u64) -> Result<u64, OutOfRange>
    ensures { answered result ≡ indexed amount c b last }
{
    if !index_ok(amount, c, b, last) {
        return Err(OutOfRange);
    }
    let hundreds = nearest(amount * sum(c), 100 * sum(b));
    Ok(last.max(100 * hundreds))
}
