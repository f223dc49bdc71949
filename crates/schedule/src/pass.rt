// The one pass over the four weeks: a running total and count for each half-hour and kind, and the first price out of range.
ghost use Rattle.std.specs.Prelude.{◌≡◌, ◌+◌, ◌*◌, ◌≤◌, ◌<◌, nat_abs, length, get_or};
ghost use Rattle.laws.specs.Lists.{total, places_of};
ghost use Rattle.pricing.specs.Holding.{is_energy};
ghost use Rattle.schedule.specs.Running.{totals_of, counts_of};
ghost use Rattle.schedule.specs.Working.{Days, Room, Small, Countable, all_in_range, first_out, found_in, bad_with, counted_on};

use pricing::holding::in_range;

// The six prices of a half-hour, from a place on: each is read here, and nowhere else.
fn half_hour(prices: &[i32], from: usize) -> [i32; 6]
    requires { from + 6 ≤ length prices.now }
    ensures { result ≡ places_of prices.now from 6 }
{
    [
        prices[from],
        prices[from + 1],
        prices[from + 2],
        prices[from + 3],
        prices[from + 4],
        prices[from + 5],
    ]
}

fn sum_of(six: [i32; 6]) -> i64
    ensures { (result ≡ total six) × (nat_abs result ≤ 12884901888) }
{
    let mut sum: i64 = 0;
    for j in 0..6 {
        sum += six[j] as i64;
    }
    sum
}

// The sum of six prices in range, which 32 bits hold.
// Kept: one function for this and `sum_of` wants a trait with laws of their sums, which is longer than this loop.
fn small_sum(six: [i32; 6]) -> i32
    requires { Small six }
    ensures { result ≡ total six }
{
    let mut sum: i32 = 0;
    for j in 0..6 {
        sum += six[j];
    }
    sum
}

// Whether the six are in range, with the market settled first: prices are tested against constants, four at once.
fn all_in_range(market: usize, six: [i32; 6]) -> bool
    ensures { result ≡ all_in_range (is_energy market) six }
{
    if market == 0 {
        six.iter().all(|price| in_range(0, *price))
    } else {
        six.iter().all(|price| in_range(1, *price))
    }
}

// The place of the first of the six that is out of range, where they begin at `from`.
fn first_bad(market: usize, six: [i32; 6], from: usize) -> Option<usize>
    requires { from + 6 ≤ 8064 }
    ensures { result ≡ first_out (is_energy market) six from }
{
    for k in 0..6 {
        if !in_range(market, six[k]) {
            return Some(from + k);
        }
    }
    None
}

// What a half-hour brings: the sum of its prices, and the first bad price up to its end.
#[derive(Clone, Copy)]
struct Half {
    sum: i64,
    bad: Option<usize>,
}

// The half-hour from a place on, with the first bad price before it. Sums of 64 bits are for the rare case.
fn half_of(market: usize, six: [i32; 6], bad: Option<usize>, from: usize) -> Half
    requires { from + 6 ≤ 8064 }
    ensures sum_value { (result.sum ≡ total six) × (nat_abs result.sum ≤ 12884901888) }
    ensures bad_value { result.bad ≡ bad_with (is_energy market) six bad from }
{
    if all_in_range(market, six) {
        return Half {
            sum: small_sum(six) as i64,
            bad,
        };
    }
    Half {
        sum: sum_of(six),
        bad: bad.or(first_bad(market, six, from)),
    }
}

// Where the places of a day's kind begin.
fn row_of(kinds: &[u8], d: usize) -> usize
    requires { (d < length kinds.now) × (get_or kinds.now d 0 ≤ 1) }
    ensures { result ≡ get_or kinds.now d 0 * 48 }
{
    if kinds[d] == 0 { 0 } else { 48 }
}

// Six prices more for each half-hour of the kind whose places begin at `row`.
fn count_day(halves: usize, row: usize, counts: &mut [u32; 96])
    requires { Countable halves row counts.old }
    ensures { counts.new ≡ counted_on halves row counts.old }
{
    for h in 0..halves {
        let k = row + h;
        counts[k] = counts[k] + 6;
    }
}

// Day d of the four weeks. After it the totals and counts are those of the days so far, this one included, and so is the first bad price.
fn add_day(
    halves: usize,
    market: usize,
    prices: &[i32],
    kinds: &[u8],
    d: usize,
    found: Option<usize>,
    totals: &mut [i64; 96],
    counts: &mut [u32; 96],
) -> Option<usize>
    requires days { Days halves prices.now kinds.now × (d < 28) × Room d totals.old }
    requires found_value { found ≡ found_in (is_energy market) prices.now (d * (6 * halves)) }
    requires totals_value { totals.old ≡ totals_of halves prices.now kinds.now d }
    requires counts_value { counts.old ≡ counts_of halves prices.now kinds.now d }
    ensures value { result ≡ found_in (is_energy market) prices.now ((d + 1) * (6 * halves)) }
    ensures totals_after { totals.new ≡ totals_of halves prices.now kinds.now (d + 1) }
    ensures counts_after { counts.new ≡ counts_of halves prices.now kinds.now (d + 1) }
    ensures room { Room (d + 1) totals.new }
{
    let row = row_of(kinds, d);
    count_day(halves, row, counts);
    let first = d * (6 * halves);
    let mut bad = found;
    for h in 0..halves {
        let from = first + 6 * h;
        let six = half_hour(prices, from);
        let half = half_of(market, six, bad, from);
        bad = half.bad;
        let k = row + h;
        totals[k] = totals[k] + half.sum;
    }
    bad
}

// The four weeks, gone through once: the place of the first bad price.
pub fn add_days(
    halves: usize,
    market: usize,
    prices: &[i32],
    kinds: &[u8],
    totals: &mut [i64; 96],
    counts: &mut [u32; 96],
) -> Option<usize>
    requires days { Days halves prices.now kinds.now × Room 0 totals.old }
    requires totals_value { totals.old ≡ totals_of halves prices.now kinds.now 0 }
    requires counts_value { counts.old ≡ counts_of halves prices.now kinds.now 0 }
    ensures value { result ≡ found_in (is_energy market) prices.now (length prices.now) }
    ensures totals_after { totals.new ≡ totals_of halves prices.now kinds.now 28 }
    ensures counts_after { counts.new ≡ counts_of halves prices.now kinds.now 28 }
{
    let mut bad = None;
    for d in 0..28 {
        bad = add_day(halves, market, prices, kinds, d, bad, totals, counts);
    }
    bad
}
