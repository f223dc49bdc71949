// The suspension schedule of one market from four weeks of prices, which are gone through once.
#![tactic(auto)]

mod pass;

ghost use Rattle.std.specs.Prelude.{◌≡◌, [], ◌∷◌, length};
ghost use Rattle.pricing.specs.Holding.{is_energy};
ghost use Rattle.schedule.specs.Schedule.{sizes_ok, each_kind, has_kind, kinds_ok, answered, schedule};
ghost use Rattle.schedule.specs.Working.{Meaned, Means, held_mean, row_by, made_by};

use crate::pass::add_days;
use pricing::holding::{held, limits_ok, lowest};
use pricing::rounding::rounded;

// Why no schedule is made.
#[derive(Clone, Copy)]
pub enum Refusal {
    Sizes,
    Kinds,
    Limits,
    Price(usize),
}

// The answer: a row of 48 prices for weekdays and one for weekends and holidays, zeros where the call is refused.
#[derive(Clone, Copy)]
pub struct Answer {
    pub making: Result<(), Refusal>,
    pub weekday: [i32; 48],
    pub weekend: [i32; 48],
}

fn sizes_ok(halves: u8, prices: &[i32], kinds: &[u8]) -> bool
    ensures { result ≡ sizes_ok halves prices.now kinds.now }
{
    (1 <= halves)
        & (halves <= 48)
        & (prices.len() == 28 * (6 * halves as usize))
        & (kinds.len() == 28)
}

fn each_kind(kinds: &[u8]) -> bool
    requires { length kinds.now ≡ 28 }
    ensures { result ≡ each_kind kinds.now }
{
    kinds.iter().all(|kind| *kind <= 1)
}

fn has_kind(kinds: &[u8], kind: u8) -> bool
    requires { length kinds.now ≡ 28 }
    ensures { result ≡ has_kind kinds.now kind }
{
    kinds.contains(&kind)
}

fn kinds_ok(kinds: &[u8]) -> bool
    requires { length kinds.now ≡ 28 }
    ensures { result ≡ kinds_ok kinds.now }
{
    each_kind(kinds) & has_kind(kinds, 0) & has_kind(kinds, 1)
}

// The mean of so many prices, held within the limits.
fn held_mean(sum: i64, count: u32, low: i32, cap: i32) -> i32
    requires { Meaned sum count }
    ensures { result ≡ held_mean sum count low cap }
{
    held(rounded(sum, count as i64) as i32, low, cap)
}

// A row: the held mean of each half-hour of a kind, then zeros.
fn row(
    halves: usize,
    low: i32,
    cap: i32,
    totals: &[i64; 96],
    counts: &[u32; 96],
    kind: usize,
) -> [i32; 48]
    requires { Means halves totals.now counts.now kind }
    ensures { result ≡ row_by halves low cap totals.now counts.now kind }
{
    let mut all = [0i32; 48];
    for h in 0..halves {
        let k = kind * 48 + h;
        all[h] = held_mean(totals[k], counts[k], low, cap);
    }
    all
}

// The inner maker: the two rows, a row a kind.
fn rows(halves: usize, low: i32, cap: i32, totals: &[i64; 96], counts: &[u32; 96]) -> [[i32; 48]; 2]
    requires { Means halves totals.now counts.now 0 × Means halves totals.now counts.now 1 }
    ensures { let by = row_by halves low cap totals.now counts.now in result ≡ by 0 ∷ by 1 ∷ [] }
{
    [
        row(halves, low, cap, totals, counts, 0),
        row(halves, low, cap, totals, counts, 1),
    ]
}

// A market of the side that the maker is told: energy, or any service.
fn market_of(energy: bool) -> usize
    ensures { is_energy result ≡ energy }
{
    if energy { 0 } else { 1 }
}

// The two rows of a schedule, or the first refusal.
fn made(
    halves: u8,
    cap: i32,
    floor: i32,
    energy: bool,
    prices: &[i32],
    kinds: &[u8],
) -> Result<[[i32; 48]; 2], Refusal>
    ensures { made_by result ≡ schedule halves cap floor energy prices.now kinds.now }
{
    if !sizes_ok(halves, prices, kinds) {
        return Err(Refusal::Sizes);
    }
    if !kinds_ok(kinds) {
        return Err(Refusal::Kinds);
    }
    if !limits_ok(cap, floor) {
        return Err(Refusal::Limits);
    }
    let market = market_of(energy);
    let mut totals = [0i64; 96];
    let mut counts = [0u32; 96];
    let bad = add_days(
        halves as usize,
        market,
        prices,
        kinds,
        &mut totals,
        &mut counts,
    );
    if let Some(place) = bad {
        return Err(Refusal::Price(place));
    }
    let low = lowest(market, floor);
    Ok(rows(halves as usize, low, cap, &totals, &counts))
}

// The schedule of one market from 28 days of prices and their kinds.
pub fn schedule(
    halves: u8,
    cap: i32,
    floor: i32,
    energy: bool,
    prices: &[i32],
    kinds: &[u8],
) -> Answer
    ensures { answered result ≡ schedule halves cap floor energy prices.now kinds.now }
{
    match made(halves, cap, floor, energy, prices, kinds) {
        Ok(all) => Answer {
            making: Ok(()),
            weekday: all[0],
            weekend: all[1],
        },
        Err(refusal) => Answer {
            making: Err(refusal),
            weekday: [0; 48],
            weekend: [0; 48],
        },
    }
}
