// Intervals left before a period: how many more at a price make a market's sum exceed the threshold.
#![tactic(auto)]

ghost use Rattle.std.specs.Prelude.{◌≡◌, ◌+◌, ◌≤◌, ◌<◌, length};
ghost use Rattle.book.specs.Record.{verdict};
ghost use Rattle.head.specs.Counted.{window_of};
ghost use Rattle.planning.specs.Left.{least_above, left_verdict, market_left, outcome, intervals_left};
ghost use Rattle.planning.specs.Working.{leaving, WindowOk, Accepts};

use book::record::{Book, Refusal, Reply, ring_size};
use book::validity::valid;
use head::counted::oldest;
use image::storing::prices_ok;
use pricing::holding::in_range;

// The price that leaves a window of which `count` are counted, the oldest at its place `start`, when one joins it after `n` others.
fn leaving(ring: &[i32], base: usize, window: usize, start: usize, count: usize, n: usize) -> i32
    requires { (start < window) × (count ≤ window) × (window ≤ 2016) × (n < window) × (base + window ≤ length ring.now) }
    ensures { result ≡ leaving ring.now base window start count n }
{
    if count + n < window {
        return 0;
    }
    let k = start + (count + n - window);
    if k < window {
        return ring[base + k];
    }
    ring[base + (k - window)]
}

// One pass over the window, from its sum and its oldest price on. Kept: 0 where no number does is the answer that the request names.
fn least_above(
    ring: &[i32],
    base: usize,
    window: usize,
    start: usize,
    count: usize,
    sum: i64,
    price: i32,
    threshold: i64,
) -> usize
    requires { WindowOk ring.now base window start count sum }
    ensures value { result ≡ least_above window (window_of ring.now base window start count) price threshold }
    ensures upper_bound { result ≤ window }
{
    let mut now = sum;
    for n in 0..window {
        let old = leaving(ring, base, window, start, count, n);
        now = now + (price as i64 - old as i64);
        if threshold < now {
            return n + 1;
        }
    }
    0
}

// 10, 11, 21, 22 and 43 in order.
fn left_verdict(
    book: Book,
    ring: &[i32],
    region: u32,
    market: u32,
    price: i32,
) -> Result<(), Refusal>
    ensures { verdict result ≡ left_verdict book ring.now region market price }
{
    if !valid(book) {
        return Err(Refusal::Invalid);
    }
    if ring.len() != ring_size(book.regions, book.services, book.window) {
        return Err(Refusal::Length);
    }
    if !((region < book.regions as u32) & (market <= book.services as u32)) {
        return Err(Refusal::Market);
    }
    if !prices_ok(book, ring) {
        return Err(Refusal::Sums);
    }
    if !in_range(market as usize, price) {
        return Err(Refusal::PlannedPrice);
    }
    Ok(())
}

// The number of a market that the book has, once nothing is refused.
fn market_left(book: Book, ring: &[i32], region: usize, market: usize, price: i32) -> u16
    requires { Accepts book ring.now region market }
    ensures { result ≡ market_left book ring.now region market price }
{
    let window = book.window;
    let wide = window as usize;
    let count = book.counts[region];
    let next = book.nexts[region];
    let start = oldest(window, count, next) as usize;
    let q = region * (book.services as usize + 1) + market;
    let sum = book.sums[11 * region + market];
    let threshold = book.threshold;
    least_above(
        ring,
        q * wide,
        wide,
        start,
        count as usize,
        sum,
        price,
        threshold,
    ) as u16
}

// How many further unmarked intervals at a price make a market's sum exceed the threshold, 0 if no number does; the book and ring stay.
pub fn intervals_left(book: Book, ring: &[i32], region: u32, market: u32, price: i32) -> Reply<u16>
    ensures { outcome result ≡ intervals_left book ring.now region market price }
{
    let answer = left_verdict(book, ring, region, market, price);
    if let Err(refusal) = answer {
        return Reply {
            book,
            answer: Err(refusal),
        };
    }
    let n = market_left(book, ring, region as usize, market as usize, price);
    Reply {
        book,
        answer: Ok(n),
    }
}
