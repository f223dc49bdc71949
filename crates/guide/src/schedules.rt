// Schedules of one market from 28 days of prices: one half-hour a day and the refusals, then two, three and 48 half-hours.
ghost use Rattle.std.specs.Prelude.{◌<◌, ◌≤◌, ◌*◌};

use crate::amounts::price;
use schedule::{Answer, Refusal, schedule};

fn refused(number: u64, place: usize) {
    io::write_all(1, b"refused ");
    io::print_decimal(1, number);
    io::write_all(1, b" at ");
    io::print_decimal(1, place as u64);
}

// That the schedule is made, or the refusal.
fn show_making(making: Result<(), Refusal>) {
    match making {
        Ok(()) => {
            io::write_all(1, b"made");
        }
        Err(Refusal::Sizes) => refused(31, 0),
        Err(Refusal::Kinds) => refused(32, 0),
        Err(Refusal::Limits) => refused(19, 0),
        Err(Refusal::Price(place)) => refused(16, place),
    }
}

// The first prices of a row.
fn show_row(row: &[i32; 48], places: usize) {
    for cents in row.iter().take(places) {
        price(*cents);
    }
}

// The rows' first prices, weekdays and then weekends; beside a refusal they are zeros.
pub fn show(answer: Answer, places: usize) {
    let making = answer.making;
    let weekday = answer.weekday;
    let weekend = answer.weekend;
    show_making(making);
    show_row(&weekday, places);
    io::write_all(1, b" |");
    show_row(&weekend, places);
    io::write_all(1, b"\n");
}

// One weekday of six prices, the first three `odd` and the others `even`, before 27 days of weekends at `even`.
fn made(cap: i32, floor: i32, energy: bool, odd: i32, even: i32) {
    let mut prices = [even; 168];
    prices[..3].fill(odd);
    let mut kinds = [1u8; 28];
    kinds[0] = 0;
    show(schedule(1, cap, floor, energy, &prices, &kinds), 2);
}

// "Means of 2.5 and −2.5 cents: 3, −3", means held at the limits, and a price out of range.
fn means() {
    made(60000, -60000, true, 3, 2);
    made(60000, -60000, true, -3, -2);
    made(1000, -1000, true, 5000, -5000);
    made(1000, -1000, false, 5000, 4000);
    made(10000000, -10000000, true, 10000001, 0);
    made(10000000, -10000000, false, 0, -1);
    made(0, -1, true, 10000001, 0);
}

fn refusals() {
    let prices = [0i32; 168];
    let short = [0i32; 167];
    let weekends = [1u8; 28];
    let mut threes = [0u8; 28];
    threes[5] = 3;
    show(schedule(1, 0, 0, true, &short, &weekends), 2);
    show(schedule(0, 1, -1, true, &prices, &weekends), 2);
    show(schedule(1, 0, 0, true, &prices, &weekends), 2);
    show(schedule(1, 1, -1, true, &prices, &threes), 2);
}

// Four weeks whose days 5 and 6 are weekends.
const WEEKS: [u8; 28] = [
    0, 0, 0, 0, 0, 1, 1, 0, 0, 0, 0, 0, 1, 1, 0, 0, 0, 0, 0, 1, 1, 0, 0, 0, 0, 0, 1, 1,
];

// The price in half-hour `half` of a day: 100 + 10 × half cents on a weekday, 1,000 + 10 × half on a weekend, and one more.
// The weekends' energy is below zero.
fn price_at(weekend: bool, half: usize, more: bool, energy: bool) -> i32
    requires { half < 48 }
{
    let first = if weekend { 1000 } else { 100 };
    let cents = first + 10 * half as i32 + i32::from(more);
    if weekend & energy { -cents } else { cents }
}

// A schedule of H half-hours from N prices, with a cent more at every place of `of`; of its rows one place more than H is shown,
// where there is one.
fn four_weeks<const N: usize, const H: usize>(cap: i32, floor: i32, energy: bool, of: usize)
    requires prices { N ≤ 28 * 6 * H }
    requires halves { H ≤ 48 }
    requires parts { (0 < H) × (0 < of) }
{
    let mut prices = [0i32; N];
    for k in 0..N {
        let day = k / (6 * H);
        let half = k / 6 % H;
        prices[k] = price_at(WEEKS[day] == 1, half, k % of == 0, energy);
    }
    show(
        schedule(H as u8, cap, floor, energy, &prices, &WEEKS),
        H + 1,
    );
}

pub fn all() {
    io::write_all(1, b"schedule\n");
    means();
    refusals();
    // A cent more at every second place: the means are 100.5 and 110.5 cents, and −1,000.5 and −1,010.5. Half away from zero: 101, 111,
    // −1,001, −1,011; the third place of each row is zero.
    four_weeks::<336, 2>(60000, -60000, true, 2);
    // A service, a cent more at every third place: means of 100 1/3, 110 1/3, 120 1/3 and 1,000 1/3, 1,010 1/3, 1,020 1/3 cents, rounded
    // to whole ones; the last is held at the cap, 1,015.
    four_weeks::<504, 3>(1015, -1, false, 3);
    // A cent more at every second place: 101 + 10 × half, in the last two half-hours (561 and 571) held at the cap, 560;
    // −1,001 − 10 × half, in the last two (−1,461 and −1,471) held at the floor, −1,460.
    four_weeks::<8064, 48>(560, -1460, true, 2);
}
