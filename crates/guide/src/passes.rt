// The nine cases of request 2026-03: schedules from one pass over the four weeks, where kinds change, at the first and the last price,
// and with prices out of range in one place, in two and in all.
ghost use Rattle.std.specs.Prelude.{◌<◌};

use crate::schedules::show;
use schedule::schedule;

// Weekdays but for one day.
fn but_for(day: usize) -> [u8; 28] {
    let mut kinds = [0u8; 28];
    if day < 28 {
        kinds[day] = 1;
    }
    kinds
}

// Energy, one half-hour a day.
fn energy(prices: &[i32; 168], weekend: usize) {
    let kinds = but_for(weekend);
    show(schedule(1, 60000, -60000, true, prices, &kinds), 2);
}

// 1,000 × (kind + 1) + 100 × half-hour + interval + day cents, two half-hours a day, weekday and weekend by turns.
fn four_weeks() -> [i32; 336] {
    let mut prices = [0i32; 336];
    for k in 0..336 {
        let day = k / 12;
        prices[k] = (1000 * (day % 2 + 1) + 100 * (k % 12 / 6) + k % 6 + day) as i32;
    }
    prices
}

// 1. Means of 1,015.5 and 1,115.5 cents, and of 2,016.5 and 2,116.5. The totals and counts after three days are in crates/schedule.
fn by_turns() {
    let mut kinds = [0u8; 28];
    for day in 0..14 {
        kinds[2 * day + 1] = 1;
    }
    show(schedule(2, 60000, -60000, true, &four_weeks(), &kinds), 3);
}

// The six prices of a day, one half-hour long.
fn put_day(prices: &mut [i32; 168], day: usize, even: i32, odd: i32)
    requires { day < 28 }
{
    prices[6 * day..6 * day + 6].copy_from_slice(&[even, odd, even, odd, even, odd]);
}

// 2. The last day alone is a weekend: 15 / 162 of a cent, and 2.5. 3. The first day alone is: 0, and −2.5.
fn one_weekend_day() {
    let mut prices = [0i32; 168];
    put_day(&mut prices, 0, 2, 3);
    put_day(&mut prices, 27, 2, 3);
    energy(&prices, 27);
    let mut below = [0i32; 168];
    put_day(&mut below, 0, -2, -3);
    energy(&below, 0);
}

// 4. Two bad prices, the later first, and the last price alone. 5. Every price is bad, and none larger in size.
fn bad_energy() {
    let mut two = [0i32; 168];
    two[7] = 10000001;
    two[3] = -10000001;
    energy(&two, 27);
    let mut last = [0i32; 168];
    last[167] = 10000001;
    energy(&last, 27);
    energy(&[-2147483648; 168], 27);
}

// 6. A service below zero, and energy. 7. Nothing but the highest price.
fn ends_of_the_range() {
    let mut below = [0i32; 168];
    below[100] = -1;
    show(schedule(1, 60000, -60000, false, &below, &but_for(27)), 2);
    energy(&below, 27);
    let highest = [10000000i32; 168];
    show(schedule(1, 10000000, -1, true, &highest, &but_for(27)), 2);
}

// 8. A bad price behind 32, 19 and 31.
fn behind_others() {
    let bad = [10000001i32; 168];
    energy(&bad, 28);
    show(schedule(1, 0, -1, true, &bad, &but_for(27)), 2);
    let long = [10000001i32; 8232];
    show(schedule(49, 60000, -60000, true, &long, &but_for(27)), 2);
}

// 9. The first of two bad prices, whichever of them is a weekday's.
fn either_kind() {
    let mut two = [0i32; 168];
    two[4] = 10000001;
    two[8] = 10000001;
    energy(&two, 1);
    energy(&two, 0);
}

pub fn all() {
    io::write_all(1, b"schedules in one pass\n");
    by_turns();
    one_weekend_day();
    bad_energy();
    ends_of_the_range();
    behind_others();
    either_kind();
}
