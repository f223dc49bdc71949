// Step 5: the prices of unmarked regions join the windows, and the oldest leave.
ghost use Rattle.std.specs.Prelude.{◌≡◌, Bool, ℕ, ◌≤◌, ◌<◌, eqb, nat_abs, ◌+ℤ◌, ◌-ℤ◌, length, get_or};
ghost use Rattle.laws.specs.Base.{pick};
ghost use Rattle.counting.specs.Windows.{sums_after, ring_after, grown, following};
ghost use Rattle.counting.specs.Working.{offered, oldest, ring_by, sums_by, counts_by, nexts_by, RegionOk, Takes};

use book::record::Book;

// The windows of a region's markets: how many prices each has counted, up to `window`, and the place that is written next.
#[derive(Clone, Copy)]
struct Windows {
    region: usize,
    markets: usize,
    window: usize,
    count: usize,
    next: usize,
}

impl Windows {
    // The oldest price, which leaves once W are counted.
    fn oldest(self, was: i32) -> i32
        ensures { result ≡ oldest self was }
    {
        if self.count < self.window { 0 } else { was }
    }

    // The prices of the region into its windows and sums.
    fn take(self, prices: &[i32], sums: &mut [i64; 88], ring: &mut [i32])
        requires { RegionOk self (length prices.now) (length ring.old) sums.old }
        ensures ring_after { ring.new ≡ ring_by self prices.now ring.old }
        ensures sums_after { sums.new ≡ sums_by self prices.now ring.old sums.old }
    {
        for m in 0..self.markets {
            let q = self.region * self.markets + m;
            let at = q * self.window + self.next;
            let k = 11 * self.region + m;
            let price = prices[q];
            let old = self.oldest(ring[at]);
            ring[at] = price;
            let sum = moved(sums[k], price, old);
            sums[k] = sum;
        }
    }
}

// A sum with the price that joins and without the one that leaves.
fn moved(sum: i64, price: i32, old: i32) -> i64
    requires { nat_abs sum ≤ 20160000000 }
    ensures { result ≡ sum +ℤ (price -ℤ old) }
{
    sum + (price as i64 - old as i64)
}

// The prices of every unmarked region into the ring; answers the sums after it.
pub fn take(book: Book, ring: &mut [i32], prices: &[i32], marked: &[u8]) -> [i64; 88]
    requires { Takes book (length ring.old) (length prices.now) (length marked.now) }
    ensures value { result ≡ sums_after book ring.old (offered prices.now marked.now) }
    ensures ring_after { ring.new ≡ ring_after book ring.old (offered prices.now marked.now) }
{
    let mut sums = book.sums;
    let regions = book.regions as usize;
    let markets = book.services as usize + 1;
    let window = book.window as usize;
    for r in 0..regions {
        if marked[r] == 0 {
            let windows = Windows {
                region: r,
                markets,
                window,
                count: book.counts[r] as usize,
                next: book.nexts[r] as usize,
            };
            windows.take(prices, &mut sums, ring);
        }
    }
    sums
}

// A number of each region after a step, which is told whether the region's prices join.
fn stepped<F: Fn(bool, u16) -> u16>(
    regions: usize,
    marked: &[u8],
    numbers: [u16; 8],
    step: F,
) -> [u16; 8]
    requires regions_bound { (regions ≤ 8) × (length marked.now ≡ regions) }
    requires callable { (r : ℕ) → r < regions → F.pre step (eqb (get_or marked.now r 0) 0) (get_or numbers r 0) }
    ensures moved { (r : ℕ) → r < regions → F.post step (eqb (get_or marked.now r 0) 0) (get_or numbers r 0) (get_or result r 0) }
    ensures stays { (r : ℕ) → regions ≤ r → get_or result r 0 ≡ get_or numbers r 0 }
{
    let mut after = numbers;
    for r in 0..regions {
        after[r] = step(marked[r] == 0, numbers[r]);
    }
    after
}

// The count of prices of a region, with one more where it is below W.
fn grown(joins: bool, window: u16, count: u16) -> u16
    ensures { result ≡ pick joins (grown window count) count }
{
    if joins & (count < window) {
        count + 1
    } else {
        count
    }
}

pub fn counts_after(regions: usize, window: u16, marked: &[u8], counts: [u16; 8]) -> [u16; 8]
    requires { (regions ≤ 8) × (length marked.now ≡ regions) }
    ensures { result ≡ counts_by regions window marked.now counts }
{
    stepped(
        regions,
        marked,
        counts,
        |joins, count| grown(joins, window, count),
    )
}

// The next place of a region: one on, and from the window's last to its first.
fn following(joins: bool, window: u16, next: u16) -> u16
    requires { next < window }
    ensures { result ≡ pick joins (following window next) next }
{
    if !joins {
        return next;
    }
    if next + 1 == window { 0 } else { next + 1 }
}

pub fn nexts_after(regions: usize, window: u16, marked: &[u8], nexts: [u16; 8]) -> [u16; 8]
    requires regions_bound { (regions ≤ 8) × (length marked.now ≡ regions) }
    requires by_index { (r : ℕ) → r < regions → get_or nexts r 0 < window }
    ensures { result ≡ nexts_by regions window marked.now nexts }
{
    stepped(
        regions,
        marked,
        nexts,
        |joins, next| following(joins, window, next),
    )
}
