// Prices that a function reads by their number: from an image's bytes, or from a window of the ring.
ghost use Rattle.std.specs.Prelude.{◌≡◌, ◌*◌, ◌<◌, ◌≤◌, ℕ, ℤ, nat_abs};
ghost use Rattle.laws.specs.Lists.{tabulate, all_below, total};
ghost use Rattle.pricing.specs.Holding.{is_energy, in_range};
ghost use Rattle.image.specs.Working.{Reads};

use pricing::holding::in_range;

// Whether `count` prices are in their market's range. It looks at them all: a loop with no way out is the quicker one.
pub fn all_in<F: Fn(usize) -> i32>(price: F, count: usize, market: usize) -> bool
    requires { (i : ℕ) → i < count → F.pre price i }
    ensures { (p : ℕ → ℤ) → Reads (F.post price) count p → result ≡ all_below count (λ i. in_range (is_energy market) (p i)) }
{
    let mut ok = true;
    for i in 0..count {
        let price = price(i);
        ok = ok & in_range(market, price);
    }
    ok
}

// The total of `count` prices.
pub fn sum<F: Fn(usize) -> i32>(price: F, count: usize) -> i64
    requires { (count ≤ 2016) × ((i : ℕ) → i < count → F.pre price i) }
    ensures total { (p : ℕ → ℤ) → Reads (F.post price) count p → result ≡ total (tabulate count p) }
    ensures bound { nat_abs result ≤ 2147483648 * count }
{
    let mut sum: i64 = 0;
    for i in 0..count {
        let price = price(i);
        sum += price as i64;
    }
    sum
}
