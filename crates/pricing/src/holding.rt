// Holding a price within limits, and the ranges of prices and limits.
ghost use Rattle.std.specs.Prelude.{◌≡◌, Bool};
ghost use Rattle.laws.specs.Base.{min_z, max_z};
ghost use Rattle.pricing.specs.Holding.{held, is_energy, lowest, in_range, limits_ok};

// The smaller of a price and a limit.
pub fn at_most(x: i32, limit: i32) -> i32
    ensures { result ≡ min_z x limit }
{
    x.min(limit)
}

// The larger of a limit and a price.
pub fn at_least(limit: i32, x: i32) -> i32
    ensures { result ≡ max_z limit x }
{
    limit.max(x)
}

// A price held within two limits.
pub fn held(x: i32, low: i32, high: i32) -> i32
    ensures { result ≡ held x low high }
{
    at_least(low, at_most(x, high))
}

// The lower of the limits that apply to a market: a service has no floor but 0.
// Kept: document 01 asks for a match on the market with a range case.
pub fn lowest(market: usize, floor: i32) -> i32
    ensures { result ≡ lowest (is_energy market) floor }
{
    match market {
        0 => floor,
        1..=10 => 0,
        _ => 0,
    }
}

// Whether an entry price lies in its market's range.
pub fn in_range(market: usize, price: i32) -> bool
    ensures { result ≡ in_range (is_energy market) price }
{
    let low = lowest(market, -10000000);
    (low <= price) & (price <= 10000000)
}

// Whether a cap and a floor may be set.
pub fn limits_ok(cap: i32, floor: i32) -> bool
    ensures { result ≡ limits_ok cap floor }
{
    (1 <= cap) & (cap <= 10000000) & (-10000000 <= floor) & (floor <= -1)
}
