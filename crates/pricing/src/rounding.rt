// Rounding of a quotient to the nearest whole number.
ghost use Rattle.std.specs.Prelude.{◌≡◌, ◌≤◌, ◌-◌, ◌^◌, pos, nat_abs, ◌≤ℤ◌};
ghost use Rattle.pricing.specs.Rounding.{nearest, rounded};

// n / d, half up. The ranges leave room for 2 × n + d.
pub(crate) fn nearest(n: u64, d: u64) -> u64
    requires { (n ≤ 2 ^ 62) × ((1 ≤ d) × (d ≤ 2 ^ 62)) }
    ensures { result ≡ nearest n d }
{
    (2 * n + d) / (2 * d)
}

// n / d, half away from zero. The ranges leave room for 2 × n ± d.
pub fn rounded(n: i64, d: i64) -> i64
    requires { (nat_abs n ≤ 2 ^ 62 - 2 ^ 31) × ((pos 1 ≤ℤ d) × (nat_abs d ≤ 2 ^ 31)) }
    ensures { result ≡ rounded n (nat_abs d) }
{
    if n < 0 {
        (2 * n - d) / (2 * d)
    } else {
        (2 * n + d) / (2 * d)
    }
}
