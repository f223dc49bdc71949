// One draw of a test load: the next seed, and the numbers that are made of what it gives.
#![tactic(auto)]

ghost use Rattle.std.specs.Prelude.{◌≡◌};
ghost use Rattle.drawing.specs.Drawing.{next_seed, energy_of, price_of, flow_of, factor_of};

pub fn next_seed(seed: u32) -> u32
    ensures { result ≡ next_seed seed }
{
    seed.wrapping_mul(1664525).wrapping_add(1013904223)
}

fn energy_of(d: u32) -> i32
    ensures { result ≡ energy_of d }
{
    if d < 64 {
        1500000
    } else {
        (d % 20000) as i32 - 2000
    }
}

// The price of a market: energy or a service.
pub fn price_of(market: usize, d: u32) -> i32
    ensures { result ≡ price_of market d }
{
    if market == 0 {
        energy_of(d)
    } else {
        (d % 3000) as i32
    }
}

pub fn flow_of(d: u32) -> i32
    ensures { result ≡ flow_of d }
{
    (d % 2001) as i32 - 1000
}

pub fn factor_of(d: u32) -> u32
    ensures { result ≡ factor_of d }
{
    10000 + d % 2000
}
