// A limit on its way: from its source, over one link, and to the cent.
ghost use Rattle.std.specs.Prelude.{◌≡◌, ◌≤◌, nat_abs};
ghost use Rattle.pricing.specs.Carrying.{carried, Factor};
ghost use Rattle.pricing.specs.Passing.{fine, cents};

use crate::rounding::rounded;

// A cap limit against the power, or a floor limit with it, over the link with this factor. The range is that of a floor
// limit that has travelled six links, in ten-thousandths of a cent: 10,000,000 × 2^6 × 10,000.
pub fn carried(caps: bool, factor: u32, limit: i64) -> i64
    requires factor { Factor factor }
    requires limit_bound { nat_abs limit ≤ 6400000000000 }
    ensures { result ≡ carried caps factor limit }
{
    if caps {
        rounded(limit * 10000, factor as i64)
    } else {
        rounded(limit * factor as i64, 10000)
    }
}

// A source's limit in ten-thousandths of a cent, in which it travels.
pub fn fine(limit: i32) -> i64
    ensures { result ≡ fine limit }
{
    limit as i64 * 10000
}

// The last step: so many ten-thousandths to the cent. The range is that of a floor limit that has travelled seven links.
pub fn cents(limit: i64) -> i64
    requires { nat_abs limit ≤ 12800000000000 }
    ensures { result ≡ cents limit }
{
    rounded(limit, 10000)
}
