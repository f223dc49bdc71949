// The prices that join the windows from a changeover on: a region whose energy isn't administered brings its published energy price.
#![tactic(auto)]

ghost use Rattle.std.specs.Prelude.{◌≡◌, ◌*◌, ◌≤◌, length, take};
ghost use Rattle.joining.specs.Working.{joined_from};

// The prices as an array.
fn copied(prices: &[i32]) -> [i32; 88]
    requires { length prices.now ≤ 88 }
    ensures { take (length prices.now) result ≡ prices.now }
{
    let mut copy = [0i32; 88];
    copy[..prices.len()].copy_from_slice(prices);
    copy
}

// The prices of an entry, with the published energy of every region whose energy isn't administered in the entry price's place.
pub fn joined_prices<'a>(
    regions: usize,
    markets: usize,
    marks: &'a [u8; 88],
    prices: &[i32],
    table: &[i32],
) -> [i32; 88]
    requires regions_bound { (regions ≤ 8) × (1 ≤ markets) × (markets ≤ 11) }
    requires prices_len { (length prices.now ≡ regions * markets) × (length table.now ≡ regions * markets) }
    ensures { take (regions * markets) result ≡ joined_from regions markets marks.now prices.now table.now }
{
    let mut joined = copied(prices);
    for r in 0..regions {
        let q = r * markets;
        if marks[11 * r] != 1 {
            joined[q] = table[q];
        }
    }
    joined
}
