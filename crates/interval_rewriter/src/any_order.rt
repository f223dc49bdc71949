// The region records of an interval in any order: their refusals, and which record is a region's.
ghost use Rattle.std.specs.Prelude.{◌≡◌, ◌+◌, ◌*◌, ◌≤◌, eqb, length};
ghost use Rattle.laws.specs.Lists.{any_below};
ghost use Rattle.book.specs.Record.{markets_of, verdict};
ghost use Rattle.interval_records.specs.Layout.{region_length};
ghost use Rattle.interval_records.specs.Record.{region_at};
ghost use Rattle.interval_rewriter.specs.AnyOrder.{records_verdict};
ghost use Rattle.interval_rewriter.specs.Working.{record_found, stray_verdict};

use book::record::Refusal;
use codec::get_u8;
use interval_records::in_order;

// Whether one of the first `k` records from `first` on is of this region.
fn given_before(markets: usize, bytes: &[u8], first: usize, k: usize, region: u8) -> bool
    requires { (markets ≤ 256) × (first + k * region_length markets ≤ length bytes.now) }
    ensures { result ≡ any_below k (λ j. eqb (region_at markets bytes.now first j) region) }
{
    let size = 16 + 4 * markets;
    for j in 0..k {
        if get_u8(bytes, first + j * size + 6) == region {
            return true;
        }
    }
    false
}

// 42 of region record `k` of those from `first` on, which names a region.
fn region_verdict(
    regions: u8,
    services: u8,
    bytes: &[u8],
    first: usize,
    k: usize,
    region: u8,
) -> Result<(), Refusal>
    requires { first + k * region_length (markets_of services) ≤ length bytes.now }
    ensures { verdict result ≡ stray_verdict regions (markets_of services) bytes.now first k region }
{
    let given = given_before(services as usize + 1, bytes, first, k, region);
    if !(region < regions) | given {
        return Err(Refusal::RecordRegion);
    }
    Ok(())
}

// 40 to 42 of an interval's records, its regions in any order, the additional link's behind them.
pub(crate) fn records_verdict(
    linked: bool,
    regions: u8,
    services: u8,
    bytes: &[u8],
    at: usize,
) -> Result<(), Refusal>
    ensures { verdict result ≡ records_verdict linked regions (markets_of services) bytes.now at }
{
    in_order::records_verdict(linked, regions, services, bytes, at, |k, region| {
        region_verdict(regions, services, bytes, at + 12, k, region)
    })
}

// Which of the records from `first` on is a region's, if one is.
pub(crate) fn record_of(
    regions: usize,
    markets: usize,
    bytes: &[u8],
    first: usize,
    region: usize,
) -> Option<usize>
    requires { (markets ≤ 256) × (first + regions * region_length markets ≤ length bytes.now) }
    ensures { result ≡ record_found regions markets bytes.now first region }
{
    let size = 16 + 4 * markets;
    for k in 0..regions {
        if get_u8(bytes, first + k * size + 6) as usize == region {
            return Some(k);
        }
    }
    None
}
