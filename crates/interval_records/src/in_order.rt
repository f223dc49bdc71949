// An interval's records: their refusals, in whatever order its regions are to be, and in number order.
ghost use Rattle.std.specs.Prelude.{◌≡◌, not, ℕ, ◌+◌, eqb};
ghost use Rattle.laws.specs.Base.{pick};
ghost use Rattle.pricing.specs.Verdict.{Verdict, accepted, refused};
ghost use Rattle.book.specs.Record.{markets_of, verdict};
ghost use Rattle.interval_records.specs.InOrder.{ordered_verdict};
ghost use Rattle.interval_records.specs.Working.{Stands, Says, records_verdict};

use crate::layout::region_length;
use crate::record::{due_verdict, head_verdict, link_verdict};
use book::record::Refusal;
use codec::get_u8;

// 40 and 41 of an interval's records and what `test` says of each region's number and region, the additional link's behind them.
pub fn records_verdict<F: Fn(usize, u8) -> Result<(), Refusal>>(
    linked: bool,
    regions: u8,
    services: u8,
    bytes: &[u8],
    at: usize,
    test: F,
) -> Result<(), Refusal>
    requires { (k region : ℕ) → Stands (markets_of services) bytes.now (at + 12) regions k region → F.pre test k region }
    ensures { (own : ℕ → Verdict) → Says (F.post test) (markets_of services) bytes.now (at + 12) regions own
        → verdict result ≡ records_verdict own linked regions (markets_of services) bytes.now at }
{
    head_verdict(regions, services, bytes, at)?;
    let size = region_length(services);
    for k in 0..regions as usize {
        let place = at + 12 + k * size;
        due_verdict(17, services, bytes, place)?;
        test(k, get_u8(bytes, place + 6))?;
    }
    link_verdict(linked, services, bytes, at + 12 + regions as usize * size)
}

// 45 of region record `k`, which names a region.
fn next_verdict(k: usize, region: u8) -> Result<(), Refusal>
    ensures { verdict result ≡ pick (not (eqb region k)) (refused 45) accepted }
{
    if region as usize != k {
        return Err(Refusal::RecordOrder);
    }
    Ok(())
}

// 40, 41 and 45 of an interval's records, its regions in number order, the additional link's behind them.
pub fn ordered_verdict(
    linked: bool,
    regions: u8,
    services: u8,
    bytes: &[u8],
    at: usize,
) -> Result<(), Refusal>
    ensures { verdict result ≡ ordered_verdict linked regions (markets_of services) bytes.now at }
{
    records_verdict(linked, regions, services, bytes, at, next_verdict)
}
