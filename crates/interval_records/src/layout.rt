// The lengths of interval records.
ghost use Rattle.std.specs.Prelude.{◌≡◌, ◌≤◌};
ghost use Rattle.laws.specs.Base.{pick};
ghost use Rattle.book.specs.Record.{markets_of};
ghost use Rattle.interval_records.specs.Layout.{region_length, link_length, interval_length};

// The length of a region's record, for any number of services.
pub fn region_length(services: u8) -> usize
    ensures { (result ≡ region_length (markets_of services)) × (result ≤ 1040) }
{
    16 + 4 * (services as usize + 1)
}

// The length of the additional link's record, or 0 where there is no such link. Kept: it is a length, which `interval_length` adds.
pub fn link_length(linked: bool) -> usize
    ensures { (result ≡ pick linked link_length 0) × (result ≤ 14) }
{
    if linked { 14 } else { 0 }
}

// The length of a whole interval, for any numbers.
pub fn interval_length(linked: bool, regions: u8, services: u8) -> usize
    ensures { (result ≡ interval_length linked regions (markets_of services)) × (result ≤ 265226) }
{
    12 + regions as usize * region_length(services) + link_length(linked)
}
