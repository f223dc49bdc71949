// Reading an interval from its records, its regions in number order.
ghost use Rattle.std.specs.Prelude.{◌≡◌, true, ◌++◌, ◌+◌, ◌*◌, ◌≤◌, ◌<◌, length, set, drop};
ghost use Rattle.std.proofs.lemmas.List.Edits.{sets};
ghost use Rattle.std.specs.Int.{w32};
ghost use Rattle.std.proofs.Common.{to_z};
ghost use Rattle.laws.specs.Base.{pick};
ghost use Rattle.laws.specs.Lists.{tabulate};
ghost use Rattle.laws.specs.Bytes.{number_at, price_at};
ghost use Rattle.interval_records.specs.Layout.{region_length, link_length, interval_of};
ghost use Rattle.intervals.specs.Reading.{price_from, mark_from, flow_from, factor_from, link_flow, link_factor, outcome, read_interval};

use crate::lent::lent_verdict;
use book::record::{Book, Reply, has_link};
use codec::{get_u8, get_u32, get_word, get_words};
use interval_records::in_order::ordered_verdict;
use interval_records::layout::interval_length;

// The place after an interval that was read, with its number and day kind.
#[derive(Clone, Copy)]
pub struct Found {
    pub next: usize,
    pub number: u32,
    pub kind: u8,
}

// The numbers of a region's record at a place.
fn read_region(
    bytes: &[u8],
    at: usize,
    region: usize,
    markets: usize,
    prices: &mut [i32],
    marked: &mut [u8],
    flows: &mut [i32],
    factors: &mut [u32],
)
    requires markets_in_bounds { (at + region_length markets ≤ length bytes.now) × (region * markets + markets ≤ length prices.old) }
    requires region_in_bounds { (region < length marked.old) × (region < length flows.old) × (region < length factors.old) }
    ensures prices_after { let bytes = bytes.entry.now in
        prices.new ≡ sets prices.old (region * markets) (tabulate markets (price_at bytes (at + 16))) }
    ensures marked_after { marked.new ≡ set marked.old region (number_at bytes.now (at + 7) 1) }
    ensures flows_after { flows.new ≡ set flows.old region (to_z w32 (number_at bytes.now (at + 8) 4)) }
    ensures factors_after { factors.new ≡ set factors.old region (number_at bytes.now (at + 12) 4) }
{
    marked[region] = get_u8(bytes, at + 7);
    flows[region] = get_word(bytes, at + 8);
    factors[region] = get_u32(bytes, at + 12);
    get_words(bytes, at + 16, markets, prices, region * markets);
}

// The numbers of every region, record r being region r's, of the interval whose records begin at `first`.
fn read_regions(
    regions: usize,
    markets: usize,
    bytes: &[u8],
    first: usize,
    prices: &mut [i32],
    marked: &mut [u8],
    flows: &mut [i32],
    factors: &mut [u32],
)
    requires markets_bound { (markets ≤ 256) × (first + regions * region_length markets ≤ length bytes.now) }
    requires prices_len { (length prices.old ≡ regions * markets) × (regions ≤ length marked.old) }
    requires regions_in_bounds { (regions ≤ length flows.old) × (regions ≤ length factors.old) }
    ensures prices_after { prices.new ≡ tabulate (regions * markets) (price_from markets bytes.now first (λ r. r)) }
    ensures marked_after { let said = tabulate regions (mark_from markets bytes.now first (λ r. r)) in
        marked.new ≡ said ++ drop regions marked.old }
    ensures flows_after { let said = tabulate regions (flow_from markets bytes.now first (λ r. r)) in
        flows.new ≡ said ++ drop regions flows.old }
    ensures factors_after { let said = tabulate regions (factor_from markets bytes.now first (λ r. r)) in
        factors.new ≡ said ++ drop regions factors.old }
{
    let size = 16 + 4 * markets;
    for r in 0..regions {
        read_region(
            bytes,
            first + r * size,
            r,
            markets,
            prices,
            marked,
            flows,
            factors,
        );
    }
}

// The flow and factor of the additional link, from its record behind those of the regions, as the last place of both.
fn read_link(
    linked: bool,
    regions: usize,
    markets: usize,
    bytes: &[u8],
    first: usize,
    flows: &mut [i32],
    factors: &mut [u32],
)
    requires link_length_in_bounds { linked ≡ true → first + regions * region_length markets + link_length ≤ length bytes.now }
    requires regions_in_bounds { linked ≡ true → (regions < length flows.old) × (regions < length factors.old) }
    requires markets_bound { markets ≤ 256 }
    ensures flows_after { let flow = link_flow regions markets bytes.now first in
        flows.new ≡ pick linked (set flows.old regions flow) flows.old }
    ensures factors_after { let factor = link_factor regions markets bytes.now first in
        factors.new ≡ pick linked (set factors.old regions factor) factors.old }
{
    if linked {
        let at = first + regions * (16 + 4 * markets);
        flows[regions] = get_word(bytes, at + 6);
        factors[regions] = get_u32(bytes, at + 10);
    }
}

// Reads the interval at a place into the four slices and hands the book back; a refused read fills nothing.
pub fn read_interval(
    book: Book,
    bytes: &[u8],
    at: usize,
    prices: &mut [i32],
    marked: &mut [u8],
    flows: &mut [i32],
    factors: &mut [u32],
) -> Reply<Found>
    ensures { let lent = interval_of 0 0 prices.old marked.old flows.old factors.old in
        outcome result prices.new marked.new flows.new factors.new
        ≡ read_interval book bytes.now at lent }
{
    let lent = lent_verdict(book, prices.len(), marked.len(), flows.len(), factors.len());
    if let Err(refusal) = lent {
        return Reply {
            book,
            answer: Err(refusal),
        };
    }
    let linked = has_link(book);
    let answer = ordered_verdict(linked, book.regions, book.services, bytes, at);
    if let Err(refusal) = answer {
        return Reply {
            book,
            answer: Err(refusal),
        };
    }
    let regions = book.regions as usize;
    let markets = book.services as usize + 1;
    read_regions(
        regions,
        markets,
        bytes,
        at + 12,
        prices,
        marked,
        flows,
        factors,
    );
    read_link(linked, regions, markets, bytes, at + 12, flows, factors);
    let found = Found {
        next: at + interval_length(linked, book.regions, book.services),
        number: get_u32(bytes, at + 6),
        kind: get_u8(bytes, at + 10),
    };
    Reply {
        book,
        answer: Ok(found),
    }
}
