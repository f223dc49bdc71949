// The refusals of an entry, 10 to 17.
ghost use Rattle.std.specs.Prelude.{◌≡◌, Bool, ◌+◌, ◌*◌, ◌≤◌, length};
ghost use Rattle.book.specs.Record.{verdict};
ghost use Rattle.entries.specs.Checking.{lengths_ok, first_mark, first_price, has_factor, first_factor};
ghost use Rattle.entries.specs.Entering.{shape_of, enter_verdict};
ghost use Rattle.entries.specs.Working.{found, slices_verdict};

use crate::Entry;
use book::record::{Book, Refusal, link_count};
use book::validity::valid;

// The first mark that is not 0 or 1.
fn first_mark(marked: &[u8]) -> Option<usize>
    ensures { result ≡ found (length marked.now) (first_mark (length marked.now) marked.now) }
{
    for r in 0..marked.len() {
        if !(marked[r] <= 1) {
            return Some(r);
        }
    }
    None
}

// The first price of an unmarked region that is out of its market's range.
fn first_price(regions: usize, markets: usize, prices: &[i32], marked: &[u8]) -> Option<usize>
    requires { (length prices.now ≡ regions * markets) × (length marked.now ≡ regions) }
    ensures { result ≡ found (regions * markets) (first_price regions markets prices.now marked.now) }
{
    let mut found = None;
    'search: for region in 0..regions {
        for market in 0..markets {
            let k = region * markets + market;
            if (marked[region] == 0) & !pricing::holding::in_range(market, prices[k]) {
                found = Some(k);
                break 'search;
            }
        }
    }
    found
}

// Whether the factor at place r is looked at: of a region that has a parent, and at R the additional link's.
fn has_factor(regions: usize, parents: [u8; 8], r: usize) -> bool
    requires { (regions ≤ 8) × (r ≤ regions) }
    ensures { result ≡ has_factor regions parents r }
{
    if r == regions {
        return true;
    }
    parents[r] != 255
}

// The first factor out of range of those that are looked at.
fn first_factor(links: usize, regions: usize, parents: [u8; 8], factors: &[u32]) -> Option<usize>
    requires { (regions ≤ 8) × (links ≤ regions + 1) × (length factors.now ≡ links) }
    ensures { result ≡ found links (first_factor links regions parents factors.now) }
{
    for r in 0..links {
        let looked = has_factor(regions, parents, r);
        if looked & !((10000 <= factors[r]) & (factors[r] <= 20000)) {
            return Some(r);
        }
    }
    None
}

// 15 to 17: the first bad mark, price or factor.
fn slices_verdict(
    links: usize,
    regions: usize,
    markets: usize,
    parents: [u8; 8],
    entry: &Entry,
) -> Result<(), Refusal>
    requires regions_bound { (regions ≤ 8) × (links ≤ regions + 1) × (length entry.now.offer.prices ≡ regions * markets) }
    requires marked_len { (length entry.now.offer.marked ≡ regions) × (length entry.now.factors ≡ links) }
    ensures { verdict result
        ≡ slices_verdict links regions markets parents entry.now.offer.prices entry.now.offer.marked entry.now.factors }
{
    if let Some(mark) = first_mark(entry.marked) {
        return Err(Refusal::Mark(mark));
    }
    if let Some(price) = first_price(regions, markets, entry.prices, entry.marked) {
        return Err(Refusal::Price(price));
    }
    if let Some(factor) = first_factor(links, regions, parents, entry.factors) {
        return Err(Refusal::Factor(factor));
    }
    Ok(())
}

// Whether every lent slice has its length. The ring and the table are told by theirs.
fn lengths_ok(book: Book, ring: usize, entry: &Entry, table: usize) -> bool
    ensures { result ≡ lengths_ok (shape_of book) ring entry.now table }
{
    let regions = book.regions as usize;
    let size = regions * (book.services as usize + 1);
    let links = link_count(book);
    (ring == size * book.window as usize)
        & (entry.prices.len() == size)
        & (entry.marked.len() == regions)
        & (entry.flows.len() == links)
        & (entry.factors.len() == links)
        & (entry.schedule.len() == size * 2 * book.halves as usize)
        & (table == size)
}

// 10 to 17, in order: what the entry is refused for, or the acceptance.
pub(crate) fn enter_verdict(
    book: Book,
    ring: usize,
    number: u32,
    entry: &Entry,
    table: usize,
) -> Result<(), Refusal>
    ensures { verdict result ≡ enter_verdict book ring number entry.now table }
{
    if !valid(book) {
        return Err(Refusal::Invalid);
    }
    if !lengths_ok(book, ring, entry, table) {
        return Err(Refusal::Length);
    }
    if 10000000 <= book.entries {
        return Err(Refusal::Full);
    }
    if number != book.entries {
        return Err(Refusal::Number);
    }
    if !(entry.kind <= 1) {
        return Err(Refusal::Kind);
    }
    let regions = book.regions as usize;
    let markets = book.services as usize + 1;
    let parents = book.parents;
    let links = entry.factors.len();
    slices_verdict(links, regions, markets, parents, entry)
}
