// Steps 1 to 4 of "One interval": effective prices, administered prices, limits over links, the published table and its count.
#![tactic(auto)]

ghost use Rattle.std.specs.Prelude.{◌≡◌, false, ℕ, ◌+◌, ◌*◌, ◌≤◌, ◌<◌, length, get_or};
ghost use Rattle.std.proofs.lemmas.List.Edits.{sets};
ghost use Rattle.std.specs.Int.{w32};
ghost use Rattle.std.proofs.Common.{SFits};
ghost use Rattle.laws.specs.Base.{pick, min_z};
ghost use Rattle.laws.specs.Lists.{any_below};
ghost use Rattle.pricing.specs.Passing.{fine};
ghost use Rattle.publishing.specs.Entry.{offer_of, entry_of, network_of, TermsOk, OfferOk, LinksOk};
ghost use Rattle.publishing.specs.Effective.{scheduled, effective};
ghost use Rattle.publishing.specs.Capped.{administered, any_administered, capped_by};
ghost use Rattle.publishing.specs.Bounds.{has_limit, in_cents, at_most, at_least};
ghost use Rattle.publishing.specs.Published.{table_of, count_of};
ghost use Rattle.publishing.specs.Working.{Fine, sources, bounds_of, published_by, region_prices, region_count};

use routes::{LinkFlows, Network};
use std::marker::Model;

// What the book brings to an interval: its shape, its limits and the position. `markets` is M, services and energy; `from` and `to`
// are the ends of the additional link, or 255. Kept: `terms_of` of entries, which reads the record, says so.
#[derive(Clone, Copy)]
pub struct Terms {
    pub regions: usize,
    pub markets: usize,
    pub halves: usize,
    pub position: usize,
    pub parents: [u8; 8],
    pub from: usize,
    pub to: usize,
    pub cap: i32,
    pub floor: i32,
}

// What an interval's prices are made from: the terms and the period marks before the entry, and of the entry the day kind, the prices,
// the marks and the schedule. A contract sees it as a Basis.
#[derive(Drop)]
struct Interval<'a> {
    terms: Terms,
    marks: &'a [u8; 88],
    kind: usize,
    prices: &'a [i32],
    marked: &'a [u8],
    schedule: &'a [i32],
}

impl<'a> Model for Interval<'a> {
    ghost use Rattle.publishing.specs.Entry.{offer_of, TermsOk, OfferOk};
    ghost use Rattle.publishing.specs.Basis.{Basis};

    ghost Value = { Basis };

    ghost view = { λ a. record { terms = a.terms; marks = a.marks.now; offer = offer_of a.kind a.prices.now a.marked.now a.schedule.now } };

    ghost invariant = { λ a. TermsOk a.terms × OfferOk a.terms (offer_of a.kind a.prices.now a.marked.now a.schedule.now) };
}

fn administered(marks: &[u8; 88], region: usize, market: usize) -> bool
    requires { (region < 8) × (market < 11) }
    ensures { result ≡ administered marks.now region market }
{
    marks[11 * region + market] == 1
}

// A service's price: at most the cap where any market of its region is administered.
fn at_cap(any: bool, cap: i32, price: i32) -> i32
    ensures { result ≡ pick any (min_z price cap) price }
{
    if any {
        pricing::holding::at_most(price, cap)
    } else {
        price
    }
}

// Step 2. `energy` and `any` tell whether energy, and any market, of the region is administered.
fn capped(market: usize, energy: bool, any: bool, floor: i32, cap: i32, price: i32) -> i32
    ensures { result ≡ capped_by energy any floor cap market price }
{
    // Kept: a range case on the market, the form that document 01 names.
    match market {
        0 => if energy {
            pricing::holding::held(price, floor, cap)
        } else {
            price
        },
        1..=10 => at_cap(any, cap, price),
        _ => at_cap(any, cap, price),
    }
}

// A limit in ten-thousandths of a cent, as it binds.
fn in_cents(limit: Option<i64>) -> Option<i32>
    requires { Fine limit }
    ensures { result ≡ in_cents limit }
{
    let z = limit?;
    Some(pricing::carrying::cents(z) as i32)
}

// The limit of a source, in ten-thousandths of a cent.
fn source_limit(caps: bool, cap: i32, floor: i32) -> i64
    ensures { result ≡ fine (pick caps cap floor) }
{
    if caps {
        pricing::carrying::fine(cap)
    } else {
        pricing::carrying::fine(floor)
    }
}

// The links of the terms' regions. Kept: the definitions name `network_of` too, and a From would be no shorter.
fn network_of(terms: Terms) -> Network
    ensures { result ≡ network_of terms }
{
    let parents = terms.parents;
    Network {
        regions: terms.regions,
        parents,
        from: terms.from,
        to: terms.to,
    }
}

// Step 4: the limit that binds each region's energy. Without a source no limit travels.
fn bounds(
    caps: bool,
    terms: Terms,
    sources: [bool; 8],
    flows: &[i32],
    factors: &[u32],
) -> [Option<i32>; 8]
    requires { TermsOk terms × LinksOk terms flows.now factors.now }
    ensures { result ≡ bounds_of caps terms sources flows.now factors.now }
{
    let mut all = [None; 8];
    if sources == [false; 8] {
        return all;
    }
    let links = LinkFlows {
        network: network_of(terms),
        flows,
        factors,
    };
    let powers = links.powers();
    let source = source_limit(caps, terms.cap, terms.floor);
    for r in 0..terms.regions {
        let limit = routes::limit_of(caps, &powers, terms.regions, sources, source, r);
        all[r] = in_cents(limit);
    }
    all
}

// Step 4: a cap limit binds from above, a floor limit from below.
fn bind(caps: bool, limit: Option<i32>, price: i32) -> i32
    ensures { result ≡ pick caps (at_most limit price) (at_least limit price) }
{
    match limit {
        None => price,
        Some(z) => if caps {
            pricing::holding::at_most(price, z)
        } else {
            pricing::holding::at_least(z, price)
        },
    }
}

// Steps 2 and 4 at a market whose effective price is `price`: `top` and `bottom` bind energy alone.
fn published(
    market: usize,
    energy: bool,
    any: bool,
    floor: i32,
    cap: i32,
    top: Option<i32>,
    bottom: Option<i32>,
    price: i32,
) -> i32
    ensures { result ≡ published_by energy any floor cap top bottom market price }
{
    let held = capped(market, energy, any, floor, cap, price);
    // Kept: a range case on the market, the form that document 01 names.
    match market {
        0 => bind(false, bottom, bind(true, top, held)),
        1..=10 => held,
        _ => held,
    }
}

impl<'a> Interval<'a> {
    // The number of a schedule, held within the limits of its market.
    fn scheduled(&self, region: usize, market: usize) -> i32
        requires { (region < self.now.terms.regions) × (market < self.now.terms.markets) }
        ensures { result ≡ scheduled self.now.terms self.now.offer region market }
    {
        let terms = self.terms;
        let at = ((region * terms.markets + market) * 2 + self.kind) * terms.halves
            + terms.position / 6;
        let low = pricing::holding::lowest(market, terms.floor);
        pricing::holding::held(self.schedule[at], low, terms.cap)
    }

    // Step 1.
    fn effective(&self, region: usize, market: usize) -> i32
        requires { (region < self.now.terms.regions) × (market < self.now.terms.markets) }
        ensures { result ≡ effective self.now.terms self.now.offer region market }
    {
        if self.marked[region] == 1 {
            self.scheduled(region, market)
        } else {
            self.prices[region * self.terms.markets + market]
        }
    }

    fn any_administered(&self, region: usize) -> bool
        requires { region < self.now.terms.regions }
        ensures { result ≡ any_administered self.now.terms self.now.marks region }
    {
        (0..self.terms.markets).any(|m| administered(self.marks, region, m))
    }

    // Step 3: whether a region has a limit of its own, at the cap or at the floor.
    fn has_limit(&self, caps: bool, region: usize) -> bool
        requires { region < self.now.terms.regions }
        ensures { result ≡ has_limit caps self.now.terms self.now.marks self.now.offer region }
    {
        let energy = administered(self.marks, region, 0);
        let price = self.effective(region, 0);
        if caps {
            energy & (self.terms.cap <= price)
        } else {
            energy & (price <= self.terms.floor)
        }
    }

    // The regions that have a limit of their own.
    fn sources(&self, caps: bool) -> [bool; 8]
        ensures { result ≡ sources caps self.now.terms self.now.marks self.now.offer }
    {
        let mut all = [false; 8];
        for r in 0..self.terms.regions {
            all[r] = self.has_limit(caps, r);
        }
        all
    }

    // The prices of one region into the table, with the bounds of its energy; answers how many of them changed.
    fn publish_region(
        &self,
        top: Option<i32>,
        bottom: Option<i32>,
        region: usize,
        table: &mut [i32],
    ) -> u32
        requires { (region < self.now.terms.regions) × (length table.old ≡ self.now.terms.regions * self.now.terms.markets) }
        ensures value { result ≡ region_count self.now.terms self.now.marks self.now.offer top bottom region }
        ensures table_after { table.new ≡ sets table.old (region * self.now.terms.markets) (region_prices self.now.terms self.now.marks self.now.offer top bottom region) }
    {
        let terms = self.terms;
        let energy = administered(self.marks, region, 0);
        let any = self.any_administered(region);
        let from = region * terms.markets;
        let mut count: u32 = 0;
        for m in 0..terms.markets {
            let was = self.effective(region, m);
            let price = published(m, energy, any, terms.floor, terms.cap, top, bottom, was);
            table[from + m] = price;
            count += u32::from(price != was);
        }
        count
    }
}

// Steps 1 to 4: the table, and how many of its prices differ from the effective ones.
pub fn publish(
    terms: Terms,
    marks: &[u8; 88],
    kind: usize,
    prices: &[i32],
    marked: &[u8],
    flows: &[i32],
    factors: &[u32],
    schedule: &[i32],
    table: &mut [i32],
) -> u32
    requires terms_ok { TermsOk terms × OfferOk terms (offer_of kind prices.now marked.now schedule.now) }
    requires links_ok { LinksOk terms flows.now factors.now × (length table.old ≡ terms.regions * terms.markets) }
    ensures value { result ≡ count_of terms marks.now (entry_of kind prices.now marked.now flows.now factors.now schedule.now) }
    ensures table_after { table.new ≡ table_of terms marks.now (entry_of kind prices.now marked.now flows.now factors.now schedule.now) }
{
    let interval = Interval {
        terms,
        marks,
        kind,
        prices,
        marked,
        schedule,
    };
    let caps = interval.sources(true);
    let floors = interval.sources(false);
    let tops = bounds(true, terms, caps, flows, factors);
    let bottoms = bounds(false, terms, floors, flows, factors);
    let mut count: u32 = 0;
    for r in 0..terms.regions {
        let top = tops[r];
        let bottom = bottoms[r];
        count += interval.publish_region(top, bottom, r, table);
    }
    count
}
