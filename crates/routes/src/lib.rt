// Limits that travel over the links between regions (step 4 of "One interval").
#![tactic(auto)]

ghost use Rattle.std.specs.Prelude.{◌≡◌, Bool, ℕ, ◌<◌, ◌+◌, ◌-◌, ◌*◌, get_or, nat_abs};
ghost use Rattle.routes.specs.Limits.{tighter, over, own};
ghost use Rattle.routes.specs.Links.{extra_of, power_of, power_at, powers_of, step};
ghost use Rattle.routes.specs.Routes.{limit_of};
ghost use Rattle.routes.specs.Search.{limit_from, Sized, Linked, Searched};

use std::marker::Model;

// Of two limits the one that binds. A limit is in ten-thousandths of a cent, and None is no limit.
fn tighter(caps: bool, a: Option<i64>, b: Option<i64>) -> Option<i64>
    ensures { result ≡ tighter caps a b }
{
    match (a, b) {
        (Some(x), Some(y)) => if (x <= y) == caps { a } else { b },
        (Some(_), None) => a,
        (None, _) => b,
    }
}

// A limit over the link with this factor, or none where the factor is 0.
fn over(caps: bool, factor: u32, limit: Option<i64>) -> Option<i64>
    requires { Sized 6400000000000 limit × Linked factor }
    ensures { result ≡ over caps factor limit }
{
    let z = limit?;
    if factor == 0 {
        None
    } else {
        Some(pricing::carrying::carried(caps, factor, z))
    }
}

// The regions of a book and its links: each to its parent, and the additional one from `from` to `to`, or 255 and 255 for none.
// Kept: 255 is what the book's record and its image hold, and what the definitions read.
#[derive(Clone, Copy)]
pub struct Network {
    pub regions: usize,
    pub parents: [u8; 8],
    pub from: usize,
    pub to: usize,
}

// A network's links at an interval: the flow and the factor of each region's link to its parent, and at the last place those of the
// additional link. A contract sees it as Lent.
#[derive(Drop)]
pub struct LinkFlows<'a> {
    pub network: Network,
    pub flows: &'a [i32],
    pub factors: &'a [u32],
}

impl<'a> Model for LinkFlows<'a> {
    ghost use Rattle.std.specs.Prelude.{◌≡◌, length};
    ghost use Rattle.routes.specs.Lent.{Lent, LentLinks};

    ghost Value = { Lent };

    ghost view = { λ a. record { network = a.network; flows = a.flows.now; factors = a.factors.now } };

    ghost invariant = { λ a. LentLinks a.network a.flows.now a.factors.now × (length a.network.parents ≡ 8) };
}

impl<'a> LinkFlows<'a> {
    // The factor of the additional link where power goes over it from x to y, or 0. Kept: `extra_of` of specs/Links says 0.
    fn extra_of(&self, x: usize, y: usize) -> u32
        requires { (x < self.now.network.regions) × (y < self.now.network.regions) }
        ensures { result ≡ extra_of self.now.network self.now.flows self.now.factors x y }
    {
        let network = self.network;
        if network.from == 255 {
            return 0;
        }
        let last = network.regions;
        let there = (network.from == x) & (network.to == y) & (0 < self.flows[last]);
        let back = (network.from == y) & (network.to == x) & (self.flows[last] < 0);
        if there | back { self.factors[last] } else { 0 }
    }

    // The factor of the link over which power goes from x to y, or 0. Kept: the definitions say 0, and the table holds it.
    fn power_of(&self, x: usize, y: usize) -> u32
        requires { (x < self.now.network.regions) × (y < self.now.network.regions) }
        ensures { result ≡ power_of self.now.network self.now.flows self.now.factors x y }
    {
        let parents = self.network.parents;
        let up = (parents[x] as usize == y) & (0 < self.flows[x]);
        let down = (parents[y] as usize == x) & (self.flows[y] < 0);
        if up {
            self.factors[x]
        } else if down {
            self.factors[y]
        } else {
            self.extra_of(x, y)
        }
    }

    fn power_at(&self, k: usize) -> u32
        requires { k < 64 }
        ensures { result ≡ power_at self.now.network self.now.flows self.now.factors k }
    {
        let x = k / 8;
        let y = k % 8;
        let regions = self.network.regions;
        if (x < regions) & (y < regions) {
            self.power_of(x, y)
        } else {
            0
        }
    }

    // The power between every two regions, from x to y at 8 × x + y.
    pub fn powers(&self) -> [u32; 64]
        ensures { result ≡ powers_of self.now.network self.now.flows self.now.factors }
    {
        let mut all = [0u32; 64];
        for k in 0..64 {
            all[k] = self.power_at(k);
        }
        all
    }
}

fn own(hits: [bool; 8], bound: i64, x: usize) -> Option<i64>
    requires { x < 8 }
    ensures { result ≡ own hits bound x }
{
    hits[x].then_some(bound)
}

// The factor of the link over which x takes a limit of y, or 0. Kept: it reads the table, which holds 0.
fn step(caps: bool, powers: &[u32; 64], x: usize, y: usize) -> u32
    requires { (x < 8) × (y < 8) }
    ensures { result ≡ step caps (λ x y. get_or powers.now (8 * x + y) 0) x y }
{
    if caps {
        powers[8 * x + y]
    } else {
        powers[8 * y + x]
    }
}

// The limit of region x with `left` regions left to visit: one fewer at each call of itself.
fn limit_from(
    caps: bool,
    powers: &[u32; 64],
    regions: usize,
    hits: [bool; 8],
    bound: i64,
    seen: [bool; 8],
    x: usize,
    left: usize,
) -> Option<i64>
    requires { Searched powers.now regions bound x left }
    ensures { result ≡ limit_from caps (λ x y. get_or powers.now (8 * x + y) 0) (own hits bound) regions left seen x }
{
    let mut best = own(hits, bound, x);
    if left == 0 {
        return best;
    }
    let mut marked = seen;
    marked[x] = true;
    for y in 0..regions {
        if !marked[y] {
            let factor = step(caps, powers, x, y);
            if factor != 0 {
                let found = limit_from(caps, powers, regions, hits, bound, marked, y, left - 1);
                best = tighter(caps, best, over(caps, factor, found));
            }
        }
    }
    best
}

// The limit of region x over every route that visits no region twice.
pub fn limit_of(
    caps: bool,
    powers: &[u32; 64],
    regions: usize,
    hits: [bool; 8],
    bound: i64,
    x: usize,
) -> Option<i64>
    requires { Searched powers.now regions bound x 0 }
    ensures { result ≡ limit_of caps (λ x y. get_or powers.now (8 * x + y) 0) (own hits bound) regions x }
{
    let seen = [false; 8];
    limit_from(caps, powers, regions, hits, bound, seen, x, regions - 1)
}
