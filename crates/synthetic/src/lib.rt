// A test load that anyone can remake: an interval's prices, marks, flows and factors, drawn from a seed.
#![tactic(auto)]

ghost use Rattle.std.specs.Prelude.{◌≡◌, ◌+◌, ◌*◌, ◌%◌, ◌<◌, length};
ghost use Rattle.laws.specs.Lists.{tabulate};
ghost use Rattle.interval_records.specs.Layout.{interval_of};
ghost use Rattle.drawing.specs.Drawing.{seed_after, drawn, price_of, flow_of, factor_of};
ghost use Rattle.synthetic.specs.Synthetic.{outcome, synthesized};

use book::record::{Book, Reply};
use drawing::{factor_of, flow_of, next_seed, price_of};
use intervals::lent::lent_verdict;

// The last seed of an interval that was drawn, with its number and day kind.
#[derive(Clone, Copy)]
pub struct Draw {
    pub seed: u32,
    pub number: u32,
    pub kind: u8,
}

// Draws a price for each place; answers the last seed.
fn draw_prices(seed: u32, markets: usize, prices: &mut [i32]) -> u32
    requires { 0 < markets }
    ensures value { result ≡ seed_after (length prices.old) seed }
    ensures prices_after { prices.new ≡ tabulate (length prices.old) (λ q. price_of (q % markets) (drawn seed q)) }
{
    let mut s = seed;
    for q in 0..prices.len() {
        s = next_seed(s);
        prices[q] = price_of(q % markets, s / 65536);
    }
    s
}

// Draws flow and factor for each place in turn; answers the last seed.
fn draw_links(seed: u32, flows: &mut [i32], factors: &mut [u32]) -> u32
    requires { length factors.old ≡ length flows.old }
    ensures value { result ≡ seed_after (2 * length flows.old) seed }
    ensures flows_after { flows.new ≡ tabulate (length flows.old) (λ r. flow_of (drawn seed (2 * r))) }
    ensures factors_after { factors.new ≡ tabulate (length flows.old) (λ r. factor_of (drawn seed (2 * r + 1))) }
{
    let mut s = seed;
    for r in 0..flows.len() {
        let first = next_seed(s);
        flows[r] = flow_of(first / 65536);
        s = next_seed(first);
        factors[r] = factor_of(s / 65536);
    }
    s
}

// Fills an interval's four slices from a seed, and hands its number and day kind back with the last seed.
pub fn synthesize(
    book: Book,
    seed: u32,
    number: u32,
    kind: u8,
    prices: &mut [i32],
    marked: &mut [u8],
    flows: &mut [i32],
    factors: &mut [u32],
) -> Reply<Draw>
    ensures { let lent = interval_of 0 0 prices.old marked.old flows.old factors.old in
        outcome result prices.new marked.new flows.new factors.new
        ≡ synthesized book seed number kind lent }
{
    let lent = lent_verdict(book, prices.len(), marked.len(), flows.len(), factors.len());
    if let Err(refusal) = lent {
        return Reply {
            book,
            answer: Err(refusal),
        };
    }
    let between = draw_prices(seed, book.services as usize + 1, prices);
    marked.fill(0);
    let last = draw_links(between, flows, factors);
    Reply {
        book,
        answer: Ok(Draw {
            seed: last,
            number,
            kind,
        }),
    }
}
