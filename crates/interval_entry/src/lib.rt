// An interval of a day: read from its records, then entered.
#![tactic(auto)]

ghost use Rattle.std.specs.Prelude.{◌≡◌, ◌*◌, ◌≤◌, ◌<◌, length};
ghost use Rattle.book.specs.Record.{markets_of};
ghost use Rattle.interval_records.specs.Layout.{interval_of};
ghost use Rattle.interval_entry.specs.Taking.{taken_into, taken, outcome};

use book::record::{Book, Reply, link_count};
use entries::{Entry, enter};
use intervals::reading::read_interval;

// The place after an interval that was entered, with its number and a region's published energy price.
#[derive(Clone, Copy)]
pub struct Step {
    pub next: usize,
    pub number: u32,
    pub price: i32,
}

// The interval at a place, read into the four slices, entered, and published into the table.
fn take_into(
    book: Book,
    ring: &mut [i32],
    records: &[u8],
    at: usize,
    schedule: &[i32],
    region: usize,
    prices: &mut [i32],
    marked: &mut [u8],
    flows: &mut [i32],
    factors: &mut [u32],
    table: &mut [i32],
) -> Reply<Step>
    requires { (book.services ≤ 10) × (region ≤ 8) × (region * markets_of book.services < length table.old) }
    ensures { let lent = interval_of 0 0 prices.old marked.old flows.old factors.old in
        outcome result ring.new
        ≡ taken_into lent table.old book ring.old records.now at schedule.now region }
{
    let read = read_interval(book, records, at, prices, marked, flows, factors);
    let found = match read.answer {
        Err(refusal) => {
            return Reply {
                book,
                answer: Err(refusal),
            };
        }
        Ok(found) => found,
    };
    let number = found.number;
    let entry = Entry {
        kind: found.kind,
        prices,
        marked,
        flows,
        factors,
        schedule,
    };
    let entered = enter(book, ring, number, &entry, table);
    let price = table[region * (book.services as usize + 1)];
    match entered.answer {
        Err(refusal) => Reply {
            book: entered.book,
            answer: Err(refusal),
        },
        Ok(_) => Reply {
            book: entered.book,
            answer: Ok(Step {
                next: found.next,
                number,
                price,
            }),
        },
    }
}

// The interval at a place of the records, entered with room of its own for what is read and published.
pub fn take_interval(
    book: Book,
    ring: &mut [i32],
    records: &[u8],
    at: usize,
    schedule: &[i32],
    region: usize,
) -> Reply<Step>
    requires { (book.regions ≤ 8) × (book.services ≤ 10) × (region < book.regions) }
    ensures { outcome result ring.new
        ≡ taken book ring.old records.now at schedule.now region }
{
    let regions = book.regions as usize;
    let links = link_count(book);
    let size = regions * (book.services as usize + 1);
    let mut prices = [0i32; 88];
    let mut marked = [0u8; 8];
    let mut flows = [0i32; 9];
    let mut factors = [0u32; 9];
    let mut table = [0i32; 88];
    take_into(
        book,
        ring,
        records,
        at,
        schedule,
        region,
        &mut prices[..size],
        &mut marked[..regions],
        &mut flows[..links],
        &mut factors[..links],
        &mut table[..size],
    )
}
