// Holding a retailer's bill against the rules: each line against the published price of its interval.
#![tactic(auto)]

ghost use Rattle.std.specs.Prelude.{◌≡◌, ◌≤◌, ◌<◌, length};
ghost use Rattle.book.specs.Record.{verdict};
ghost use Rattle.bill_lines.specs.Lines.{lines_of};
ghost use Rattle.billing.specs.Billing.{bill_of, day_of, outcome, billed};
ghost use Rattle.billing.specs.Working.{told, told_in, said, said_by};

use bill_lines::lent::{Lengths, lent_verdict};
use bill_lines::lines::{Lines, first_heavy, leads_to};
use book::record::{Book, Refusal, Reply};
use interval_entry::{Step, take_interval};

// How a day ended, how many intervals were accepted, and how many of the first lines are right.
#[derive(Clone, Copy)]
struct Played {
    answer: Result<(), Refusal>,
    count: usize,
    right: usize,
}

// The second ring is a copy of the book's. A loop: the library's copy would have the archive ask its host for memmove.
fn copy(ring: &[i32], work: &mut [i32])
    requires { length work.old ≡ length ring.now }
    ensures { work.new ≡ ring.now }
{
    for i in 0..ring.len() {
        work[i] = ring[i];
    }
}

// Every interval of the day, each line held against its own.
fn play_day(
    first: Book,
    work: &mut [i32],
    records: &[u8],
    schedule: &[i32],
    region: usize,
    lines: &Lines,
) -> Played
    requires { (first.regions ≤ 8) × (first.services ≤ 10) × (region < first.regions) }
    ensures { told_in result work.new
        ≡ told lines.now (day_of first work.old (bill_of records.now schedule.now region lines.now)) }
{
    let mut book = first;
    let mut at: usize = 0;
    let mut count: usize = 0;
    let mut right: usize = 0;
    // Kept: no index is counted, each interval says where the next begins.
    while at < records.len() {
        let taken = take_interval(book, work, records, at, schedule, region);
        let step = taken.answer;
        let after = taken.book;
        match step {
            Err(refusal) => {
                return Played {
                    answer: Err(refusal),
                    count,
                    right,
                };
            }
            Ok(
                Step {
                    next,
                    number,
                    price,
                },
            ) => {
                right = leads_to(lines, right, count, number, price);
                count += 1;
                at = next;
                book = after;
            }
        }
    }
    Played {
        answer: Ok(()),
        count,
        right,
    }
}

// The day's refusal, then 46, then none where every line is right, or the first wrong line.
fn judgement_of(played: Played, lines: usize, energy: &[u32]) -> Result<Option<usize>, Refusal>
    ensures { said result ≡ said_by (verdict played.answer) played.count played.right lines energy.now }
{
    played.answer?;
    if let Some(heavy) = first_heavy(energy) {
        return Err(Refusal::BilledEnergy(heavy));
    }
    if (played.right == played.count) & (played.count == lines) {
        return Ok(None);
    }
    Ok(Some(played.right))
}

// Holds a bill's lines against the published prices of a day's intervals: none where every line is right, or the first wrong line. The
// intervals are entered on a second ring.
pub fn check_bill(
    book: Book,
    ring: &[i32],
    work: &mut [i32],
    records: &[u8],
    schedule: &[i32],
    region: u32,
    numbers: &[u32],
    energy: &[u32],
    prices: &[i32],
    amounts: &[i64],
) -> Reply<Option<usize>>
    ensures { let lines = lines_of numbers.now energy.now prices.now amounts.now in
        outcome result work.new
        ≡ billed book ring.now work.old (bill_of records.now schedule.now region lines) }
{
    let lengths = Lengths {
        ring: ring.len(),
        work: work.len(),
        schedule: schedule.len(),
        numbers: numbers.len(),
        energy: energy.len(),
        prices: prices.len(),
        amounts: amounts.len(),
    };
    let lent = lent_verdict(book, lengths, region);
    if let Err(refusal) = lent {
        return Reply {
            book,
            answer: Err(refusal),
        };
    }
    copy(ring, work);
    let lines = Lines {
        numbers,
        energy,
        prices,
        amounts,
    };
    let played = play_day(book, work, records, schedule, region as usize, &lines);
    Reply {
        book,
        answer: judgement_of(played, numbers.len(), energy),
    }
}
