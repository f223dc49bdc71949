// The report of a market.
ghost use Rattle.std.specs.Prelude.{◌≡◌};
ghost use Rattle.book_calls.specs.Report.{outcome, reported};

use book::record::{Book, Refusal, Reply};
use book::validity::valid;

// What a report says of a market, and the entries taken.
#[derive(Clone, Copy)]
pub struct Reading {
    pub sum: i64,
    pub counted: u16,
    pub mark: u8,
    pub entries: u32,
}

// A market's sum, prices counted and period mark, and the entries taken.
pub fn report(book: Book, region: u32, market: u32) -> Reply<Reading>
    ensures { outcome result ≡ reported book region market }
{
    if !valid(book) {
        return Reply {
            book,
            answer: Err(Refusal::Invalid),
        };
    }
    if (region < book.regions as u32) & (market <= book.services as u32) {
        let r = region as usize;
        let k = 11 * r + market as usize;
        let reading = Reading {
            sum: book.sums[k],
            counted: book.counts[r],
            mark: book.marks[k],
            entries: book.entries,
        };
        Reply {
            book,
            answer: Ok(reading),
        }
    } else {
        Reply {
            book,
            answer: Err(Refusal::Market),
        }
    }
}
