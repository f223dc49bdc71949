// The first refusals of reading and writing an interval's records, and all of a test load's: the book, and the lengths of the four slices.
ghost use Rattle.std.specs.Prelude.{◌≡◌};
ghost use Rattle.book.specs.Record.{verdict};
ghost use Rattle.intervals.specs.Working.{lent_verdict};

use book::record::{Book, Refusal, link_count};
use book::validity::valid;

// 10, then 11. The slices are told by their lengths.
pub fn lent_verdict(
    book: Book,
    prices: usize,
    marked: usize,
    flows: usize,
    factors: usize,
) -> Result<(), Refusal>
    ensures { verdict result ≡ lent_verdict book prices marked flows factors }
{
    if !valid(book) {
        return Err(Refusal::Invalid);
    }
    let regions = book.regions as usize;
    let links = link_count(book);
    let size = regions * (book.services as usize + 1);
    if !((prices == size) & (marked == regions) & (flows == links) & (factors == links)) {
        return Err(Refusal::Length);
    }
    Ok(())
}
