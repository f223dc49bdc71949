// The first refusals of a bill: the book, the slices' lengths and the region.
ghost use Rattle.std.specs.Prelude.{◌≡◌};
ghost use Rattle.book.specs.Record.{verdict};
ghost use Rattle.bill_lines.specs.Lent.{lent_verdict};

use book::record::{Book, Refusal, ring_size};
use book::validity::valid;

// The lengths of the slices that a bill is lent: the book's ring and the second one, the schedule, and the four of its lines.
#[derive(Clone, Copy)]
pub struct Lengths {
    pub ring: usize,
    pub work: usize,
    pub schedule: usize,
    pub numbers: usize,
    pub energy: usize,
    pub prices: usize,
    pub amounts: usize,
}

// 10, 11, then 21.
pub fn lent_verdict(book: Book, lengths: Lengths, region: u32) -> Result<(), Refusal>
    ensures { verdict result ≡ lent_verdict book lengths region }
{
    if !valid(book) {
        return Err(Refusal::Invalid);
    }
    let ring = ring_size(book.regions, book.services, book.window);
    let size = book.regions as usize * (book.services as usize + 1);
    let schedule = size * 2 * book.halves as usize;
    if !((lengths.ring == ring)
        & (lengths.work == lengths.ring)
        & (lengths.schedule == schedule)
        & (lengths.energy == lengths.numbers)
        & (lengths.prices == lengths.numbers)
        & (lengths.amounts == lengths.numbers))
    {
        return Err(Refusal::Length);
    }
    if !(region < book.regions as u32) {
        return Err(Refusal::Market);
    }
    Ok(())
}
