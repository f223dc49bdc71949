// The counted prices of a book: where they stand in a window, and how many they are.
ghost use Rattle.std.specs.Prelude.{◌≡◌, ◌≤◌, ltb, get_or};
ghost use Rattle.laws.specs.Base.{pick};
ghost use Rattle.laws.specs.Lists.{sum_from};
ghost use Rattle.head.specs.Counted.{how_many};

use book::record::Book;

// Where the oldest price of a window stands.
pub fn oldest(window: u16, count: u16, next: u16) -> u16
    ensures { result ≡ pick (ltb count window) 0 next }
{
    if count < window { 0 } else { next }
}

fn sum_counts(counts: [u16; 8]) -> usize
    ensures { (result ≡ sum_from 8 0 (λ i. get_or counts i 0)) × (result ≤ 524280) }
{
    let mut sum: usize = 0;
    for count in counts {
        sum += count as usize;
    }
    sum
}

// How many prices a book counts, for any numbers.
pub fn how_many(book: Book) -> usize
    ensures { (result ≡ how_many book) × (result ≤ 134215680) }
{
    let counts = book.counts;
    let markets = book.services as usize + 1;
    markets * sum_counts(counts)
}
