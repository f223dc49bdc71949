// The entry of an interval: its refusals, and the whole call, steps 1 to 6.
#![tactic(auto)]

mod checking;

ghost use Rattle.std.specs.Prelude.{◌≡◌, ◌<◌, length};
ghost use Rattle.counting.specs.Windows.{ring_after};
ghost use Rattle.entries.specs.Entering.{terms_of, book_after, outcome, entered};
ghost use Rattle.counting.specs.Working.{offered, entering, Takes};
ghost use Rattle.entries.specs.Working.{Accepts, acceptance};

use crate::checking::enter_verdict;
use book::record::{Book, Reply};
use counting::periods::{last_of_day, marks_after, position_after};
use counting::windows::{counts_after, nexts_after, take};
use publishing::{Terms, publish};
use std::marker::Model;

// What an entry lends: its day kind, prices, marks, flows, factors and schedule, of any lengths: the call tests them. A contract sees
// it as publishing's Entry.
#[derive(Drop)]
pub struct Entry<'a> {
    pub kind: u8,
    pub prices: &'a [i32],
    pub marked: &'a [u8],
    pub flows: &'a [i32],
    pub factors: &'a [u32],
    pub schedule: &'a [i32],
}

impl<'a> Model for Entry<'a> {
    ghost use Rattle.publishing.specs.Entry.{Entry as Said, entry_of};

    ghost Value = { Said };

    ghost view = { λ a. entry_of a.kind a.prices.now a.marked.now a.flows.now a.factors.now a.schedule.now };
}

// What the book brings to publishing; its parents are eight, as their type says.
fn terms_of(book: Book) -> Terms
    ensures { (result ≡ terms_of book) × (length book.parents ≡ 8) }
{
    let parents = book.parents;
    Terms {
        regions: book.regions as usize,
        markets: book.services as usize + 1,
        halves: book.halves as usize,
        position: book.position as usize,
        parents,
        from: book.from as usize,
        to: book.to as usize,
        cap: book.cap,
        floor: book.floor,
    }
}

// Steps 5 and 6: the prices join the ring, and the book after it.
fn book_after(book: Book, ring: &mut [i32], prices: &[i32], marked: &[u8]) -> Book
    requires { Takes book (length ring.old) (length prices.now) (length marked.now) × (book.entries < 10000000) }
    ensures value { result ≡ book_after book ring.old (entering prices.now marked.now) }
    ensures ring_after { ring.new ≡ ring_after book ring.old (offered prices.now marked.now) }
{
    let counts = book.counts;
    let nexts = book.nexts;
    let marks = book.marks;
    let regions = book.regions as usize;
    let last = last_of_day(book.halves, book.position);
    let sums = take(book, ring, prices, marked);
    let counts_then = counts_after(regions, book.window, marked, counts);
    let nexts_then = nexts_after(regions, book.window, marked, nexts);
    let marks_then = marks_after(11 * regions, book.threshold, last, &sums, marks);
    let mut after = book;
    after.entries = book.entries + 1;
    after.position = position_after(last, book.position);
    after.counts = counts_then;
    after.nexts = nexts_then;
    after.sums = sums;
    after.marks = marks_then;
    after
}

// Steps 1 to 6 of an entry that is accepted; its answer is the count of published prices that differ from the effective ones.
fn accept(book: Book, ring: &mut [i32], entry: &Entry, table: &mut [i32]) -> Reply<u32>
    requires { Accepts book (length ring.old) book.entries entry.now (length table.old) }
    ensures { outcome result ring.new table.new ≡ acceptance book ring.old entry.now }
{
    let terms = terms_of(book);
    let marks = book.marks;
    let count = publish(
        terms,
        &marks,
        entry.kind as usize,
        entry.prices,
        entry.marked,
        entry.flows,
        entry.factors,
        entry.schedule,
        table,
    );
    let after = book_after(book, ring, entry.prices, entry.marked);
    Reply {
        book: after,
        answer: Ok(count),
    }
}

// The entry of an interval: publishes into the table, and hands back the book after it; a refused entry changes nothing.
pub fn enter(
    book: Book,
    ring: &mut [i32],
    number: u32,
    entry: &Entry,
    table: &mut [i32],
) -> Reply<u32>
    ensures { outcome result ring.new table.new ≡ entered book ring.old number entry.now table.old }
{
    let answer = enter_verdict(book, ring.len(), number, entry, table.len());
    if let Err(refusal) = answer {
        return Reply {
            book,
            answer: Err(refusal),
        };
    }
    accept(book, ring, entry, table)
}
