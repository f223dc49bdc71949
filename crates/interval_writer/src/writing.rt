// Writing an interval as records.
ghost use Rattle.std.specs.Prelude.{◌≡◌, true, [], ◌∷◌, ◌++◌, ◌+◌, ◌*◌, ◌≤◌, ◌<◌, length};
ghost use Rattle.std.proofs.lemmas.List.Edits.{sets};
ghost use Rattle.std.specs.Int.{w32};
ghost use Rattle.std.proofs.Common.{of_z};
ghost use Rattle.laws.specs.Base.{pick};
ghost use Rattle.laws.specs.Lists.{joined};
ghost use Rattle.laws.specs.Bytes.{encode, words};
ghost use Rattle.book.specs.Record.{markets_of, verdict};
ghost use Rattle.interval_records.specs.Layout.{head_widths, head_length, region_widths, region_length, link_widths, link_length};
ghost use Rattle.interval_records.specs.Layout.{row_of, region_record, link_record};
ghost use Rattle.interval_writer.specs.Writing.{write_verdict, outcome, write_interval};

use book::record::{Book, Refusal, Reply, has_link};
use codec::{bits32, put, put_words};
use interval_records::layout::{interval_length, region_length};
use intervals::lent::lent_verdict;
use std::marker::Model;

// What a write is lent: the interval's number, day kind, prices, marks, flows and factors, of any lengths: the call tests them. A contract
// sees it as the record of interval_records' Layout.
#[derive(Drop)]
pub struct Interval<'a> {
    pub number: u32,
    pub kind: u8,
    pub prices: &'a [i32],
    pub marked: &'a [u8],
    pub flows: &'a [i32],
    pub factors: &'a [u32],
}

impl<'a> Model for Interval<'a> {
    ghost use Rattle.interval_records.specs.Layout.{Interval as Said, interval_of};

    ghost Value = { Said };

    ghost view = { λ a. interval_of a.number a.kind a.prices.now a.marked.now a.flows.now a.factors.now };
}

// The head of an interval as the first bytes of the buffer.
fn put_head(buffer: &mut [u8], regions: u8, number: u32, kind: u8)
    requires { head_length ≤ length buffer.old }
    ensures { let values = head_length ∷ 16 ∷ number ∷ kind ∷ regions ∷ [] in
        buffer.new ≡ sets buffer.old 0 (encode head_widths values) }
{
    put(buffer, 0, 4, 12);
    put(buffer, 4, 2, 16);
    put(buffer, 6, 4, number as u64);
    put(buffer, 10, 1, kind as u64);
    put(buffer, 11, 1, regions as u64);
}

// The record of a region at a place.
fn put_region(
    buffer: &mut [u8],
    at: usize,
    services: u8,
    region: usize,
    prices: &[i32],
    mark: u8,
    flow: i32,
    factor: u32,
)
    requires services_in_bounds { at + region_length (markets_of services) ≤ length buffer.old }
    requires services_in_bounds_2 { region * markets_of services + markets_of services ≤ length prices.now }
    ensures { let markets = markets_of services in
        buffer.new
        ≡ sets buffer.old at
        (encode region_widths (region_length markets ∷ 17 ∷ region ∷ mark ∷ of_z w32 flow ∷ factor ∷ [])
        ++ words (row_of markets prices.now region)) }
{
    let markets = services as usize + 1;
    put(buffer, at, 4, region_length(services) as u64);
    put(buffer, at + 4, 2, 17);
    put(buffer, at + 6, 1, region as u64);
    put(buffer, at + 7, 1, mark as u64);
    put(buffer, at + 8, 4, bits32(flow) as u64);
    put(buffer, at + 12, 4, factor as u64);
    put_words(buffer, at + 16, prices, region * markets, markets);
}

// The records of all regions, upward, behind the head.
fn put_regions(buffer: &mut [u8], regions: usize, services: u8, interval: &Interval)
    requires services_in_bounds { head_length + regions * region_length (markets_of services) ≤ length buffer.old }
    requires services_in_bounds_2 { (regions * markets_of services ≤ length interval.now.prices) × (regions ≤ length interval.now.marked) }
    requires regions_in_bounds { (regions ≤ length interval.now.flows) × (regions ≤ length interval.now.factors) }
    ensures { buffer.new ≡ sets buffer.old head_length (joined regions 0 (region_record (markets_of services) interval.now)) }
{
    let size = region_length(services);
    for r in 0..regions {
        put_region(
            buffer,
            12 + r * size,
            services,
            r,
            interval.prices,
            interval.marked[r],
            interval.flows[r],
            interval.factors[r],
        );
    }
}

// The record of the additional link at a place.
fn put_link(buffer: &mut [u8], at: usize, flow: i32, factor: u32)
    requires { at + link_length ≤ length buffer.old }
    ensures { let values = link_length ∷ 18 ∷ of_z w32 flow ∷ factor ∷ [] in
        buffer.new ≡ sets buffer.old at (encode link_widths values) }
{
    put(buffer, at, 4, 14);
    put(buffer, at + 4, 2, 18);
    put(buffer, at + 6, 4, bits32(flow) as u64);
    put(buffer, at + 10, 4, factor as u64);
}

// The record of the additional link, of the last flow and factor, behind those of the regions, where there is the link.
fn put_last(linked: bool, buffer: &mut [u8], regions: usize, services: u8, interval: &Interval)
    requires link_length_in_bounds { linked ≡ true → head_length + regions * region_length (markets_of services) + link_length ≤ length buffer.old }
    requires regions_in_bounds { linked ≡ true → (regions < length interval.now.flows) × (regions < length interval.now.factors) }
    ensures { let place = head_length + regions * region_length (markets_of services) in
        buffer.new ≡ sets buffer.old place (pick linked (link_record regions interval.now) []) }
{
    if linked {
        let place = 12 + regions * region_length(services);
        put_link(
            buffer,
            place,
            interval.flows[regions],
            interval.factors[regions],
        );
    }
}

// 10, 11 and 23 in order. The buffer is told by its length.
fn write_verdict(book: Book, interval: &Interval, room: usize) -> Result<(), Refusal>
    ensures { verdict result ≡ write_verdict book interval.now room }
{
    lent_verdict(
        book,
        interval.prices.len(),
        interval.marked.len(),
        interval.flows.len(),
        interval.factors.len(),
    )?;
    if room < interval_length(has_link(book), book.regions, book.services) {
        return Err(Refusal::Buffer);
    }
    Ok(())
}

// Writes an interval as the first bytes of the buffer and answers its length; the bytes after it stay, and the book is handed back.
pub fn write_interval(book: Book, interval: &Interval, buffer: &mut [u8]) -> Reply<usize>
    ensures { outcome result buffer.new ≡ write_interval book interval.now buffer.old }
{
    let answer = write_verdict(book, interval, buffer.len());
    if let Err(refusal) = answer {
        return Reply {
            book,
            answer: Err(refusal),
        };
    }
    let linked = has_link(book);
    let regions = book.regions as usize;
    put_head(buffer, book.regions, interval.number, interval.kind);
    put_regions(buffer, regions, book.services, interval);
    put_last(linked, buffer, regions, book.services, interval);
    Reply {
        book,
        answer: Ok(interval_length(linked, book.regions, book.services)),
    }
}
