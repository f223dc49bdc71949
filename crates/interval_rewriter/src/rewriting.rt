// An interval of the earlier form, its regions in any order, written anew in number order.
ghost use Rattle.std.specs.Prelude.{◌≡◌, true, ◌+◌, ◌*◌, ◌≤◌, length, take, drop};
ghost use Rattle.std.proofs.lemmas.List.Edits.{sets};
ghost use Rattle.laws.specs.Lists.{joined};
ghost use Rattle.book.specs.Record.{verdict, is_accepted};
ghost use Rattle.interval_records.specs.Layout.{head_length, region_length};
ghost use Rattle.interval_rewriter.specs.AnyOrder.{regions_verdict};
ghost use Rattle.interval_rewriter.specs.Rewriting.{rewrite_verdict, record_bytes, outcome, rewrite_interval};

use crate::any_order::{record_of, records_verdict};
use book::record::{Book, Refusal, Reply, has_link};
use book::validity::valid;
use interval_records::layout::{interval_length, link_length};

// `n` bytes from a place, put at a place of the buffer: a record moves as it stands. A loop: the library's copy would have the archive ask
// its host for memmove.
fn copy(bytes: &[u8], from: usize, n: usize, buffer: &mut [u8], to: usize)
    requires { (from + n ≤ length bytes.now) × (to + n ≤ length buffer.old) }
    ensures { buffer.new ≡ sets buffer.old to (take n (drop from bytes.now)) }
{
    for i in 0..n {
        buffer[to + i] = bytes[from + i];
    }
}

// The records of all regions, in number order, behind the head.
fn copy_records(regions: usize, markets: usize, bytes: &[u8], at: usize, buffer: &mut [u8])
    requires markets_bound { (markets ≤ 256) × (at + head_length ≤ length bytes.now) }
    requires head_length_value { is_accepted (regions_verdict regions markets bytes.now (at + head_length)) ≡ true }
    requires markets_in_bounds { head_length + regions * region_length markets ≤ length buffer.old }
    ensures { let records = joined regions 0 (record_bytes regions markets bytes.now (at + head_length)) in
        buffer.new ≡ sets buffer.old head_length records }
{
    let first = at + 12;
    let size = 16 + 4 * markets;
    for r in 0..regions {
        if let Some(k) = record_of(regions, markets, bytes, first, r) {
            copy(bytes, first + k * size, size, buffer, 12 + r * size);
        }
    }
}

// 10 and 23, then 40 to 42. The buffer is told by its length.
fn rewrite_verdict(book: Book, bytes: &[u8], at: usize, room: usize) -> Result<(), Refusal>
    ensures { verdict result ≡ rewrite_verdict book bytes.now at room }
{
    if !valid(book) {
        return Err(Refusal::Invalid);
    }
    let linked = has_link(book);
    if room < interval_length(linked, book.regions, book.services) {
        return Err(Refusal::Buffer);
    }
    records_verdict(linked, book.regions, book.services, bytes, at)
}

// Writes the interval at a place as the first bytes of the buffer, its regions in number order, and answers the place after it; the
// bytes after it in the buffer stay, and the book is handed back.
pub fn rewrite_interval(book: Book, bytes: &[u8], at: usize, buffer: &mut [u8]) -> Reply<usize>
    ensures { outcome result buffer.new ≡ rewrite_interval book bytes.now at buffer.old }
{
    let answer = rewrite_verdict(book, bytes, at, buffer.len());
    if let Err(refusal) = answer {
        return Reply {
            book,
            answer: Err(refusal),
        };
    }
    let markets = book.services as usize + 1;
    copy(bytes, at, 12, buffer, 0);
    copy_records(book.regions as usize, markets, bytes, at, buffer);
    let records = interval_length(false, book.regions, book.services);
    let last = link_length(has_link(book));
    copy(bytes, at + records, last, buffer, records);
    Reply {
        book,
        answer: Ok(at + records + last),
    }
}
