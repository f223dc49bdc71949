// Loading a book from an image, and the image check.
ghost use Rattle.std.specs.Prelude.{◌≡◌, true, not, ◌+◌, ◌*◌, ◌≤◌, pos, length, replicate, IfOk};
ghost use Rattle.std.proofs.lemmas.List.Edits.{sets};
ghost use Rattle.laws.specs.Lists.{tabulate, all_below, first_below, total};
ghost use Rattle.laws.specs.Bytes.{price_at};
ghost use Rattle.pricing.specs.Holding.{is_energy, in_range};
ghost use Rattle.book.specs.Record.{verdict};
ghost use Rattle.book.specs.Validity.{valid};
ghost use Rattle.head.specs.Counted.{market_count, how_many};
ghost use Rattle.head.specs.Layout.{head_from};
ghost use Rattle.image.specs.Working.{found, price_verdict};
ghost use Rattle.image.specs.Loading.{lacks_tail, kind_ok, tail_ok, fields_ok, head_verdict};
ghost use Rattle.image.specs.Loading.{ring_of, load_verdict, checked, loaded_window, windows_from, sums_from, outcome, loaded};

use crate::reading::{all_in, sum};
use book::record::{Book, Refusal, Reply, closed, number_in, ring_size};
use book::validity::valid;
use codec::{get_u8, get_u16, get_u32, get_word, get_words};
use head::layout::{Head, image_length, prices_from};
use pricing::holding::in_range;

// A window anew: `count` prices from `from`, then zeros.
fn load_window(bytes: &[u8], from: usize, count: usize, window: &mut [i32])
    requires { (count ≤ length window.old) × (from + 4 * count ≤ length bytes.now) }
    ensures { window.new ≡ loaded_window bytes.now (length window.old) count from }
{
    get_words(bytes, from, count, window, 0);
    window[count..].fill(0);
}

// The ring of an image whose prices start at `from`, and the sums of its windows.
fn load_prices(bytes: &[u8], book: Book, ring: &mut [i32], from: usize) -> [i64; 88]
    requires { (valid book ≡ true) × (length ring.old ≡ ring_of book) × (from + 4 * how_many book ≤ length bytes.now) }
    ensures value { result ≡ sums_from book bytes.now (market_count book) 0 from (replicate 88 (pos 0)) }
    ensures ring_after { ring.new ≡ windows_from book bytes.now (market_count book) 0 from }
{
    let markets = book.services as usize + 1;
    let n = book.regions as usize * markets;
    let wide = book.window as usize;
    let mut sums = [0i64; 88];
    let mut at = from;
    for q in 0..n {
        let r = q / markets;
        let many = book.counts[r] as usize;
        load_window(bytes, at, many, &mut ring[q * wide..(q + 1) * wide]);
        let place = 11 * r + q % markets;
        sums[place] = sum(|i| get_word(bytes, at + 4 * i), many);
        at += 4 * many;
    }
    sums
}

// The first of `count` prices from `from` that is out of range. They are searched one by one only where they are not all in range: the
// test of all is quicker.
fn bad_in(bytes: &[u8], from: usize, count: usize, market: usize) -> Option<usize>
    requires { from + 4 * count ≤ length bytes.now }
    ensures { result ≡ found count (first_below count (λ i. not (in_range (is_energy market) (price_at bytes.now from i)))) }
{
    if all_in(|i| get_word(bytes, from + 4 * i), count, market) {
        return None;
    }
    (0..count).find(|i| !in_range(market, get_word(bytes, from + 4 * *i)))
}

// 16, of an image whose head says `book` and whose prices start at `from`.
fn price_verdict(bytes: &[u8], book: Book, from: usize) -> Result<(), Refusal>
    requires { (valid book ≡ true) × (from + 4 * how_many book ≤ length bytes.now) }
    ensures { verdict result ≡ price_verdict book bytes.now from }
{
    let markets = book.services as usize + 1;
    let n = book.regions as usize * markets;
    let mut k: usize = 0;
    for q in 0..n {
        let many = book.counts[q / markets] as usize;
        if let Some(i) = bad_in(bytes, from + 4 * k, many, q % markets) {
            return Err(Refusal::Price(k + i));
        }
        k += many;
    }
    Ok(())
}

// Whether an image of kind 2 ends before its prices.
fn lacks_tail(bytes: &[u8]) -> bool
    requires { 148 ≤ length bytes.now }
    ensures { result ≡ lacks_tail bytes.now }
{
    bytes.len() < prices_from(bytes)
}

// Whether the kind is 1 or 2.
fn kind_ok(head: &Head) -> bool
    ensures { result ≡ kind_ok head.now }
{
    (get_u16(head.bytes, 4) == 1) | head.is_second()
}

// Whether the tail of kind 2 has its zeros and its kept bytes.
fn tail_ok(head: &Head) -> bool
    ensures { result ≡ tail_ok head.now }
{
    if head.is_second() {
        return (get_u16(head.bytes, 150) == 0) & (get_u32(head.bytes, 152) == 4294967295);
    }
    true
}

// 26, of an image whose head says `book`.
fn fields_ok(head: &Head, book: Book) -> bool
    requires { book ≡ head_from head.now }
    ensures { result ≡ fields_ok head.now }
{
    let zeros = (get_u8(head.bytes, 11) == 0) & (get_u16(head.bytes, 26) == 0);
    zeros & tail_ok(head) & valid(book)
}

// The head of an image, or the first of 24 to 27.
fn good_head(bytes: &[u8]) -> Result<Head<'_>, Refusal>
    ensures answer { verdict result ≡ head_verdict bytes.now }
    ensures head { IfOk result (λ head. head ≡ bytes.now) }
{
    let n = bytes.len();
    if n < 148 {
        return Err(Refusal::ImageLength);
    }
    if get_u32(bytes, 0) as usize != n {
        return Err(Refusal::ImageLength);
    }
    if lacks_tail(bytes) {
        return Err(Refusal::ImageLength);
    }
    let head = Head { bytes };
    if !kind_ok(&head) {
        return Err(Refusal::ImageKind);
    }
    let book = head.book();
    if !fields_ok(&head, book) {
        return Err(Refusal::ImageField);
    }
    if n != image_length(head.is_second(), book) {
        return Err(Refusal::ImageTotal);
    }
    Ok(head)
}

// 24 to 27, 11 and 16 in order, with a ring of so many places.
fn load_verdict(bytes: &[u8], ring: usize) -> Result<(), Refusal>
    ensures { verdict result ≡ load_verdict bytes.now ring }
{
    let head = good_head(bytes)?;
    let book = head.book();
    if ring != ring_size(book.regions, book.services, book.window) {
        return Err(Refusal::Length);
    }
    price_verdict(bytes, book, head.prices_from())
}

// 24 to 27 and 16 in order: a load's verdict with a ring of the right length.
fn check_verdict(bytes: &[u8]) -> Result<(), Refusal>
    ensures { verdict result ≡ load_verdict bytes.now (ring_of (head_from bytes.now)) }
{
    let head = good_head(bytes)?;
    price_verdict(bytes, head.book(), head.prices_from())
}

// 0, or the number of the load's refusal, the ring's length left out.
// Kept: 0 and the number are what `checked` and the C function `guxhamole_image_check` say.
pub fn check(bytes: &[u8]) -> u32
    ensures { result ≡ checked bytes.now }
{
    number_in(check_verdict(bytes))
}

// The book of an image, with its prices in `ring`.
pub fn load(bytes: &[u8], ring: &mut [i32]) -> Reply<()>
    ensures { outcome result ring.new ≡ loaded bytes.now ring.old }
{
    let answer = load_verdict(bytes, ring.len());
    if let Err(_) = answer {
        return Reply {
            book: closed(),
            answer,
        };
    }
    let head = Head { bytes };
    let mut book = head.book();
    let sums = load_prices(bytes, book, ring, head.prices_from());
    book.sums = sums;
    Reply { book, answer }
}
