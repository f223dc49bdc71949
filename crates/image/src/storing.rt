// Storing a book as an image.
ghost use Rattle.std.specs.Prelude.{◌≡◌, true, false, ◌++◌, ◌+◌, ◌*◌, ◌≤◌, ◌<◌, length};
ghost use Rattle.std.proofs.lemmas.List.Edits.{sets};
ghost use Rattle.laws.specs.Bytes.{words};
ghost use Rattle.book.specs.Record.{verdict};
ghost use Rattle.book.specs.Validity.{valid};
ghost use Rattle.head.specs.Counted.{window_of, counted, how_many};
ghost use Rattle.image.specs.Loading.{ring_of};
ghost use Rattle.image.specs.Storing.{window_ok, prices_ok, store_verdict, outcome, stored};

use crate::reading::{all_in, sum};
use book::record::{Book, Refusal, Reply, has_link, ring_size};
use book::validity::valid;
use codec::put_words;
use head::counted::oldest;
use head::layout::{head_size, image_length, put_front};

// `count` prices of a window in their order, the oldest at place `start`: those up to the window's end, and those from its first place
// on.
fn in_order(window: &[i32], start: usize, count: usize) -> (&[i32], &[i32])
    requires { (0 < length window.now) × (start ≤ length window.now) × (count ≤ length window.now) }
    ensures prices { result.0.now ++ result.1.now ≡ window_of window.now 0 (length window.now) start count }
    ensures lengths { length result.0.now + length result.1.now ≡ count }
{
    let older = count.min(window.len() - start);
    (&window[start..start + older], &window[..count - older])
}

// `count` prices of a window, the oldest at place `start`, put into `buffer` from `at`.
fn put_window(window: &[i32], start: usize, count: usize, buffer: &mut [u8], at: usize)
    requires in_window { (0 < length window.now) × (start ≤ length window.now) × (count ≤ length window.now) }
    requires room { at + 4 * count ≤ length buffer.old }
    ensures { buffer.new ≡ sets buffer.old at (words (window_of window.now 0 (length window.now) start count)) }
{
    let (older, newer) = in_order(window, start, count);
    put_words(buffer, at, older, 0, older.len());
    put_words(buffer, at + 4 * older.len(), newer, 0, newer.len());
}

// The counted prices, market by market, put into `buffer` from `from`.
fn put_prices(book: Book, ring: &[i32], buffer: &mut [u8], from: usize)
    requires { (valid book ≡ true) × (length ring.now ≡ ring_of book) × (from + 4 * how_many book ≤ length buffer.old) }
    ensures { buffer.new ≡ sets buffer.old from (words (counted book ring.now)) }
{
    let markets = book.services as usize + 1;
    let n = book.regions as usize * markets;
    let window = book.window;
    let wide = window as usize;
    let mut at = from;
    for q in 0..n {
        let r = q / markets;
        let count = book.counts[r];
        let next = book.nexts[r];
        let start = oldest(window, count, next) as usize;
        let many = count as usize;
        put_window(&ring[q * wide..(q + 1) * wide], start, many, buffer, at);
        at += 4 * many;
    }
}

// Whether `count` prices of a window, the oldest at place `start`, are in range, with `total` as their total.
fn window_ok(window: &[i32], start: usize, count: usize, market: usize, total: i64) -> bool
    requires in_window { (0 < length window.now) × (start ≤ length window.now) × (count ≤ length window.now) }
    requires few { length window.now ≤ 2016 }
    ensures { result ≡ window_ok window.now 0 (length window.now) start count market total }
{
    let (older, newer) = in_order(window, start, count);
    let ok = all_in(|i| older[i], older.len(), market) & all_in(|i| newer[i], newer.len(), market);
    let sum = sum(|i| older[i], older.len()) + sum(|i| newer[i], newer.len());
    ok & (sum == total)
}

// Whether every counted price of the book is in range, and every sum is the total of its prices.
pub fn prices_ok(book: Book, ring: &[i32]) -> bool
    requires { (valid book ≡ true) × (length ring.now ≡ ring_of book) }
    ensures { result ≡ prices_ok book ring.now }
{
    let markets = book.services as usize + 1;
    let n = book.regions as usize * markets;
    let window = book.window;
    let wide = window as usize;
    let mut ok = true;
    for q in 0..n {
        let r = q / markets;
        let m = q % markets;
        let count = book.counts[r];
        let next = book.nexts[r];
        let start = oldest(window, count, next) as usize;
        let sum = book.sums[11 * r + m];
        let window = &ring[q * wide..(q + 1) * wide];
        ok = ok & window_ok(window, start, count as usize, m, sum);
    }
    ok
}

// 10, 11, 22, 47 and 23 in order.
fn store_verdict(second: bool, book: Book, ring: &[i32], room: usize) -> Result<(), Refusal>
    ensures { verdict result ≡ store_verdict second book ring.now room }
{
    if !valid(book) {
        return Err(Refusal::Invalid);
    }
    if ring.len() != ring_size(book.regions, book.services, book.window) {
        return Err(Refusal::Length);
    }
    if !prices_ok(book, ring) {
        return Err(Refusal::Sums);
    }
    if !(second | !has_link(book)) {
        return Err(Refusal::ImageFirst);
    }
    if room < image_length(second, book) {
        return Err(Refusal::Buffer);
    }
    Ok(())
}

// The image of kind 2 if `second`, of kind 1 if not, as the first bytes of `buffer`, and its length; the bytes after it stay.
fn store_as(second: bool, book: Book, ring: &[i32], buffer: &mut [u8]) -> Reply<usize>
    ensures { outcome result buffer.new ≡ stored second book ring.now buffer.old }
{
    let answer = store_verdict(second, book, ring, buffer.len());
    if let Err(refusal) = answer {
        return Reply {
            book,
            answer: Err(refusal),
        };
    }
    let size = image_length(second, book);
    put_front(second, book, size as u32, buffer);
    put_prices(book, ring, buffer, head_size(second));
    Reply {
        book,
        answer: Ok(size),
    }
}

// The kind 1 image of a book. A book that has the additional link is refused by 47: kind 1 has no place for it.
// Kept: two names over `store_as`, as the two C functions have them; a caller with `true` or `false` would say less.
pub fn store_kind_1(book: Book, ring: &[i32], buffer: &mut [u8]) -> Reply<usize>
    ensures { outcome result buffer.new ≡ stored false book ring.now buffer.old }
{
    store_as(false, book, ring, buffer)
}

// The kind 2 image of a book.
pub fn store_kind_2(book: Book, ring: &[i32], buffer: &mut [u8]) -> Reply<usize>
    ensures { outcome result buffer.new ≡ stored true book ring.now buffer.old }
{
    store_as(true, book, ring, buffer)
}
