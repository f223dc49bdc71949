// The head of an image: its fields one after the other, written and read.
ghost use Rattle.std.specs.Prelude.{◌≡◌, true, ◌+◌, ◌*◌, ◌≤◌, ◌<◌, length, get_or, replicate};
ghost use Rattle.std.proofs.lemmas.List.Edits.{sets};
ghost use Rattle.laws.specs.Lists.{tabulate};
ghost use Rattle.laws.specs.Bytes.{number_at, encode};
ghost use Rattle.head.specs.Layout.{widths, values, next_of, head_from};
ghost use Rattle.head.specs.Layout.{kind_of, head_size, length_of, tail_widths, tail, front_of, is_second, end_in};

use crate::counted::how_many;
use book::record::Book;
use codec::{bits32, bits64, get, get_array, get_u8, get_u16, get_u32, get_word, put, signed64};
use std::marker::Model;

// Where the prices of an image start, of kind 2 if `second`.
pub fn head_size(second: bool) -> usize
    ensures { result ≡ head_size second }
{
    if second { 156 } else { 148 }
}

// The length of a book's image, for any numbers.
pub fn image_length(second: bool, book: Book) -> usize
    ensures { (result ≡ length_of second book) × (result ≤ 536862876) }
{
    head_size(second) + 4 * how_many(book)
}

// The number of a kind.
fn kind_of(second: bool) -> u64
    ensures { result ≡ kind_of second }
{
    if second { 2 } else { 1 }
}

fn put_counts(counts: [u16; 8], buffer: &mut [u8])
    requires { 60 ≤ length buffer.old }
    ensures { buffer.new ≡ sets buffer.old 44 (encode (replicate 8 2) counts) }
{
    for i in 0..8 {
        put(buffer, 44 + 2 * i, 2, counts[i] as u64);
    }
}

// The head of an image of `size` bytes, of kind 2 if `second`, one field after the other.
fn put_head(book: Book, size: u32, second: bool, buffer: &mut [u8])
    requires { 148 ≤ length buffer.old }
    ensures buffer_after { buffer.new ≡ sets buffer.old 0 (encode widths (values size (kind_of second) book)) }
    ensures book_len { length (encode widths (values size (kind_of second) book)) ≡ 148 }
{
    put(buffer, 0, 4, size as u64);
    put(buffer, 4, 2, kind_of(second));
    put(buffer, 6, 1, book.regions as u64);
    put(buffer, 7, 1, book.services as u64);
    put(buffer, 8, 2, book.window as u64);
    put(buffer, 10, 1, book.halves as u64);
    put(buffer, 11, 1, 0);
    buffer[12..20].copy_from_slice(&book.parents);
    put(buffer, 20, 4, book.entries as u64);
    put(buffer, 24, 2, book.position as u64);
    put(buffer, 26, 2, 0);
    put(buffer, 28, 8, bits64(book.threshold));
    put(buffer, 36, 4, bits32(book.cap) as u64);
    put(buffer, 40, 4, bits32(book.floor) as u64);
    put_counts(book.counts, buffer);
    buffer[60..148].copy_from_slice(&book.marks);
}

// What kind 2 has between the head and the prices: the ends, two zeros and four bytes that are kept.
fn put_tail(book: Book, buffer: &mut [u8])
    requires { 156 ≤ length buffer.old }
    ensures { buffer.new ≡ sets buffer.old 148 (encode tail_widths (tail book)) }
{
    put(buffer, 148, 1, book.from as u64);
    put(buffer, 149, 1, book.to as u64);
    put(buffer, 150, 2, 0);
    put(buffer, 152, 4, 4294967295);
}

// All that stands before the prices of an image of `size` bytes.
pub fn put_front(second: bool, book: Book, size: u32, buffer: &mut [u8])
    requires { head_size second ≤ length buffer.old }
    ensures buffer_after { buffer.new ≡ sets buffer.old 0 (front_of size second book) }
    ensures book_len { length (encode widths (values size (kind_of second) book)) ≡ 148 }
{
    put_head(book, size, second, buffer);
    if second {
        put_tail(book, buffer);
    }
}

// The next place of a window with so many prices, the oldest at its first place.
fn next_place(window: u16, count: u16) -> u16
    ensures { result ≡ next_of window count }
{
    if count < window { count } else { 0 }
}

fn next_places(window: u16, counts: [u16; 8]) -> [u16; 8]
    ensures { result ≡ tabulate 8 (λ i. next_of window (get_or counts i 0)) }
{
    // Kept: what std promises of `map` does not carry over that the closure still holds this window at each call.
    let mut nexts = [0u16; 8];
    for i in 0..8 {
        nexts[i] = next_place(window, counts[i]);
    }
    nexts
}

// Whether the kind is 2, of bytes that may end before the prices of kind 2.
pub fn is_second(bytes: &[u8]) -> bool
    requires { 148 ≤ length bytes.now }
    ensures { result ≡ is_second bytes.now }
{
    get_u16(bytes, 4) == 2
}

// Where the prices of an image start, by its kind.
pub fn prices_from(bytes: &[u8]) -> usize
    requires { 148 ≤ length bytes.now }
    ensures { result ≡ head_size (is_second bytes.now) }
{
    head_size(is_second(bytes))
}

// The end of the additional link at a place of the tail; kind 1 has no tail, and none of the ends.
pub fn end_in(bytes: &[u8], at: usize) -> u8
    requires { (148 ≤ length bytes.now) × (is_second bytes.now ≡ true → at < length bytes.now) }
    ensures { result ≡ end_in bytes.now at }
{
    if is_second(bytes) {
        return get_u8(bytes, at);
    }
    255
}

// An image whose head stands whole, with the tail that its kind has.
#[derive(Drop)]
pub struct Head<'a> {
    pub bytes: &'a [u8],
}

impl<'a> Model for Head<'a> {
    ghost use Rattle.std.specs.Prelude.{List, ℕ};
    ghost use Rattle.head.specs.Working.{Whole};

    ghost Value = { List ℕ };

    ghost view = { λ h. h.bytes.now };

    ghost invariant = { λ h. Whole h.bytes.now };
}

impl<'a> Head<'a> {
    // Whether the kind is 2.
    pub fn is_second(&self) -> bool
        ensures { result ≡ is_second self.now }
    {
        is_second(self.bytes)
    }

    // Where the prices of the image start, by its kind.
    pub fn prices_from(&self) -> usize
        ensures { result ≡ head_size (is_second self.now) }
    {
        prices_from(self.bytes)
    }

    // The book that the head says, before its sums are added up.
    pub fn book(&self) -> Book
        ensures { result ≡ head_from self.now }
    {
        let bytes = self.bytes;
        let window = get_u16(bytes, 8);
        let counts = get_array(bytes, 44);
        let nexts = next_places(window, counts);
        let parents = get_array(bytes, 12);
        let marks = get_array(bytes, 60);
        let from = end_in(bytes, 148);
        let to = end_in(bytes, 149);
        Book {
            regions: get_u8(bytes, 6),
            services: get_u8(bytes, 7),
            window,
            halves: get_u8(bytes, 10),
            parents,
            from,
            to,
            threshold: signed64(get(bytes, 28, 8)),
            cap: get_word(bytes, 36),
            floor: get_word(bytes, 40),
            entries: get_u32(bytes, 20),
            position: get_u16(bytes, 24),
            counts,
            nexts,
            sums: [0; 88],
            marks,
        }
    }
}
