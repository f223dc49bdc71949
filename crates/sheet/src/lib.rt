// The day sheet of an image, as text: the library under the program daysheet.
#![tactic(auto)]

mod text;

ghost use Rattle.std.specs.Prelude.{◌≡◌, ◌≤◌, length};
ghost use Rattle.amount.specs.Text.{paste};
ghost use Rattle.head.specs.Layout.{head_from};
ghost use Rattle.image.specs.Loading.{ring_of, checked, book_from};
ghost use Rattle.sheet.specs.Put.{Put};
ghost use Rattle.sheet.specs.Sheet.{header, lines, sheet_of};

use crate::text::{put_line, put_refused, put_text};
use book::record::{Book, ring_size};
use codec::get;
use image::loading::{check, load};

// The refusal of an input that is longer than an image may be, or whose book has more places than a sheet is made of.
const TOO_LARGE: u32 = 29;

fn put_header(out: &mut [u8]) -> usize
    requires { 39 ≤ length out.old }
    ensures { Put header 0 result out.old out.new }
{
    put_text(b"region,market,counted,sum,administered\n", 0, out)
}

// The header and a line a market: 39 bytes and at most 40 for each of at most 88 markets.
fn put_lines(book: Book, out: &mut [u8]) -> usize
    requires { (book.regions ≤ 8) × (book.services ≤ 10) × (3559 ≤ length out.old) }
    ensures { Put (lines book) 0 result out.old out.new }
{
    let markets = book.services as usize + 1;
    let n = book.regions as usize * markets;
    let mut at = put_header(out);
    for q in 0..n {
        let region = q / markets;
        let market = q % markets;
        let place = 11 * region + market;
        let counted = book.counts[region];
        let sum = book.sums[place];
        let administered = book.marks[place];
        at = put_line(
            region as u8,
            market as u8,
            counted,
            sum,
            administered,
            at,
            out,
        );
    }
    at
}

// How many places the ring of an image's book has.
fn ring_places(bytes: &[u8]) -> usize
    requires { 148 ≤ length bytes.now }
    ensures { result ≡ ring_of (head_from bytes.now) }
{
    let window = get(bytes, 8, 2) as u16;
    ring_size(bytes[6], bytes[7], window)
}

// Room that is lent; of what is there before, only the length matters.
pub fn zeros<T: Copy + Default, const N: usize>() -> [T; N]
    ensures { N ≡ length result }
{
    [T::default(); N]
}

// The book of an image that passes the check, in a ring of `size` places.
fn loaded_book(bytes: &[u8], size: usize) -> Book
    requires { (checked bytes.now ≡ 0) × (size ≡ ring_of (head_from bytes.now)) × (size ≤ 16384) }
    ensures { result ≡ book_from bytes.now }
{
    let mut ring = zeros::<i32, 16384>();
    let loaded = load(bytes, &mut ring[..size]);
    loaded.book
}

// The sheet as the first bytes of `out`, and how many they are.
pub fn sheet(bytes: &[u8], out: &mut [u8; 4096]) -> usize
    ensures value { result ≡ length (sheet_of bytes.now) }
    ensures out_after { out.new ≡ paste 0 (sheet_of bytes.now) out.old }
    ensures upper_bound { result ≤ length out.new }
{
    if bytes.len() > 65536 {
        return put_refused(TOO_LARGE, out);
    }
    let number = check(bytes);
    if number != 0 {
        return put_refused(number, out);
    }
    let size = ring_places(bytes);
    if size > 16384 {
        return put_refused(TOO_LARGE, out);
    }
    let book = loaded_book(bytes, size);
    put_lines(book, out)
}
