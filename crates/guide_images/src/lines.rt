// Plays a text line by line. A line's first letter says what it is, and the numbers in it are what it is about:
//   w          with these parents books are opened from here on (255 where none is given)
//   o          open a book: R, S, W, H, first position, threshold, cap, floor, and the ends of the link where there is one
//   p f        the prices and factors that entries are lent from here on; each link's flow is 1, and no region is marked
//   e          an entry: number
//   s          store by kind 1 or 2 into so many bytes
//   v          view bytes 148 to 155 of the image
//   b          put into a place of the image a byte, as others might
//   c          check so many bytes of the image
//   l          load so many bytes of the image, and go on with that book
//   =          a heading to print; lines that begin with anything else are for the reader
use book::record::{Book, Refusal, Reply, closed, ring_size};
use book_calls::opening::open;
use entries::{Entry, enter};
use image::loading::{check, load};
use image::storing::{store_kind_1, store_kind_2};
use stage::printing::{answered, byte_list, number, published, refusal, say};
use stage::reading::{fields, first_line, heading, numbers, settings};

// The lines with what calls are lent.
#[derive(Clone, Copy)]
struct Lines<'a> {
    prices: &'a [u8],
    factors: &'a [u8],
    parents: &'a [u8],
}

impl<'a> Lines<'a> {
    // Until a line says what is lent, it is the text's first line.
    fn new(first: &'a [u8]) -> Lines<'a> {
        Lines {
            prices: first,
            factors: first,
            parents: first,
        }
    }

    // Takes a line that says what calls are lent from here on.
    fn take(&mut self, letter: u8, line: &'a [u8]) {
        match letter {
            b'p' => self.prices = line,
            b'f' => self.factors = line,
            b'w' => self.parents = line,
            _ => {}
        }
    }
}

// Over the ring that it asks for.
fn opened(places: &mut [i32; 8], line: &[u8], parents: &[u8]) -> Book {
    let s = settings(line, parents);
    let n = ring_size(s.regions, s.services, s.window).min(8);
    let o = open(s, &mut places[..n]);
    let answer = o.answer;
    answered(b"open", answer);
    o.book
}

// An entry of a book without services, lent the prices of a line.
fn entered(book: Book, ring: &mut [i32], line: &[u8], lines: Lines) -> Book {
    let [number] = fields::<u32, 1>(line, 0);
    let prices = numbers::<i32, 16>(lines.prices);
    let factors = numbers::<u32, 9>(lines.factors);
    let mut places = [0i32; 16];
    let table = &mut places[..prices.len()];
    let regions = prices.len().min(8);
    let entry = Entry {
        kind: 0,
        prices: prices.as_slice(),
        marked: &[0; 8][..regions],
        flows: &[1; 9][..factors.len()],
        factors: factors.as_slice(),
        schedule: &[0; 32][..2 * prices.len()],
    };
    let e = enter(book, ring, number, &entry, table);
    let publication = e.answer;
    published(publication, table);
    e.book
}

fn store_by(kind: u32, book: Book, ring: &[i32], image: &mut [u8]) -> Reply<usize> {
    if kind == 1 {
        return store_kind_1(book, ring, image);
    }
    store_kind_2(book, ring, image)
}

// The length of an image, or the refusal.
fn told(image: Result<usize, Refusal>) {
    say(b"stored");
    match image {
        Ok(n) => number(n as u64),
        Err(r) => refusal(r),
    }
    say(b"\n");
}

fn stored(book: Book, ring: &[i32], image: &mut [u8; 192], line: &[u8]) -> Book {
    let [kind, room] = fields::<u32, 2>(line, 0);
    let n = (room as usize).min(192);
    let s = store_by(kind, book, ring, &mut image[..n]);
    let answer = s.answer;
    told(answer);
    s.book
}

fn put(image: &mut [u8; 192], line: &[u8]) {
    let [place] = fields::<u32, 1>(line, 0);
    let [_, byte] = fields::<u8, 2>(line, 0);
    if place < 192 {
        image[place as usize] = byte;
    }
}

// So many bytes of the image as a line says.
fn bytes_in<'a>(image: &'a [u8; 192], line: &[u8]) -> &'a [u8] {
    let [n] = fields::<u32, 1>(line, 0);
    &image[..(n as usize).min(192)]
}

fn checked(image: &[u8]) {
    say(b"check");
    number(u64::from(check(image)));
    say(b"\n");
}

// The ends of the loaded book's link; 255 where it has none.
fn linked(book: Book) {
    say(b"loaded, link");
    number(book.from as u64);
    number(book.to as u64);
    say(b"\n");
}

// The loaded book; refused, the book that there was, and its ring is as it was.
fn loaded(before: Book, ring: &mut [i32], image: &[u8]) -> Book {
    let l = load(image, ring);
    let answer = l.answer;
    answered(b"load", answer);
    match answer {
        Ok(()) => {
            let book = l.book;
            linked(book);
            book
        }
        Err(_) => before,
    }
}

// The book after a line that is lent its ring.
fn called(
    book: Book,
    ring: &mut [i32],
    image: &mut [u8; 192],
    letter: u8,
    line: &[u8],
    lines: Lines,
) -> Book {
    match letter {
        b'e' => entered(book, ring, line, lines),
        b's' => stored(book, ring, image, line),
        b'l' => loaded(book, ring, bytes_in(image, line)),
        _ => book,
    }
}

// A line that is about the image's bytes alone; those that are viewed are the ones that kind 1 has not.
fn looked(image: &mut [u8; 192], letter: u8, line: &[u8]) {
    match letter {
        b'v' => {
            byte_list(b"bytes", &image[148..156]);
            say(b"\n");
        }
        b'b' => put(image, line),
        b'c' => checked(bytes_in(image, line)),
        _ => {}
    }
}

pub fn play(text: &[u8]) {
    let (first, rest) = first_line(text);
    let mut lines = Lines::new(first);
    let mut places = [0i32; 8];
    let mut image = [0u8; 192];
    let mut book = closed();
    for line in rest.split(|b| *b == b'\n') {
        let Some((letter, line)) = line.split_first() else {
            continue;
        };
        heading(*letter, line);
        lines.take(*letter, line);
        looked(&mut image, *letter, line);
        book = if *letter == b'o' {
            opened(&mut places, line, lines.parents)
        } else {
            let n = ring_size(book.regions, book.services, book.window).min(8);
            called(book, &mut places[..n], &mut image, *letter, line, lines)
        };
    }
}
