// Plays a text line by line. A line's first letter says what it is, and the numbers in it are what it is about:
//   p m f l s  the prices, marks, flows, loss factors and the schedule that entries are lent from here on
//   w          with these parents books are opened from here on (255 where none is given)
//   a          a ring of so many places is lent from here on
//   o          open a book: R, S, W, H, first position, threshold, cap, floor, and the ends of the link where there is one
//   i          begin with an image of a book with these settings and without entries: its threshold may be one that no opening takes
//   e          an entry: number, day kind
//   t c        set the threshold; cap and floor
//   r          report: region, market
//   q          a question of intervals left: region, market, price
//   b          break the ring and the first sum, as others might; v: view that sum
//   j          put a number into a place of the ring, as others might
//   =          a heading to print; lines that begin with anything else are for the reader
use book::record::{Book, Refusal, Reply, Settings, closed};
use book_calls::opening::open;
use book_calls::report::report;
use book_calls::setting::{set_limits, set_threshold};
use entries::{Entry, enter};
use image::loading::load;
use image::storing::store_kind_2;
use planning::intervals_left;
use stage::printing::{amount, answered, number, published, refusal, reported, say};
use stage::reading::{fields, first_line, heading, numbers, settings};

// The lines with what calls are lent.
#[derive(Clone, Copy)]
struct Lines<'a> {
    prices: &'a [u8],
    marks: &'a [u8],
    flows: &'a [u8],
    factors: &'a [u8],
    schedule: &'a [u8],
    parents: &'a [u8],
    ring: &'a [u8],
}

impl<'a> Lines<'a> {
    // Until a line says what is lent, it is the text's first line.
    fn new(first: &'a [u8]) -> Lines<'a> {
        Lines {
            prices: first,
            marks: first,
            flows: first,
            factors: first,
            schedule: first,
            parents: first,
            ring: first,
        }
    }

    // Takes a line that says what calls are lent from here on.
    fn take(&mut self, letter: u8, line: &'a [u8]) {
        match letter {
            b'p' => self.prices = line,
            b'm' => self.marks = line,
            b'f' => self.flows = line,
            b'l' => self.factors = line,
            b's' => self.schedule = line,
            b'w' => self.parents = line,
            b'a' => self.ring = line,
            _ => {}
        }
    }
}

fn opened(ring: &mut [i32], line: &[u8], parents: &[u8]) -> Book {
    let o = open(settings(line, parents), ring);
    let answer = o.answer;
    answered(b"open", answer);
    o.book
}

// The image of a book as opened, but with another threshold.
fn imaged(settings: Settings, ring: &mut [i32], image: &mut [u8]) {
    let mut open_with = settings;
    open_with.threshold = 10000;
    let o = open(open_with, ring);
    let mut book = o.book;
    book.threshold = settings.threshold;
    store_kind_2(book, ring, image);
}

fn loaded(ring: &mut [i32], line: &[u8], parents: &[u8]) -> Book {
    let mut image = [0u8; 156];
    imaged(settings(line, parents), ring, &mut image);
    let l = load(&image, ring);
    let answer = l.answer;
    answered(b"image", answer);
    l.book
}

// An entry that is lent what the lines say, and a table as long as its prices.
fn entered(book: Book, ring: &mut [i32], line: &[u8], lines: Lines) -> Book {
    let [number] = fields::<u32, 1>(line, 0);
    let [_, kind] = fields::<u8, 2>(line, 0);
    let prices = numbers::<i32, 16>(lines.prices);
    let marks = numbers::<u8, 8>(lines.marks);
    let flows = numbers::<i32, 9>(lines.flows);
    let factors = numbers::<u32, 9>(lines.factors);
    let schedule = numbers::<i32, 32>(lines.schedule);
    let mut places = [0i32; 16];
    let table = &mut places[..prices.len()];
    let entry = Entry {
        kind,
        prices: prices.as_slice(),
        marked: marks.as_slice(),
        flows: flows.as_slice(),
        factors: factors.as_slice(),
        schedule: schedule.as_slice(),
    };
    let e = enter(book, ring, number, &entry, table);
    let publication = e.answer;
    published(publication, table);
    e.book
}

// The book after a setting.
fn set(call: &[u8], changed: Reply<()>) -> Book {
    let answer = changed.answer;
    answered(call, answer);
    changed.book
}

fn shown(book: Book, line: &[u8]) -> Book {
    let [region, market] = fields::<u32, 2>(line, 0);
    let r = report(book, region, market);
    let reading = r.answer;
    reported(reading);
    r.book
}

// How many intervals are left, or the refusal.
fn print_left(left: Result<u16, Refusal>) {
    say(b"left");
    match left {
        Ok(n) => number(n as u64),
        Err(r) => refusal(r),
    }
    say(b"\n");
}

fn questioned(book: Book, ring: &[i32], line: &[u8]) -> Book {
    let [region, market, price] = fields::<i32, 3>(line, 0);
    let p = intervals_left(
        book,
        ring,
        region.cast_unsigned(),
        market.cast_unsigned(),
        price,
    );
    let left = p.answer;
    print_left(left);
    p.book
}

fn put_place(ring: &mut [i32], line: &[u8]) {
    let [place, number] = fields::<i32, 2>(line, 0);
    let place = place.cast_unsigned() as usize;
    if place < ring.len() {
        ring[place] = number;
    }
}

// A book whose first sum is at its bound, and a ring whose first place holds the least number.
fn broken(before: Book, ring: &mut [i32]) -> Book {
    let mut book = before;
    book.sums[0] = 20160000000;
    if ring.len() > 0 {
        ring[0] = i32::MIN;
    }
    book
}

fn view_sum(book: Book) {
    amount(book.sums[0]);
    say(b"\n");
}

// The book after a line that is lent nothing: a setting, a report.
fn asked(book: Book, letter: u8, line: &[u8]) -> Book {
    match letter {
        b't' => {
            let [threshold] = fields::<i64, 1>(line, 0);
            set(b"threshold", set_threshold(book, threshold))
        }
        b'c' => {
            let [cap, floor] = fields::<i32, 2>(line, 0);
            set(b"limits", set_limits(book, cap, floor))
        }
        b'r' => shown(book, line),
        _ => book,
    }
}

// The book after a line.
fn called(book: Book, ring: &mut [i32], letter: u8, line: &[u8], lines: Lines) -> Book {
    match letter {
        b'o' => opened(ring, line, lines.parents),
        b'i' => loaded(ring, line, lines.parents),
        b'e' => entered(book, ring, line, lines),
        b'q' => questioned(book, ring, line),
        b'b' => broken(book, ring),
        _ => asked(book, letter, line),
    }
}

pub fn play(text: &[u8]) {
    let (first, rest) = first_line(text);
    let mut lines = Lines::new(first);
    let mut places = [7i32; 16];
    let mut book = closed();
    for line in rest.split(|b| *b == b'\n') {
        let Some((letter, line)) = line.split_first() else {
            continue;
        };
        heading(*letter, line);
        lines.take(*letter, line);
        let [lent] = fields::<u32, 1>(lines.ring, 0);
        let ring = &mut places[..(lent as usize).min(16)];
        match *letter {
            b'j' => put_place(ring, line),
            b'v' => view_sum(book),
            _ => book = called(book, ring, *letter, line, lines),
        }
    }
}
