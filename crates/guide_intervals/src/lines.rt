// Plays a text line by line. A line's first letter says what it is, and the numbers in it are what it is about:
//   p m f l    the prices, marks, flows and loss factors that calls are lent from here on
//   w          with these parents books are opened from here on (255 where none is given)
//   o c        open a book: R, S, W, H, first position, threshold, cap, floor, and the ends of the link where there is one; close it
//   n a        new records, and bytes after those that are there, a number a byte
//   r          read the interval at a place; -1 is the last of all places
//   i          write an interval: number, day kind, room in the buffer, which holds sevens
//   s          fill what is lent with a synthetic interval: seed, number, day kind
//   =          a heading to print; lines that begin with anything else are for the reader
use arrayvec::ArrayVec;
use book::record::{Book, Refusal, closed};
use interval_writer::writing::{Interval, write_interval};
use intervals::reading::{Found, read_interval};
use stage::printing::{byte_list, list, number, refusal, say, signed};
use stage::reading::{fields, first_line, heading, numbers};
use stage::records::{gather, opened, place};
use synthetic::{Draw, synthesize};

// The lines with what calls are lent.
#[derive(Clone, Copy)]
struct Lines<'a> {
    prices: &'a [u8],
    marks: &'a [u8],
    flows: &'a [u8],
    factors: &'a [u8],
    parents: &'a [u8],
}

impl<'a> Lines<'a> {
    // Until a line says what is lent, it is the text's first line.
    fn new(first: &'a [u8]) -> Lines<'a> {
        Lines {
            prices: first,
            marks: first,
            flows: first,
            factors: first,
            parents: first,
        }
    }

    // Takes a line that says what calls are lent from here on.
    fn take(&mut self, letter: u8, line: &'a [u8]) {
        match letter {
            b'p' => self.prices = line,
            b'm' => self.marks = line,
            b'f' => self.flows = line,
            b'l' => self.factors = line,
            b'w' => self.parents = line,
            _ => {}
        }
    }

    fn lent(self) -> Lent {
        Lent {
            prices: numbers(self.prices),
            marks: numbers(self.marks),
            flows: numbers(self.flows),
            factors: numbers(self.factors),
        }
    }
}

// What a call is lent.
#[derive(Drop)]
struct Lent {
    prices: ArrayVec<i32, 8>,
    marks: ArrayVec<u8, 80>,
    flows: ArrayVec<i32, 8>,
    factors: ArrayVec<u32, 8>,
}

impl Lent {
    fn print(&self) {
        list(b"; prices", self.prices.as_slice(), signed);
        byte_list(b"; marks", self.marks.as_slice());
        list(b"; flows", self.flows.as_slice(), signed);
        list(
            b"; factors",
            self.factors.as_slice(),
            |n| number(u64::from(n)),
        );
        say(b"\n");
    }
}

// Where the next interval is, and what its head says; or the refusal.
fn told(found: Result<Found, Refusal>) {
    say(b"read");
    match found {
        Ok(Found { next, number, kind }) => {
            say(b" next");
            stage::printing::number(next as u64);
            say(b" number");
            stage::printing::number(number as u64);
            say(b" kind");
            stage::printing::number(kind as u64);
        }
        Err(r) => refusal(r),
    }
}

// A read into what the lines say, and what they then hold.
fn taken(book: Book, records: &[u8], line: &[u8], lines: Lines) -> Book {
    let mut lent = lines.lent();
    let t = read_interval(
        book,
        records,
        place(line),
        lent.prices.as_mut_slice(),
        lent.marks.as_mut_slice(),
        lent.flows.as_mut_slice(),
        lent.factors.as_mut_slice(),
    );
    let found = t.answer;
    told(found);
    lent.print();
    t.book
}

fn sized(size: Result<usize, Refusal>) {
    say(b"written");
    match size {
        Ok(n) => number(n as u64),
        Err(r) => refusal(r),
    }
}

// A write of what the lines say, and what the buffer then holds.
fn put(book: Book, line: &[u8], lines: Lines) -> Book {
    let [number, _, room] = fields::<u32, 3>(line, 0);
    let [_, kind] = fields::<u8, 2>(line, 0);
    let lent = lines.lent();
    let mut buffer = ArrayVec::from([7u8; 80]);
    buffer.truncate(room as usize);
    let interval = Interval {
        number,
        kind,
        prices: lent.prices.as_slice(),
        marked: lent.marks.as_slice(),
        flows: lent.flows.as_slice(),
        factors: lent.factors.as_slice(),
    };
    let w = write_interval(book, &interval, buffer.as_mut_slice());
    let answer = w.answer;
    sized(answer);
    byte_list(b"; buffer", buffer.as_slice());
    say(b"\n");
    w.book
}

// The last seed with the number and day kind that were given; or the refusal.
fn told_draw(draw: Result<Draw, Refusal>) {
    say(b"synthetic");
    match draw {
        Ok(Draw { seed, number, kind }) => {
            say(b" seed");
            stage::printing::number(seed as u64);
            say(b" number");
            stage::printing::number(number as u64);
            say(b" kind");
            stage::printing::number(kind as u64);
        }
        Err(r) => refusal(r),
    }
}

// A test load into what the lines say, and what they then hold.
fn drawn(book: Book, line: &[u8], lines: Lines) -> Book {
    let [seed, number] = fields::<u32, 2>(line, 0);
    let [_, _, kind] = fields::<u8, 3>(line, 0);
    let mut lent = lines.lent();
    let s = synthesize(
        book,
        seed,
        number,
        kind,
        lent.prices.as_mut_slice(),
        lent.marks.as_mut_slice(),
        lent.flows.as_mut_slice(),
        lent.factors.as_mut_slice(),
    );
    let draw = s.answer;
    told_draw(draw);
    lent.print();
    s.book
}

pub fn play(text: &[u8]) {
    let (first, rest) = first_line(text);
    let mut lines = Lines::new(first);
    let mut records = ArrayVec::new();
    let mut book = closed();
    for line in rest.split(|b| *b == b'\n') {
        let Some((letter, line)) = line.split_first() else {
            continue;
        };
        heading(*letter, line);
        gather(*letter, line, &mut records);
        lines.take(*letter, line);
        match *letter {
            b'o' => book = opened(line, lines.parents),
            b'c' => book = closed(),
            b'r' => book = taken(book, records.as_slice(), line, lines),
            b'i' => book = put(book, line, lines),
            b's' => book = drawn(book, line, lines),
            _ => {}
        }
    }
}
