// Plays a text line by line. A line's first letter says what it is, and the numbers in it are what it is about:
//   w          with these parents books are opened from here on (255 where none is given)
//   o c        open a book: R, S, W, H, first position, threshold, cap, floor, and the ends of the link where there is one; close it
//   f          make of the book one that others changed: entries taken, and of the first region prices counted and energy's sum
//   n a        new records, and bytes after those that are there, a number a byte
//   i e p m    the numbers, kilowatt-hours, prices and amounts of the bill's lines from here on
//   s r k      the schedule, the book's ring and the second one from here on
//   b          hold the lines against the records: region
//   =          a heading to print; lines that begin with anything else are for the reader
use arrayvec::ArrayVec;
use billing::check_bill;
use book::record::{Book, Refusal, closed};
use stage::printing::{list, number, refusal, say, signed};
use stage::reading::{fields, first_line, heading, numbers};
use stage::records::{gather, opened};

// The lines with what is lent.
#[derive(Clone, Copy)]
struct Lent<'a> {
    intervals: &'a [u8],
    energy: &'a [u8],
    prices: &'a [u8],
    charged: &'a [u8],
    schedule: &'a [u8],
    ring: &'a [u8],
    work: &'a [u8],
    parents: &'a [u8],
}

impl<'a> Lent<'a> {
    // Until a line says what is lent, it is the text's first line.
    fn new(first: &'a [u8]) -> Lent<'a> {
        Lent {
            intervals: first,
            energy: first,
            prices: first,
            charged: first,
            schedule: first,
            ring: first,
            work: first,
            parents: first,
        }
    }

    // Takes a line that says what is lent from here on.
    fn take(&mut self, letter: u8, line: &'a [u8]) {
        match letter {
            b'i' => self.intervals = line,
            b'e' => self.energy = line,
            b'p' => self.prices = line,
            b'm' => self.charged = line,
            b's' => self.schedule = line,
            b'r' => self.ring = line,
            b'k' => self.work = line,
            b'w' => self.parents = line,
            _ => {}
        }
    }
}

fn told(answer: Result<Option<usize>, Refusal>) {
    say(b"bill");
    match answer {
        Ok(None) => say(b" right"),
        Ok(Some(line)) => {
            say(b" wrong line");
            number(line as u64);
        }
        Err(r) => refusal(r),
    }
}

// A bill that is lent what the lines say, and what the second ring then holds.
fn billed(book: Book, records: &[u8], line: &[u8], lent: Lent) -> Book {
    let [region] = fields::<u32, 1>(line, 0);
    let intervals = numbers::<u32, 4>(lent.intervals);
    let energy = numbers::<u32, 4>(lent.energy);
    let prices = numbers::<i32, 4>(lent.prices);
    let charged = numbers::<i64, 4>(lent.charged);
    let schedule = numbers::<i32, 8>(lent.schedule);
    let ring = numbers::<i32, 4>(lent.ring);
    let mut work = numbers::<i32, 4>(lent.work);
    let checked = check_bill(
        book,
        ring.as_slice(),
        work.as_mut_slice(),
        records,
        schedule.as_slice(),
        region,
        intervals.as_slice(),
        energy.as_slice(),
        prices.as_slice(),
        charged.as_slice(),
    );
    told(checked.answer);
    list(b"; second ring", work.as_slice(), signed);
    say(b"\n");
    checked.book
}

fn changed(book: Book, line: &[u8]) -> Book {
    let [entries] = fields::<u32, 1>(line, 0);
    let [_, counted] = fields::<u8, 2>(line, 0);
    let [_, _, sum] = fields::<i64, 3>(line, 0);
    let mut after = book;
    after.entries = entries;
    after.counts[0] = u16::from(counted);
    after.sums[0] = sum;
    after
}

pub fn play(text: &[u8]) {
    let (first, rest) = first_line(text);
    let mut lent = Lent::new(first);
    let mut records = ArrayVec::new();
    let mut book = closed();
    for line in rest.split(|b| *b == b'\n') {
        let Some((letter, line)) = line.split_first() else {
            continue;
        };
        heading(*letter, line);
        gather(*letter, line, &mut records);
        lent.take(*letter, line);
        match *letter {
            b'o' => book = opened(line, lent.parents),
            b'c' => book = closed(),
            b'f' => book = changed(book, line),
            b'b' => book = billed(book, records.as_slice(), line, lent),
            _ => {}
        }
    }
}
