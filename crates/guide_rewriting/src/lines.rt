// Plays a text line by line. A line's first letter says what it is, and the numbers in it are what it is about:
//   w          with these parents books are opened from here on (255 where none is given)
//   o c        open a book: R, S, W, H, first position, threshold, cap, floor, and the ends of the link where there is one; close it
//   n a        new records, and bytes after those that are there, a number a byte
//   t          take the interval at a place (-1 is the last of all places) and rewrite it into so many bytes, which hold sevens
//   =          a heading to print; lines that begin with anything else are for the reader
use arrayvec::ArrayVec;
use book::record::{Book, Refusal, closed};
use interval_rewriter::rewriting::rewrite_interval;
use stage::printing::{byte_list, number, refusal, say};
use stage::reading::{fields, first_line, heading};
use stage::records::{gather, opened, place};

// The place after the interval that was taken; or the refusal.
fn told(after: Result<usize, Refusal>) {
    say(b"rewritten");
    match after {
        Ok(next) => {
            say(b" next");
            number(next as u64);
        }
        Err(r) => refusal(r),
    }
}

// A rewriting, and what the buffer then holds.
fn taken(book: Book, records: &[u8], line: &[u8]) -> Book {
    let [_, room] = fields::<u32, 2>(line, 0);
    let mut buffer = ArrayVec::from([7u8; 80]);
    buffer.truncate(room as usize);
    let r = rewrite_interval(book, records, place(line), buffer.as_mut_slice());
    let after = r.answer;
    told(after);
    byte_list(b"; buffer", buffer.as_slice());
    say(b"\n");
    r.book
}

pub fn play(text: &[u8]) {
    let (first, rest) = first_line(text);
    let mut records = ArrayVec::new();
    let mut parents = first;
    let mut book = closed();
    for line in rest.split(|b| *b == b'\n') {
        let Some((letter, line)) = line.split_first() else {
            continue;
        };
        heading(*letter, line);
        gather(*letter, line, &mut records);
        match *letter {
            b'w' => parents = line,
            b'o' => book = opened(line, parents),
            b'c' => book = closed(),
            b't' => book = taken(book, records.as_slice(), line),
            _ => {}
        }
    }
}
