// What the programs on interval records share: a place in records, a book over a small ring, and bytes gathered from lines.
use crate::printing::{answered, say};
use crate::reading::{extend, fields, settings};
use arrayvec::ArrayVec;
use book::record::{Book, ring_size};
use book_calls::opening::open;

// A place in records: -1 is the last that there can be.
pub fn place(line: &[u8]) -> usize {
    let [signed] = fields::<i32, 1>(line, 0);
    let [place] = fields::<u32, 1>(line, 0);
    if signed < 0 {
        usize::MAX
    } else {
        place as usize
    }
}

// A book of at most eight prices, over the ring that it asks for.
pub fn opened(line: &[u8], parents: &[u8]) -> Book {
    let mut ring = [0i32; 8];
    let s = settings(line, parents);
    let n = ring_size(s.regions, s.services, s.window).min(8);
    let o = open(s, &mut ring[..n]);
    let answer = o.answer;
    answered(b"open", answer);
    o.book
}

// Gathers new records from a line, or bytes after those that are there.
pub fn gather(letter: u8, line: &[u8], records: &mut ArrayVec<u8, 256>) {
    match letter {
        b'n' => {
            records.clear();
            extend(records, line);
        }
        b'a' => extend(records, line),
        _ => {}
    }
}
