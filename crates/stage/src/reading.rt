// Reads a line of text: the numbers in it in their order; all else is for the reader.
ghost use Rattle.std.specs.Prelude.{◌≤◌};

use crate::printing::say;
use arrayvec::ArrayVec;
use book::record::Settings;

// A number in a line, of which no digit is read beyond four times what a threshold may be, and whether a minus stands before it.
#[derive(Clone, Copy)]
pub struct Number {
    minus: bool,
    value: u64,
    ghost bounded: { value ≤ 4000000000009 },
}

impl Number {
    fn signed(self) -> i64 {
        let value = self.value as i64;
        if self.minus { -value } else { value }
    }
}

impl From<Number> for u8 {
    fn from(n: Number) -> u8 {
        n.value.min(255) as u8
    }
}

impl From<Number> for u32 {
    fn from(n: Number) -> u32 {
        n.value.min(4294967295) as u32
    }
}

// In cents, at most ten times what a threshold may be.
impl From<Number> for i64 {
    fn from(n: Number) -> i64 {
        if n.value > 1000000000000 {
            return 1000000000000;
        }
        n.signed()
    }
}

impl From<Number> for i32 {
    fn from(n: Number) -> i32 {
        n.signed().clamp(-2147483648, 2147483647) as i32
    }
}

// A number with one more digit, where there is room for any.
fn longer(n: u64, digit: u8) -> u64
    requires { n ≤ 4000000000009 }
    ensures { result ≤ 4000000000009 }
{
    if n > 400000000000 {
        return n;
    }
    n * 10 + u64::from(digit & 15).min(9)
}

// The first number in a line, and what stands after it.
fn next_number(line: &[u8]) -> Option<(Number, &[u8])> {
    let from = line.iter().position(|b| b.is_ascii_digit())?;
    let minus = from > 0 && line[from - 1] == b'-';
    let mut value: u64 = 0;
    for i in from..line.len() {
        if !line[i].is_ascii_digit() {
            return Some((Number { minus, value }, &line[i..]));
        }
        value = longer(value, line[i]);
    }
    Some((Number { minus, value }, b""))
}

// Puts the numbers of a line after those that are there, as many as there is room for.
pub fn extend<T: From<Number> + Drop, const N: usize>(list: &mut ArrayVec<T, N>, line: &[u8]) {
    let mut rest = line;
    for _ in 0..N {
        let Some((number, after)) = next_number(rest) else {
            return;
        };
        let _ = list.try_push(T::from(number));
        rest = after;
    }
}

// The numbers of a line, as many as there is room for.
pub fn numbers<T: From<Number> + Default + Drop, const N: usize>(line: &[u8]) -> ArrayVec<T, N> {
    let mut list = ArrayVec::new();
    extend(&mut list, line);
    list
}

// The first numbers of a line, `missing` for those that are not there.
pub fn fields<T: From<Number> + Copy, const N: usize>(line: &[u8], missing: T) -> [T; N] {
    let mut fields = [missing; N];
    let mut rest = line;
    for k in 0..N {
        let Some((number, after)) = next_number(rest) else {
            return fields;
        };
        fields[k] = T::from(number);
        rest = after;
    }
    fields
}

// The settings in a line, with the parents in another; the ends of the additional link may follow the floor.
pub fn settings(line: &[u8], parents: &[u8]) -> Settings {
    let [regions, services, window, halves, first] = fields::<u8, 5>(line, 0);
    let [_, _, _, _, _, threshold] = fields::<i64, 6>(line, 0);
    let [_, _, _, _, _, _, cap, floor] = fields::<i32, 8>(line, 0);
    let [_, _, _, _, _, _, _, _, from, to] = fields::<u8, 10>(line, 255);
    Settings {
        regions,
        services,
        window: u16::from(window),
        halves,
        first: u16::from(first),
        parents: fields(parents, 255),
        from,
        to,
        threshold,
        cap,
        floor,
    }
}

// The first line of a text, which is for the reader, and the lines after it.
pub fn first_line(text: &[u8]) -> (&[u8], &[u8]) {
    match text.iter().position(|b| *b == b'\n') {
        Some(end) => (&text[..end], &text[end + 1..]),
        None => (text, b""),
    }
}

// A line that begins with = is printed.
pub fn heading(letter: u8, line: &[u8]) {
    if letter == b'=' {
        say(line);
        say(b"\n");
    }
}
