// Prints what calls answer.
use amount::amount_text;
use book::record::Refusal;
use book_calls::report::Reading;

pub fn say(text: &[u8]) {
    io::write_all(1, text);
}

pub fn amount(cents: i64) {
    let mut buffer = [0u8; 24];
    say(b" ");
    say(amount_text(cents, &mut buffer));
}

pub fn price(cents: i32) {
    amount(i64::from(cents));
}

pub fn number(n: u64) {
    say(b" ");
    io::print_decimal(1, n);
}

// A whole number with its sign.
pub fn signed(z: i32) {
    let sign: &[u8] = if z < 0 { b" -" } else { b" " };
    say(sign);
    io::print_decimal(1, u64::from(z.unsigned_abs()));
}

fn at(place: usize) {
    say(b" at");
    number(place as u64);
}

// A refusal's number, and its place for 15, 16, 17 and 46, which have one.
pub fn refusal(r: Refusal) {
    let n = r.number();
    say(b" refused");
    number(n as u64);
    if ((15 <= n) & (n <= 17)) | (n == 46) {
        at(r.place());
    }
}

// An opening or a setting: nothing where it is accepted.
pub fn answered(call: &[u8], answer: Result<(), Refusal>) {
    match answer {
        Ok(()) => {}
        Err(r) => {
            say(call);
            refusal(r);
            say(b"\n");
        }
    }
}

// An entry: the published prices and the count, or the refusal.
pub fn published(answer: Result<u32, Refusal>, table: &[i32]) {
    match answer {
        Ok(n) => {
            list(b"published", table, price);
            say(b" count");
            number(n as u64);
        }
        Err(r) => {
            say(b"entry");
            refusal(r);
        }
    }
    say(b"\n");
}

// A name, and what `print` makes of each item of a list.
pub fn list<T: Copy, F: Fn(T)>(name: &[u8], items: &[T], print: F)
    requires { F.IsAlwaysCallable print }
{
    say(name);
    for item in items {
        print(*item);
    }
}

pub fn byte_list(name: &[u8], bytes: &[u8]) {
    list(name, bytes, |b| number(u64::from(b)));
}

// A report: sum, prices counted, mark, entries taken, or the refusal.
pub fn reported(answer: Result<Reading, Refusal>) {
    say(b"report");
    match answer {
        Ok(reading) => {
            amount(reading.sum);
            number(reading.counted as u64);
            number(reading.mark as u64);
            number(reading.entries as u64);
        }
        Err(r) => refusal(r),
    }
    say(b"\n");
}
