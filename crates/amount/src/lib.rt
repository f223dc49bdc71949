// The text of an amount of cents, as the first part of a caller's buffer.
#![tactic(auto)]

ghost use Rattle.std.specs.Prelude.{◌≡◌, ◌≤◌, ◌+◌, length};
ghost use Rattle.amount.specs.Text.{decimal, size_text, paste, amount_text, count_in, shown_in, written_in};

// How many decimal digits `n` has.
fn digit_count(n: u64) -> usize
    ensures { result ≡ length (decimal n) }
{
    if n < 10 { 1 } else { digit_count(n / 10) + 1 }
}

// The digits of `n` into `buffer` from `at`, and where they end.
pub fn put_decimal(n: u64, at: usize, buffer: &mut [u8]) -> usize
    requires { at + length (decimal n) ≤ length buffer.old }
    ensures value { result ≡ at + length (decimal n) }
    ensures buffer_after { buffer.new ≡ paste at (decimal n) buffer.old }
{
    if n < 10 {
        buffer[at] = b'0' + n as u8;
        at + 1
    } else {
        let end = put_decimal(n / 10, at, buffer);
        buffer[end] = b'0' + (n % 10) as u8;
        end + 1
    }
}

// Dollars, a point and two digits into `buffer` from `at`, and where they end.
fn put_size(size: u64, at: usize, buffer: &mut [u8]) -> usize
    requires { at + length (size_text size) ≤ length buffer.old }
    ensures value { result ≡ at + length (size_text size) }
    ensures buffer_after { buffer.new ≡ paste at (size_text size) buffer.old }
{
    let end = put_decimal(size / 100, at, buffer);
    buffer[end] = b'.';
    buffer[end + 1] = b'0' + (size % 100 / 10) as u8;
    buffer[end + 2] = b'0' + (size % 10) as u8;
    end + 3
}

// The text of an amount as the first bytes of `buffer`, and how many they are; nothing where there is no room.
// Kept: document 01 shows that there is no room by an empty part alone, so 0 bytes are its answer.
pub fn write_amount(cents: i64, buffer: &mut [u8]) -> usize
    ensures value { result ≡ count_in (amount_text cents) buffer.old }
    ensures buffer_after { buffer.new ≡ written_in (amount_text cents) buffer.old }
{
    let size = cents.unsigned_abs();
    let count = digit_count(size / 100) + 3;
    if cents < 0 {
        if buffer.len() <= count {
            return 0;
        }
        buffer[0] = b'-';
        put_size(size, 1, buffer)
    } else {
        if buffer.len() < count {
            return 0;
        }
        put_size(size, 0, buffer)
    }
}

// The text of an amount, as the part of `buffer` that holds it; the empty part where there is no room.
pub fn amount_text(cents: i64, buffer: &mut [u8]) -> &mut [u8]
    ensures { result.now ≡ shown_in (amount_text cents) buffer.old }
{
    let n = write_amount(cents, buffer);
    &mut buffer[..n]
}
