// Little-endian numbers in byte slices, for every width up to eight bytes, and signed numbers by two's complement.
#![tactic(auto)]

ghost use Rattle.std.specs.Prelude.{ℕ, ◌≡◌, ◌+◌, ◌*◌, ◌≤◌, ◌<◌, length};
ghost use Rattle.std.proofs.lemmas.List.Edits.{sets};
ghost use Rattle.std.specs.Int.{w32, w64};
ghost use Rattle.std.proofs.Common.{of_z, to_z};
ghost use Rattle.laws.specs.Bytes.{le, number_at, words, price_at};
ghost use Rattle.laws.specs.Lists.{tabulate, places_of};

// The number in `width` bytes from a place.
pub fn get(bytes: &[u8], at: usize, width: usize) -> u64
    requires { (width ≤ 8) × (at + width ≤ length bytes.now) }
    ensures { result ≡ number_at bytes.now at width }
{
    let mut x: u64 = 0;
    for j in (0..width).rev() {
        let byte = bytes[at + j] as u64;
        x = x * 256 + byte;
    }
    x
}

// The numbers in one, two and four bytes, as numbers so wide.
// Kept: at a single number `get_u16(bytes, at)` names the type as plainly as `u16::get(bytes, at)` would.
pub fn get_u8(bytes: &[u8], at: usize) -> u8
    requires { at < length bytes.now }
    ensures { result ≡ number_at bytes.now at 1 }
{
    bytes[at]
}

pub fn get_u16(bytes: &[u8], at: usize) -> u16
    requires { at + 2 ≤ length bytes.now }
    ensures { result ≡ number_at bytes.now at 2 }
{
    get(bytes, at, 2) as u16
}

pub fn get_u32(bytes: &[u8], at: usize) -> u32
    requires { at + 4 ≤ length bytes.now }
    ensures { result ≡ number_at bytes.now at 4 }
{
    get(bytes, at, 4) as u32
}

// A number's lowest `width` bytes put at a place.
pub fn put(bytes: &mut [u8], at: usize, width: usize, x: u64)
    requires { at + width ≤ length bytes.old }
    ensures { bytes.new ≡ sets bytes.old at (le width x) }
{
    let mut rest = x;
    for j in 0..width {
        bytes[at + j] = (rest % 256) as u8;
        rest = rest / 256;
    }
}

// The bits of a signed number, and the number that bits are.
// Kept: the edits bits32_ones to signed64_sign are about these three; each is one call of the library.
pub fn bits32(z: i32) -> u32
    ensures { result ≡ of_z w32 z }
{
    i32::cast_unsigned(z)
}

pub fn bits64(z: i64) -> u64
    ensures { result ≡ of_z w64 z }
{
    i64::cast_unsigned(z)
}

pub fn signed64(x: u64) -> i64
    ensures { result ≡ to_z w64 x }
{
    x.cast_signed()
}

// The signed number in four bytes from a place, with no loop: windows hold many of these.
pub fn get_word(bytes: &[u8], at: usize) -> i32
    requires { at + 4 ≤ length bytes.now }
    ensures { result ≡ to_z w32 (number_at bytes.now at 4) }
{
    i32::from_le_bytes([bytes[at], bytes[at + 1], bytes[at + 2], bytes[at + 3]])
}

// A signed number put into four bytes at a place.
pub fn put_word(bytes: &mut [u8], at: usize, z: i32)
    requires { at + 4 ≤ length bytes.old }
    ensures { bytes.new ≡ sets bytes.old at (le 4 (of_z w32 z)) }
{
    bytes[at..at + 4].copy_from_slice(&z.to_le_bytes());
}

// `n` signed numbers from place `from` of `numbers` on, put from `at`, four bytes each.
pub fn put_words(bytes: &mut [u8], at: usize, numbers: &[i32], from: usize, n: usize)
    requires { (from + n ≤ length numbers.now) × (at + 4 * n ≤ length bytes.old) }
    ensures { bytes.new ≡ sets bytes.old at (words (places_of numbers.now from n)) }
{
    for i in 0..n {
        put_word(bytes, at + 4 * i, numbers[from + i]);
    }
}

// A number that stands in so many bytes: what it is of the unsigned number that they are.
pub trait Word: Copy + Default {
    ghost WIDTH: { ℕ };

    ghost from_bits: { ℕ → Self };

    const WIDTH: usize;

    fn get(bytes: &[u8], at: usize) -> Self
        requires { at + WIDTH ≤ length bytes.now }
        ensures { result ≡ from_bits (number_at bytes.now at WIDTH) };
}

impl Word for u8 {
    ghost WIDTH = { 1 };

    ghost from_bits = { λ n. n };

    const WIDTH: usize = 1;

    fn get(bytes: &[u8], at: usize) -> u8 {
        get_u8(bytes, at)
    }
}

impl Word for u16 {
    ghost WIDTH = { 2 };

    ghost from_bits = { λ n. n };

    const WIDTH: usize = 2;

    fn get(bytes: &[u8], at: usize) -> u16 {
        get_u16(bytes, at)
    }
}

impl Word for u32 {
    ghost WIDTH = { 4 };

    ghost from_bits = { λ n. n };

    const WIDTH: usize = 4;

    fn get(bytes: &[u8], at: usize) -> u32 {
        get_u32(bytes, at)
    }
}

impl Word for i32 {
    ghost WIDTH = { 4 };

    ghost from_bits = { to_z w32 };

    const WIDTH: usize = 4;

    fn get(bytes: &[u8], at: usize) -> i32 {
        get_word(bytes, at)
    }
}

// `n` numbers from `at`, one right after the other, put into `numbers` from `to`.
pub fn get_words<T: Word>(bytes: &[u8], at: usize, n: usize, numbers: &mut [T], to: usize)
    requires { (at + T.WIDTH * n ≤ length bytes.now) × (to + n ≤ length numbers.old) }
    ensures { let bytes = bytes.entry.now in
        numbers.new ≡ sets numbers.old to (tabulate n (λ i. T.from_bits (number_at bytes (at + T.WIDTH * i) T.WIDTH))) }
{
    for i in 0..n {
        numbers[to + i] = T::get(bytes, at + T::WIDTH * i);
    }
}

// `N` numbers from `at`, one right after the other.
pub fn get_array<T: Word, const N: usize>(bytes: &[u8], at: usize) -> [T; N]
    requires { at + T.WIDTH * N ≤ length bytes.now }
    ensures { let bytes = bytes.entry.now in
        result ≡ tabulate N (λ i. T.from_bits (number_at bytes (at + T.WIDTH * i) T.WIDTH)) }
{
    let mut all = [T::default(); N];
    get_words(bytes, at, N, &mut all, 0);
    all
}
