// Texts put into a buffer one after the other: each function answers where its text ends.
ghost use Rattle.std.specs.Prelude.{[], ◌∷◌, ◌++◌, ◌+◌, ◌≤◌, length};
ghost use Rattle.amount.specs.Text.{decimal, amount_text};
ghost use Rattle.sheet.specs.Put.{Put};
ghost use Rattle.sheet.specs.Sheet.{line_of, refused_text};

use amount::{put_decimal, write_amount};

// The bytes of `text`.
pub(crate) fn put_text(text: &[u8], at: usize, out: &mut [u8]) -> usize
    requires { at + length text.now ≤ length out.old }
    ensures { Put text.now at result out.old out.new }
{
    let end = at + text.len();
    out[at..end].copy_from_slice(text);
    end
}

// The digits of `n`, and the byte `last`.
fn put_number(n: u64, last: u8, at: usize, out: &mut [u8]) -> usize
    requires { at + length (decimal n) + 1 ≤ length out.old }
    ensures { Put (decimal n ++ (last ∷ [])) at result out.old out.new }
{
    let end = put_decimal(n, at, out);
    out[end] = last;
    end + 1
}

// An amount of cents, and a comma.
fn put_sum(cents: i64, at: usize, out: &mut [u8]) -> usize
    requires { at + 22 ≤ length out.old }
    ensures { Put (amount_text cents ++ (44 ∷ [])) at result out.old out.new }
{
    let end = at + write_amount(cents, &mut out[at..]);
    out[end] = 44;
    end + 1
}

// A line of the sheet.
pub(crate) fn put_line(
    region: u8,
    market: u8,
    counted: u16,
    sum: i64,
    administered: u8,
    at: usize,
    out: &mut [u8],
) -> usize
    requires { at + 40 ≤ length out.old }
    ensures put { Put (line_of region market counted sum administered) at result out.old out.new }
    ensures upper_bound { result ≤ at + 40 }
{
    let a = put_number(region as u64, 44, at, out);
    let b = put_number(market as u64, 44, a, out);
    let c = put_number(counted as u64, 44, b, out);
    let d = put_sum(sum, c, out);
    put_number(administered as u64, 10, d, out)
}

// "refused" and the number, as the first bytes.
pub(crate) fn put_refused(number: u32, out: &mut [u8]) -> usize
    requires { 19 ≤ length out.old }
    ensures { Put (refused_text number) 0 result out.old out.new }
{
    let at = put_text(b"refused ", 0, out);
    put_number(number as u64, 10, at, out)
}
