// The threshold and limit settings of a running book: they act from the next entry.
ghost use Rattle.std.specs.Prelude.{◌≡◌, pos, ◌≤ℤ◌};
ghost use Rattle.book.specs.Record.{verdict};
ghost use Rattle.book_calls.specs.Setting.{in_hundreds, threshold_verdict, outcome, set_threshold, set_limits};

use book::record::{Book, Refusal, Reply};
use book::validity::{threshold_ok, valid};

// Whether a threshold that is in range is in whole hundreds of dollars.
fn in_hundreds(threshold: i64) -> bool
    requires { pos 1 ≤ℤ threshold }
    ensures { result ≡ in_hundreds threshold }
{
    threshold as u64 % 10000 == 0
}

// What openings and settings alike ask of a threshold.
pub(crate) fn threshold_verdict(threshold: i64) -> Result<(), Refusal>
    ensures { verdict result ≡ threshold_verdict threshold }
{
    if !threshold_ok(threshold) {
        return Err(Refusal::Threshold);
    }
    if !in_hundreds(threshold) {
        return Err(Refusal::Hundreds);
    }
    Ok(())
}

pub fn set_threshold(book: Book, threshold: i64) -> Reply<()>
    ensures { outcome result ≡ set_threshold book threshold }
{
    if !valid(book) {
        return Reply {
            book,
            answer: Err(Refusal::Invalid),
        };
    }
    let answer = threshold_verdict(threshold);
    if let Err(_) = answer {
        return Reply { book, answer };
    }
    let mut next = book;
    next.threshold = threshold;
    Reply { book: next, answer }
}

pub fn set_limits(book: Book, cap: i32, floor: i32) -> Reply<()>
    ensures { outcome result ≡ set_limits book cap floor }
{
    if !valid(book) {
        return Reply {
            book,
            answer: Err(Refusal::Invalid),
        };
    }
    if !pricing::holding::limits_ok(cap, floor) {
        return Reply {
            book,
            answer: Err(Refusal::Limits),
        };
    }
    let mut next = book;
    next.cap = cap;
    next.floor = floor;
    Reply {
        book: next,
        answer: Ok(()),
    }
}
