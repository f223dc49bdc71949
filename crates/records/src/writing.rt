// Records of answers, written as bytes.
ghost use Rattle.std.specs.Prelude.{◌≡◌, ◌+◌, ◌*◌, ◌≤◌, length};
ghost use Rattle.std.proofs.lemmas.List.Edits.{sets};
ghost use Rattle.laws.specs.Bytes.{words};
ghost use Rattle.book.specs.Record.{verdict};
ghost use Rattle.book_calls.specs.Report.{numbers};
ghost use Rattle.entries.specs.Entering as Entering;
ghost use Rattle.records.specs.Writing.{head_of, entry_record, report_record};

use book::record::{Refusal, number_in, place_in};
use book_calls::report::Reading;
use codec::{bits64, put, put_words};

// The head of an answer's record: its length, the call's kind, and the number and place of a refusal.
pub fn put_answer<T: Copy>(
    answers: &mut [u8],
    at: usize,
    size: usize,
    kind: u16,
    answer: Result<T, Refusal>,
)
    requires { at + 14 ≤ length answers.old }
    ensures { answers.new ≡ sets answers.old at (head_of size kind (verdict answer)) }
{
    let number = number_in(answer);
    let place = place_in(answer);
    put(answers, at, 4, size as u64);
    put(answers, at + 4, 2, kind as u64);
    put(answers, at + 6, 4, number as u64);
    put(answers, at + 10, 4, place as u64);
}

// The answer to an entry, with the table as it then stands.
pub fn put_entered(answers: &mut [u8], at: usize, answer: Result<u32, Refusal>, table: &[i32])
    requires { at + (18 + 4 * length table.now) ≤ length answers.old }
    ensures { answers.new ≡ sets answers.old at (entry_record (verdict answer) (Entering.count answer) table.now) }
{
    let count = answer.unwrap_or(0);
    put_answer(answers, at, 18 + 4 * table.len(), 65, answer);
    put(answers, at + 14, 4, count as u64);
    put_words(answers, at + 18, table, 0, table.len());
}

// The answer to a report: a market's sum, prices counted and period mark, and the entries taken.
pub fn put_reported(answers: &mut [u8], at: usize, answer: Result<Reading, Refusal>)
    requires { at + 34 ≤ length answers.old }
    ensures { answers.new ≡ sets answers.old at (report_record (numbers answer)) }
{
    let nothing = Reading {
        sum: 0,
        counted: 0,
        mark: 0,
        entries: 0,
    };
    let reading = answer.unwrap_or(nothing);
    put_answer(answers, at, 34, 68, answer);
    put(answers, at + 14, 8, bits64(reading.sum));
    put(answers, at + 22, 4, reading.counted as u64);
    put(answers, at + 26, 4, reading.mark as u64);
    put(answers, at + 30, 4, reading.entries as u64);
}
