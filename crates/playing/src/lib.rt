// One call of a replay: it reads its arguments, calls the book's own operation and writes the answer.
#![tactic(auto)]

ghost use Rattle.std.specs.Prelude.{◌≡◌, true, false, ◌++◌, ◌+◌, ◌*◌, ◌-◌, ◌≤◌, length, take, drop};
ghost use Rattle.std.proofs.lemmas.List.Edits.{sets};
ghost use Rattle.laws.specs.Base.{pick};
ghost use Rattle.book.specs.Record.{is_accepted};
ghost use Rattle.book_calls.specs.Setting.{set_threshold, set_limits};
ghost use Rattle.book_calls.specs.Report.{report_of};
ghost use Rattle.entries.specs.Entering as Entering;
ghost use Rattle.image.specs.Storing as Storing;
ghost use Rattle.image.specs.Loading as Loading;
ghost use Rattle.records.specs.Reading.{lengths_at, entry_size, signed_at, factors_at, table_at, call_size, answer_size};
ghost use Rattle.records.specs.Writing.{plain_record, entry_record, report_record};
ghost use Rattle.playing.specs.Playing.{state_of, playable, step, swaps, threshold_in, cap_in, floor_in, region_in, market_in};
ghost use Rattle.playing.specs.Playing.{entered_at, entered_record, restart_verdict, swapped, restarted_book, reloaded};

use book::record::{Book, Reply};
use book_calls::report::report;
use book_calls::setting::{set_limits, set_threshold};
use codec::{get, get_u8, get_u16, get_u32, get_word, signed64};
use entries::{Entry, enter};
use image::loading::load;
use image::storing::store_kind_1;
use records::reading::{Lengths, lengths_at, read_entry};
use records::writing::{put_answer, put_entered, put_reported};

// The book after a call, and whether the rings have changed places.
#[derive(Clone, Copy)]
pub struct Played {
    pub book: Book,
    pub swapped: bool,
}

fn play_threshold(book: Book, calls: &[u8], at: usize, answers: &mut [u8], out: usize) -> Book
    requires { (at + 14 ≤ length calls.now) × (out + 14 ≤ length answers.old) }
    ensures value { result ≡ (set_threshold book (threshold_in calls.now at)).book }
    ensures answers_after { answers.new ≡ sets answers.old out
        (plain_record 66 (set_threshold book (threshold_in calls.now at)).verdict) }
{
    let changed = set_threshold(book, signed64(get(calls, at + 6, 8)));
    put_answer(answers, out, 14, 66, changed.answer);
    changed.book
}

fn play_limits(book: Book, calls: &[u8], at: usize, answers: &mut [u8], out: usize) -> Book
    requires { (at + 14 ≤ length calls.now) × (out + 14 ≤ length answers.old) }
    ensures value { result ≡ (set_limits book (cap_in calls.now at) (floor_in calls.now at)).book }
    ensures answers_after { answers.new ≡ sets answers.old out
        (plain_record 67 (set_limits book (cap_in calls.now at) (floor_in calls.now at)).verdict) }
{
    let changed = set_limits(book, get_word(calls, at + 6), get_word(calls, at + 10));
    put_answer(answers, out, 14, 67, changed.answer);
    changed.book
}

fn play_report(book: Book, calls: &[u8], at: usize, answers: &mut [u8], out: usize) -> Book
    requires { (at + 14 ≤ length calls.now) × (out + 34 ≤ length answers.old) }
    ensures value { result ≡ book }
    ensures answers_after { answers.new ≡ sets answers.old out
        (report_record (report_of book (region_in calls.now at) (market_in calls.now at))) }
{
    let reported = report(book, get_u32(calls, at + 6), get_u32(calls, at + 10));
    put_reported(answers, out, reported.answer);
    reported.book
}

// The entry of a record whose signed numbers, factors and table have been read, on the first places of the ring.
fn enter_read(
    book: Book,
    ring: &mut [i32],
    calls: &[u8],
    at: usize,
    lengths: Lengths,
    numbers: &[i32],
    factors: &[u32],
    table: &mut [i32],
) -> Reply<u32>
    requires lengths_value { (lengths ≡ lengths_at calls.now at) × (at + entry_size lengths ≤ length calls.now)
        × (lengths.ring ≤ length ring.old) }
    requires schedule_in_bounds { (lengths.prices + lengths.flows + lengths.schedule ≤ length numbers.now)
        × (lengths.factors ≤ length factors.now) }
    requires numbers_value { take (lengths.prices + lengths.flows + lengths.schedule) numbers.now ≡ signed_at calls.now at }
    requires factors_value { (take lengths.factors factors.now ≡ factors_at calls.now at) × (table.old ≡ table_at calls.now at) }
    ensures table_after { Entering.outcome result (entered_at calls.now at book ring.old).ring table.new
        ≡ entered_at calls.now at book ring.old }
    ensures ring_after { ring.new ≡ (entered_at calls.now at book ring.old).ring
        ++ drop lengths.ring ring.old }
{
    let number = get_u32(calls, at + 6);
    let kind = get_u8(calls, at + 10);
    let prices = lengths.prices;
    let marks = at + (40 + 4 * prices);
    let marks_end = marks + lengths.marks;
    let flows_end = prices + lengths.flows;
    let schedule_end = flows_end + lengths.schedule;
    let used = lengths.factors;
    let places = lengths.ring;
    let part = &mut ring[..places];
    let entry = Entry {
        kind,
        prices: &numbers[..prices],
        marked: &calls[marks..marks_end],
        flows: &numbers[prices..flows_end],
        factors: &factors[..used],
        schedule: &numbers[flows_end..schedule_end],
    };
    enter(book, part, number, &entry, table)
}

// An entry: its contents are read into what is lent for them, and its table goes into the answer.
fn play_entry(
    book: Book,
    ring: &mut [i32],
    numbers: &mut [i32],
    factors: &mut [u32],
    table: &mut [i32],
    calls: &[u8],
    at: usize,
    answers: &mut [u8],
    out: usize,
) -> Book
    requires at_in_bounds { (at + 40 ≤ length calls.now) × (at + entry_size (lengths_at calls.now at) ≤ length calls.now)
        × (out + (18 + 4 * (lengths_at calls.now at).table) ≤ length answers.old) }
    requires at_in_bounds_2 { ((lengths_at calls.now at).prices + (lengths_at calls.now at).flows + (lengths_at calls.now at).schedule
        ≤ length numbers.old) × ((lengths_at calls.now at).factors ≤ length factors.old) }
    requires at_in_bounds_3 { ((lengths_at calls.now at).table ≤ length table.old) × ((lengths_at calls.now at).ring ≤ length ring.old) }
    ensures value { result ≡ (entered_at calls.now at book ring.old).book }
    ensures ring_after { ring.new ≡ (entered_at calls.now at book ring.old).ring
        ++ drop (lengths_at calls.now at).ring ring.old }
    ensures numbers_after { numbers.new ≡ sets numbers.old 0 (signed_at calls.now at) }
    ensures factors_after { factors.new ≡ sets factors.old 0 (factors_at calls.now at) }
    ensures table_after { table.new ≡ (entered_at calls.now at book ring.old).table
        ++ drop (lengths_at calls.now at).table table.old }
    ensures answers_after { answers.new ≡ sets answers.old out
        (entered_record (entered_at calls.now at book ring.old)) }
{
    let lengths = lengths_at(calls, at);
    read_entry(calls, at, lengths, numbers, factors, table);
    let places = lengths.table;
    let part = &mut table[..places];
    let entered = enter_read(book, ring, calls, at, lengths, numbers, factors, part);
    put_entered(answers, out, entered.answer, part);
    entered.book
}

// The load of a restart from the `n` bytes that were stored.
fn play_load(
    book: Book,
    other: &mut [i32],
    image: &[u8],
    n: usize,
    answers: &mut [u8],
    out: usize,
) -> Played
    requires { (n ≤ length image.now) × (out + 14 ≤ length answers.old) }
    ensures swapped_value { result.swapped ≡ is_accepted (Loading.loaded (take n image.now) other.old).verdict }
    ensures book_value { result.book
        ≡ pick (is_accepted (Loading.loaded (take n image.now) other.old).verdict)
        (Loading.loaded (take n image.now) other.old).book book }
    ensures other_after { other.new ≡ (Loading.loaded (take n image.now) other.old).ring }
    ensures answers_after { answers.new ≡ sets answers.old out
        (plain_record 69 (Loading.loaded (take n image.now) other.old).verdict) }
{
    let loaded = load(&image[..n], other);
    let answer = loaded.answer;
    put_answer(answers, out, 14, 69, answer);
    match answer {
        Err(_) => Played {
            book,
            swapped: false,
        },
        Ok(()) => Played {
            book: loaded.book,
            swapped: true,
        },
    }
}

// A restart: the book is stored, and loaded into the other ring.
fn play_restart(
    book: Book,
    ring: &[i32],
    other: &mut [i32],
    image: &mut [u8],
    answers: &mut [u8],
    out: usize,
) -> Played
    requires { out + 14 ≤ length answers.old }
    ensures swapped_value { result.swapped ≡ swapped (Storing.stored false book ring.now image.old) other.old }
    ensures book_value { result.book
        ≡ restarted_book (Storing.stored false book ring.now image.old) other.old book }
    ensures other_after { other.new
        ≡ reloaded (Storing.stored false book ring.now image.old) other.old }
    ensures image_after { image.new ≡ (Storing.stored false book ring.now image.old).buffer }
    ensures answers_after { answers.new ≡ sets answers.old out
        (plain_record 69 (restart_verdict (Storing.stored false book ring.now image.old) other.old)) }
{
    let stored = store_kind_1(book, ring, image);
    let size = stored.answer;
    match size {
        Err(_) => {
            put_answer(answers, out, 14, 69, size);
            Played {
                book,
                swapped: false,
            }
        }
        Ok(n) => play_load(book, other, image, n, answers, out),
    }
}

// The call at a place, by its kind, a number as in docs/RECORDS.md.
pub fn play_call(
    book: Book,
    ring: &mut [i32],
    other: &mut [i32],
    image: &mut [u8],
    numbers: &mut [i32],
    factors: &mut [u32],
    table: &mut [i32],
    calls: &[u8],
    at: usize,
    answers: &mut [u8],
    out: usize,
) -> Played
    requires at_in_bounds { (at ≤ length calls.now) × (out ≤ length answers.old) }
    requires answers_value { playable calls.now (state_of false book ring.old other.old image.old numbers.old factors.old table.old
        at out answers.old) ≡ true }
    ensures swapped_value { let before = state_of false book ring.old other.old image.old
        numbers.old factors.old table.old at out answers.old in
        result.swapped ≡ swaps calls.now before }
    ensures answers_after { let before = state_of false book ring.old other.old image.old
        numbers.old factors.old table.old at out answers.old in
        state_of result.swapped result.book ring.new other.new image.new numbers.new
        factors.new table.new (at + call_size calls.now at) (out + answer_size calls.now at)
        answers.new ≡ step calls.now before }
{
    match get_u16(calls, at + 4) {
        65 => Played {
            book: play_entry(book, ring, numbers, factors, table, calls, at, answers, out),
            swapped: false,
        },
        66 => Played {
            book: play_threshold(book, calls, at, answers, out),
            swapped: false,
        },
        67 => Played {
            book: play_limits(book, calls, at, answers, out),
            swapped: false,
        },
        68 => Played {
            book: play_report(book, calls, at, answers, out),
            swapped: false,
        },
        _ => play_restart(book, ring, other, image, answers, out),
    }
}
