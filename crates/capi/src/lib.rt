// What a C host calls: the book that it keeps between calls, interval records, test loads, bills, intervals left, the schedule maker, the
// amount text, the index, the image check and the replay, over plain numbers and the host's own memory. Each function is one call of the
// proved operation.
#![tactic(auto)]

ghost use Rattle.std.specs.Prelude.{◌≡◌, false, true, ◌≤◌, length};
ghost use Rattle.std.proofs.lemmas.List.Edits.{sets};
ghost use Rattle.amount.specs.Text.{amount_text, count_in, written_in};
ghost use Rattle.schedule.specs.Schedule as Schedule;
ghost use Rattle.book_calls.specs.Opening.{opened};
ghost use Rattle.book_calls.specs.Setting.{set_threshold, set_limits};
ghost use Rattle.book_calls.specs.Report.{report_of};
ghost use Rattle.publishing.specs.Entry.{entry_of};
ghost use Rattle.entries.specs.Entering.{entered};
ghost use Rattle.image.specs.Storing.{stored};
ghost use Rattle.image.specs.Loading.{checked, loaded};
ghost use Rattle.interval_records.specs.Layout.{interval_of};
ghost use Rattle.intervals.specs.Reading.{read_interval};
ghost use Rattle.interval_writer.specs.Writing.{write_interval};
ghost use Rattle.interval_rewriter.specs.Rewriting.{rewrite_interval};
ghost use Rattle.synthetic.specs.Synthetic.{synthesized};
ghost use Rattle.bill_lines.specs.Lines.{lines_of};
ghost use Rattle.billing.specs.Billing.{bill_of, billed};
ghost use Rattle.planning.specs.Left.{intervals_left};
ghost use Rattle.face.specs.Face.{opened_of, changed_of, taken_of, numbers_of, stored_of, loaded_of};
ghost use Rattle.face.specs.Face.{read_of, write_of, rewrite_of, synthesized_of, judged_of, planned_of, rows_of, energy_of};
ghost use Rattle.replay.specs.Replay.{lent_of, outcome, replayed};
ghost use Rattle.replay.specs.Promise.{promised};
ghost use Rattle.capi.specs.Host.{year, index_answer};

use amount::write_amount;
use billing::check_bill;
use book::record::{Book, Settings};
use book_calls::opening::open;
use book_calls::report::report;
use book_calls::setting::{set_limits, set_threshold};
use entries::{Entry, enter};
use face::{Billed, Drawn, Found, Kept, Left, Rewritten, Rows, Seen, Taken, Written};
use image::loading::{check, load};
use image::storing::{store_kind_1, store_kind_2};
use interval_rewriter::rewriting::rewrite_interval;
use interval_writer::writing::{Interval, write_interval};
use intervals::reading::read_interval;
use planning::intervals_left;
use pricing::indexing::{OutOfRange, Quarters, indexed};
use replay::replay;
use schedule::schedule;
use synthetic::synthesize;

// The number of these conventions: a host compares it with its header's.
#[unsafe(no_mangle)]
pub extern "C" fn guxhamole_abi() -> u32
    ensures { result ≡ 2 }
{
    2
}

// Opens a book over a ring of exactly R × M × W places.
#[unsafe(no_mangle)]
pub extern "C" fn guxhamole_open(settings: Settings, ring: &mut [i32]) -> Kept
    ensures { opened_of result ring.new ≡ opened settings ring.old }
{
    Kept::from(open(settings, ring))
}

#[unsafe(no_mangle)]
pub extern "C" fn guxhamole_set_threshold(book: Book, threshold: i64) -> Kept
    ensures { changed_of result ≡ set_threshold book threshold }
{
    Kept::from(set_threshold(book, threshold))
}

#[unsafe(no_mangle)]
pub extern "C" fn guxhamole_set_limits(book: Book, cap: i32, floor: i32) -> Kept
    ensures { changed_of result ≡ set_limits book cap floor }
{
    Kept::from(set_limits(book, cap, floor))
}

// A market's sum, prices counted and period mark, and the entries taken.
#[unsafe(no_mangle)]
pub extern "C" fn guxhamole_report(book: Book, region: u32, market: u32) -> Seen
    ensures { numbers_of result ≡ report_of book region market }
{
    Seen::from(report(book, region, market))
}

// The entry of an interval.
#[unsafe(no_mangle)]
pub extern "C" fn guxhamole_enter(
    book: Book,
    ring: &mut [i32],
    number: u32,
    kind: u8,
    prices: &[i32],
    marks: &[u8],
    flows: &[i32],
    factors: &[u32],
    schedule: &[i32],
    table: &mut [i32],
) -> Taken
    ensures { let entry = entry_of kind prices.now marks.now flows.now factors.now
        schedule.now in
        taken_of result ring.new table.new ≡ entered book ring.old number entry table.old }
{
    let entry = Entry {
        kind,
        prices,
        marked: marks,
        flows,
        factors,
        schedule,
    };
    let entered = enter(book, ring, number, &entry, table);
    Taken::from(entered)
}

// The image of kind 1 as the first bytes of `image`; the bytes after it stay. It cannot tell of an additional link.
#[unsafe(no_mangle)]
pub extern "C" fn guxhamole_store(book: Book, ring: &[i32], image: &mut [u8]) -> Written
    ensures { stored_of result book image.new ≡ stored false book ring.now image.old }
{
    Written::from(store_kind_1(book, ring, image))
}

// The image of kind 2.
#[unsafe(no_mangle)]
pub extern "C" fn guxhamole_store_kind_2(book: Book, ring: &[i32], image: &mut [u8]) -> Written
    ensures { stored_of result book image.new ≡ stored true book ring.now image.old }
{
    Written::from(store_kind_2(book, ring, image))
}

// The book of an image, with its prices in `ring`.
#[unsafe(no_mangle)]
pub extern "C" fn guxhamole_load(image: &[u8], ring: &mut [i32]) -> Kept
    ensures { loaded_of result ring.new ≡ loaded image.now ring.old }
{
    Kept::from(load(image, ring))
}

// Reads the interval that stands at a place of `records` into the four slices.
#[unsafe(no_mangle)]
pub extern "C" fn guxhamole_interval_read(
    book: Book,
    records: &[u8],
    at: usize,
    prices: &mut [i32],
    marks: &mut [u8],
    flows: &mut [i32],
    factors: &mut [u32],
) -> Found
    ensures { let lent = interval_of 0 0 prices.old marks.old flows.old factors.old in
        read_of result book prices.new marks.new flows.new factors.new
        ≡ read_interval book records.now at lent }
{
    Found::from(read_interval(book, records, at, prices, marks, flows, factors))
}

// Writes an interval as the first bytes of `buffer`; the bytes after it stay.
#[unsafe(no_mangle)]
pub extern "C" fn guxhamole_interval_write(
    book: Book,
    entry: u32,
    kind: u8,
    prices: &[i32],
    marks: &[u8],
    flows: &[i32],
    factors: &[u32],
    buffer: &mut [u8],
) -> Written
    ensures { let v = interval_of entry kind prices.now marks.now flows.now
        factors.now in
        write_of result book buffer.new ≡ write_interval book v buffer.old }
{
    let interval = Interval {
        number: entry,
        kind,
        prices,
        marked: marks,
        flows,
        factors,
    };
    Written::from(write_interval(book, &interval, buffer))
}

// Writes the interval of the earlier form at a place of `records` as the first bytes of `buffer`, its regions in number order; the bytes
// after it stay.
#[unsafe(no_mangle)]
pub extern "C" fn guxhamole_interval_rewrite(
    book: Book,
    records: &[u8],
    at: usize,
    buffer: &mut [u8],
) -> Rewritten
    ensures { rewrite_of result book buffer.new ≡ rewrite_interval book records.now at buffer.old }
{
    Rewritten::from(rewrite_interval(book, records, at, buffer))
}

// Holds a bill's lines against the published prices of a region in a day's records, which are entered on `work` in place of `ring`.
#[unsafe(no_mangle)]
pub extern "C" fn guxhamole_bill(
    book: Book,
    ring: &[i32],
    work: &mut [i32],
    records: &[u8],
    schedule: &[i32],
    region: u32,
    numbers: &[u32],
    energy: &[u32],
    prices: &[i32],
    amounts: &[i64],
) -> Billed
    ensures { let lines = lines_of numbers.now energy.now prices.now amounts.now in
        judged_of result book work.new
        ≡ billed book ring.now work.old (bill_of records.now schedule.now region lines) }
{
    Billed::from(check_bill(
        book, ring, work, records, schedule, region, numbers, energy, prices, amounts,
    ))
}

// Fills the four slices with a test load that is drawn from a seed.
#[unsafe(no_mangle)]
pub extern "C" fn guxhamole_synthetic(
    book: Book,
    seed: u32,
    entry: u32,
    kind: u8,
    prices: &mut [i32],
    marks: &mut [u8],
    flows: &mut [i32],
    factors: &mut [u32],
) -> Drawn
    ensures { let lent = interval_of 0 0 prices.old marks.old flows.old factors.old in
        synthesized_of result book prices.new marks.new flows.new factors.new
        ≡ synthesized book seed entry kind lent }
{
    Drawn::from(synthesize(book, seed, entry, kind, prices, marks, flows, factors))
}

// How many further unmarked intervals at a price make a market's sum exceed the threshold, 0 if none of 1 to W does.
#[unsafe(no_mangle)]
pub extern "C" fn guxhamole_intervals_left(
    book: Book,
    ring: &[i32],
    region: u32,
    market: u32,
    price: i32,
) -> Left
    ensures { planned_of result book ≡ intervals_left book ring.now region market price }
{
    Left::from(intervals_left(book, ring, region, market, price))
}

// The schedule of one market from 28 days of prices and their kinds; `energy` 0 is a service, anything else energy.
#[unsafe(no_mangle)]
pub extern "C" fn guxhamole_schedule(
    halves: u8,
    cap: i32,
    floor: i32,
    energy: u8,
    prices: &[i32],
    kinds: &[u8],
) -> Rows
    ensures { rows_of result ≡ Schedule.schedule halves cap floor (energy_of energy) prices.now kinds.now }
{
    Rows::from(schedule(halves, cap, floor, energy != 0, prices, kinds))
}

// The text of an amount as the first bytes of `buffer`, and how many they are; 0 where there is no room.
#[unsafe(no_mangle)]
pub extern "C" fn guxhamole_amount_text(cents: i64, buffer: &mut [u8]) -> usize
    ensures value { result ≡ count_in (amount_text cents) buffer.old }
    ensures buffer_after { buffer.new ≡ written_in (amount_text cents) buffer.old }
{
    write_amount(cents, buffer)
}

// The indexed amount in whole dollars, or -30: an amount, the four quarters of year c and of year b, last year's amount.
#[unsafe(no_mangle)]
pub extern "C" fn guxhamole_index(
    amount: u64,
    c1: u32,
    c2: u32,
    c3: u32,
    c4: u32,
    b1: u32,
    b2: u32,
    b3: u32,
    b4: u32,
    last: u64,
) -> i64
    ensures { result ≡ index_answer amount (year c1 c2 c3 c4) (year b1 b2 b3 b4) last }
{
    let c = Quarters {
        q1: c1,
        q2: c2,
        q3: c3,
        q4: c4,
    };
    let b = Quarters {
        q1: b1,
        q2: b2,
        q3: b3,
        q4: b4,
    };
    let answer = indexed(amount, c, b, last);
    match answer {
        Ok(dollars) => dollars as i64,
        Err(OutOfRange) => -30,
    }
}

// 0, or the number of the refusal that a load of the image meets, whatever the ring's length.
#[unsafe(no_mangle)]
pub extern "C" fn guxhamole_image_check(image: &[u8]) -> u32
    ensures { result ≡ checked image.now }
{
    check(image)
}

// Plays the list of calls in `calls`, and answers how many bytes of `answers` it wrote.
#[unsafe(no_mangle)]
pub extern "C" fn guxhamole_replay(
    calls: &[u8],
    answers: &mut [u8],
    ring: &mut [i32],
    other: &mut [i32],
    image: &mut [u8],
    numbers: &mut [i32],
    factors: &mut [u32],
    table: &mut [i32],
) -> usize
    ensures table_after { let lent = lent_of answers.old ring.old other.old image.old
        numbers.old factors.old table.old in
        outcome result answers.new ring.new other.new image.new numbers.new
        factors.new table.new ≡ replayed calls.now lent }
    ensures result_value { let lent = lent_of answers.old ring.old other.old image.old
        numbers.old factors.old table.old in
        result ≡ length (promised calls.now lent) }
    ensures answers_after { let lent = lent_of answers.old ring.old other.old image.old
        numbers.old factors.old table.old in
        answers.new ≡ sets answers.old 0 (promised calls.now lent) }
    ensures upper_bound { result ≤ length answers.old }
{
    replay(calls, answers, ring, other, image, numbers, factors, table)
}
