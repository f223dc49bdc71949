// A list of calls played from bytes on the book's own operations, each answer written as bytes. docs/RECORDS.md has the layout.
#![tactic(auto)]

ghost use Rattle.std.specs.Prelude.{◌≡◌, true, false, not, ◌&&◌, ◌||◌, [], ◌+◌, ◌-◌, ◌≤◌, length};
ghost use Rattle.laws.specs.Base.{pick};
ghost use Rattle.std.proofs.lemmas.List.Edits.{sets};
ghost use Rattle.records.specs.Reading.{call_size, answer_size};
ghost use Rattle.playing.specs.Playing.{state_of, playable, step, swaps};
ghost use Rattle.replay.specs.Replay.{turn, begins, finished, lent_of, outcome, replayed};
ghost use Rattle.replay.specs.Promise.{promised};

use book::record::{Book, ring_size};
use book_calls::opening::open;
use codec::{get_u8, get_u16};
use playing::{Played, play_call};
use records::reading::{Room, next_call, opens, settings_in};
use records::writing::put_answer;

// A call on the rings where they lie: `turned` says that they have changed places.
fn play_turned(
    turned: bool,
    book: Book,
    ring: &mut [i32],
    other: &mut [i32],
    image: &mut [u8],
    numbers: &mut [i32],
    factors: &mut [u32],
    table: &mut [i32],
    calls: &[u8],
    at: usize,
    answers: &mut [u8],
    out: usize,
) -> Played
    requires at_in_bounds { (at ≤ length calls.now) × (out ≤ length answers.old) }
    requires answers_value { playable calls.now (state_of turned book ring.old other.old image.old numbers.old factors.old table.old
        at out answers.old) ≡ true }
    ensures swapped_value { let before = state_of turned book ring.old other.old image.old
        numbers.old factors.old table.old at out answers.old in
        result.swapped ≡ swaps calls.now before }
    ensures answers_after { let before = state_of turned book ring.old other.old image.old
        numbers.old factors.old table.old at out answers.old in
        state_of (turn turned result.swapped) result.book ring.new other.new image.new numbers.new
        factors.new table.new (at + call_size calls.now at) (out + answer_size calls.now at)
        answers.new ≡ step calls.now before }
{
    if turned {
        return play_call(
            book, other, ring, image, numbers, factors, table, calls, at, answers, out,
        );
    }
    play_call(
        book, ring, other, image, numbers, factors, table, calls, at, answers, out,
    )
}

fn picked(test: bool, a: usize, b: usize) -> usize
    ensures { result ≡ pick test a b }
{
    if test { a } else { b }
}

// Every call after the opening: where the answers end.
fn play_calls(
    opened: Book,
    ring: &mut [i32],
    other: &mut [i32],
    image: &mut [u8],
    numbers: &mut [i32],
    factors: &mut [u32],
    table: &mut [i32],
    calls: &[u8],
    answers: &mut [u8],
) -> usize
    requires { (38 ≤ length calls.now) × (14 ≤ length answers.old) }
    ensures { let before = state_of false opened ring.old other.old image.old
        numbers.old factors.old table.old 38 14 answers.old in
        outcome result answers.new ring.new other.new image.new numbers.new
        factors.new table.new ≡ finished calls.now before [] [] }
{
    let mut book = opened;
    let mut turned = false;
    let mut at: usize = 38;
    let mut out: usize = 14;
    // Kept: no index is counted, each call says how long it and its answer are.
    while let Some(next) = next_call(
        calls,
        at,
        answers.len() - out,
        Room {
            ring: picked(turned, other.len(), ring.len()),
            numbers: numbers.len(),
            factors: factors.len(),
            table: table.len(),
        },
    ) {
        let played = play_turned(
            turned, book, ring, other, image, numbers, factors, table, calls, at, answers, out,
        );
        let after = played.book;
        book = after;
        turned = turned != played.swapped;
        at += next.call;
        out += next.answer;
    }
    out
}

// The opening, on rings of the book's size where they are long enough, and every call after it.
fn play_opening(
    ring: &mut [i32],
    other: &mut [i32],
    image: &mut [u8],
    numbers: &mut [i32],
    factors: &mut [u32],
    table: &mut [i32],
    calls: &[u8],
    answers: &mut [u8],
) -> usize
    requires { (38 ≤ length calls.now) × (14 ≤ length answers.old) }
    ensures { let lent = lent_of answers.old ring.old other.old image.old
        numbers.old factors.old table.old in
        outcome result answers.new ring.new other.new image.new numbers.new
        factors.new table.new ≡ finished calls.now (begins calls.now lent) [] [] }
{
    let opened = open(settings_in(calls), ring);
    put_answer(answers, 0, 14, 64, opened.answer);
    play_calls(
        opened.book,
        ring,
        other,
        image,
        numbers,
        factors,
        table,
        calls,
        answers,
    )
}

// Plays the list of calls in `calls`, and answers how many bytes of `answers` it wrote. The book lies in one of the two rings,
// an image in `image`, and an entry's contents in `numbers`, `factors` and `table`.
pub fn replay(
    calls: &[u8],
    answers: &mut [u8],
    ring: &mut [i32],
    other: &mut [i32],
    image: &mut [u8],
    numbers: &mut [i32],
    factors: &mut [u32],
    table: &mut [i32],
) -> usize
    ensures table_after { let lent = lent_of answers.old ring.old other.old image.old
        numbers.old factors.old table.old in
        outcome result answers.new ring.new other.new image.new numbers.new
        factors.new table.new ≡ replayed calls.now lent }
    ensures result_value { let lent = lent_of answers.old ring.old other.old image.old
        numbers.old factors.old table.old in
        result ≡ length (promised calls.now lent) }
    ensures answers_after { let lent = lent_of answers.old ring.old other.old image.old
        numbers.old factors.old table.old in
        answers.new ≡ sets answers.old 0 (promised calls.now lent) }
    ensures upper_bound { result ≤ length answers.old }
{
    if !opens(calls) {
        return 0;
    }
    if answers.len() < 14 {
        return 0;
    }
    let size = ring_size(get_u8(calls, 6), get_u8(calls, 7), get_u16(calls, 8));
    let mine = size.min(ring.len());
    let spare = size.min(other.len());
    play_opening(
        &mut ring[..mine],
        &mut other[..spare],
        image,
        numbers,
        factors,
        table,
        calls,
        answers,
    )
}
