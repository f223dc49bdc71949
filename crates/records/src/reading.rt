// Records of calls, read from bytes.
ghost use Rattle.std.specs.Prelude.{◌≡◌, true, ◌+◌, ◌-◌, ◌*◌, ◌≤◌, eqb, length};
ghost use Rattle.std.proofs.lemmas.List.Edits.{sets};
ghost use Rattle.laws.specs.Lists.{tabulate};
ghost use Rattle.records.specs.Reading.{words_at, numbers_at, kind_at, opening_size, parent_at, settings_in, opens, lengths_at, entry_size, signed_at, factors_at, table_at, entry_size_at, size_for, call_size, fits, answer_size};
ghost use Rattle.records.specs.Working.{some_size, next_call};

use book::record::Settings;
use codec::{get, get_array, get_u8, get_u16, get_u32, get_word, get_words, signed64};

// How many numbers each slice of an entry's record holds, and the length of the ring that it is lent.
#[derive(Clone, Copy)]
pub struct Lengths {
    pub prices: usize,
    pub marks: usize,
    pub flows: usize,
    pub factors: usize,
    pub schedule: usize,
    pub table: usize,
    pub ring: usize,
}

// The room that a replay is lent: how long the book's ring and the slices for an entry's contents are.
#[derive(Clone, Copy)]
pub struct Room {
    pub ring: usize,
    pub numbers: usize,
    pub factors: usize,
    pub table: usize,
}

// How long the record of a call that is played is, and how long that of its answer.
#[derive(Clone, Copy)]
pub struct Sizes {
    pub call: usize,
    pub answer: usize,
}

// Whether an opening's whole record stands first.
pub fn opens(bytes: &[u8]) -> bool
    ensures { result ≡ opens bytes.now }
{
    if bytes.len() < 38 {
        return false;
    }
    (get_u32(bytes, 0) == 38) & ((get_u16(bytes, 4) == 64) & (get_u8(bytes, 11) == 0))
}

// The settings of the opening that stands first.
pub fn settings_in(bytes: &[u8]) -> Settings
    requires { opening_size ≤ length bytes.now }
    ensures { result ≡ settings_in bytes.now }
{
    let parents = get_array(bytes, 14);
    Settings {
        regions: get_u8(bytes, 6),
        services: get_u8(bytes, 7),
        window: get_u16(bytes, 8),
        halves: get_u8(bytes, 10),
        first: get_u16(bytes, 12),
        parents,
        from: 255,
        to: 255,
        threshold: signed64(get(bytes, 22, 8)),
        cap: get_word(bytes, 30),
        floor: get_word(bytes, 34),
    }
}

// The lengths in an entry's record.
pub fn lengths_at(bytes: &[u8], at: usize) -> Lengths
    requires { at + 40 ≤ length bytes.now }
    ensures { result ≡ lengths_at bytes.now at }
{
    Lengths {
        prices: get_u32(bytes, at + 12) as usize,
        marks: get_u32(bytes, at + 16) as usize,
        flows: get_u32(bytes, at + 20) as usize,
        factors: get_u32(bytes, at + 24) as usize,
        schedule: get_u32(bytes, at + 28) as usize,
        table: get_u32(bytes, at + 32) as usize,
        ring: get_u32(bytes, at + 36) as usize,
    }
}

// The length of an entry's record of these lengths.
fn entry_size(lengths: Lengths) -> usize
    requires { (lengths.prices ≤ 4294967295) × (lengths.marks ≤ 4294967295) × (lengths.flows ≤ 4294967295) × (lengths.factors ≤ 4294967295) × (lengths.schedule ≤ 4294967295) × (lengths.table ≤ 4294967295) }
    ensures { result ≡ entry_size lengths }
{
    let before = 40 + 4 * lengths.prices + lengths.marks;
    let links = 4 * lengths.flows + 4 * lengths.factors;
    before + links + 4 * lengths.schedule + 4 * lengths.table
}

// The length of an entry's record by the lengths that it says, where they stand and its zero byte is zero.
fn entry_size_at(bytes: &[u8], at: usize) -> Option<usize>
    requires { at ≤ length bytes.now }
    ensures { result ≡ some_size (entry_size_at bytes.now at) }
{
    if bytes.len() - at < 40 {
        return None;
    }
    if get_u8(bytes, at + 11) != 0 {
        return None;
    }
    let lengths = lengths_at(bytes, at);
    Some(entry_size(lengths))
}

// The length of a call's record of a kind. Kept: kinds are the numbers of docs/RECORDS.md, which `size_for` compares.
fn size_for(bytes: &[u8], at: usize, kind: u16) -> Option<usize>
    requires { at ≤ length bytes.now }
    ensures { result ≡ some_size (size_for bytes.now at kind) }
{
    match kind {
        65 => entry_size_at(bytes, at),
        66..=68 => Some(14),
        69 => Some(6),
        _ => None,
    }
}

// The length of the record of a call at a place, where it stands whole.
pub fn call_size(bytes: &[u8], at: usize) -> Option<usize>
    requires { at ≤ length bytes.now }
    ensures { result ≡ some_size (call_size bytes.now at) }
{
    let left = bytes.len() - at;
    if left < 6 {
        return None;
    }
    let size = get_u32(bytes, at) as usize;
    if left < size {
        return None;
    }
    if size_for(bytes, at, get_u16(bytes, at + 4))? != size {
        return None;
    }
    Some(size)
}

// Whether an entry's contents and ring fit what is lent for them.
fn fits(lengths: Lengths, room: Room) -> bool
    requires { (lengths.prices ≤ 4294967295) × (lengths.flows ≤ 4294967295) × (lengths.schedule ≤ 4294967295) }
    ensures { result ≡ fits room lengths }
{
    (lengths.prices + lengths.flows + lengths.schedule <= room.numbers)
        & ((lengths.factors <= room.factors)
            & ((lengths.table <= room.table) & (lengths.ring <= room.ring)))
}

// How many bytes the answer to the call at a place takes.
pub fn answer_size(bytes: &[u8], at: usize) -> usize
    requires { (at ≤ length bytes.now) × (6 ≤ length bytes.now - at) × (eqb (kind_at bytes.now at) 65 ≡ true → at + 40 ≤ length bytes.now) }
    ensures { result ≡ answer_size bytes.now at }
{
    match get_u16(bytes, at + 4) {
        65 => 18 + 4 * get_u32(bytes, at + 32) as usize,
        68 => 34,
        _ => 14,
    }
}

// The sizes of the call at a place, if it is played: its record stands whole, its contents fit what is lent for them, and its
// answer fits the `left` bytes of the answers' buffer.
pub fn next_call(bytes: &[u8], at: usize, left: usize, room: Room) -> Option<Sizes>
    requires { at ≤ length bytes.now }
    ensures { result ≡ next_call room bytes.now at left }
{
    let call = call_size(bytes, at)?;
    if get_u16(bytes, at + 4) == 65 {
        let lengths = lengths_at(bytes, at);
        if !fits(lengths, room) {
            return None;
        }
    }
    let answer = answer_size(bytes, at);
    if left < answer {
        return None;
    }
    Some(Sizes { call, answer })
}

// The contents of an entry's record but its marks, which are read where they stand: prices, flows and schedule one after
// the other.
pub fn read_entry(
    bytes: &[u8],
    at: usize,
    lengths: Lengths,
    numbers: &mut [i32],
    factors: &mut [u32],
    table: &mut [i32],
)
    requires lengths_value { (lengths ≡ lengths_at bytes.now at) × (at + entry_size lengths ≤ length bytes.now) }
    requires schedule_in_bounds { (lengths.prices + lengths.flows + lengths.schedule ≤ length numbers.old) × (lengths.factors ≤ length factors.old) × (lengths.table ≤ length table.old) }
    ensures numbers_after { numbers.new ≡ sets numbers.old 0 (signed_at bytes.now at) }
    ensures factors_after { factors.new ≡ sets factors.old 0 (factors_at bytes.now at) }
    ensures table_after { table.new ≡ sets table.old 0 (table_at bytes.now at) }
{
    let prices = lengths.prices;
    let flows = lengths.flows;
    let schedule = lengths.schedule;
    let flows_from = 40 + 4 * prices + lengths.marks;
    let factors_from = flows_from + 4 * flows;
    let schedule_from = factors_from + 4 * lengths.factors;
    let table_from = schedule_from + 4 * schedule;
    get_words(bytes, at + 40, prices, numbers, 0);
    get_words(bytes, at + flows_from, flows, numbers, prices);
    get_words(bytes, at + schedule_from, schedule, numbers, prices + flows);
    get_words(bytes, at + factors_from, lengths.factors, factors, 0);
    get_words(bytes, at + table_from, lengths.table, table, 0);
}
