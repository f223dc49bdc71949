// The book record, the settings that it is opened with, and the refusals of every call on a book with their numbers and places.
ghost use Rattle.std.specs.Prelude.{◌≡◌};
ghost use Rattle.book.specs.Record.{closed, ring_size, links_with, has_link, link_count, verdict_of, verdict};

// A book by value. The sum and the period mark of a market stand at 11 × region + market; a region's count and next place
// serve all its markets. `position` is the next entry's. Laid out as in C: a host keeps it between calls.
#[repr(C)]
#[derive(Clone, Copy)]
pub struct Book {
    pub regions: u8,
    pub services: u8,
    pub window: u16,
    pub halves: u8,
    pub parents: [u8; 8],
    pub from: u8,
    pub to: u8,
    pub threshold: i64,
    pub cap: i32,
    pub floor: i32,
    pub entries: u32,
    pub position: u16,
    pub counts: [u16; 8],
    pub nexts: [u16; 8],
    pub sums: [i64; 88],
    pub marks: [u8; 88],
}

// What a book is opened with. `first` is the first position; `from` and `to` are the ends of the additional link, or 255 and 255 for none.
#[repr(C)]
#[derive(Clone, Copy)]
pub struct Settings {
    pub regions: u8,
    pub services: u8,
    pub window: u16,
    pub halves: u8,
    pub first: u16,
    pub parents: [u8; 8],
    pub from: u8,
    pub to: u8,
    pub threshold: i64,
    pub cap: i32,
    pub floor: i32,
}

// A case for each refusal of a call on a book, with its place where it has one.
#[derive(Clone, Copy)]
pub enum Refusal {
    Invalid,
    Length,
    Full,
    Number,
    Kind,
    Mark(usize),
    Price(usize),
    Factor(usize),
    Threshold,
    Limits,
    Setting,
    Market,
    Sums,
    Buffer,
    ImageLength,
    ImageKind,
    ImageField,
    ImageTotal,
    Broken,
    RecordKind,
    RecordRegion,
    PlannedPrice,
    Hundreds,
    RecordOrder,
    BilledEnergy(usize),
    ImageFirst,
}

// What a call on a book hands back: the book after it, and its answer or the first refusal.
#[derive(Clone, Copy)]
pub struct Reply<T> {
    pub book: Book,
    pub answer: Result<T, Refusal>,
}

// The closed book: all zero.
pub fn closed() -> Book
    ensures { result ≡ closed }
{
    Book {
        regions: 0,
        services: 0,
        window: 0,
        halves: 0,
        parents: [0; 8],
        from: 0,
        to: 0,
        threshold: 0,
        cap: 0,
        floor: 0,
        entries: 0,
        position: 0,
        counts: [0; 8],
        nexts: [0; 8],
        sums: [0; 88],
        marks: [0; 88],
    }
}

impl Refusal {
    // The paper's number of a refusal.
    pub fn number(self) -> u32
        ensures { result ≡ (verdict_of self).number }
    {
        match self {
            Refusal::Invalid => 10,
            Refusal::Length => 11,
            Refusal::Full => 12,
            Refusal::Number => 13,
            Refusal::Kind => 14,
            Refusal::Mark(_) => 15,
            Refusal::Price(_) => 16,
            Refusal::Factor(_) => 17,
            Refusal::Threshold => 18,
            Refusal::Limits => 19,
            Refusal::Setting => 20,
            Refusal::Market => 21,
            Refusal::Sums => 22,
            Refusal::Buffer => 23,
            Refusal::ImageLength => 24,
            Refusal::ImageKind => 25,
            Refusal::ImageField => 26,
            Refusal::ImageTotal => 27,
            Refusal::Broken => 40,
            Refusal::RecordKind => 41,
            Refusal::RecordRegion => 42,
            Refusal::PlannedPrice => 43,
            Refusal::Hundreds => 44,
            Refusal::RecordOrder => 45,
            Refusal::BilledEnergy(_) => 46,
            Refusal::ImageFirst => 47,
        }
    }

    // The place that a refusal gives, 0 where it gives none.
    pub fn place(self) -> usize
        ensures { result ≡ (verdict_of self).place }
    {
        match self {
            Refusal::Mark(place) => place,
            Refusal::Price(place) => place,
            Refusal::Factor(place) => place,
            Refusal::BilledEnergy(place) => place,
            _ => 0,
        }
    }
}

// The number that an answer carries: 0 is an acceptance.
pub fn number_in<T: Copy>(answer: Result<T, Refusal>) -> u32
    ensures { result ≡ (verdict answer).number }
{
    match answer {
        Ok(_) => 0,
        Err(refusal) => refusal.number(),
    }
}

// The place that an answer carries.
pub fn place_in<T: Copy>(answer: Result<T, Refusal>) -> usize
    ensures { result ≡ (verdict answer).place }
{
    match answer {
        Ok(_) => 0,
        Err(refusal) => refusal.place(),
    }
}

// R × M × W, for any numbers.
pub fn ring_size(regions: u8, services: u8, window: u16) -> usize
    ensures { result ≡ ring_size regions services window }
{
    regions as usize * (services as usize + 1) * window as usize
}

// The places of flows and factors: one for each region, and a last one for the additional link that `from` is an end of.
pub fn links_with(regions: u8, from: u8) -> usize
    ensures { result ≡ links_with regions from }
{
    if from == 255 {
        regions as usize
    } else {
        regions as usize + 1
    }
}

// Whether a book has the additional link.
pub fn has_link(book: Book) -> bool
    ensures { result ≡ has_link book }
{
    book.from != 255
}

// The places of flows and factors of a book.
pub fn link_count(book: Book) -> usize
    ensures { result ≡ link_count book }
{
    links_with(book.regions, book.from)
}
