// What a host in C is answered: the answers of the calls on a book and of the schedule maker, as plain structs laid out as in C.
#![tactic(auto)]

ghost use Rattle.std.specs.Prelude.{◌≡◌};
ghost use Rattle.billing.specs.Billing as Billing;
ghost use Rattle.book.specs.Record.{verdict};
ghost use Rattle.book_calls.specs.Report.{numbers};
ghost use Rattle.entries.specs.Entering as Entering;
ghost use Rattle.image.specs.Storing as Storing;
ghost use Rattle.intervals.specs.Reading as Intervals;
ghost use Rattle.interval_rewriter.specs.Rewriting as Rewriting;
ghost use Rattle.planning.specs.Left as Planning;
ghost use Rattle.schedule.specs.Schedule.{verdict_of, answered};
ghost use Rattle.synthetic.specs.Synthetic as Synthetic;
ghost use Rattle.face.specs.Face.{kept_by, taken_by, seen_by, written_by, found_by, rewritten_by, drawn_by, left_by, billed_by, rows_of};

use book::record::{Book, Reply, number_in, place_in};
use book_calls::report::Reading;
use synthetic::Draw;

// `guxhamole_kept`: a call that hands back a book and nothing else.
#[repr(C)]
#[derive(Clone, Copy)]
pub struct Kept {
    pub book: Book,
    pub number: u32,
    pub place: u64,
}

// `guxhamole_entered`: an entry.
#[repr(C)]
#[derive(Clone, Copy)]
pub struct Taken {
    pub book: Book,
    pub number: u32,
    pub place: u64,
    pub count: u32,
}

// `guxhamole_reading`: a report. Its refusals have no place.
#[repr(C)]
#[derive(Clone, Copy)]
pub struct Seen {
    pub number: u32,
    pub counted: u32,
    pub mark: u32,
    pub entries: u32,
    pub sum: i64,
}

// `guxhamole_stored`: the length of an image, or of an interval's records. The refusals of these calls have no place.
#[repr(C)]
#[derive(Clone, Copy)]
pub struct Written {
    pub number: u32,
    pub length: u64,
}

// `guxhamole_found`: the place after an interval that was read, its entry number and its day kind. A read's refusals have no place.
#[repr(C)]
#[derive(Clone, Copy)]
pub struct Found {
    pub number: u32,
    pub next: u64,
    pub entry: u32,
    pub kind: u32,
}

// `guxhamole_rewritten`: the place after an interval that was rewritten. A rewriting's refusals have no place.
#[repr(C)]
#[derive(Clone, Copy)]
pub struct Rewritten {
    pub number: u32,
    pub next: u64,
}

// `guxhamole_drawn`: the last seed of a test load, with its entry number and its day kind. Its refusals have no place.
#[repr(C)]
#[derive(Clone, Copy)]
pub struct Drawn {
    pub number: u32,
    pub seed: u32,
    pub entry: u32,
    pub kind: u32,
}

// `guxhamole_left`: how many intervals are left before a market's sum exceeds the threshold. Its refusals have no place.
#[repr(C)]
#[derive(Clone, Copy)]
pub struct Left {
    pub number: u32,
    pub intervals: u32,
}

// `guxhamole_billed`: whether a bill is right, or its first wrong line. Of its refusals those of an entry and 46 have a place.
#[repr(C)]
#[derive(Clone, Copy)]
pub struct Billed {
    pub number: u32,
    pub place: u64,
    pub right: u32,
    pub line: u64,
}

// `guxhamole_rows`: a schedule.
#[repr(C)]
#[derive(Clone, Copy)]
pub struct Rows {
    pub number: u32,
    pub place: u64,
    pub weekday: [i32; 48],
    pub weekend: [i32; 48],
}

impl From<Reply<()>> for Kept {
    ghost from_gives = { λ reply kept. kept ≡ kept_by (verdict reply.answer) reply.book };

    fn from(reply: Reply<()>) -> Kept {
        Kept {
            book: reply.book,
            number: number_in(reply.answer),
            place: place_in(reply.answer) as u64,
        }
    }
}

impl From<Reply<u32>> for Taken {
    ghost from_gives = { λ reply taken. taken ≡ taken_by (verdict reply.answer) (Entering.count reply.answer) reply.book };

    fn from(reply: Reply<u32>) -> Taken {
        Taken {
            book: reply.book,
            number: number_in(reply.answer),
            place: place_in(reply.answer) as u64,
            count: reply.answer.unwrap_or(0),
        }
    }
}

impl From<Reply<Reading>> for Seen {
    ghost from_gives = { λ reply seen. seen ≡ seen_by (numbers reply.answer) };

    fn from(reply: Reply<Reading>) -> Seen {
        match reply.answer {
            Ok(reading) => Seen {
                number: 0,
                counted: reading.counted as u32,
                mark: reading.mark as u32,
                entries: reading.entries,
                sum: reading.sum,
            },
            Err(refusal) => Seen {
                number: refusal.number(),
                counted: 0,
                mark: 0,
                entries: 0,
                sum: 0,
            },
        }
    }
}

// Of an image, and of an interval's records.
impl From<Reply<usize>> for Written {
    ghost from_gives = { λ reply written. written ≡ written_by (verdict reply.answer) (Storing.length_in reply.answer) };

    fn from(reply: Reply<usize>) -> Written {
        Written {
            number: number_in(reply.answer),
            length: reply.answer.unwrap_or(0) as u64,
        }
    }
}

impl From<Reply<intervals::reading::Found>> for Found {
    ghost from_gives = { λ reply found. let answer = reply.answer in
        found ≡ found_by (verdict answer) (Intervals.next_in answer) (Intervals.number_in answer) (Intervals.kind_in answer) };

    fn from(reply: Reply<intervals::reading::Found>) -> Found {
        match reply.answer {
            Ok(found) => Found {
                number: 0,
                next: found.next as u64,
                entry: found.number,
                kind: found.kind as u32,
            },
            Err(refusal) => Found {
                number: refusal.number(),
                next: 0,
                entry: 0,
                kind: 0,
            },
        }
    }
}

impl From<Reply<usize>> for Rewritten {
    ghost from_gives = { λ reply rewritten. rewritten ≡ rewritten_by (verdict reply.answer) (Rewriting.next_in reply.answer) };

    fn from(reply: Reply<usize>) -> Rewritten {
        Rewritten {
            number: number_in(reply.answer),
            next: reply.answer.unwrap_or(0) as u64,
        }
    }
}

impl From<Reply<Draw>> for Drawn {
    ghost from_gives = { λ reply drawn. let answer = reply.answer in
        drawn ≡ drawn_by (verdict answer) (Synthetic.seed_in answer) (Synthetic.number_in answer) (Synthetic.kind_in answer) };

    fn from(reply: Reply<Draw>) -> Drawn {
        match reply.answer {
            Ok(draw) => Drawn {
                number: 0,
                seed: draw.seed,
                entry: draw.number,
                kind: draw.kind as u32,
            },
            Err(refusal) => Drawn {
                number: refusal.number(),
                seed: 0,
                entry: 0,
                kind: 0,
            },
        }
    }
}

impl From<Reply<u16>> for Left {
    ghost from_gives = { λ reply left. left ≡ left_by (verdict reply.answer) (Planning.intervals_in reply.answer) };

    fn from(reply: Reply<u16>) -> Left {
        Left {
            number: number_in(reply.answer),
            intervals: reply.answer.unwrap_or(0) as u32,
        }
    }
}

impl From<Reply<Option<usize>>> for Billed {
    ghost from_gives = { λ reply billed. let answer = reply.answer in
        billed ≡ billed_by (verdict answer) (Billing.right_in answer) (Billing.line_in answer) };

    fn from(reply: Reply<Option<usize>>) -> Billed {
        match reply.answer {
            Ok(None) => Billed {
                number: 0,
                place: 0,
                right: 1,
                line: 0,
            },
            Ok(Some(first)) => Billed {
                number: 0,
                place: 0,
                right: 0,
                line: first as u64,
            },
            Err(refusal) => Billed {
                number: refusal.number(),
                place: refusal.place() as u64,
                right: 0,
                line: 0,
            },
        }
    }
}

impl From<schedule::Answer> for Rows {
    ghost from_gives = { λ answer rows. rows_of rows ≡ answered answer };

    fn from(answer: schedule::Answer) -> Rows {
        let making = answer.making;
        let weekday = answer.weekday;
        let weekend = answer.weekend;
        Rows {
            number: number_of(making),
            place: place_of(making) as u64,
            weekday,
            weekend,
        }
    }
}

// The paper's number of what became of a schedule: 0 is one that was made.
fn number_of(making: Result<(), schedule::Refusal>) -> u32
    ensures { result ≡ (verdict_of making).number }
{
    match making {
        Ok(()) => 0,
        Err(schedule::Refusal::Sizes) => 31,
        Err(schedule::Refusal::Kinds) => 32,
        Err(schedule::Refusal::Limits) => 19,
        Err(schedule::Refusal::Price(_)) => 16,
    }
}

fn place_of(making: Result<(), schedule::Refusal>) -> usize
    ensures { result ≡ (verdict_of making).place }
{
    match making {
        Ok(()) => 0,
        Err(schedule::Refusal::Sizes) => 0,
        Err(schedule::Refusal::Kinds) => 0,
        Err(schedule::Refusal::Limits) => 0,
        Err(schedule::Refusal::Price(place)) => place,
    }
}
