// Opening a book.
ghost use Rattle.std.specs.Prelude.{◌≡◌, pos, length, replicate};
ghost use Rattle.book.specs.Record.{verdict};
ghost use Rattle.book_calls.specs.Opening.{open_verdict, fresh, outcome, opened};

use crate::setting::threshold_verdict;
use book::record::{Book, Refusal, Reply, Settings, closed, ring_size};
use book::validity::{ends_ok, parents_ok, shape_ok};

fn open_verdict(settings: Settings, ring: usize) -> Result<(), Refusal>
    ensures { verdict result ≡ open_verdict settings ring }
{
    let parents = settings.parents;
    let shape = shape_ok(
        settings.regions,
        settings.services,
        settings.window,
        settings.halves,
        settings.first,
    );
    let regions = settings.regions as usize;
    let ends = ends_ok(
        regions,
        parents,
        settings.from as usize,
        settings.to as usize,
    );
    if !(shape & parents_ok(regions, parents) & ends) {
        return Err(Refusal::Setting);
    }
    if ring != ring_size(settings.regions, settings.services, settings.window) {
        return Err(Refusal::Length);
    }
    threshold_verdict(settings.threshold)?;
    if !pricing::holding::limits_ok(settings.cap, settings.floor) {
        return Err(Refusal::Limits);
    }
    Ok(())
}

fn fresh(settings: Settings) -> Book
    ensures { result ≡ fresh settings }
{
    let parents = settings.parents;
    Book {
        regions: settings.regions,
        services: settings.services,
        window: settings.window,
        halves: settings.halves,
        parents,
        from: settings.from,
        to: settings.to,
        threshold: settings.threshold,
        cap: settings.cap,
        floor: settings.floor,
        entries: 0,
        position: settings.first,
        counts: [0; 8],
        nexts: [0; 8],
        sums: [0; 88],
        marks: [0; 88],
    }
}

// Opens a book over a ring of exactly R × M × W places.
pub fn open(settings: Settings, ring: &mut [i32]) -> Reply<()>
    ensures { outcome result ring.new ≡ opened settings ring.old }
{
    let answer = open_verdict(settings, ring.len());
    if let Err(_) = answer {
        return Reply {
            book: closed(),
            answer,
        };
    }
    ring.fill(0);
    Reply {
        book: fresh(settings),
        answer,
    }
}
