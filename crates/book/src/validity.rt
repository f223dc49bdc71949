// Rule 10: whether a book is one that a call may take. The loops read numbers and lent arrays, never the whole book.
ghost use Rattle.std.specs.Prelude.{◌≡◌, ◌&&◌, ◌||◌, ◌+◌, ◌≤◌, leb, ltb, pos, get_or};
ghost use Rattle.laws.specs.Lists.{all_below};
ghost use Rattle.book.specs.Record.{none};
ghost use Rattle.book.specs.Validity.{parent_ok, parents_ok, shape_ok, threshold_ok, region_ok, place_ok, regions_ok, places_ok, ends_ok, valid};

use crate::record::Book;

fn parent_ok(regions: usize, r: usize, parent: usize) -> bool
    ensures { result ≡ parent_ok regions r parent }
{
    (parent == 255) | ((r < regions) & (parent < r))
}

pub fn parents_ok(regions: usize, parents: [u8; 8]) -> bool
    ensures { result ≡ parents_ok regions parents }
{
    let mut ok = true;
    for r in 0..8 {
        ok &= parent_ok(regions, r, parents[r] as usize);
    }
    ok
}

// A region's parent, or 255 for a number that is no region's: a forged book may have its ends anywhere.
// Kept: 255 is what the record holds for none, and `ends_ok` compares it.
fn parent_of(parents: [u8; 8], r: usize) -> usize
    ensures { result ≡ get_or parents r none }
{
    if r < 8 { parents[r] as usize } else { 255 }
}

// The ends of the additional link: 255 and 255, or two regions not already linked.
pub fn ends_ok(regions: usize, parents: [u8; 8], from: usize, to: usize) -> bool
    ensures { result ≡ ends_ok regions parents from to }
{
    let up = parent_of(parents, from) != to;
    let down = parent_of(parents, to) != from;
    ((from == 255) & (to == 255)) | ((from < regions) & (to < regions) & (from != to) & up & down)
}

pub fn shape_ok(regions: u8, services: u8, window: u16, halves: u8, position: u16) -> bool
    ensures { result ≡ shape_ok regions services window halves position }
{
    (1 <= regions)
        & (regions <= 8)
        & (services <= 10)
        & (1 <= window)
        & (window <= 2016)
        & (1 <= halves)
        & (halves <= 48)
        & ((position as usize) < 6 * halves as usize)
}

pub fn threshold_ok(threshold: i64) -> bool
    ensures { result ≡ threshold_ok threshold }
{
    (1 <= threshold) & (threshold <= 100000000000)
}

fn region_ok(used: bool, window: u16, entries: u32, count: u16, next: u16) -> bool
    ensures { result ≡ region_ok used window entries count next }
{
    if used {
        return (count <= window)
            & (count as u32 <= entries)
            & (next < window)
            & ((count == window) | (next == count));
    }
    (count == 0) & (next == 0)
}

fn place_ok(used: bool, sum: i64, mark: u8) -> bool
    ensures { result ≡ place_ok used sum mark }
{
    if used {
        return (-20160000000 <= sum) & (sum <= 20160000000) & (mark <= 1);
    }
    (sum == 0) & (mark == 0)
}

fn regions_ok(
    regions: usize,
    window: u16,
    entries: u32,
    counts: &[u16; 8],
    nexts: &[u16; 8],
) -> bool
    ensures { result ≡ regions_ok regions window entries counts.now nexts.now }
{
    let mut ok = true;
    for r in 0..8 {
        ok &= region_ok(r < regions, window, entries, counts[r], nexts[r]);
    }
    ok
}

// The eleven places of a region, which start at 11 × region. The first `SURE` are used and not asked whether they are: all of them
// where every market is used, as in the real market, or else none.
fn row_passes<const SURE: usize>(
    used: bool,
    services: usize,
    sums: &[i64; 88],
    marks: &[u8; 88],
    from: usize,
) -> bool
    requires { from + 11 ≤ 88 }
    ensures { let sum = get_or sums.now in let mark = get_or marks.now in
        result ≡ all_below 11 (λ m. place_ok (ltb m SURE || used && leb m services) (sum (from + m) (pos 0)) (mark (from + m) 0)) }
{
    let mut ok = true;
    for m in 0..11 {
        ok &= place_ok(
            (m < SURE) | (used & (m <= services)),
            sums[from + m],
            marks[from + m],
        );
    }
    ok
}

fn row_ok(used: bool, services: usize, sums: &[i64; 88], marks: &[u8; 88], from: usize) -> bool
    requires { from + 11 ≤ 88 }
    ensures { let sum = get_or sums.now in let mark = get_or marks.now in
        result ≡ all_below 11 (λ m. place_ok (used && leb m services) (sum (from + m) (pos 0)) (mark (from + m) 0)) }
{
    if used & (10 <= services) {
        row_passes::<11>(used, services, sums, marks, from)
    } else {
        row_passes::<0>(used, services, sums, marks, from)
    }
}

fn places_ok(regions: usize, services: usize, sums: &[i64; 88], marks: &[u8; 88]) -> bool
    ensures { result ≡ places_ok regions services sums.now marks.now }
{
    (0..8).all(|r| row_ok(r < regions, services, sums, marks, 11 * r))
}

// Whether a call may take the book: any value of the record may be lent.
pub fn valid(book: Book) -> bool
    ensures { result ≡ valid book }
{
    let parents = book.parents;
    let regions = book.regions as usize;
    let shape = shape_ok(
        book.regions,
        book.services,
        book.window,
        book.halves,
        book.position,
    );
    let limits = threshold_ok(book.threshold) & pricing::holding::limits_ok(book.cap, book.floor);
    let counts = regions_ok(
        regions,
        book.window,
        book.entries,
        &book.counts,
        &book.nexts,
    );
    let places = places_ok(regions, book.services as usize, &book.sums, &book.marks);
    let links = parents_ok(regions, parents)
        & ends_ok(regions, parents, book.from as usize, book.to as usize);
    shape & links & limits & (book.entries <= 10000000) & counts & places
}
