// The lines of a bill: whether one is right, how many in front are, and the first with too many kilowatt-hours.
ghost use Rattle.std.specs.Prelude.{◌≡◌, ◌≤◌};
ghost use Rattle.bill_lines.specs.Lines.{shown_as, line_right};
ghost use Rattle.bill_lines.specs.Working.{leads_to, heavy_line};

use pricing::rounding::rounded;
use std::marker::Model;

// The lines of a bill, in four slices of one length.
#[derive(Drop)]
pub struct Lines<'a> {
    pub numbers: &'a [u32],
    pub energy: &'a [u32],
    pub prices: &'a [i32],
    pub amounts: &'a [i64],
}

impl<'a> Model for Lines<'a> {
    ghost use Rattle.bill_lines.specs.Lines.{Lines as Said, lines_of};
    ghost use Rattle.bill_lines.specs.Working.{OneLength};

    ghost Value = { Said };

    ghost view = { λ l. lines_of l.numbers.now l.energy.now l.prices.now l.amounts.now };

    ghost invariant = { λ l. OneLength (lines_of l.numbers.now l.energy.now l.prices.now l.amounts.now) };
}

// Whether a line says of an interval what the rules say. The range leaves room for the product.
fn line_right(said: u32, used: u32, asked: i32, charged: i64, number: u32, price: i32) -> bool
    requires { used ≤ 1000000000 }
    ensures { result ≡ line_right said used asked charged (shown_as number price) }
{
    let due = rounded(used as i64 * price as i64, 1000);
    (said == number) & (asked == price) & (charged == due)
}

// How many of the first lines are right after one more interval, which is number `count`; `right` of those before it were.
pub fn leads_to(lines: &Lines, right: usize, count: usize, number: u32, price: i32) -> usize
    ensures { result ≡ leads_to lines.now right count (shown_as number price) }
{
    if right != count {
        return right;
    }
    if !(count < lines.numbers.len()) {
        return right;
    }
    let used = lines.energy[count];
    // Out of range: 46 is the bill's answer, and the product might have no room.
    if !(used <= 1000000000) {
        return right;
    }
    let said = lines.numbers[count];
    if line_right(
        said,
        used,
        lines.prices[count],
        lines.amounts[count],
        number,
        price,
    ) {
        return right + 1;
    }
    right
}

// The first line with too many kilowatt-hours, if there is one.
pub fn first_heavy(energy: &[u32]) -> Option<usize>
    ensures { result ≡ heavy_line energy.now }
{
    energy.iter().position(|used| *used > 1000000000)
}
