// Step 6: the period marks, and the position of the next entry.
ghost use Rattle.std.specs.Prelude.{◌≡◌, Bool, ◌+◌, ◌<◌, ◌≤◌};
ghost use Rattle.laws.specs.Base.{pick};
ghost use Rattle.counting.specs.Periods.{last_of_day};
ghost use Rattle.counting.specs.Working.{marks_by};

// Whether a position is a day's last.
pub fn last_of_day(halves: u8, position: u16) -> bool
    ensures { result ≡ last_of_day halves position }
{
    position as usize + 1 == 6 * halves as usize
}

pub fn position_after(last: bool, position: u16) -> u16
    requires { position < 65535 }
    ensures { result ≡ pick last 0 (position + 1) }
{
    if last { 0 } else { position + 1 }
}

// The marks, those at the first `n` places anew: above the threshold, or else at a day's end, or else as before. An unused place
// has sum and mark 0, and its mark stays. Only what changes is written, since most marks stay.
pub fn marks_after(
    n: usize,
    threshold: i64,
    last: bool,
    sums: &[i64; 88],
    marks: [u8; 88],
) -> [u8; 88]
    requires { n ≤ 88 }
    ensures { result ≡ marks_by n threshold last sums.now marks }
{
    let mut after = marks;
    for k in 0..n {
        if threshold < sums[k] {
            after[k] = 1;
        } else if last {
            after[k] = 0;
        }
    }
    after
}
