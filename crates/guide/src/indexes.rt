// Indexed amounts: rounding at the half, last year's amount, the ranges.
use pricing::indexing::{OutOfRange, Quarters, indexed};

fn show(answer: Result<u64, OutOfRange>) {
    match answer {
        Ok(dollars) => {
            io::print_decimal(1, dollars);
        }
        Err(OutOfRange) => {
            io::write_all(1, b"refused 30");
        }
    }
    io::write_all(1, b"\n");
}

// Year c has three quarters of `c` and one of `fourth`, year b four of `b`.
fn index(amount: u64, c: u32, fourth: u32, b: u32, last: u64) {
    let year = Quarters {
        q1: c,
        q2: c,
        q3: c,
        q4: fourth,
    };
    let base = Quarters {
        q1: b,
        q2: b,
        q3: b,
        q4: b,
    };
    show(indexed(amount, year, base, last));
}

pub fn all() {
    io::write_all(1, b"index\n");
    // "1,125,000, quarters 4,777 and 3,844 in total, last 1,359,100: 1,398,100", "12,500, last 15,100: 15,500"
    index(1125000, 1194, 1195, 961, 1359100);
    index(12500, 1194, 1195, 961, 15100);
    index(50, 1, 1, 1, 0);
    index(49, 1, 1, 1, 0);
    index(150, 1, 1, 1, 205);
    index(100000000, 100000, 100000, 1, 10000000000000);
    index(1, 1, 1, 1, 10000000000000);
    index(1, 1, 1, 1, 10000000000001);
    index(0, 1, 1, 1, 0);
    index(100000001, 1, 1, 1, 0);
    index(1, 0, 0, 1, 0);
    index(1, 1, 1, 100001, 0);
}
