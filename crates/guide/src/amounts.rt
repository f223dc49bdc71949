// Amount texts, among them the ends of the range, and a buffer that is too short.
ghost use Rattle.std.specs.Prelude.{◌≤◌};

use amount::amount_text;

// The part handed back of a buffer of N bytes: the text, or an empty part.
fn amount<const N: usize>(cents: i64)
    requires { N ≤ 24 }
{
    let mut buffer = [0u8; N];
    io::write_all(1, amount_text(cents, &mut buffer));
}

pub fn price(cents: i32) {
    io::write_all(1, b" ");
    amount::<24>(i64::from(cents));
}

pub fn all() {
    io::write_all(1, b"amount text\n");
    for cents in [0, -5, 99, -100, 1234567, i64::MAX, i64::MIN] {
        amount::<24>(cents);
        io::write_all(1, b"\n");
    }
    for cents in [999, 1000, -1] {
        io::write_all(1, b"[");
        amount::<4>(cents);
        io::write_all(1, b"]\n");
    }
}
