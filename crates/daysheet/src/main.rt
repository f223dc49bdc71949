// Reads an image from standard input and writes its day sheet: this file only moves bytes, `sheet` says what they are.
#![tactic(auto)]

fn main() {
    // One byte more than an image may have, so that a longer input shows.
    let mut input = sheet::zeros::<u8, 65537>();
    let n = io::read_full(0, &mut input);
    let mut out = [0u8; 4096];
    let k = sheet::sheet(&input[..n], &mut out);
    io::write_all(1, &out[..k]);
}
