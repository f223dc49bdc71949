// Rewrites the interval records of its standard input, call by call: the worked cases of request 2026-08 against the stored output. The
// cases, and the request's words beside them, are in the file stdin.
#![tactic(auto)]

mod lines;

fn main() {
    let mut text = io::large_buffer();
    let n = io::read_full(0, &mut text);
    lines::play(&text[..n]);
}
