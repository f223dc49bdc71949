// Reads and writes the interval records of its standard input and draws test loads, call by call: the worked cases of requests 2026-01 and
// 2026-07, and of the reader those of 2026-08, against the stored output. The cases, and the requests' words beside them, are in the file
// stdin.
#![tactic(auto)]

mod lines;

fn main() {
    let mut text = io::large_buffer();
    let n = io::read_full(0, &mut text);
    lines::play(&text[..n]);
}
