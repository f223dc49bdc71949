// Stores books by either kind of image, damages the bytes and loads them: the cases of request 2026-10 that are about images, against the
// stored output. The cases, and the document's words beside them, are in the file stdin.
#![tactic(auto)]

mod lines;

fn main() {
    let mut text = io::large_buffer();
    let n = io::read_full(0, &mut text);
    lines::play(&text[..n]);
}
