// Reads a list of calls from standard input and writes the answers: this file only moves bytes, `replay` says what they are.
#![tactic(auto)]

ghost use Rattle.std.specs.Prelude.{◌≡◌, ◌≤◌, length};
ghost use Rattle.std.proofs.lemmas.List.Edits.{sets};
ghost use Rattle.replay.specs.Promise.{promised_for};
ghost use Rattle.player.specs.Player.{too_large, lent};

use book::record::ring_size;
use codec::{get_u8, get_u16};
use records::reading::opens;
use replay::replay;

// What is lent; of what is there before, only the length matters.
fn zeros<T: Copy + Default, const N: usize>() -> [T; N]
    ensures { N ≡ length result }
{
    [T::default(); N]
}

// More than 65,536 bytes, or a book of more than 16,384 places.
fn too_large(bytes: &[u8]) -> bool
    ensures { result ≡ too_large bytes.now }
{
    if bytes.len() > 65536 {
        return true;
    }
    if !opens(bytes) {
        return false;
    }
    ring_size(get_u8(bytes, 6), get_u8(bytes, 7), get_u16(bytes, 8)) > 16384
}

// The answers to a list of calls as the first bytes of `out`, and how many they are.
fn play(bytes: &[u8], out: &mut [u8; 163840]) -> usize
    ensures value { result ≡ length (promised_for bytes.now lent) }
    ensures out_after { out.new ≡ sets out.old 0 (promised_for bytes.now lent) }
    ensures upper_bound { result ≤ length out.new }
{
    let mut ring = zeros::<i32, 16384>();
    let mut other = zeros::<i32, 16384>();
    let mut buffer = zeros::<u8, 65684>();
    let mut numbers = zeros::<i32, 16384>();
    let mut used = zeros::<u32, 16384>();
    let mut table = zeros::<i32, 16384>();
    replay(
        bytes,
        out,
        &mut ring,
        &mut other,
        &mut buffer,
        &mut numbers,
        &mut used,
        &mut table,
    )
}

fn main() {
    // One byte more than a list of calls may have, so that a longer input shows.
    let mut input = zeros::<u8, 65537>();
    let n = io::read_full(0, &mut input);
    if too_large(&input[..n]) {
        io::write_all(1, b"refused 29\n");
        return;
    }
    let mut out = zeros::<u8, 163840>();
    let k = play(&input[..n], &mut out);
    io::write_all(1, &out[..k]);
}
