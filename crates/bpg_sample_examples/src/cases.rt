// A case: its planes are taken out of its bytes.
ghost use Rattle.std.specs.Prelude.{◌≤◌};

use crate::calls;
use bpg_cases::bytes_at;

// More samples than a plane of the cases has, and four times as many.
const MOST: usize = 32;

const MOST_OF_ALL: usize = 128;

// A byte of the case's head; 0 past the end.
fn byte_at(head: &[u8], k: usize) -> u8 {
    head.get(k).copied().unwrap_or(0)
}

// How long a plane or a buffer is.
fn length_at(head: &[u8], k: usize) -> usize
    ensures { result ≤ 32 }
{
    usize::from(byte_at(head, k)).min(MOST)
}

fn show_buffers(head: &[u8], a: &[u16], b: &[u16], c: &[u16], d: &[u16]) {
    let mut w = [7777u16; MOST];
    let mut x = [7777u16; MOST];
    let mut y = [7777u16; MOST];
    let mut z = [7777u16; MOST];
    let i = length_at(head, 6);
    let j = length_at(head, 7);
    let k = length_at(head, 8);
    let l = length_at(head, 9);
    let number = byte_at(head, 0);
    let depth = byte_at(head, 1);
    calls::show(
        number,
        depth,
        a,
        b,
        c,
        d,
        &mut w[0..i],
        &mut x[0..j],
        &mut y[0..k],
        &mut z[0..l],
    );
}

// The planes stand in `samples`, end to end.
fn show_planes(head: &[u8], samples: &[u16]) {
    let a = length_at(head, 2);
    let b = a + length_at(head, 3);
    let c = b + length_at(head, 4);
    let d = c + length_at(head, 5);
    if samples.len() < d {
        return;
    }
    show_buffers(
        head,
        &samples[0..a],
        &samples[a..b],
        &samples[b..c],
        &samples[c..d],
    );
}

// Samples of two bytes; 0 past the end.
fn read_samples(s: &[u8], samples: &mut [u16]) {
    for (k, sample) in samples.iter_mut().enumerate() {
        *sample = u16::from_be_bytes(bytes_at(s, k * 2));
    }
}

fn show_case(head: &[u8], s: &[u8], samples: &mut [u16]) {
    read_samples(s, samples);
    show_planes(head, samples);
}

// A shorter line prints nothing.
pub(crate) fn show(case: &[u8]) {
    if case.len() < 10 {
        return;
    }
    let mut space = [0u16; MOST_OF_ALL];
    show_case(&case[..10], &case[10..], &mut space);
}
