// Runs a number code and prints a line: the case, then the answer.
//
// A case is a byte that says what to run, n, the position, and the bytes.
//   0  ue7(n) read at a byte position            3  the bytes as a number, written as ue7 into a buffer of n bytes
//   1  n bits read at a bit position             4  n bits of the number appended to a bit buffer of so many bits
//   2  ue(v) read at a bit position              5  the number appended as ue(v) to an empty bit buffer, written into n bytes
// A buffer is filled with a5 first.
ghost use Rattle.std.specs.Prelude.{◌≤◌};

use bpg_bits::{bits, exp_golomb};
use bpg_bytes::{BitPos, BytePos, Located};
use bpg_cases::text;
use bpg_refusal::Refusal;
use bpg_ue7::ue7;
use bpg_write_bits::BitBuffer;

// The number that bytes make, the high byte first; of more than eight, the last eight.
fn number(s: &[u8]) -> u64 {
    let mut v: u64 = 0;
    for byte in s {
        v = v % 0x100_0000_0000_0000 * 256 + u64::from(*byte);
    }
    v
}

// Two numbers, each after its label.
fn show_pair(first: &[u8], a: u64, second: &[u8], b: usize) {
    text::show_number(first, a);
    text::show_number(second, b as u64);
}

fn show_number(answer: Result<Located<u32>, Refusal>) {
    match answer {
        Ok(number) => show_pair(
            b" value ",
            u64::from(number.value),
            b" next ",
            number.next.0,
        ),
        Err(refusal) => {
            let status = refusal.reason.number();
            show_pair(b" refused ", u64::from(status), b" at ", refusal.offset.0);
        }
    }
}

fn show_bits(answer: Option<Located<u32, BitPos>>) {
    match answer {
        Some(number) => show_pair(
            b" value ",
            u64::from(number.value),
            b" next ",
            number.next.0,
        ),
        None => text::show(b" missing"),
    }
}

fn write_ue7(space: &mut [u8], size: usize, at: usize, v: u64) {
    if space.len() < size {
        return;
    }
    let low = (v % 0x1_0000_0000) as u32;
    let end = bpg_write_ue7::ue7::write(&mut space[0..size], BytePos(at), low);
    let count = bpg_write_ue7::ue7::size(low as u64);
    show_pair(b" size ", count as u64, b" next ", end.0);
    text::show(b" ");
    text::show_bytes(&space[0..size]);
}

fn append(n: u32, at: usize, v: u64) {
    let begun = BitBuffer {
        bits: 0xa5a5_a5a5_a5a5_a5a5,
        len: BitPos(at),
    };
    let b = begun.append(n, v);
    show_pair(b" number ", b.bits, b" len ", b.len.0);
}

fn append_exp_golomb(space: &mut [u8], size: usize, at: usize, v: u64) {
    if space.len() < size {
        return;
    }
    let low = (v % 0x1_0000_0000) as u32;
    let b = BitBuffer::new().append_exp_golomb(low);
    let end = b.write(&mut space[0..size], BytePos(at));
    show_pair(b" bits ", exp_golomb::size(low) as u64, b" next ", end.0);
    text::show(b" ");
    text::show_bytes(&space[0..size]);
}

fn run(kind: u8, n: u8, at: u8, s: &[u8]) {
    let mut space = [0xa5u8; 256];
    let place = at as usize;
    let width = n as u32;
    match kind {
        0 => show_number(ue7::read(s, BytePos(place), width)),
        1 => show_bits(bits::read(s, BitPos(place), width)),
        2 => show_bits(exp_golomb::read(s, BitPos(place))),
        3 => write_ue7(&mut space, n as usize, place, number(s)),
        4 => append(width, place, number(s)),
        _ => append_exp_golomb(&mut space, n as usize, place, number(s)),
    }
}

// A case of fewer than three bytes prints nothing.
pub(crate) fn show(s: &[u8]) {
    if s.len() < 3 {
        return;
    }
    text::show_bytes(s);
    run(s[0], s[1], s[2], &s[3..]);
    text::show(b"\n");
}
