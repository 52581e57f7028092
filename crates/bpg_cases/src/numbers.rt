// Numbers in the bytes of a case, high byte first: `u32::from_be_bytes(bytes_at(case, 3))`.

ghost use Rattle.std.specs.Prelude.{◌≡◌, ◌+◌, ◌≤◌, ◌<◌, length, take, drop, replicate};

// The N bytes at an offset; zeros where they do not all stand there.
pub fn bytes_at<const N: usize>(s: &[u8], at: usize) -> [u8; N]
    ensures there { at + N ≤ length s.now → result ≡ take N (drop at s.now) }
    ensures short { length s.now < at + N → result ≡ replicate N 0 }
{
    match s.get(at..) {
        Some(rest) => match rest.first_chunk::<N>() {
            Some(bytes) => *bytes,
            None => [0; N],
        },
        None => [0; N],
    }
}
