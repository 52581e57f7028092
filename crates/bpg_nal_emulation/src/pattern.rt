// Patterns: 00 00 and a byte of 00 to 03, around which emulation prevention goes.
ghost use Rattle.std.specs.Prelude.{◌≡◌, ◌≤◌};
ghost use Rattle.bpg_nal_units.specs.Search.{offset_from};
ghost use Rattle.bpg_nal_emulation.specs.Emulation.{starts_pattern};

use bpg_bytes::BytePos;

// From `from` on by threes, as long as the third byte is above 03: that rules out all patterns that begin at it or at the two bytes before
// it. Four third bytes a turn, up to the last eleven bytes: with one jump back in twelve bytes, it matters little where the linker puts the
// loop. A `while`, for that jump: a chain over the bytes or over pieces of them is no plainer.
fn past_high(bytes: &[u8], from: usize) -> usize
    ensures lower_bound { from ≤ result }
    ensures from_value { offset_from starts_pattern bytes.now from ≡ offset_from starts_pattern bytes.now result }
{
    let end = bytes.len();
    if end < 12 {
        return from;
    }
    let last = end - 11;
    let mut i = from;
    while i < last {
        if bytes[i + 2] < 4 {
            return i;
        }
        if bytes[i + 5] < 4 {
            return i + 3;
        }
        if bytes[i + 8] < 4 {
            return i + 6;
        }
        if bytes[i + 11] < 4 {
            return i + 9;
        }
        i += 12;
    }
    i
}

// Where the first pattern at or after `from` stands; the end of the bytes where there is none. One test and a computed step: where zeros are
// many, a branch for each byte would often be mispredicted. A `loop`, since it goes by that step.
pub fn next(bytes: &[u8], from: BytePos) -> BytePos
    ensures { result.0 ≡ offset_from starts_pattern bytes.now from.0 }
{
    let end = bytes.len();
    if end < 3 {
        return BytePos(end);
    }
    let last = end - 2;
    let mut i = from.0;
    loop {
        let at = past_high(bytes, i);
        if last <= at {
            return BytePos(end);
        }
        if (bytes[at + 2] < 4) & ((bytes[at + 1] == 0) & (bytes[at] == 0)) {
            return BytePos(at);
        }
        i = at + 1 + usize::from(bytes[at + 1] != 0);
    }
}
