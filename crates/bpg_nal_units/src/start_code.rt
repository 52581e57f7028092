// Start codes, 00 00 01.
ghost use Rattle.std.specs.Prelude.{◌≡◌};
ghost use Rattle.bpg_nal_units.specs.Units.{code_from};

use bpg_bytes::BytePos;

// Where the first start code at or after `from` stands; the region's end where there is none.
// A third byte that is not 0, and does not end a start code, rules out all that begin at it or at the two bytes before it. The loop
// jumps by 3 or 1 as that byte says, so it is a `while`: a `for` would look at each byte.
pub(crate) fn next(region: &[u8], from: BytePos) -> BytePos
    ensures { result.0 ≡ code_from region.now from.0 }
{
    let end = region.len();
    if end < 3 {
        return BytePos(end);
    }
    let last = end - 2;
    let mut i = from.0;
    while i < last {
        let third = region[i + 2];
        if 1 < third {
            i += 3;
            continue;
        }
        if third == 0 {
            i += 1;
            continue;
        }
        if region[i + 1] != 0 {
            i += 3;
            continue;
        }
        if region[i] != 0 {
            i += 3;
            continue;
        }
        return BytePos(i);
    }
    BytePos(end)
}
