// The number code ue7(n), measured and written in its shortest form.
ghost use Rattle.std.specs.Prelude.{◌≡◌, length};
ghost use Rattle.bpg_codec.specs.Buffer.{written, written_end};
ghost use Rattle.bpg_ue7.specs.Ue7.{ue7, ue7_bytes};

use bpg_bytes::BytePos;

// How many bytes v takes, whatever its number of bits.
pub fn size(v: u64) -> usize
    ensures { result ≡ length (ue7_bytes v) }
{
    let mut left = v / 128;
    let mut count: usize = 1;
    // A `while`: what is counted are divisions, and no form of `for` or chain is plainer.
    while 0 < left {
        left /= 128;
        count += 1;
    }
    count
}

// Writes v at `at` and answers the position after it; where it does not fit, nothing is written and the answer is `at`.
pub fn write(out: &mut [u8], at: BytePos, v: u32) -> BytePos
    ensures out_after { out.new ≡ written out.old at.0 ((ue7 32).encode v) }
    ensures result_value { result.0 ≡ written_end out.old at.0 ((ue7 32).encode v) }
{
    let start = at.0;
    let count = size(u64::from(v));
    if out.len().saturating_sub(start) < count {
        return at;
    }
    let past = start + count;
    let last = past - 1;
    out[last] = (v % 128) as u8;
    let mut left = v / 128;
    for i in (start..last).rev() {
        out[i] = (128 + left % 128) as u8;
        left /= 128;
    }
    BytePos(past)
}
