// Whether lengths add up to a buffer.
ghost use Rattle.std.specs.Prelude.{◌≡◌, eqb};
ghost use Rattle.bpg_batch.specs.Batches.{sum};

// Each length is taken from what is left of the buffer, so that no sum is made that could wrap, however many lengths there are:
// what is left is carried along and judged at each length, where `try_fold` would be no plainer.
pub(crate) fn add_up(lengths: &[u32], size: usize) -> bool
    ensures { result ≡ eqb (sum lengths.now) size }
{
    let mut left = size;
    for length in lengths {
        let length = *length as usize;
        if left < length {
            return false;
        }
        left -= length;
    }
    left == 0
}
