// The call.
ghost use Rattle.std.specs.Prelude.{◌≡◌};
ghost use Rattle.bpg_batch.specs.Batches.{batch_answer, batch_statuses, batch_offsets};

use crate::each::read_each;
use crate::lengths::add_up;
use bpg_bytes::BytePos;
use bpg_format::Written;
use bpg_refusal::Reason;

// The status and the offset of each file, as `read` answers them for that file alone, and how many files there are; or 30 at 0, and both lists
// as they were. The buffer may be longer than a file may be. Two lists and not one of pairs: the C interface has them so.
pub fn batch(buffer: &[u8], lengths: &[u32], statuses: &mut [u8], offsets: &mut [u32]) -> Written
    ensures value { result ≡ batch_answer buffer.now lengths.now statuses.old offsets.old }
    ensures statuses_after { statuses.new ≡ batch_statuses buffer.now lengths.now statuses.old offsets.old }
    ensures offsets_after { offsets.new ≡ batch_offsets buffer.now lengths.now statuses.old offsets.old }
{
    if statuses.len() != lengths.len()
        || offsets.len() != lengths.len()
        || !add_up(lengths, buffer.len())
    {
        return Written::refused(Reason::BadBatch.at(BytePos(0)));
    }
    read_each(buffer, lengths, statuses, offsets);
    Written::of(lengths.len())
}
