// The files of a buffer, one after the other.
ghost use Rattle.std.specs.Prelude.{◌≡◌};
ghost use Rattle.bpg_reader.specs.Calls.{verdict};
ghost use Rattle.bpg_batch.specs.Batches.{Complete, statuses_of, offsets_of, files};

use bpg_reader::judge;
use bpg_refusal::Refusal;

// A file's status and offset: the refusal's, or 0 and 0. Numbers, since the two lists are the C interface's.
fn numbers(judged: Result<(), Refusal>) -> (u8, usize)
    ensures { result ≡ verdict judged }
{
    match judged {
        Ok(()) => (0, 0),
        Err(refusal) => (refusal.reason.number(), refusal.offset.0),
    }
}

// Reads each file by itself, and stores its status and its offset. An offset lies in its file, whose length has 32 bits, or at its end: so it fits.
pub(crate) fn read_each(buffer: &[u8], lengths: &[u32], statuses: &mut [u8], offsets: &mut [u32])
    requires { Complete buffer.now lengths.now statuses.old offsets.old }
    ensures statuses_after { statuses.new ≡ statuses_of (files lengths.now buffer.now) }
    ensures offsets_after { offsets.new ≡ offsets_of (files lengths.now buffer.now) }
{
    let mut start: usize = 0;
    for (k, length) in lengths.iter().enumerate() {
        let end = start + *length as usize;
        let (status, offset) = numbers(judge(&buffer[start..end]));
        statuses[k] = status;
        offsets[k] = offset as u32;
        start = end;
    }
}
