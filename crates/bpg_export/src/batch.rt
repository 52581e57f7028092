// The batch for C and Rust.
ghost use Rattle.std.specs.Prelude.{◌≡◌};
ghost use Rattle.bpg_batch.specs.Batches.{batch_answer, batch_statuses, batch_offsets};

// The status and the offset of each file of a buffer, as `bpg_read` answers them for that file alone. Status 30 is at 0; else there is an
// answer for each length.
#[unsafe(no_mangle)]
pub extern "C" fn bpg_batch(
    buffer: &[u8],
    lengths: &[u32],
    statuses: &mut [u8],
    offsets: &mut [u32],
) -> u8
    ensures value { result ≡ (batch_answer buffer.now lengths.now statuses.old offsets.old).status }
    ensures statuses_after { statuses.new ≡ batch_statuses buffer.now lengths.now statuses.old offsets.old }
    ensures offsets_after { offsets.new ≡ batch_offsets buffer.now lengths.now statuses.old offsets.old }
{
    let written = bpg_batch::batch(buffer, lengths, statuses, offsets);
    written.status
}
