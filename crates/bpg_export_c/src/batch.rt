// The batch.
ghost use Rattle.std.specs.Prelude.{◌≡◌};
ghost use Rattle.bpg_batch.specs.Batches.{batch_answer, batch_statuses, batch_offsets};

#[unsafe(no_mangle)]
pub extern "C" fn bpg_batch(
    buffer: &[u8],
    lengths: &[u32],
    statuses: &mut [u8],
    offsets: &mut [u32],
) -> u8
    ensures value { result ≡ (batch_answer buffer.now lengths.now statuses.old offsets.old).status }
    ensures statuses_after { statuses.new ≡ batch_statuses buffer.now lengths.now statuses.old offsets.old }
    ensures offsets_after { offsets.new ≡ batch_offsets buffer.now lengths.now statuses.old offsets.old }
{
    bpg_export::bpg_batch(buffer, lengths, statuses, offsets)
}
