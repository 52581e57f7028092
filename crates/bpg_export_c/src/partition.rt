// The partition of a file.
ghost use Rattle.std.specs.Prelude.{◌≡◌};
ghost use Rattle.bpg_partition.specs.Partitions.{partition_answer};

#[unsafe(no_mangle)]
pub extern "C" fn bpg_partition(
    file: &[u8],
    head: &mut usize,
    entry_heads: &mut usize,
    payloads: &mut usize,
    headers: &mut usize,
    data: &mut usize,
    offset: &mut usize,
) -> u8
    ensures value { result ≡ (partition_answer file.now).status }
    ensures head_after { head.new ≡ (partition_answer file.now).head }
    ensures entry_heads_after { entry_heads.new ≡ (partition_answer file.now).entry_heads }
    ensures payloads_after { payloads.new ≡ (partition_answer file.now).payloads }
    ensures headers_after { headers.new ≡ (partition_answer file.now).headers }
    ensures data_after { «data».new ≡ (partition_answer file.now).«data» }
    ensures offset_after { offset.new ≡ (partition_answer file.now).offset }
{
    bpg_export::bpg_partition(file, head, entry_heads, payloads, headers, data, offset)
}
