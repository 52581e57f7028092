// The partition of a file for C and Rust.
ghost use Rattle.std.specs.Prelude.{◌≡◌};
ghost use Rattle.bpg_partition.specs.Partitions.{partition_answer};

// How many bytes of a file are its head, entry heads, payloads, HEVC headers with their lengths, and data: status and offset as `bpg_read`
// answers them; zeros if refused.
#[unsafe(no_mangle)]
pub extern "C" fn bpg_partition(
    file: &[u8],
    head: &mut usize,
    entry_heads: &mut usize,
    payloads: &mut usize,
    headers: &mut usize,
    data: &mut usize,
    offset: &mut usize,
) -> u8
    ensures value { result ≡ (partition_answer file.now).status }
    ensures head_after { head.new ≡ (partition_answer file.now).head }
    ensures entry_heads_after { entry_heads.new ≡ (partition_answer file.now).entry_heads }
    ensures payloads_after { payloads.new ≡ (partition_answer file.now).payloads }
    ensures headers_after { headers.new ≡ (partition_answer file.now).headers }
    ensures data_after { «data».new ≡ (partition_answer file.now).«data» }
    ensures offset_after { offset.new ≡ (partition_answer file.now).offset }
{
    let partition = bpg_partition::partition(file);
    *head = partition.head;
    *entry_heads = partition.entry_heads;
    *payloads = partition.payloads;
    *headers = partition.headers;
    *data = partition.data;
    *offset = partition.offset;
    partition.status
}
