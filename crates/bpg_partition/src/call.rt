// The call.
ghost use Rattle.std.specs.Prelude.{◌≡◌};
ghost use Rattle.bpg_partition.specs.Partitions.{partition_answer};

use crate::answer::Partition;
use bpg_read_entries::entry;
use bpg_read_survey::survey;

// The survey has all but the payloads, for which the entries are read once more: no record is made.
pub fn partition(file: &[u8]) -> Partition
    ensures { result ≡ partition_answer file.now }
{
    let found = survey(file, None);
    let rest = match found.rest {
        Ok(rest) => rest,
        Err(refusal) => return Partition::refused(refusal),
    };
    let head = found.head.unwrap();
    let block = head.extension_length as usize;
    let block_end = head.end.0 + block;
    let data = rest.headers.next.0;
    let mut payloads: usize = 0;
    let mut next = head.end;
    for _ in 0..rest.block.entry_count {
        let step = entry::read_checked(&file[..block_end], next).unwrap();
        payloads += step.value.payload.length as usize;
        next = step.next;
    }
    Partition {
        status: 0,
        offset: 0,
        head: head.end.0,
        entry_heads: block - payloads,
        payloads,
        headers: data - block_end,
        data: file.len() - data,
    }
}
