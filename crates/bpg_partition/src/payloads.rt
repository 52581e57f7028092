// The payloads of a record, counted together. (`partition` makes no record: it adds them up while it reads the entries.)
ghost use Rattle.std.specs.Prelude.{◌≡◌, ◌≤◌, length, sum_by};
ghost use Rattle.bpg_format.specs.Limits.{max_entries};
ghost use Rattle.bpg_format.specs.Records.{used_entries};
ghost use Rattle.bpg_partition.specs.Partitions.{payload_bytes};

use bpg_format::{Entry, MAX_ENTRIES, Record};

// The bytes of all payloads of the entries in use. By value: lent, the record does not show the length of its array to the proof.
pub(crate) fn payload_bytes(record: Record) -> usize
    ensures { result ≡ payload_bytes (used_entries «record») }
{
    let used = (record.entry_count as usize).min(MAX_ENTRIES);
    total(&record.entries[..used])
}

// The bound lets the sum fit.
fn total(entries: &[Entry]) -> usize
    requires { length entries.now ≤ max_entries }
    ensures { result ≡ sum_by (λ entry. entry.payload.length) entries.now }
{
    entries
        .iter()
        .map(|entry| entry.payload.length as usize)
        .sum()
}
