// The parts of a file that its record names. Each part is a subslice of the caller's file: nothing is copied.
ghost use Rattle.std.specs.Prelude.{◌≡◌, ◌+◌};
ghost use Rattle.bpg_format.specs.Records.{read_file};
ghost use Rattle.bpg_format.specs.Parts.{entry_of, payload_of, data_of};
ghost use Rattle.bpg_parts.specs.Entries.{entry_answer};

use bpg_format::Entry;
use bpg_reader::read;

// Tag, range and tag offset of entry k, from 0, if there is one. A refused file has no entry.
pub fn entry_at(file: &[u8], k: usize) -> Option<Entry>
    ensures { result ≡ entry_answer file.now k }
{
    let reading = read(file);
    if reading.record.entry_count as usize <= k {
        return None;
    }
    Some(reading.record.entries[k])
}

// Entry k; the zero entry where there is none.
fn entry(file: &[u8], k: usize) -> Entry
    ensures { result ≡ entry_of file.now k }
{
    entry_at(file, k).unwrap_or(Entry::default())
}

// The payload of entry k, from 0; empty where the file is refused or k is past the last entry.
pub fn payload(file: &[u8], k: usize) -> &[u8]
    ensures result_value { result.now ≡ payload_of file.now k }
    ensures ref_ptr_value { result.ref_ptr.0 ≡ file.entry.ref_ptr.0 }
    ensures ref_ptr_value_2 { result.ref_ptr.1 ≡ file.entry.ref_ptr.1 + (entry_of file.now k).payload.start }
{
    let entry = entry(file, k);
    let start = entry.payload.start as usize;
    &file[start..start + entry.payload.length as usize]
}

// The HEVC data; empty where the file is refused.
pub fn data(file: &[u8]) -> &[u8]
    ensures result_value { result.now ≡ data_of file.now }
    ensures ref_ptr_value { result.ref_ptr.0 ≡ file.entry.ref_ptr.0 }
    ensures ref_ptr_value_2 { result.ref_ptr.1 ≡ file.entry.ref_ptr.1 + (read_file file.now).«record».«data».start }
{
    let data = read(file).record.data;
    let start = data.start as usize;
    &file[start..start + data.length as usize]
}
