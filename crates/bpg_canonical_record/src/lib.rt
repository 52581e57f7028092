// A record with the canonical choices, over the same source.
#![tactic(auto)]

ghost use Rattle.std.specs.Prelude.{◌≡◌};
ghost use Rattle.bpg_canonical_record.specs.Records.{loop_size, canonical_entry, canonical_header, changed, canonical_flags, canonical_record};

use bpg_format::{Entry, Header, Range, Record};
use bpg_write_rules::absent;
use bpg_write_ue7::ue7;

// How many bytes the three numbers of tag 5 take.
fn loop_size(record: &Record) -> u32
    ensures { result ≡ loop_size «record».now }
{
    let count = ue7::size(u64::from(record.loop_count));
    let num = ue7::size(u64::from(record.frame_period_num));
    let den = ue7::size(u64::from(record.frame_period_den));
    (count + num + den) as u32
}

// An entry without dummy bytes after the numbers of tag 5, which take `size` bytes.
fn canonical_entry(entry: Entry, size: u32) -> Entry
    ensures { result ≡ canonical_entry size entry }
{
    if entry.tag != 5 {
        return entry;
    }
    Entry {
        payload: Range {
            length: size,
            ..entry.payload
        },
        ..entry
    }
}

// The SPS extension is there, with the range flag, where one of the nine flags is set. An accepted file has none without the range flag.
fn canonical_header(header: Header) -> Header
    ensures { result ≡ canonical_header header }
{
    let range = header.sps_range_extension_flag & !absent::no_range_flag(header);
    Header {
        sps_extension_present_flag: range,
        sps_range_extension_flag: range,
        ..header
    }
}

// Only the entries in use are visited: a loop over the whole array would be unrolled, and each number of each entry moved by itself.
fn make_canonical(entries: &mut [Entry], count: u32, size: u32)
    ensures { entries.new ≡ changed (canonical_entry size) count entries.old }
{
    let used = (count as usize).min(entries.len());
    for entry in entries[..used].iter_mut() {
        *entry = canonical_entry(*entry, size);
    }
}

// The flags that say how a picture is written, in the record and in its headers.
fn with_flags(record: &mut Record)
    ensures { «record».new ≡ canonical_flags «record».old }
{
    record.extension_present_flag = record.entry_count != 0;
    record.explicit_length = false;
    let [alpha, color] = record.headers;
    record.headers = [canonical_header(alpha), canonical_header(color)];
}

// The record is changed in place, and not copied from step to step.
pub fn canonical(mut record: Record) -> Record
    ensures { result ≡ canonical_record «record» }
{
    let size = loop_size(&record);
    with_flags(&mut record);
    let count = record.entry_count;
    make_canonical(&mut record.entries, count, size);
    record
}
