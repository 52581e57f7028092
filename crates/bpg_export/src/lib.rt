// The calls for C and Rust: numbers and slices alone. bpg_export_c exports them, and include/bpg.h declares them for C.
#![tactic(auto)]

mod batch;
mod frames;
mod heads;
mod partition;
mod samples;
mod segments;
mod sizes;
mod thumbnails;

ghost use Rattle.std.specs.Prelude.{◌≡◌, ltb};
ghost use Rattle.bpg_format.specs.Records.{read_file};
ghost use Rattle.bpg_format.specs.Parts.{entry_of};
ghost use Rattle.bpg_format.specs.Pictures.{canonical_file, canonical_buffer};
ghost use Rattle.bpg_import_list.specs.Calls.{write_answer, write_bytes};
ghost use Rattle.bpg_export_read.specs.Calls.{read_answer, read_numbers};

pub use batch::bpg_batch;
use bpg_format::Entry;
pub use frames::{bpg_escape, bpg_frame_count, bpg_frames, bpg_unescape};
pub use heads::{bpg_body, bpg_head};
pub use partition::bpg_partition;
pub use samples::{
    bpg_cmyk, bpg_default_from_white, bpg_limited_luma, bpg_unpremultiply, bpg_ycgco,
};
pub use segments::{bpg_export_segments, bpg_import_segments};
pub use sizes::{bpg_canonical_size, bpg_write_size};
pub use thumbnails::bpg_check_thumbnails;

// Reads a file: status and offset, and the numbers of its record and coded size, as many as it has entries for.
#[unsafe(no_mangle)]
pub extern "C" fn bpg_read(file: &[u8], numbers: &mut [u64], offset: &mut usize) -> u8
    ensures value { result ≡ (read_answer file.now numbers.old).status }
    ensures offset_after { offset.new ≡ (read_answer file.now numbers.old).offset }
    ensures numbers_after { numbers.new ≡ read_numbers file.now numbers.old }
{
    bpg_export_read::read(file, numbers, offset)
}

// Tag, range and tag offset of entry k, from 0; false and zeros where there is none. A refused file has no entry.
#[unsafe(no_mangle)]
pub extern "C" fn bpg_entry(
    file: &[u8],
    k: usize,
    tag: &mut u32,
    start: &mut u32,
    length: &mut u32,
    tag_offset: &mut u32,
) -> bool
    ensures value { result ≡ ltb k (read_file file.now).«record».entry_count }
    ensures tag_after { tag.new ≡ (entry_of file.now k).tag }
    ensures start_after { start.new ≡ (entry_of file.now k).payload.start }
    ensures length_after { length.new ≡ (entry_of file.now k).payload.length }
    ensures tag_offset_after { tag_offset.new ≡ (entry_of file.now k).tag_offset }
{
    let found = bpg_parts::entry_at(file, k);
    let entry = found.unwrap_or(Entry::default());
    *tag = entry.tag;
    *start = entry.payload.start;
    *length = entry.payload.length;
    *tag_offset = entry.tag_offset;
    found.is_some()
}

// Writes the file of a record, given as its numbers, whose ranges are in `source`, from the start of `out`: status and count.
#[unsafe(no_mangle)]
pub extern "C" fn bpg_write(numbers: &[u64], source: &[u8], out: &mut [u8], count: &mut usize) -> u8
    ensures value { result ≡ (write_answer numbers.now source.now out.old).status }
    ensures count_after { count.new ≡ (write_answer numbers.now source.now out.old).count }
    ensures out_after { out.new ≡ write_bytes numbers.now source.now out.old }
{
    let written = bpg_import_list::write(numbers, source, out);
    *count = written.count;
    written.status
}

// Writes the canonical form of a file from the start of `out`: status, count and offset.
#[unsafe(no_mangle)]
pub extern "C" fn bpg_canonicalize(
    file: &[u8],
    out: &mut [u8],
    count: &mut usize,
    offset: &mut usize,
) -> u8
    ensures value { result ≡ (canonical_file file.now out.old).status }
    ensures count_after { count.new ≡ (canonical_file file.now out.old).count }
    ensures offset_after { offset.new ≡ (canonical_file file.now out.old).offset }
    ensures out_after { out.new ≡ canonical_buffer file.now out.old }
{
    let canonical = bpg_canonical::canonicalize(file, out);
    *count = canonical.count;
    *offset = canonical.offset;
    canonical.status
}
