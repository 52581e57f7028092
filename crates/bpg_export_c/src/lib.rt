// The static library for C and Rust: each call of bpg_export under its own name, with its own clauses. include/bpg.h declares them.
#![tactic(auto)]

mod batch;
mod frames;
mod heads;
mod partition;
mod samples;
mod segments;
mod sizes;
mod thumbnails;

ghost use Rattle.std.specs.Prelude.{◌≡◌, ltb};
ghost use Rattle.bpg_format.specs.Records.{read_file};
ghost use Rattle.bpg_format.specs.Parts.{entry_of};
ghost use Rattle.bpg_format.specs.Pictures.{canonical_file, canonical_buffer};
ghost use Rattle.bpg_import_list.specs.Calls.{write_answer, write_bytes};
ghost use Rattle.bpg_export_read.specs.Calls.{read_answer, read_numbers};

#[unsafe(no_mangle)]
pub extern "C" fn bpg_read(file: &[u8], numbers: &mut [u64], offset: &mut usize) -> u8
    ensures value { result ≡ (read_answer file.now numbers.old).status }
    ensures offset_after { offset.new ≡ (read_answer file.now numbers.old).offset }
    ensures numbers_after { numbers.new ≡ read_numbers file.now numbers.old }
{
    bpg_export::bpg_read(file, numbers, offset)
}

#[unsafe(no_mangle)]
pub extern "C" fn bpg_entry(
    file: &[u8],
    k: usize,
    tag: &mut u32,
    start: &mut u32,
    length: &mut u32,
    tag_offset: &mut u32,
) -> bool
    ensures value { result ≡ ltb k (read_file file.now).«record».entry_count }
    ensures tag_after { tag.new ≡ (entry_of file.now k).tag }
    ensures start_after { start.new ≡ (entry_of file.now k).payload.start }
    ensures length_after { length.new ≡ (entry_of file.now k).payload.length }
    ensures tag_offset_after { tag_offset.new ≡ (entry_of file.now k).tag_offset }
{
    bpg_export::bpg_entry(file, k, tag, start, length, tag_offset)
}

#[unsafe(no_mangle)]
pub extern "C" fn bpg_write(numbers: &[u64], source: &[u8], out: &mut [u8], count: &mut usize) -> u8
    ensures value { result ≡ (write_answer numbers.now source.now out.old).status }
    ensures count_after { count.new ≡ (write_answer numbers.now source.now out.old).count }
    ensures out_after { out.new ≡ write_bytes numbers.now source.now out.old }
{
    bpg_export::bpg_write(numbers, source, out, count)
}

#[unsafe(no_mangle)]
pub extern "C" fn bpg_canonicalize(
    file: &[u8],
    out: &mut [u8],
    count: &mut usize,
    offset: &mut usize,
) -> u8
    ensures value { result ≡ (canonical_file file.now out.old).status }
    ensures count_after { count.new ≡ (canonical_file file.now out.old).count }
    ensures offset_after { offset.new ≡ (canonical_file file.now out.old).offset }
    ensures out_after { out.new ≡ canonical_buffer file.now out.old }
{
    bpg_export::bpg_canonicalize(file, out, count, offset)
}
