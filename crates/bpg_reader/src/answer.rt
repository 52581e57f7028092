// The record of a file, put together from its parts but for the entries, which are zero.
ghost use Rattle.std.specs.Prelude.{◌≡◌, ◌≤◌, replicate};
ghost use Rattle.bpg_format.specs.Limits.{max_entries, max_file};
ghost use Rattle.bpg_format.specs.Zero.{zero_entry};
ghost use Rattle.bpg_reader.specs.Assembled.{rounded_size, assembled_record, assembled_reading};

use bpg_format::{Entry, MAX_ENTRIES, Range, Reading, Record};
use bpg_read_animation::animation;
use bpg_read_survey::FileSurvey;

// A coding block is at most 64 wide. (A constant, so that an edit of the limit leaves the names that the proof cites.)
const LARGEST_LOG2_SIZE: u32 = 6;

// A size rounded up to a multiple of the smallest coding block, whose size is 2^log2_size; 0 where log2_size is above 6, as it is in no accepted header.
pub fn coded_size(size: u32, log2_size: u32) -> u64
    ensures { result ≡ rounded_size size log2_size }
{
    if LARGEST_LOG2_SIZE < log2_size {
        return 0;
    }
    let unit = 1u64 << log2_size;
    (u64::from(size) + unit - 1) / unit * unit
}

// The record of a survey. (What is required of it holds of each survey of a file of this length; a type for that would hold the file.)
fn record(len: usize, found: FileSurvey) -> Record
    requires len_le_max_file { len ≤ max_file }
    requires next_le_len { found.rest.headers.next.0 ≤ len }
    ensures { result ≡ assembled_record len found (replicate max_entries zero_entry) }
{
    let head = found.head;
    let block = found.rest.block;
    let animation = block.animation.unwrap_or(animation::none());
    let headers = found.rest.headers.value;
    let start = found.rest.headers.next.0;
    Record {
        pixel_format: head.flags.pixel_format,
        alpha1_flag: head.flags.alpha1_flag,
        bit_depth_minus_8: head.flags.bit_depth_minus_8,
        color_space: head.flags.color_space,
        extension_present_flag: head.flags.extension_present_flag,
        alpha2_flag: head.flags.alpha2_flag,
        limited_range_flag: head.flags.limited_range_flag,
        animation_flag: head.flags.animation_flag,
        picture_width: head.picture_width,
        picture_height: head.picture_height,
        explicit_length: head.data_length != 0,
        entry_count: block.entry_count,
        entries: [Entry::default(); MAX_ENTRIES],
        loop_count: animation.loop_count,
        frame_period_num: animation.frame_period_num,
        frame_period_den: animation.frame_period_den,
        headers: [headers.alpha, headers.color],
        data: Range {
            start: start as u32,
            length: (len - start) as u32,
        },
    }
}

// The answer for a file of `len` bytes, all of whose parts were read, with zero entries.
pub(crate) fn assemble(len: usize, found: FileSurvey) -> Reading
    requires len_le_max_file { len ≤ max_file }
    requires next_le_len { found.rest.headers.next.0 ≤ len }
    requires log2_min_luma_coding_block_size_minus3_bound { found.rest.headers.value.color.log2_min_luma_coding_block_size_minus3 ≤ 3 }
    ensures { result ≡ assembled_reading len found (replicate max_entries zero_entry) }
{
    let head = found.head;
    let color = found.rest.headers.value.color;
    let log2_size = color.log2_min_luma_coding_block_size_minus3 + 3;
    Reading {
        status: 0,
        offset: 0,
        coded_width: coded_size(head.picture_width, log2_size),
        coded_height: coded_size(head.picture_height, log2_size),
        record: record(len, found),
    }
}
