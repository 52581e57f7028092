// The numbers that the list of every accepted file has, from its survey.
ghost use Rattle.std.specs.Prelude.{◌≡◌, [], ◌∷◌, ◌≤◌, ◌-◌, length as count};
ghost use Rattle.bpg_codec.specs.Buffer.{written};
ghost use Rattle.bpg_export_list.specs.Numbers.{data_start, fixed_length};
ghost use Rattle.bpg_read_list.specs.Surveyed.{first_numbers, survey_numbers};

use bpg_export_list::{ALPHA, COLOR, DATA, put, put_header};
use bpg_read_animation::animation;
use bpg_read_animation::animation::Animation;
use bpg_read_head::head::Head;
use bpg_read_survey::FileSurvey;
use bpg_reader::coded_size;

// The head's fields, and the loop numbers. Casts and not `u64::from`, here and below, which would be a call for each number to follow in the proof.
fn put_first(out: &mut [u64], head: Head, control: Option<Animation>)
    ensures { out.new ≡ written out.old 0 (first_numbers head control) }
{
    let flags = head.flags;
    let animation = control.unwrap_or(animation::none());
    let part = [
        flags.pixel_format as u64,
        flags.alpha1_flag as u64,
        flags.bit_depth_minus_8 as u64,
        flags.color_space as u64,
        flags.extension_present_flag as u64,
        flags.alpha2_flag as u64,
        flags.limited_range_flag as u64,
        flags.animation_flag as u64,
        head.picture_width as u64,
        head.picture_height as u64,
        (head.data_length != 0) as u64,
        animation.loop_count as u64,
        animation.frame_period_num as u64,
        animation.frame_period_den as u64,
    ];
    put(out, 0, &part);
}

// The data range, the coded size and the number of entries.
fn put_last(
    out: &mut [u64],
    start: usize,
    length: usize,
    coded_width: u64,
    coded_height: u64,
    entry_count: u32,
)
    ensures { out.new ≡ written out.old data_start (start ∷ length ∷ coded_width ∷ coded_height ∷ entry_count ∷ []) }
{
    let part = [
        start as u64,
        length as u64,
        coded_width,
        coded_height,
        entry_count as u64,
    ];
    put(out, DATA, &part);
}

// All of them, from the start of `out`, for a file of `len` bytes.
pub(crate) fn put_fixed(out: &mut [u64], len: usize, found: FileSurvey)
    requires fixed_length_bound { fixed_length ≤ count out.old }
    requires next_le_len { found.rest.headers.next.0 ≤ len }
    requires log2_min_luma_coding_block_size_minus3_bound { found.rest.headers.value.color.log2_min_luma_coding_block_size_minus3 ≤ 3 }
    ensures out_after { out.new ≡ written out.old 0 (survey_numbers len found) }
    ensures found_value { count (survey_numbers len found) ≡ fixed_length }
{
    let head = found.head;
    let block = found.rest.block;
    let headers = found.rest.headers.value;
    let start = found.rest.headers.next.0;
    let log2_size = headers.color.log2_min_luma_coding_block_size_minus3 + 3;
    let coded_width = coded_size(head.picture_width, log2_size);
    let coded_height = coded_size(head.picture_height, log2_size);
    put_first(out, head, block.animation);
    put_header(out, ALPHA, headers.alpha);
    put_header(out, COLOR, headers.color);
    put_last(
        out,
        start,
        len - start,
        coded_width,
        coded_height,
        block.entry_count,
    );
}
