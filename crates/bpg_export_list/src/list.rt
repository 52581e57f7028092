// Where the parts of a list stand, and writing them.
ghost use Rattle.std.specs.Prelude.{◌≡◌, length as count};
ghost use Rattle.bpg_codec.specs.Buffer.{written};
ghost use Rattle.bpg_export_list.specs.Numbers.{header_numbers};

use bpg_bytes::buffer;
use bpg_format::Header;

// Where the parts of a list begin; the entries begin at FIXED.
pub const LOOP: usize = 11;

pub const ALPHA: usize = LOOP + 3;

pub const COLOR: usize = ALPHA + 25;

pub const DATA: usize = COLOR + 25;

pub const COUNT: usize = DATA + 4;

pub const FIXED: usize = COUNT + 1;

// Writes `part` at `at`; where it does not fit, nothing.
pub fn put(out: &mut [u64], at: usize, part: &[u64])
    ensures { out.new ≡ written out.old at part.now }
{
    buffer::put(out, at, part);
}

// One array in the order of the list: casts and not `u64::from`, which would be 25 calls to follow in the proof, and the flags by index, since
// arrays are not joined and a loop that fills the last nine is no plainer.
fn header_numbers(header: Header) -> [u64; 25]
    ensures value { result ≡ header_numbers header }
    ensures header_value { count (header_numbers header) ≡ 25 }
{
    [
        header.log2_min_luma_coding_block_size_minus3 as u64,
        header.log2_diff_max_min_luma_coding_block_size as u64,
        header.log2_min_transform_block_size_minus2 as u64,
        header.log2_diff_max_min_transform_block_size as u64,
        header.max_transform_hierarchy_depth_intra as u64,
        header.sample_adaptive_offset_enabled_flag as u64,
        header.pcm_enabled_flag as u64,
        header.pcm_sample_bit_depth_luma_minus1 as u64,
        header.pcm_sample_bit_depth_chroma_minus1 as u64,
        header.log2_min_pcm_luma_coding_block_size_minus3 as u64,
        header.log2_diff_max_min_pcm_luma_coding_block_size as u64,
        header.pcm_loop_filter_disabled_flag as u64,
        header.strong_intra_smoothing_enabled_flag as u64,
        header.sps_extension_present_flag as u64,
        header.sps_range_extension_flag as u64,
        header.sps_extension_7bits as u64,
        header.range_flags[0] as u64,
        header.range_flags[1] as u64,
        header.range_flags[2] as u64,
        header.range_flags[3] as u64,
        header.range_flags[4] as u64,
        header.range_flags[5] as u64,
        header.range_flags[6] as u64,
        header.range_flags[7] as u64,
        header.range_flags[8] as u64,
    ]
}

// Writes the numbers of a header at `at`.
pub fn put_header(out: &mut [u64], at: usize, header: Header)
    ensures out_after { out.new ≡ written out.old at (header_numbers header) }
    ensures header_value { count (header_numbers header) ≡ 25 }
{
    put(out, at, &header_numbers(header));
}
