// All fields of a HEVC header, in the specification's order.
ghost use Rattle.std.specs.Prelude.{◌≡◌};
ghost use Rattle.bpg_codec.specs.Codec.{decode_at};
ghost use Rattle.bpg_bits.specs.BitNumbers.{region_bits};
ghost use Rattle.bpg_format.specs.FileCodec.{header_fields};
ghost use Rattle.bpg_read_fields.specs.AllFields.{fields_answer};
ghost use Rattle.bpg_read_fields.specs.Table.{header_of};

use crate::values;
use bpg_bytes::{BitPos, Located};
use bpg_format::Header;

// The header that the values of its fields make.
fn header_of(v: [u32; 26]) -> Header
    ensures { result ≡ header_of v }
{
    Header {
        log2_min_luma_coding_block_size_minus3: v[0],
        log2_diff_max_min_luma_coding_block_size: v[1],
        log2_min_transform_block_size_minus2: v[2],
        log2_diff_max_min_transform_block_size: v[3],
        max_transform_hierarchy_depth_intra: v[4],
        sample_adaptive_offset_enabled_flag: v[5] == 1,
        pcm_enabled_flag: v[6] == 1,
        pcm_sample_bit_depth_luma_minus1: (v[7] % 256) as u8,
        pcm_sample_bit_depth_chroma_minus1: (v[8] % 256) as u8,
        log2_min_pcm_luma_coding_block_size_minus3: v[9],
        log2_diff_max_min_pcm_luma_coding_block_size: v[10],
        pcm_loop_filter_disabled_flag: v[11] == 1,
        strong_intra_smoothing_enabled_flag: v[12] == 1,
        sps_extension_present_flag: v[13] == 1,
        sps_range_extension_flag: v[14] == 1,
        sps_extension_7bits: (v[15] % 256) as u8,
        range_flags: [
            v[16] == 1,
            v[17] == 1,
            v[18] == 1,
            v[19] == 1,
            v[20] == 1,
            v[21] == 1,
            v[22] == 1,
            v[23] == 1,
            v[24] == 1,
        ],
    }
}

// All fields from `at` on, or none where one is missing. The item that a missing one is refused at is the caller's, so here it is 0.
pub fn read(region: &[u8], at: BitPos) -> Option<Located<Header, BitPos>>
    ensures { result ≡ fields_answer (decode_at (region_bits region.now) header_fields 0 at.0) }
{
    let values = values::read(region, at)?;
    Some(Located {
        value: header_of(values.value),
        next: values.next,
    })
}
