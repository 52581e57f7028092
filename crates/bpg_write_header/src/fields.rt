// The fields of a HEVC header, group by group, after the bits that a buffer holds.
ghost use Rattle.std.specs.Prelude.{[]};
ghost use Rattle.bpg_codec.specs.Select.{select};
ghost use Rattle.bpg_format.specs.Syntax.{pcm_bits, sps_extension_bits};
ghost use Rattle.bpg_write_header.specs.Adding.{Added, size_bits};

use bpg_format::Header;
use bpg_write_bits::BitBuffer;

// The block sizes and the depth of the transform hierarchy.
pub(crate) fn add_sizes(b: BitBuffer, h: Header) -> BitBuffer
    ensures { Added b (size_bits h) result }
{
    b.append_exp_golomb(h.log2_min_luma_coding_block_size_minus3)
        .append_exp_golomb(h.log2_diff_max_min_luma_coding_block_size)
        .append_exp_golomb(h.log2_min_transform_block_size_minus2)
        .append_exp_golomb(h.log2_diff_max_min_transform_block_size)
        .append_exp_golomb(h.max_transform_hierarchy_depth_intra)
}

// The PCM fields, where their flag is set.
pub(crate) fn add_pcm(b: BitBuffer, h: Header) -> BitBuffer
    ensures { Added b (select h.pcm_enabled_flag (pcm_bits h) []) result }
{
    if !h.pcm_enabled_flag {
        return b;
    }
    b.append(4, u64::from(h.pcm_sample_bit_depth_luma_minus1))
        .append(4, u64::from(h.pcm_sample_bit_depth_chroma_minus1))
        .append_exp_golomb(h.log2_min_pcm_luma_coding_block_size_minus3)
        .append_exp_golomb(h.log2_diff_max_min_pcm_luma_coding_block_size)
        .append_flag(h.pcm_loop_filter_disabled_flag)
}

// The SPS extension's flag and seven bits, if the extension is present.
pub(crate) fn add_sps(b: BitBuffer, h: Header) -> BitBuffer
    ensures { Added b (select h.sps_extension_present_flag (sps_extension_bits h) []) result }
{
    if !h.sps_extension_present_flag {
        return b;
    }
    b.append_flag(h.sps_range_extension_flag)
        .append(7, u64::from(h.sps_extension_7bits))
}

// The nine flags of the SPS range extension, if the SPS extension says that they are present.
pub(crate) fn add_range_flags(b: BitBuffer, h: Header) -> BitBuffer
    ensures { Added b (select h.sps_range_extension_flag h.range_flags []) result }
{
    if !h.sps_range_extension_flag {
        return b;
    }
    let mut all = b;
    for flag in h.range_flags {
        all = all.append_flag(flag);
    }
    all
}
