// Refusal 19: what a flag leaves out of a header is zero.
ghost use Rattle.std.specs.Prelude.{◌≡◌};
ghost use Rattle.bpg_codec.specs.Bits.{all_zero};
ghost use Rattle.bpg_format.specs.Write.{pcm_zero, absent_zero, header_zero};

use bpg_format::Header;

fn pcm_zero(h: Header) -> bool
    ensures { result ≡ pcm_zero h }
{
    (h.pcm_sample_bit_depth_luma_minus1 == 0)
        & ((h.pcm_sample_bit_depth_chroma_minus1 == 0)
            & ((h.log2_min_pcm_luma_coding_block_size_minus3 == 0)
                & ((h.log2_diff_max_min_pcm_luma_coding_block_size == 0)
                    & !h.pcm_loop_filter_disabled_flag)))
}

// None of the nine flags is set.
pub fn no_range_flag(h: Header) -> bool
    ensures { result ≡ all_zero h.range_flags }
{
    !h.range_flags.contains(&true)
}

// The PCM fields without PCM, the range flag and the seven bits without the SPS extension, the nine flags without the range flag.
pub fn absent_zero(h: Header) -> bool
    ensures { result ≡ absent_zero h }
{
    let pcm = h.pcm_enabled_flag | pcm_zero(h);
    let extension = h.sps_extension_present_flag
        | (!h.sps_range_extension_flag & (h.sps_extension_7bits == 0));
    let range = h.sps_range_extension_flag | no_range_flag(h);
    pcm & (extension & range)
}

// A header that is absent as a whole. Field by field, as its definition is, which shares `absent_zero`: `==` with a zero header would be shorter, and say that twice.
pub fn header_zero(h: Header) -> bool
    ensures { result ≡ header_zero h }
{
    (h.log2_min_luma_coding_block_size_minus3 == 0)
        & (h.log2_diff_max_min_luma_coding_block_size == 0)
        & (h.log2_min_transform_block_size_minus2 == 0)
        & (h.log2_diff_max_min_transform_block_size == 0)
        & (h.max_transform_hierarchy_depth_intra == 0)
        & !h.sample_adaptive_offset_enabled_flag
        & !h.pcm_enabled_flag
        & !h.strong_intra_smoothing_enabled_flag
        & !h.sps_extension_present_flag
        & absent_zero(h)
}
