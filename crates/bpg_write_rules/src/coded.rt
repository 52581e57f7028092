// Refusal 15 of writing: each ue(v) field that is written can be coded.
ghost use Rattle.std.specs.Prelude.{◌≡◌};
ghost use Rattle.bpg_format.specs.Write.{fields_coded};

use bpg_format::Header;

// 2^32 - 1: no ue(v) field holds it.
const UNCODED: u32 = u32::MAX;

// The block sizes, and with PCM the PCM sizes.
pub fn fields_coded(h: Header) -> bool
    ensures { result ≡ fields_coded h }
{
    (h.log2_min_luma_coding_block_size_minus3 < UNCODED)
        & (h.log2_diff_max_min_luma_coding_block_size < UNCODED)
        & (h.log2_min_transform_block_size_minus2 < UNCODED)
        & (h.log2_diff_max_min_transform_block_size < UNCODED)
        & (h.max_transform_hierarchy_depth_intra < UNCODED)
        & (!h.pcm_enabled_flag
            | ((h.log2_min_pcm_luma_coding_block_size_minus3 < UNCODED)
                & (h.log2_diff_max_min_pcm_luma_coding_block_size < UNCODED)))
}
