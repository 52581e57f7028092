// The rules that the fields of a HEVC header keep. A ue(v) field can be near 2^32, so sums are made in 64 bits.
ghost use Rattle.std.specs.Prelude.{◌≡◌};
ghost use Rattle.bpg_format.specs.Tests.{no_forbidden_bit, pcm_allowed, hevc_allowed};

use bpg_format::Header;

// Refusal 17: the seven bits and four of the range flags are 0.
pub fn no_forbidden_bit(h: Header) -> bool
    ensures { result ≡ no_forbidden_bit h }
{
    (h.sps_extension_7bits == 0)
        & !h.range_flags[3]
        & !h.range_flags[4]
        & !h.range_flags[6]
        & !h.range_flags[8]
}

// Refusal 16, the PCM sizes and depths.
fn pcm_allowed(h: Header, depth: u8) -> bool
    ensures { result ≡ pcm_allowed depth h }
{
    let min_pcm = u64::from(h.log2_min_pcm_luma_coding_block_size_minus3) + 3;
    let max_pcm = min_pcm + u64::from(h.log2_diff_max_min_pcm_luma_coding_block_size);
    let luma = u64::from(h.pcm_sample_bit_depth_luma_minus1) + 1;
    let chroma = u64::from(h.pcm_sample_bit_depth_chroma_minus1) + 1;
    let most = u64::from(depth);
    let min_cb = u64::from(h.log2_min_luma_coding_block_size_minus3) + 3;
    let ctb = min_cb + u64::from(h.log2_diff_max_min_luma_coding_block_size);
    (luma <= most) & (chroma <= most) & (min_cb.min(5) <= min_pcm) & (max_pcm <= ctb.min(5))
}

// Refusal 16; `depth` is the file's bit depth.
pub fn allowed(h: Header, depth: u8) -> bool
    ensures { result ≡ hevc_allowed depth h }
{
    let min_cb = u64::from(h.log2_min_luma_coding_block_size_minus3) + 3;
    let ctb = min_cb + u64::from(h.log2_diff_max_min_luma_coding_block_size);
    let min_tb = u64::from(h.log2_min_transform_block_size_minus2) + 2;
    let max_tb = min_tb + u64::from(h.log2_diff_max_min_transform_block_size);
    let deepest = u64::from(h.max_transform_hierarchy_depth_intra) + min_tb;
    let blocks = (4 <= ctb)
        & (ctb <= 6)
        & (min_tb < min_cb)
        & (max_tb <= ctb.min(5))
        & (deepest <= ctb);
    if h.pcm_enabled_flag {
        return blocks & pcm_allowed(h, depth);
    }
    blocks
}
