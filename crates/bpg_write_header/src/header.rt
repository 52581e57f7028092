// All fields of a HEVC header, in the specification's order.
ghost use Rattle.std.specs.Prelude.{◌≡◌, ℕ, ◌≤◌, length};
ghost use Rattle.bpg_write_bits.specs.BitBuffer.{gathered};
ghost use Rattle.bpg_format.specs.Rules.{HevcRules};
ghost use Rattle.bpg_format.specs.Syntax.{header_bits};

use crate::fields;
use bpg_format::Header;
use bpg_write_bits::BitBuffer;

// The header's bits, which fit the buffer where the header keeps the rules. A number that does not fit its field gives its low
// bits, and 2^32 - 1, which has no ue(v) code, none.
pub fn encode(header: Header) -> BitBuffer
    ensures value { result ≡ gathered (header_bits header) }
    ensures by_index { (depth : ℕ) → HevcRules depth header → length (header_bits header) ≤ 64 }
{
    let sizes = fields::add_sizes(BitBuffer::new(), header)
        .append_flag(header.sample_adaptive_offset_enabled_flag)
        .append_flag(header.pcm_enabled_flag);
    let pcm = fields::add_pcm(sizes, header)
        .append_flag(header.strong_intra_smoothing_enabled_flag)
        .append_flag(header.sps_extension_present_flag);
    let sps = fields::add_sps(pcm, header);
    fields::add_range_flags(sps, header)
}
