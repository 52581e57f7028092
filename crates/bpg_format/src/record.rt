// The record: every field of a file as it is coded, under the names of the BPG specification, with ranges in place of bytes.
ghost use Rattle.std.specs.Prelude.{◌≡◌, not, ◌&&◌, ◌||◌, leb, eqb};
ghost use Rattle.bpg_format.specs.Zero.{zero_header, zero_entry, zero_record};

// House rules of document 01.
pub const MAX_ENTRIES: usize = 64;

pub const MAX_FILE: usize = 16_777_216;

// Bytes of the file, or of the source that a record is written from.
#[derive(Clone, Copy, Default, PartialEq, Eq)]
pub struct Range {
    pub start: u32,
    pub length: u32,
}

// An entry of the extension block: its tag, where its payload lies, and where its tag begins. The writer pays no heed to the last.
#[derive(Clone, Copy, PartialEq, Eq)]
pub struct Entry {
    pub tag: u32,
    pub payload: Range,
    pub tag_offset: u32,
}

// A HEVC header. Fields that a flag leaves out are zero.
#[derive(Clone, Copy, PartialEq, Eq)]
pub struct Header {
    pub log2_min_luma_coding_block_size_minus3: u32,
    pub log2_diff_max_min_luma_coding_block_size: u32,
    pub log2_min_transform_block_size_minus2: u32,
    pub log2_diff_max_min_transform_block_size: u32,
    pub max_transform_hierarchy_depth_intra: u32,
    pub sample_adaptive_offset_enabled_flag: bool,
    pub pcm_enabled_flag: bool,
    pub pcm_sample_bit_depth_luma_minus1: u8,
    pub pcm_sample_bit_depth_chroma_minus1: u8,
    pub log2_min_pcm_luma_coding_block_size_minus3: u32,
    pub log2_diff_max_min_pcm_luma_coding_block_size: u32,
    pub pcm_loop_filter_disabled_flag: bool,
    pub strong_intra_smoothing_enabled_flag: bool,
    pub sps_extension_present_flag: bool,
    pub sps_range_extension_flag: bool,
    pub sps_extension_7bits: u8,
    // transform_skip_rotation, transform_skip_context, implicit_rdpcm, explicit_rdpcm, extended_precision_processing,
    // intra_smoothing_disabled, high_precision_offsets, persistent_rice_adaptation, cabac_bypass_alignment
    pub range_flags: [bool; 9],
}

#[derive(Clone, Copy, PartialEq, Eq)]
pub struct Record {
    pub pixel_format: u8,
    pub alpha1_flag: bool,
    pub bit_depth_minus_8: u8,
    pub color_space: u8,
    pub extension_present_flag: bool,
    pub alpha2_flag: bool,
    pub limited_range_flag: bool,
    pub animation_flag: bool,
    pub picture_width: u32,
    pub picture_height: u32,
    // the data length is written out, and not as zero for "to the end of the file"
    pub explicit_length: bool,
    pub entry_count: u32,
    pub entries: [Entry; MAX_ENTRIES],
    pub loop_count: u16,
    pub frame_period_num: u16,
    pub frame_period_den: u16,
    // the alpha (or W) plane's, zero where there is none, and the colour's
    pub headers: [Header; 2],
    pub data: Range,
}

// An alpha (or W) plane is there: alpha2 alone is the W plane.
pub fn has_alpha(alpha1: bool, alpha2: bool) -> bool
    ensures { result ≡ (alpha1 || alpha2) }
{
    alpha1 | alpha2
}

// Refusal 6: a colour space is 0 to 4, and 0 in a gray picture.
pub fn color_space_allowed(pixel_format: u8, color_space: u8) -> bool
    ensures { result ≡ (leb color_space 4 && (not (eqb pixel_format 0) || eqb color_space 0)) }
{
    (color_space <= 4) & ((pixel_format != 0) | (color_space == 0))
}

// The zero values. Their impls are by hand: what a derive promises of a field that is an array or a struct is not said as an equation.
impl Default for Entry {
    ghost is_default = { λ e. e ≡ zero_entry };

    fn default() -> Entry {
        Entry {
            tag: 0,
            payload: Range {
                start: 0,
                length: 0,
            },
            tag_offset: 0,
        }
    }
}

impl Default for Header {
    ghost is_default = { λ h. h ≡ zero_header };

    fn default() -> Header {
        Header {
            log2_min_luma_coding_block_size_minus3: 0,
            log2_diff_max_min_luma_coding_block_size: 0,
            log2_min_transform_block_size_minus2: 0,
            log2_diff_max_min_transform_block_size: 0,
            max_transform_hierarchy_depth_intra: 0,
            sample_adaptive_offset_enabled_flag: false,
            pcm_enabled_flag: false,
            pcm_sample_bit_depth_luma_minus1: 0,
            pcm_sample_bit_depth_chroma_minus1: 0,
            log2_min_pcm_luma_coding_block_size_minus3: 0,
            log2_diff_max_min_pcm_luma_coding_block_size: 0,
            pcm_loop_filter_disabled_flag: false,
            strong_intra_smoothing_enabled_flag: false,
            sps_extension_present_flag: false,
            sps_range_extension_flag: false,
            sps_extension_7bits: 0,
            range_flags: [false; 9],
        }
    }
}

impl Default for Record {
    ghost is_default = { λ r. r ≡ zero_record };

    fn default() -> Record {
        Record {
            pixel_format: 0,
            alpha1_flag: false,
            bit_depth_minus_8: 0,
            color_space: 0,
            extension_present_flag: false,
            alpha2_flag: false,
            limited_range_flag: false,
            animation_flag: false,
            picture_width: 0,
            picture_height: 0,
            explicit_length: false,
            entry_count: 0,
            entries: [Entry::default(); MAX_ENTRIES],
            loop_count: 0,
            frame_period_num: 0,
            frame_period_den: 0,
            headers: [Header::default(); 2],
            data: Range::default(),
        }
    }
}
