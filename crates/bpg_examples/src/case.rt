// The bytes of a case of writing: a record's fields in the order of `Record` but for its entries, each with the high byte first, a flag as a
// byte, so that a header has 46 bytes; then the size of the buffer, the number of zeros that are the source, how many entries are given, these,
// of 16 bytes each (the others are zero), and, where there are no zeros, the source. And those of a head: its flags in eight bytes, and four numbers.
ghost use Rattle.std.specs.Prelude.{◌≤◌};
ghost use Rattle.bpg_format.specs.Limits.{max_entries};

use bpg_format::{Entry, Header, MAX_ENTRIES, Range, Record};
use bpg_read_head::flags::Flags;
use bpg_reader::CodedHead;

// How many bytes a head has.
pub(crate) const HEAD: usize = 24;

const SIZE: usize = 127;

const ZEROS: usize = 131;

const GIVEN: usize = 135;

const ENTRIES: usize = 136;

// What is missing counts as 0.
fn byte(s: &[u8], at: usize) -> u8 {
    if at < s.len() {
        return s[at];
    }
    0
}

fn flag(s: &[u8], at: usize) -> bool {
    byte(s, at) != 0
}

fn two_bytes(s: &[u8], at: usize) -> u16
    requires { at ≤ 3000 }
{
    byte(s, at) as u16 * 256 + byte(s, at + 1) as u16
}

fn four_bytes(s: &[u8], at: usize) -> u32
    requires { at ≤ 2900 }
{
    let high = two_bytes(s, at) as u32;
    high * 65_536 + two_bytes(s, at + 2) as u32
}

fn range(s: &[u8], at: usize) -> Range
    requires { at ≤ 2800 }
{
    let start = four_bytes(s, at);
    let length = four_bytes(s, at + 4);
    Range { start, length }
}

fn entry(s: &[u8], at: usize) -> Entry
    requires { at ≤ 2700 }
{
    let tag = four_bytes(s, at);
    let payload = range(s, at + 4);
    let tag_offset = four_bytes(s, at + 12);
    Entry {
        tag,
        payload,
        tag_offset,
    }
}

// How many entries are given: no more than a record has.
fn given(s: &[u8]) -> usize
    ensures { result ≤ max_entries }
{
    usize::from(byte(s, GIVEN)).min(MAX_ENTRIES)
}

fn entries(s: &[u8], count: usize) -> [Entry; MAX_ENTRIES]
    requires { count ≤ max_entries }
{
    let mut all = [Entry::default(); MAX_ENTRIES];
    for k in 0..count {
        all[k] = entry(s, ENTRIES + 16 * k);
    }
    all
}

fn range_flags(s: &[u8], at: usize) -> [bool; 9]
    requires { at ≤ 400 }
{
    let mut all = [false; 9];
    for k in 0..9 {
        all[k] = flag(s, at + k);
    }
    all
}

fn header(s: &[u8], at: usize) -> Header
    requires { at ≤ 300 }
{
    Header {
        log2_min_luma_coding_block_size_minus3: four_bytes(s, at),
        log2_diff_max_min_luma_coding_block_size: four_bytes(s, at + 4),
        log2_min_transform_block_size_minus2: four_bytes(s, at + 8),
        log2_diff_max_min_transform_block_size: four_bytes(s, at + 12),
        max_transform_hierarchy_depth_intra: four_bytes(s, at + 16),
        sample_adaptive_offset_enabled_flag: flag(s, at + 20),
        pcm_enabled_flag: flag(s, at + 21),
        pcm_sample_bit_depth_luma_minus1: byte(s, at + 22),
        pcm_sample_bit_depth_chroma_minus1: byte(s, at + 23),
        log2_min_pcm_luma_coding_block_size_minus3: four_bytes(s, at + 24),
        log2_diff_max_min_pcm_luma_coding_block_size: four_bytes(s, at + 28),
        pcm_loop_filter_disabled_flag: flag(s, at + 32),
        strong_intra_smoothing_enabled_flag: flag(s, at + 33),
        sps_extension_present_flag: flag(s, at + 34),
        sps_range_extension_flag: flag(s, at + 35),
        sps_extension_7bits: byte(s, at + 36),
        range_flags: range_flags(s, at + 37),
    }
}

pub(crate) fn record(s: &[u8]) -> Record {
    Record {
        pixel_format: byte(s, 0),
        alpha1_flag: flag(s, 1),
        bit_depth_minus_8: byte(s, 2),
        color_space: byte(s, 3),
        extension_present_flag: flag(s, 4),
        alpha2_flag: flag(s, 5),
        limited_range_flag: flag(s, 6),
        animation_flag: flag(s, 7),
        picture_width: four_bytes(s, 8),
        picture_height: four_bytes(s, 12),
        explicit_length: flag(s, 16),
        entry_count: four_bytes(s, 17),
        entries: entries(s, given(s)),
        loop_count: two_bytes(s, 21),
        frame_period_num: two_bytes(s, 23),
        frame_period_den: two_bytes(s, 25),
        headers: [header(s, 27), header(s, 73)],
        data: range(s, 119),
    }
}

pub(crate) fn head(s: &[u8]) -> CodedHead {
    let flags = Flags {
        pixel_format: byte(s, 0),
        alpha1_flag: flag(s, 1),
        bit_depth_minus_8: byte(s, 2),
        color_space: byte(s, 3),
        extension_present_flag: flag(s, 4),
        alpha2_flag: flag(s, 5),
        limited_range_flag: flag(s, 6),
        animation_flag: flag(s, 7),
    };
    CodedHead {
        flags,
        picture_width: four_bytes(s, 8),
        picture_height: four_bytes(s, 12),
        data_length: four_bytes(s, 16),
        extension_length: four_bytes(s, 20),
    }
}

pub(crate) fn size(s: &[u8]) -> usize {
    four_bytes(s, SIZE) as usize
}

pub(crate) fn zeros(s: &[u8]) -> usize {
    four_bytes(s, ZEROS) as usize
}

// Where the source begins.
pub(crate) fn source(s: &[u8]) -> usize {
    ENTRIES + 16 * given(s)
}
