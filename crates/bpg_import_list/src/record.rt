// From a list of numbers to the record that it gives.
ghost use Rattle.std.specs.Prelude.{◌≡◌, ◌+◌, ◌≤◌, ◌<◌, length as count};
ghost use Rattle.bpg_format.specs.Limits.{max_entries};
ghost use Rattle.bpg_format.specs.Records.{pad_entries};
ghost use Rattle.bpg_export_list.specs.Numbers.{fixed_length, list_length};
ghost use Rattle.bpg_import_list.specs.Fields.{flag_at, u8_at, u16_at, u32_at, range_at, entry_at, list_entries, range_flags_at, header_at, count_of, list_record};

use bpg_export_list::{ALPHA, COLOR, COUNT, DATA, FIXED, LOOP};
use bpg_format::{Entry, Header, MAX_ENTRIES, Range, Record};

// One function a width, each a line: one over a trait of the four types would take an impl for each.
fn flag(numbers: &[u64], k: usize) -> bool
    requires { k < count numbers.now }
    ensures { result ≡ flag_at numbers.now k }
{
    numbers[k] % 2 == 1
}

fn u8_at(numbers: &[u64], k: usize) -> u8
    requires { k < count numbers.now }
    ensures { result ≡ u8_at numbers.now k }
{
    (numbers[k] % 256) as u8
}

fn u16_at(numbers: &[u64], k: usize) -> u16
    requires { k < count numbers.now }
    ensures { result ≡ u16_at numbers.now k }
{
    (numbers[k] % 65_536) as u16
}

pub(crate) fn u32_at(numbers: &[u64], k: usize) -> u32
    requires { k < count numbers.now }
    ensures { result ≡ u32_at numbers.now k }
{
    (numbers[k] % 4_294_967_296) as u32
}

fn range(numbers: &[u64], k: usize) -> Range
    requires { k + 2 ≤ count numbers.now }
    ensures { result ≡ range_at numbers.now k }
{
    Range {
        start: u32_at(numbers, k),
        length: u32_at(numbers, k + 1),
    }
}

fn entry(numbers: &[u64], k: usize) -> Entry
    requires { k + 4 ≤ count numbers.now }
    ensures { result ≡ entry_at numbers.now k }
{
    Entry {
        tag: u32_at(numbers, k),
        payload: range(numbers, k + 1),
        tag_offset: u32_at(numbers, k + 3),
    }
}

// The entries in use, and zero for the others.
fn entries(numbers: &[u64], used: usize) -> [Entry; MAX_ENTRIES]
    requires used_le_max_entries { used ≤ max_entries }
    requires used_bound { list_length used ≤ count numbers.now }
    ensures { result ≡ pad_entries (list_entries numbers.now fixed_length used) }
{
    let mut all = [Entry::default(); MAX_ENTRIES];
    for k in 0..used {
        all[k] = entry(numbers, FIXED + 4 * k);
    }
    all
}

// A loop over the slots: of `array::from_fn` the proof did not close.
fn range_flags(numbers: &[u64], k: usize) -> [bool; 9]
    requires { k + 9 ≤ count numbers.now }
    ensures { result ≡ range_flags_at numbers.now k }
{
    let mut flags = [false; 9];
    for (i, set) in flags.iter_mut().enumerate() {
        *set = flag(numbers, k + i);
    }
    flags
}

#[tactic(auto, unfolding(crate::specs::Fields::header_at))]
fn header(numbers: &[u64], k: usize) -> Header
    requires { k + 25 ≤ count numbers.now }
    ensures { result ≡ header_at numbers.now k }
{
    let range_flags = range_flags(numbers, k + 16);
    Header {
        log2_min_luma_coding_block_size_minus3: u32_at(numbers, k),
        log2_diff_max_min_luma_coding_block_size: u32_at(numbers, k + 1),
        log2_min_transform_block_size_minus2: u32_at(numbers, k + 2),
        log2_diff_max_min_transform_block_size: u32_at(numbers, k + 3),
        max_transform_hierarchy_depth_intra: u32_at(numbers, k + 4),
        sample_adaptive_offset_enabled_flag: flag(numbers, k + 5),
        pcm_enabled_flag: flag(numbers, k + 6),
        pcm_sample_bit_depth_luma_minus1: u8_at(numbers, k + 7),
        pcm_sample_bit_depth_chroma_minus1: u8_at(numbers, k + 8),
        log2_min_pcm_luma_coding_block_size_minus3: u32_at(numbers, k + 9),
        log2_diff_max_min_pcm_luma_coding_block_size: u32_at(numbers, k + 10),
        pcm_loop_filter_disabled_flag: flag(numbers, k + 11),
        strong_intra_smoothing_enabled_flag: flag(numbers, k + 12),
        sps_extension_present_flag: flag(numbers, k + 13),
        sps_range_extension_flag: flag(numbers, k + 14),
        sps_extension_7bits: u8_at(numbers, k + 15),
        range_flags,
    }
}

// A list that has its numbers; each is cut to its field.
pub(crate) fn record(numbers: &[u64]) -> Record
    requires numbers_bound { count_of numbers.now ≤ max_entries }
    requires numbers_bound_2 { list_length (count_of numbers.now) ≤ count numbers.now }
    ensures { result ≡ list_record numbers.now }
{
    let entry_count = u32_at(numbers, COUNT);
    let entries = entries(numbers, entry_count as usize);
    let alpha = header(numbers, ALPHA);
    let color = header(numbers, COLOR);
    let data = range(numbers, DATA);
    Record {
        pixel_format: u8_at(numbers, 0),
        alpha1_flag: flag(numbers, 1),
        bit_depth_minus_8: u8_at(numbers, 2),
        color_space: u8_at(numbers, 3),
        extension_present_flag: flag(numbers, 4),
        alpha2_flag: flag(numbers, 5),
        limited_range_flag: flag(numbers, 6),
        animation_flag: flag(numbers, 7),
        picture_width: u32_at(numbers, 8),
        picture_height: u32_at(numbers, 9),
        explicit_length: flag(numbers, 10),
        entry_count,
        entries,
        loop_count: u16_at(numbers, LOOP),
        frame_period_num: u16_at(numbers, LOOP + 1),
        frame_period_den: u16_at(numbers, LOOP + 2),
        headers: [alpha, color],
        data,
    }
}
