// What the line leaves out of an accepted file's reading.
use bpg_cases::text;
use bpg_format::{Entry, Header, MAX_ENTRIES, Range, Reading, Record};

// A label, and 1 or 0.
fn show_flag(label: &[u8], flag: bool) {
    text::show_number(label, flag);
}

// One more number of a list.
fn show_next(v: u64) {
    text::show_number(b",", v);
}

fn show_next_flag(flag: bool) {
    show_flag(b",", flag);
}

pub(crate) fn show_range(label: &[u8], range: Range) {
    text::show_number(label, range.start as u64);
    text::show_number(b"+", range.length as u64);
}

// A space between entries.
fn show_entry(index: usize, entry: Entry) {
    let payload = entry.payload;
    if 0 < index {
        text::show(b" ");
    }
    text::show_number(b"", entry.tag as u64);
    show_range(b"@", payload);
    text::show_number(b"#", entry.tag_offset as u64);
}

fn show_entries(record: Record) {
    text::show(b" entries [");
    for i in 0..MAX_ENTRIES {
        if i < record.entry_count as usize {
            show_entry(i, record.entries[i]);
        }
    }
    text::show(b"]");
}

// The block sizes after the first.
fn show_sizes(h: Header) {
    show_next(h.log2_diff_max_min_luma_coding_block_size as u64);
    show_next(h.log2_min_transform_block_size_minus2 as u64);
    show_next(h.log2_diff_max_min_transform_block_size as u64);
    show_next(h.max_transform_hierarchy_depth_intra as u64);
}

fn show_pcm(h: Header) {
    show_next_flag(h.pcm_enabled_flag);
    show_next(h.pcm_sample_bit_depth_luma_minus1 as u64);
    show_next(h.pcm_sample_bit_depth_chroma_minus1 as u64);
    show_next(h.log2_min_pcm_luma_coding_block_size_minus3 as u64);
    show_next(h.log2_diff_max_min_pcm_luma_coding_block_size as u64);
    show_next_flag(h.pcm_loop_filter_disabled_flag);
}

fn show_sps_extension(h: Header) {
    show_next_flag(h.sps_extension_present_flag);
    show_next_flag(h.sps_range_extension_flag);
    show_next(h.sps_extension_7bits as u64);
    text::show(b",");
    for i in 0..9 {
        show_flag(b"", h.range_flags[i]);
    }
}

fn show_header(label: &[u8], h: Header) {
    text::show_number(label, h.log2_min_luma_coding_block_size_minus3 as u64);
    show_sizes(h);
    show_next_flag(h.sample_adaptive_offset_enabled_flag);
    show_pcm(h);
    show_next_flag(h.strong_intra_smoothing_enabled_flag);
    show_sps_extension(h);
}

fn show_animation(record: Record) {
    text::show_number(b" loop ", record.loop_count as u64);
    text::show_number(b" ", record.frame_period_num as u64);
    text::show_number(b"/", record.frame_period_den as u64);
}

pub(crate) fn show(reading: Reading) {
    let record = reading.record;
    let data = record.data;
    text::show_number(b" | coded ", reading.coded_width);
    text::show_number(b"x", reading.coded_height);
    show_flag(b" counted ", record.explicit_length);
    show_animation(record);
    show_range(b" data ", data);
    show_entries(record);
    show_header(b" h0 ", record.headers[0]);
    show_header(b" h1 ", record.headers[1]);
    show_flag(b" extension ", record.extension_present_flag);
}
