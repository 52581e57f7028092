// How many bytes the parts of a file take. The sums are made in 64 bits: ranges may overlap, and a file may come out far too large.
ghost use Rattle.std.specs.Prelude.{◌≡◌, ◌≤◌, ◌<◌, ◌^◌};
ghost use Rattle.bpg_codec.specs.Select.{select};
ghost use Rattle.bpg_format.specs.Limits.{max_entries};
ghost use Rattle.bpg_format.specs.Records.{used_entries};
ghost use Rattle.bpg_write_plan.specs.Layouts.{size_of, entries_size, extension_size, header_size, layout_of};

use bpg_format::{Record, has_alpha};
use bpg_record_entries::used;
use bpg_write_ue7::ue7;

// The extension block, the headers with the data, and the whole file.
#[derive(Clone, Copy)]
pub struct Layout {
    pub block: u64,
    pub headers_and_data: u64,
    pub total: u64,
}

// How many bytes a number takes.
fn size(v: u64) -> u64
    ensures value { result ≡ size_of v }
    ensures upper_bound { result ≤ 10 }
{
    ue7::size(v) as u64
}

// The entries of the extension block.
fn block_size(record: &Record) -> u64
    requires { «record».now.entry_count ≤ max_entries }
    ensures value { result ≡ entries_size (used_entries «record».now) }
    ensures upper_bound { result < 2 ^ 48 }
{
    let used = used::entries(record);
    let mut total = 0;
    // A for: `sum` wants a bound of the sum before it runs, which is no plainer.
    for entry in used {
        let length = u64::from(entry.payload.length);
        total += size(u64::from(entry.tag)) + size(length) + length;
    }
    total
}

// The extension length and the block; 0 without the extension flag.
fn extension_size(present: bool, block: u64) -> u64
    requires { block < 2 ^ 48 }
    ensures value { result ≡ extension_size present block }
    ensures upper_bound { result < 2 ^ 49 }
{
    if present { size(block) + block } else { 0 }
}

// A header of so many bits, with its length; 0 if it is absent.
fn header_size(present: bool, bits: usize) -> u64
    requires { bits ≤ 65 }
    ensures value { result ≡ header_size present bits }
    ensures upper_bound { result ≤ 100 }
{
    if !present {
        return 0;
    }
    let bytes = ((bits + 7) / 8) as u64;
    size(bytes) + bytes
}

// The data length as it is coded: 0 for "to the end of the file".
pub fn data_length(explicit: bool, headers_and_data: u64) -> u64
    ensures { result ≡ select explicit headers_and_data 0 }
{
    if explicit { headers_and_data } else { 0 }
}

// The parts of a record's file; its headers have so many bits.
pub(crate) fn measure(record: &Record, alpha_bits: usize, color_bits: usize) -> Layout
    requires entry_count_bound { «record».now.entry_count ≤ max_entries }
    requires alpha_bits_bound { alpha_bits ≤ 65 }
    requires color_bits_bound { color_bits ≤ 65 }
    ensures { result ≡ layout_of «record».now alpha_bits color_bits }
{
    let block = block_size(record);
    let extension = extension_size(record.extension_present_flag, block);
    let alpha = has_alpha(record.alpha1_flag, record.alpha2_flag);
    let headers = header_size(alpha, alpha_bits) + header_size(true, color_bits);
    let headers_and_data = headers + u64::from(record.data.length);
    let numbers = size(u64::from(record.picture_width))
        + size(u64::from(record.picture_height))
        + size(data_length(record.explicit_length, headers_and_data));
    Layout {
        block,
        headers_and_data,
        total: 6 + numbers + extension + headers_and_data,
    }
}
