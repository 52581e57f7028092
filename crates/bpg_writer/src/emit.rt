// Writing the parts of a file, each at its place in a buffer that is known to hold it.
ghost use Rattle.std.specs.Prelude.{◌≡◌, ◌+◌, ◌≤◌, ◌<◌, length as count};
ghost use Rattle.bpg_codec.specs.Bits.{bit as bit_of};
ghost use Rattle.bpg_codec.specs.Buffer.{written, written_end};
ghost use Rattle.bpg_format.specs.Syntax.{byte4 as byte_four, byte5 as byte_five, extension_bytes};
ghost use Rattle.bpg_codec.specs.Lawful.{All};
ghost use Rattle.bpg_format.specs.Records.{extension_of, used_entries, record_flags};
ghost use Rattle.bpg_write_plan.specs.FileParts.{head_part, RangeInside, entries_part, block_part, header_part, headers_and_data_part};

use bpg_bytes::{BytePos, buffer};
use bpg_format::{Entry, Range, Record};
use bpg_record_entries::used;
use bpg_write_bits::BitBuffer;
use bpg_write_ue7::ue7;

fn bit(b: bool) -> u8
    ensures { (result ≡ bit_of b) × (result < 2) }
{
    u8::from(b)
}

// Pixel format, alpha1, bit depth minus 8. (A type for records with such fields would stand beside the one that theorems speak of.)
fn byte4(record: &Record) -> u8
    requires pixel_format_bound { «record».now.pixel_format ≤ 5 }
    requires bit_depth_minus_8_bound { «record».now.bit_depth_minus_8 ≤ 6 }
    ensures { result ≡ byte_four (record_flags «record».now) }
{
    record.pixel_format * 32 + bit(record.alpha1_flag) * 16 + record.bit_depth_minus_8
}

// Colour space, extension flag, alpha2, limited range, animation.
fn byte5(record: &Record) -> u8
    requires { «record».now.color_space ≤ 4 }
    ensures { result ≡ byte_five (record_flags «record».now) }
{
    let extension = bit(record.extension_present_flag) * 8;
    let alpha = bit(record.alpha2_flag) * 4;
    let range = bit(record.limited_range_flag) * 2;
    record.color_space * 16 + extension + alpha + range + bit(record.animation_flag)
}

// Magic, bytes 4 and 5, width, height, data length.
pub(crate) fn head(out: &mut [u8], record: &Record, data_length: u32) -> BytePos
    requires pixel_format_bound { «record».now.pixel_format ≤ 5 }
    requires bit_depth_minus_8_bound { «record».now.bit_depth_minus_8 ≤ 6 }
    requires color_space_bound { «record».now.color_space ≤ 4 }
    requires data_length_bound { count (head_part «record».now data_length) ≤ count out.old }
    ensures out_after { out.new ≡ written out.old 0 (head_part «record».now data_length) }
    ensures result_value { result.0 ≡ written_end out.old 0 (head_part «record».now data_length) }
{
    let start = [0x42, 0x50, 0x47, 0xfb, byte4(record), byte5(record)];
    let p = buffer::write(out, BytePos(0), &start);
    let q = ue7::write(out, p, record.picture_width);
    let r = ue7::write(out, q, record.picture_height);
    ue7::write(out, r, data_length)
}

// An entry of the extension block: tag, length, payload.
fn entry(out: &mut [u8], at: BytePos, entry: &Entry, source: &[u8]) -> BytePos
    requires length_bound { entry.now.payload.start + entry.now.payload.length ≤ count source.now }
    requires bound { at.0 + count (extension_bytes (extension_of source.now entry.now)) ≤ count out.old }
    ensures out_after { out.new ≡ written out.old at.0 (extension_bytes (extension_of source.now entry.now)) }
    ensures result_value { result.0 ≡ written_end out.old at.0 (extension_bytes (extension_of source.now entry.now)) }
{
    let p = ue7::write(out, at, entry.tag);
    let q = ue7::write(out, p, entry.payload.length);
    let start = entry.payload.start as usize;
    buffer::write(
        out,
        q,
        &source[start..start + entry.payload.length as usize],
    )
}

// The entries of the extension block.
fn entries(out: &mut [u8], at: BytePos, record: &Record, source: &[u8]) -> BytePos
    requires all { All (RangeInside (count source.now)) (used_entries «record».now) }
    requires source_bound { at.0 + count (entries_part «record».now source.now) ≤ count out.old }
    ensures out_after { out.new ≡ written out.old at.0 (entries_part «record».now source.now) }
    ensures result_value { result.0 ≡ written_end out.old at.0 (entries_part «record».now source.now) }
{
    let used = used::entries(record);
    let mut next = at;
    for one in used {
        next = entry(out, next, one, source);
    }
    next
}

// With the extension flag, the extension length and the block.
pub(crate) fn block(
    out: &mut [u8],
    at: BytePos,
    record: &Record,
    source: &[u8],
    size: u32,
) -> BytePos
    requires all { All (RangeInside (count source.now)) (used_entries «record».now) }
    requires size_value { size ≡ count (entries_part «record».now source.now) }
    requires source_bound { at.0 + count (block_part «record».now source.now) ≤ count out.old }
    ensures out_after { out.new ≡ written out.old at.0 (block_part «record».now source.now) }
    ensures result_value { result.0 ≡ written_end out.old at.0 (block_part «record».now source.now) }
{
    if !record.extension_present_flag {
        return at;
    }
    let p = ue7::write(out, at, size);
    entries(out, p, record, source)
}

// A header's length and its bits; nothing if it is absent.
fn header(out: &mut [u8], at: BytePos, present: bool, bits: BitBuffer) -> BytePos
    requires len_bound { bits.len.0 ≤ 65 }
    requires bits_bound { at.0 + count (header_part present bits) ≤ count out.old }
    ensures out_after { out.new ≡ written out.old at.0 (header_part present bits) }
    ensures result_value { result.0 ≡ written_end out.old at.0 (header_part present bits) }
{
    if !present {
        return at;
    }
    let size = (bits.len.0 + 7) / 8;
    let p = ue7::write(out, at, size as u32);
    bits.write(out, p)
}

// The headers and the data.
pub(crate) fn headers_and_data(
    out: &mut [u8],
    at: BytePos,
    alpha_present: bool,
    alpha: BitBuffer,
    color: BitBuffer,
    source: &[u8],
    data: Range,
) -> BytePos
    requires len_bound { alpha.len.0 ≤ 65 }
    requires len_bound_2 { color.len.0 ≤ 65 }
    requires data_bound { «data».start + «data».length ≤ count source.now }
    requires data_bound_2 { at.0 + count (headers_and_data_part alpha_present alpha color source.now «data») ≤ count out.old }
    ensures out_after { out.new ≡ written out.old at.0 (headers_and_data_part alpha_present alpha color source.now «data») }
    ensures result_value { result.0 ≡ written_end out.old at.0 (headers_and_data_part alpha_present alpha color source.now «data») }
{
    let p = header(out, at, alpha_present, alpha);
    let q = header(out, p, true, color);
    let start = data.start as usize;
    buffer::write(out, q, &source[start..start + data.length as usize])
}
