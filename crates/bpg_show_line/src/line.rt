// The line of a reading, which `bpgshow` prints.
ghost use Rattle.std.specs.Prelude.{◌≡◌};
ghost use Rattle.bpg_codec.specs.Buffer.{written, written_end};
ghost use Rattle.bpg_show_line.specs.Line.{alpha_text, range_text, animation_text, accepted_line, refused_line, line_of};
ghost use Rattle.bpg_show_line.specs.LineBuffer.{holding};

use crate::line_buffer::LineBuffer;
use bpg_format::{Reading, Record};

#[tactic(auto, unfolding(crate::specs::Text::ascii))]
fn alpha_text(alpha1: bool, alpha2: bool) -> &'static [u8]
    ensures { result.now ≡ alpha_text alpha1 alpha2 }
{
    match (alpha1, alpha2) {
        (false, false) => b" alpha none",
        (true, false) => b" alpha plain",
        (true, true) => b" alpha premultiplied",
        (false, true) => b" alpha white",
    }
}

#[tactic(auto, unfolding(crate::specs::Text::ascii))]
fn range_text(limited: bool) -> &'static [u8]
    ensures { result.now ≡ range_text limited }
{
    if limited {
        b" range limited"
    } else {
        b" range full"
    }
}

#[tactic(auto, unfolding(crate::specs::Text::ascii))]
fn animation_text(animated: bool) -> &'static [u8]
    ensures { result.now ≡ animation_text animated }
{
    if animated { b" animated" } else { b" still" }
}

// The line of an accepted file.
fn accepted(record: &Record) -> LineBuffer
    ensures { result ≡ holding (accepted_line «record».now) }
{
    let mut line = LineBuffer::new();
    line.append_labelled(b"size ", u64::from(record.picture_width));
    line.append_labelled(b"x", u64::from(record.picture_height));
    line.append_labelled(b" format ", u64::from(record.pixel_format));
    line.append_labelled(b" depth ", u64::from(record.bit_depth_minus_8) + 8);
    line.append_labelled(b" space ", u64::from(record.color_space));
    line.append(alpha_text(record.alpha1_flag, record.alpha2_flag));
    line.append(range_text(record.limited_range_flag));
    line.append(animation_text(record.animation_flag));
    line.append_labelled(b" ext ", u64::from(record.entry_count));
    line.append_labelled(b" data ", u64::from(record.data.length));
    line.append(b"\n");
    line
}

// The line of a refusal.
fn refused(status: u8, offset: usize) -> LineBuffer
    ensures { result ≡ holding (refused_line status offset) }
{
    let mut line = LineBuffer::new();
    line.append_labelled(b"refused ", u64::from(status));
    line.append_labelled(b" at ", offset as u64);
    line.append(b"\n");
    line
}

// Writes the line of a reading into `out` and answers its length; where it does not fit, nothing is written and the answer is 0.
pub fn write(reading: Reading, out: &mut [u8]) -> usize
    ensures out_after { out.new ≡ written out.old 0 (line_of reading) }
    ensures value { result ≡ written_end out.old 0 (line_of reading) }
{
    if reading.status != 0 {
        return write_refused(reading.status, reading.offset, out);
    }
    accepted(&reading.record).write(out)
}

// The same for a refusal, by its number and place: a `Reading` has them so, for C.
pub fn write_refused(status: u8, offset: usize, out: &mut [u8]) -> usize
    ensures out_after { out.new ≡ written out.old 0 (refused_line status offset) }
    ensures value { result ≡ written_end out.old 0 (refused_line status offset) }
{
    refused(status, offset).write(out)
}
