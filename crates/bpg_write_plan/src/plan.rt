// What is known of a record's file before any of it is written: the bits of its headers, and how long each part is.
ghost use Rattle.std.specs.Prelude.{true, ◌||◌, ◌≤◌, get_or};
ghost use Rattle.bpg_format.specs.Zero.{zero_header};
ghost use Rattle.bpg_write_plan.specs.FileParts.{Encoded};
ghost use Rattle.bpg_write_plan.specs.Plans.{Planned};

use crate::layout;
use crate::layout::Layout;
use bpg_format::{MAX_FILE, Record, has_alpha};
use bpg_refusal::Reason;
use bpg_write_bits::BitBuffer;
use bpg_write_check::judge;
use bpg_write_header::header;

// The bits of an absent header are none: whether it is there stands in the record, so that an Option would say it twice.
#[derive(Clone, Copy)]
pub struct Plan {
    pub layout: Layout,
    pub alpha: BitBuffer,
    pub color: BitBuffer,
}

// The bits of the alpha (or W) header, if the file has it: an absent header is never looked at again.
fn alpha_bits(record: &Record) -> BitBuffer
    ensures len_bound { result.len.0 ≤ 65 }
    ensures encoded { Encoded («record».now.alpha1_flag || «record».now.alpha2_flag) (get_or «record».now.headers 0 zero_header) result }
{
    if !has_alpha(record.alpha1_flag, record.alpha2_flag) {
        return BitBuffer::new();
    }
    header::encode(record.headers[0])
}

// The bits of the colour header.
fn color_bits(record: &Record) -> BitBuffer
    ensures len_bound { result.len.0 ≤ 65 }
    ensures encoded { Encoded true (get_or «record».now.headers 1 zero_header) result }
{
    header::encode(record.headers[1])
}

// Judges a record, whose ranges are in `source`, encodes its headers and measures its file. No buffer is looked at, so 20 is not among the refusals.
pub fn prepare(record: &Record, source: &[u8]) -> Result<Plan, Reason>
    ensures { Planned «record».now source.now result }
{
    judge::record(record, source)?;
    let alpha = alpha_bits(record);
    let color = color_bits(record);
    let layout = layout::measure(record, alpha.len.0, color.len.0);
    if MAX_FILE < layout.total as usize {
        return Err(Reason::FileTooLong);
    }
    Ok(Plan {
        layout,
        alpha,
        color,
    })
}
