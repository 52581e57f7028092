// Writing a file in two passes: the first judges and measures and changes nothing, the second writes.
ghost use Rattle.std.specs.Prelude.{◌≡◌, ◌↔◌, ◌≤◌, length};
ghost use Rattle.bpg_codec.specs.Buffer.{written as written_at};
ghost use Rattle.bpg_format.specs.Syntax.{file_of};
ghost use Rattle.bpg_format.specs.Records.{content_of};
ghost use Rattle.bpg_format.specs.Write.{write_file, write_buffer, write_size, Writable};
ghost use Rattle.bpg_write_plan.specs.Plans.{Ready};

use crate::emit;
use bpg_bytes::BytePos;
use bpg_format::{Record, Written, has_alpha};
use bpg_refusal::Reason;
use bpg_write_plan::Plan;

// The whole file, part by part, into a buffer that holds it.
fn emit_file(out: &mut [u8], record: &Record, source: &[u8], plan: &Plan)
    requires ready { Ready «record».now source.now plan.now }
    requires source_in_bounds { length (file_of (content_of «record».now source.now)) ≤ length out.old }
    ensures { out.new ≡ written_at out.old 0 (file_of (content_of «record».now source.now)) }
{
    let data_length = bpg_write_plan::data_length(
        record.explicit_length,
        plan.layout.headers_and_data,
    );
    let p = emit::head(out, record, data_length as u32);
    let q = emit::block(out, p, record, source, plan.layout.block as u32);
    let plane = has_alpha(record.alpha1_flag, record.alpha2_flag);
    emit::headers_and_data(out, q, plane, plan.alpha, plan.color, source, record.data);
}

// Writes the file of a record, whose ranges are in `source`, from the start of `out`; a refusal leaves `out` as it is.
pub fn write(record: Record, source: &[u8], out: &mut [u8]) -> Written
    ensures value { result ≡ write_file «record» source.now out.old }
    ensures out_after { out.new ≡ write_buffer «record» source.now out.old }
    ensures variant { (result.status ≡ 0) ↔ Writable (length out.old) «record» source.now }
{
    let plan = match bpg_write_plan::prepare(&record, source) {
        Ok(plan) => plan,
        Err(reason) => return Written::refused(reason.at(BytePos(0))),
    };
    let size = plan.layout.total as usize;
    let room = out.len();
    if room < size {
        return Written::refused(Reason::BufferTooSmall.at(BytePos(0)));
    }
    emit_file(out, &record, source, &plan);
    Written::of(size)
}

// What `write` answers to a buffer that is large enough: how large it must be, or the refusal. Never 20.
pub fn size(record: Record, source: &[u8]) -> Written
    ensures { result ≡ write_size «record» source.now }
{
    match bpg_write_plan::prepare(&record, source) {
        Ok(plan) => Written::of(plan.layout.total as usize),
        Err(reason) => Written::refused(reason.at(BytePos(0))),
    }
}
