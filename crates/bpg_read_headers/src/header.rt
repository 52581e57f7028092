// A HEVC header in its file: a length in bytes, and then the fields in bits.
ghost use Rattle.std.specs.Prelude.{◌≡◌, ◌≤◌, length as count};
ghost use Rattle.bpg_codec.specs.Outcome.{located};
ghost use Rattle.bpg_refusal.specs.Outcomes.{outcome};
ghost use Rattle.bpg_format.specs.Limits.{max_file};
ghost use Rattle.bpg_read_headers.specs.Headers.{header_at, header_in, fields_in};

use crate::trailing;
use bpg_bytes::{BytePos, Located, first_bit};
use bpg_format::{Header, MAX_FILE};
use bpg_header_rules::rules;
use bpg_read_fields::all_fields;
use bpg_refusal::{Reason, Refusal};
use bpg_ue7::ue7;

// The fields, which begin at `start` and take up the rest of the region; the header's length stands at `at`.
fn with_size(
    region: &[u8],
    at: BytePos,
    start: BytePos,
    depth: u8,
) -> Result<Located<Header>, Refusal>
    requires region_bound { count region.now ≤ max_file }
    requires start_bound { start.0 ≤ count region.now }
    ensures { outcome header_at result ≡ located (fields_in region.now depth at.0 start.0) }
{
    let Some(fields) = all_fields::read(region, first_bit(start)) else {
        return Err(Reason::BadHeader.at(at));
    };
    if !trailing::is_padding(region, fields.next) {
        return Err(Reason::BadHeader.at(at));
    }
    let header = fields.value;
    if !rules::no_forbidden_bit(header) {
        return Err(Reason::ForbiddenBit.at(at));
    }
    if !rules::allowed(header, depth) {
        return Err(Reason::HevcRule.at(at));
    }
    Ok(Located {
        value: header,
        next: BytePos(region.len()),
    })
}

// The header at `at`, and the offset after it; `depth` is the file's bit depth. A file that is too long is refused.
pub fn read(file: &[u8], at: BytePos, depth: u8) -> Result<Located<Header>, Refusal>
    ensures { outcome header_at result ≡ located (header_in file.now depth at.0) }
{
    if MAX_FILE < file.len() {
        return Err(Reason::FileTooLong.at(BytePos(0)));
    }
    let size = ue7::read(file, at, 32)?;
    let start = size.next;
    let length = size.value as usize;
    if file.len() - start.0 < length {
        return Err(Reason::Truncated.at(at));
    }
    with_size(&file[..start.0 + length], at, start, depth)
}
