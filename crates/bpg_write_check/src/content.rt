// The rules in file order.
ghost use Rattle.std.specs.Prelude.{◌≡◌, true, List, ℕ, ◌≤◌};
ghost use Rattle.bpg_codec.specs.Outcome.{guard};
ghost use Rattle.bpg_refusal.specs.Outcomes.{outcome_at_zero};
ghost use Rattle.bpg_format.specs.Tests.{data_allowed};
ghost use Rattle.bpg_format.specs.Records.{bytes_in, content_of};
ghost use Rattle.bpg_format.specs.Write.{in_source, ranges_in_source, check_content};
ghost use Rattle.bpg_write_check.specs.Check.{check_picture, check_alpha, check_headers};

use crate::{entries, header};
use bpg_format::{Range, Record, color_space_allowed, data_allowed, has_alpha};
use bpg_record_entries::used;
use bpg_refusal::Reason;

// What stands before the extension block.
fn check_picture(record: &Record) -> Result<(), Reason>
    ensures { (source : List ℕ) → outcome_at_zero result ≡ check_picture (content_of «record».now source) }
{
    if 5 < record.pixel_format {
        return Err(Reason::BadPixelFormat);
    }
    if 6 < record.bit_depth_minus_8 {
        return Err(Reason::BadBitDepth);
    }
    if !color_space_allowed(record.pixel_format, record.color_space) {
        return Err(Reason::BadColorSpace);
    }
    if record.picture_width == 0 {
        return Err(Reason::EmptyPicture);
    }
    if record.picture_height == 0 {
        return Err(Reason::EmptyPicture);
    }
    Ok(())
}

fn check_alpha(record: &Record, depth: u8) -> Result<(), Reason>
    ensures { outcome_at_zero result ≡ check_alpha depth «record».now }
{
    if !has_alpha(record.alpha1_flag, record.alpha2_flag) {
        return Ok(());
    }
    header::check(record.headers[0], depth)
}

// From the extension block to the data.
fn check_headers(record: &Record) -> Result<(), Reason>
    requires { «record».now.bit_depth_minus_8 ≤ 6 }
    ensures { (source : List ℕ) → outcome_at_zero result ≡ check_headers (content_of «record».now source) }
{
    // refusal 14: with the animation flag, an entry with tag 5 is there
    let controlled = !record.animation_flag | used::has_control(record);
    if !controlled {
        return Err(Reason::NoLoop);
    }
    let depth = record.bit_depth_minus_8 + 8;
    check_alpha(record, depth)?;
    let color = record.headers[1];
    header::check(color, depth)
}

fn check_data(bytes: Range, source: &[u8]) -> Result<(), Reason>
    requires { in_source source.now bytes ≡ true }
    ensures { outcome_at_zero result ≡ guard (data_allowed (bytes_in source.now bytes)) 26 0 }
{
    let start = bytes.start as usize;
    let end = start + bytes.length as usize;
    if !data_allowed(&source[start..end]) {
        return Err(Reason::BadDataStart);
    }
    Ok(())
}

pub(crate) fn check(record: &Record, source: &[u8]) -> Result<(), Reason>
    requires { ranges_in_source source.now «record».now ≡ true }
    ensures { outcome_at_zero result ≡ check_content (content_of «record».now source.now) }
{
    check_picture(record)?;
    entries::check(record, source)?;
    check_headers(record)?;
    check_data(record.data, source)
}
