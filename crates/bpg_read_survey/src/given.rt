// Surveying a file, all of it or on from a head that the caller has (request 9/13): its head, what is refused before its body, the rest.
ghost use Rattle.std.specs.Prelude.{◌≡◌, length as count, option_copied};
ghost use Rattle.bpg_refusal.specs.Outcomes.{outcome};
ghost use Rattle.bpg_format.specs.Read.{read_head};
ghost use Rattle.bpg_read_head.specs.Heads.{head_fields};
ghost use Rattle.bpg_head_rules.specs.Calls.{fields_of};
ghost use Rattle.bpg_read_survey.specs.Given.{read_given};
ghost use Rattle.bpg_read_survey.specs.Bodies.{asked};
ghost use Rattle.bpg_read_survey.specs.Surveys.{survey_of, survey_parts, file_survey};

use crate::rest;
use crate::rest::RestSurvey;
use bpg_bytes::BytePos;
use bpg_format::{MAX_FILE, data_allowed, has_alpha};
use bpg_head_call::call::{coded, is_head};
use bpg_read_head::head;
use bpg_read_head::head::Head;
use bpg_read_headers::headers;
use bpg_refusal::{Reason, Refusal};

// The longest file that is read. (A constant here, so that an edit of the limit leaves the names that the proof cites.)
const LONGEST: usize = MAX_FILE;

// Whether no head was given, or the one given is this one.
fn is_own(head: Head, given: Option<&[u64]>) -> bool
    ensures { result ≡ asked (option_copied given.entry) (fields_of head) }
{
    match given {
        None => true,
        Some(list) => is_head(list, coded(head)),
    }
}

// The parts of an accepted file.
#[derive(Clone, Copy)]
pub struct FileSurvey {
    pub head: Head,
    pub rest: RestSurvey,
}

// What the head call reads, and what follows it. Whether the file is refused, `rest` alone says: `head` is the head's own.
#[derive(Clone, Copy)]
pub struct Surveyed {
    pub head: Result<Head, Refusal>,
    pub rest: Result<RestSurvey, Refusal>,
}

// What follows the head: after refusal 1, the head's own, and 21 for another head than the file's. (One function: an answer of one within was moved once more.)
fn read_on(
    file: &[u8],
    read: Result<Head, Refusal>,
    given: Option<&[u64]>,
) -> Result<RestSurvey, Refusal>
    requires { outcome head_fields read ≡ read_head file.now }
    ensures { outcome (λ x. x) result ≡ survey_of (count file.now) (read_given (asked (option_copied given.entry)) file.now) }
{
    if LONGEST < file.len() {
        return Err(Reason::FileTooLong.at(BytePos(0)));
    }
    let head = read?;
    if !is_own(head, given) {
        return Err(Reason::OtherHead.at(BytePos(0)));
    }
    let block = rest::entries(file, head)?;
    if !rest::control_fits(head.flags.animation_flag, block.animation.is_some()) {
        return Err(Reason::NoLoop.at(BytePos(5)));
    }
    let start = head.end.0 + head.extension_length as usize;
    if !rest::reaches_end(head.data_length, file.len() - start) {
        return Err(Reason::BadDataLength.at(head.data_length_at));
    }
    let alpha = has_alpha(head.flags.alpha1_flag, head.flags.alpha2_flag);
    let depth = head.flags.bit_depth_minus_8 + 8;
    let headers = headers::read(file, BytePos(start), alpha, depth)?;
    if !data_allowed(&file[headers.next.0..]) {
        return Err(Reason::BadDataStart.at(headers.next));
    }
    Ok(RestSurvey { block, headers })
}

// What is known of a file once it is read, but for its entries: for callers that store these in a record, in a list, or not at all. Given a head, it reads on
// as `body` does: another head is refused, after what the file's own is refused for. Every reading of a file goes through here.
pub fn survey(file: &[u8], given: Option<&[u64]>) -> Surveyed
    ensures { survey_parts result ≡ file_survey file.now (read_given (asked (option_copied given.entry)) file.now) }
{
    let head = head::read(file);
    Surveyed {
        head,
        rest: read_on(file, head, given),
    }
}
