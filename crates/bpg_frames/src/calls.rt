// The two calls.
ghost use Rattle.std.specs.Prelude.{◌≡◌, MatchResult};
ghost use Rattle.bpg_frame_units.specs.Frames.{enough};
ghost use Rattle.bpg_frames.specs.Calls.{frame_count, frames_call, frames_list};
ghost use Rattle.bpg_frames.specs.Surveys.{Surveyed, Refused};

use crate::store::store_durations;
use bpg_bytes::BytePos;
use bpg_format::has_alpha;
use bpg_frame_units::count::{Frames, count_frames};
use bpg_refusal::Reason;

// What a file's frames are stored by: how many there are, where its data starts, and whether there is alpha. None is kept.
#[derive(Clone, Copy)]
pub struct Survey {
    pub count: usize,
    pub start: BytePos,
    pub alpha: bool,
}

// Refusal 25: one frame in a still file, two or more in an animated one.
#[tactic(auto, unfolding(bpg_codec::specs::Select::select))]
fn is_enough(animated: bool, count: usize) -> bool
    ensures { result ≡ enough animated count }
{
    if animated { 2 <= count } else { count == 1 }
}

// A file before anything is stored; or the answer for a file that is refused.
fn survey_file(file: &[u8]) -> Result<Survey, Frames>
    ensures { MatchResult result (Surveyed file.now) (Refused file.now) }
{
    let reading = bpg_reader::read(file);
    if reading.status != 0 {
        return Err(Frames {
            status: reading.status,
            offset: reading.offset,
            count: 0,
        });
    }
    let record = &reading.record;
    let start = BytePos(record.data.start as usize);
    let alpha = has_alpha(record.alpha1_flag, record.alpha2_flag);
    let count = count_frames(file, start, alpha)?;
    if !is_enough(record.animation_flag, count) {
        return Err(Frames::from(Reason::BadFrameCount.at(start)));
    }
    Ok(Survey {
        count,
        start,
        alpha,
    })
}

// How many frames a file has.
pub fn frame_count(file: &[u8]) -> Frames
    ensures { result ≡ frame_count file.now }
{
    match survey_file(file) {
        Ok(survey) => Frames::of(survey.count),
        Err(refused) => refused,
    }
}

// For how many periods each frame of a file is shown, from the start of `durations`; a refusal leaves the list as it is.
pub fn frames(file: &[u8], durations: &mut [u16]) -> Frames
    ensures value { result ≡ frames_call file.now durations.old }
    ensures durations_after { durations.new ≡ frames_list file.now durations.old }
{
    let survey = match survey_file(file) {
        Ok(survey) => survey,
        Err(refused) => return refused,
    };
    if durations.len() < survey.count {
        return Frames::from(Reason::BufferTooSmall.at(BytePos(0)));
    }
    store_durations(file, survey, durations);
    Frames::of(survey.count)
}
