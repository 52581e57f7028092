// The call.
ghost use Rattle.std.specs.Prelude.{◌≡◌};
ghost use Rattle.loop_player_file.specs.Files.{shown_at};

use crate::shown::{Shown, played, refusal};

// The frame of a file that stands at a time in milliseconds. The first library's refusals with their offsets, then 37 at 0. A still file
// goes by its record's numbers.
pub fn frame_at_time(file: &[u8], ms: u32) -> Shown
    ensures { result ≡ shown_at file.now ms }
{
    let mut durations = [0u16; 256];
    let frames = bpg_frames::frames(file, &mut durations);
    if frames.status != 0 {
        return refusal(frames.status, frames.offset);
    }
    let count = frames.count;
    let reading = bpg_reader::read(file);
    let record = &reading.record;
    played(
        record.loop_count,
        record.frame_period_num,
        record.frame_period_den,
        &durations[..count],
        ms,
    )
}
