// What a screen is answered: the frame, from 0, and whether the loop ended; or a refusal and zeros. (A number and zeros, for C, and because the theorems
// of specs/Requirements speak of the zeros of a refusal.)
ghost use Rattle.std.specs.Prelude.{◌≡◌};
ghost use Rattle.loop_player_file.specs.Files.{refused_shown, refusal_by, played_at};

#[derive(Clone, Copy)]
pub struct Shown {
    pub status: u8,
    pub offset: usize,
    pub frame: u32,
    pub ended: bool,
}

fn refused(status: u8, offset: usize) -> Shown
    ensures { result ≡ refused_shown status offset }
{
    Shown {
        status,
        offset,
        frame: 0,
        ended: false,
    }
}

// A refusal of the first library. There 20 says that the list is too short, so that there are more frames than the player takes. (Numbers and no `Reason`:
// of the first library this one names its calls alone.)
pub(crate) fn refusal(status: u8, offset: usize) -> Shown
    ensures { result ≡ refusal_by status offset }
{
    if status == 20 {
        refused(37, 0)
    } else {
        refused(status, offset)
    }
}

// The player's answer, to a time.
pub(crate) fn played(
    loop_count: u16,
    period_num: u16,
    period_den: u16,
    durations: &[u16],
    ms: u32,
) -> Shown
    ensures { result ≡ played_at loop_count period_num period_den durations.now ms }
{
    let time = loop_player::ticks(ms, period_num, period_den);
    let answer = loop_player::frame_at(loop_count, period_num, period_den, durations, time.ticks);
    Shown {
        status: answer.status,
        offset: 0,
        frame: answer.frame,
        ended: answer.ended,
    }
}
