// The loop player for C and Rust: numbers and slices alone. loop_player_export_c exports these calls, and include/loop_player.h declares them for C.
#![tactic(auto)]

ghost use Rattle.std.specs.Prelude.{◌≡◌};
ghost use Rattle.loop_player.specs.Player.{frame_answer, ticks_answer};
ghost use Rattle.loop_player_file.specs.Files.{shown_at};

// The frame that stands at a tick: status, frame and whether the loop ended.
#[unsafe(no_mangle)]
pub extern "C" fn player_frame_at(
    loop_count: u16,
    period_num: u16,
    period_den: u16,
    durations: &[u16],
    tick: u64,
    frame: &mut u32,
    ended: &mut bool,
) -> u8
    ensures value { result ≡ (frame_answer loop_count period_num period_den durations.now tick).status }
    ensures frame_after { frame.new ≡ (frame_answer loop_count period_num period_den durations.now tick).frame }
    ensures ended_after { ended.new ≡ (frame_answer loop_count period_num period_den durations.now tick).ended }
{
    let answer = loop_player::frame_at(loop_count, period_num, period_den, durations, tick);
    *frame = answer.frame;
    *ended = answer.ended;
    answer.status
}

// Milliseconds as whole ticks: status and ticks.
#[unsafe(no_mangle)]
pub extern "C" fn player_ticks(ms: u32, period_num: u16, period_den: u16, ticks: &mut u64) -> u8
    ensures value { result ≡ (ticks_answer ms period_num period_den).status }
    ensures ticks_after { ticks.new ≡ (ticks_answer ms period_num period_den).ticks }
{
    let answer = loop_player::ticks(ms, period_num, period_den);
    *ticks = answer.ticks;
    answer.status
}

// The frame of a file that stands at a time in milliseconds: status, frame, whether the loop ended, and offset.
#[unsafe(no_mangle)]
pub extern "C" fn player_frame_at_time(
    file: &[u8],
    ms: u32,
    frame: &mut u32,
    ended: &mut bool,
    offset: &mut usize,
) -> u8
    ensures value { result ≡ (shown_at file.now ms).status }
    ensures frame_after { frame.new ≡ (shown_at file.now ms).frame }
    ensures ended_after { ended.new ≡ (shown_at file.now ms).ended }
    ensures offset_after { offset.new ≡ (shown_at file.now ms).offset }
{
    let shown = loop_player_file::frame_at_time(file, ms);
    *frame = shown.frame;
    *ended = shown.ended;
    *offset = shown.offset;
    shown.status
}
