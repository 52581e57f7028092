// Frames and emulation prevention for C and Rust.
ghost use Rattle.std.specs.Prelude.{◌≡◌};
ghost use Rattle.bpg_nal_escape.specs.Calls.{unescape_answer, unescape_buffer, escape_answer, escape_buffer};
ghost use Rattle.bpg_frames.specs.Calls.{frame_count, frames_call, frames_list};

// For how many periods each frame of a file is shown, from the start of `durations`: status, count and offset.
#[unsafe(no_mangle)]
pub extern "C" fn bpg_frames(
    file: &[u8],
    durations: &mut [u16],
    count: &mut usize,
    offset: &mut usize,
) -> u8
    ensures value { result ≡ (frames_call file.now durations.old).status }
    ensures count_after { count.new ≡ (frames_call file.now durations.old).count }
    ensures offset_after { offset.new ≡ (frames_call file.now durations.old).offset }
    ensures durations_after { durations.new ≡ frames_list file.now durations.old }
{
    let frames = bpg_frames::frames(file, durations);
    *count = frames.count;
    *offset = frames.offset;
    frames.status
}

// How many frames a file has: status, count and offset.
#[unsafe(no_mangle)]
pub extern "C" fn bpg_frame_count(file: &[u8], count: &mut usize, offset: &mut usize) -> u8
    ensures value { result ≡ (frame_count file.now).status }
    ensures count_after { count.new ≡ (frame_count file.now).count }
    ensures offset_after { offset.new ≡ (frame_count file.now).offset }
{
    let frames = bpg_frames::frame_count(file);
    *count = frames.count;
    *offset = frames.offset;
    frames.status
}

// Writes the bytes of a NAL unit without its emulation prevention bytes from the start of `out`: status and count.
#[unsafe(no_mangle)]
pub extern "C" fn bpg_unescape(unit: &[u8], out: &mut [u8], count: &mut usize) -> u8
    ensures value { result ≡ (unescape_answer unit.now out.old).status }
    ensures count_after { count.new ≡ (unescape_answer unit.now out.old).count }
    ensures out_after { out.new ≡ unescape_buffer unit.now out.old }
{
    let written = bpg_nal_escape::unescape(unit, out);
    *count = written.count;
    written.status
}

// Writes the bytes with emulation prevention bytes, as they stand in a NAL unit, from the start of `out`: status and count.
#[unsafe(no_mangle)]
pub extern "C" fn bpg_escape(bytes: &[u8], out: &mut [u8], count: &mut usize) -> u8
    ensures value { result ≡ (escape_answer bytes.now out.old).status }
    ensures count_after { count.new ≡ (escape_answer bytes.now out.old).count }
    ensures out_after { out.new ≡ escape_buffer bytes.now out.old }
{
    let written = bpg_nal_escape::escape(bytes, out);
    *count = written.count;
    written.status
}
