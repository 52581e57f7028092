// Frames and emulation prevention.
ghost use Rattle.std.specs.Prelude.{◌≡◌};
ghost use Rattle.bpg_nal_escape.specs.Calls.{unescape_answer, unescape_buffer, escape_answer, escape_buffer};
ghost use Rattle.bpg_frames.specs.Calls.{frame_count, frames_call, frames_list};

#[unsafe(no_mangle)]
pub extern "C" fn bpg_frames(
    file: &[u8],
    durations: &mut [u16],
    count: &mut usize,
    offset: &mut usize,
) -> u8
    ensures value { result ≡ (frames_call file.now durations.old).status }
    ensures count_after { count.new ≡ (frames_call file.now durations.old).count }
    ensures offset_after { offset.new ≡ (frames_call file.now durations.old).offset }
    ensures durations_after { durations.new ≡ frames_list file.now durations.old }
{
    bpg_export::bpg_frames(file, durations, count, offset)
}

#[unsafe(no_mangle)]
pub extern "C" fn bpg_frame_count(file: &[u8], count: &mut usize, offset: &mut usize) -> u8
    ensures value { result ≡ (frame_count file.now).status }
    ensures count_after { count.new ≡ (frame_count file.now).count }
    ensures offset_after { offset.new ≡ (frame_count file.now).offset }
{
    bpg_export::bpg_frame_count(file, count, offset)
}

#[unsafe(no_mangle)]
pub extern "C" fn bpg_unescape(unit: &[u8], out: &mut [u8], count: &mut usize) -> u8
    ensures value { result ≡ (unescape_answer unit.now out.old).status }
    ensures count_after { count.new ≡ (unescape_answer unit.now out.old).count }
    ensures out_after { out.new ≡ unescape_buffer unit.now out.old }
{
    bpg_export::bpg_unescape(unit, out, count)
}

#[unsafe(no_mangle)]
pub extern "C" fn bpg_escape(bytes: &[u8], out: &mut [u8], count: &mut usize) -> u8
    ensures value { result ≡ (escape_answer bytes.now out.old).status }
    ensures count_after { count.new ≡ (escape_answer bytes.now out.old).count }
    ensures out_after { out.new ≡ escape_buffer bytes.now out.old }
{
    bpg_export::bpg_escape(bytes, out, count)
}
