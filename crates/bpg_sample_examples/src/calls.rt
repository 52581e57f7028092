// One call, by its number.
use bpg_cases::text;
use bpg_samples::Converted;

// What is none of the calls' numbers runs none.
fn none() -> Converted {
    Converted {
        status: 255,
        offset: 0,
        count: 0,
    }
}

fn call(
    number: u8,
    depth: u8,
    a: &[u16],
    b: &[u16],
    c: &[u16],
    d: &[u16],
    w: &mut [u16],
    x: &mut [u16],
    y: &mut [u16],
    z: &mut [u16],
) -> Converted {
    match number {
        0 => bpg_samples::unpremultiply(a, b, c, d, w, x, y, depth),
        1 => bpg_samples::cmyk(a, b, c, d, w, x, y, z, depth),
        2 => bpg_samples::default_from_white(a, b, c, d, w, x, y, depth),
        3 => bpg_samples::ycgco(a, b, c, w, x, y, depth),
        4 => bpg_samples::limited_luma(a, w),
        _ => none(),
    }
}

pub(crate) fn show(
    number: u8,
    depth: u8,
    a: &[u16],
    b: &[u16],
    c: &[u16],
    d: &[u16],
    w: &mut [u16],
    x: &mut [u16],
    y: &mut [u16],
    z: &mut [u16],
) {
    let answer = call(number, depth, a, b, c, d, w, x, y, z);
    text::show_counted(answer.status, answer.offset, answer.count);
    for buffer in [&*w, &*x, &*y, &*z] {
        text::show(b" |");
        text::show_numbers(buffer);
    }
    text::show(b"\n");
}
