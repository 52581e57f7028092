// Samples after decoding.
ghost use Rattle.std.specs.Prelude.{◌≡◌};
ghost use mathlib.Core.List.{[], ◌∷◌, map, zip_with};
ghost use Rattle.bpg_sample_rules.specs.Rules.{max_sample, unpremultiplied, complement, times_white, green_of, blue_of, red_of, full_luma};
ghost use Rattle.bpg_sample_rules.specs.Planes.{zip_with3};
ghost use Rattle.bpg_sample_check.specs.Judgement.{judged};
ghost use Rattle.bpg_sample_check.specs.Answers.{answer_of, buffer_after};

#[unsafe(no_mangle)]
pub extern "C" fn bpg_unpremultiply(
    r: &[u16],
    g: &[u16],
    b: &[u16],
    a: &[u16],
    red: &mut [u16],
    green: &mut [u16],
    blue: &mut [u16],
    depth: u8,
) -> u8
    ensures value { result ≡ (answer_of (judged depth (r.now ∷ g.now ∷ b.now ∷ a.now ∷ []) (red.old ∷ green.old ∷ blue.old ∷ []))).status }
    ensures red_after { red.new ≡ buffer_after result (zip_with (unpremultiplied (max_sample depth)) r.now a.now) red.old }
    ensures green_after { green.new ≡ buffer_after result (zip_with (unpremultiplied (max_sample depth)) g.now a.now) green.old }
    ensures blue_after { blue.new ≡ buffer_after result (zip_with (unpremultiplied (max_sample depth)) b.now a.now) blue.old }
{
    bpg_export::bpg_unpremultiply(r, g, b, a, red, green, blue, depth)
}

#[unsafe(no_mangle)]
pub extern "C" fn bpg_cmyk(
    r: &[u16],
    g: &[u16],
    b: &[u16],
    w: &[u16],
    cyan: &mut [u16],
    magenta: &mut [u16],
    yellow: &mut [u16],
    black: &mut [u16],
    depth: u8,
) -> u8
    ensures value { result ≡ (answer_of (judged depth (r.now ∷ g.now ∷ b.now ∷ w.now ∷ []) (cyan.old ∷ magenta.old ∷ yellow.old ∷ black.old ∷ []))).status }
    ensures cyan_after { cyan.new ≡ buffer_after result (map (complement (max_sample depth)) r.now) cyan.old }
    ensures magenta_after { magenta.new ≡ buffer_after result (map (complement (max_sample depth)) g.now) magenta.old }
    ensures yellow_after { yellow.new ≡ buffer_after result (map (complement (max_sample depth)) b.now) yellow.old }
    ensures black_after { black.new ≡ buffer_after result (map (complement (max_sample depth)) w.now) black.old }
{
    bpg_export::bpg_cmyk(r, g, b, w, cyan, magenta, yellow, black, depth)
}

#[unsafe(no_mangle)]
pub extern "C" fn bpg_default_from_white(
    r: &[u16],
    g: &[u16],
    b: &[u16],
    w: &[u16],
    red: &mut [u16],
    green: &mut [u16],
    blue: &mut [u16],
    depth: u8,
) -> u8
    ensures value { result ≡ (answer_of (judged depth (r.now ∷ g.now ∷ b.now ∷ w.now ∷ []) (red.old ∷ green.old ∷ blue.old ∷ []))).status }
    ensures red_after { red.new ≡ buffer_after result (zip_with (times_white (max_sample depth)) r.now w.now) red.old }
    ensures green_after { green.new ≡ buffer_after result (zip_with (times_white (max_sample depth)) g.now w.now) green.old }
    ensures blue_after { blue.new ≡ buffer_after result (zip_with (times_white (max_sample depth)) b.now w.now) blue.old }
{
    bpg_export::bpg_default_from_white(r, g, b, w, red, green, blue, depth)
}

#[unsafe(no_mangle)]
pub extern "C" fn bpg_ycgco(
    y: &[u16],
    cg: &[u16],
    co: &[u16],
    red: &mut [u16],
    green: &mut [u16],
    blue: &mut [u16],
    depth: u8,
) -> u8
    ensures value { result ≡ (answer_of (judged depth (y.now ∷ cg.now ∷ co.now ∷ []) (red.old ∷ green.old ∷ blue.old ∷ []))).status }
    ensures red_after { red.new ≡ buffer_after result (zip_with3 (red_of depth) y.now cg.now co.now) red.old }
    ensures green_after { green.new ≡ buffer_after result (zip_with (green_of depth) y.now cg.now) green.old }
    ensures blue_after { blue.new ≡ buffer_after result (zip_with3 (blue_of depth) y.now cg.now co.now) blue.old }
{
    bpg_export::bpg_ycgco(y, cg, co, red, green, blue, depth)
}

#[unsafe(no_mangle)]
pub extern "C" fn bpg_limited_luma(y: &[u16], out: &mut [u16]) -> u8
    ensures value { result ≡ (answer_of (judged 8 (y.now ∷ []) (out.old ∷ []))).status }
    ensures out_after { out.new ≡ buffer_after result (map full_luma y.now) out.old }
{
    bpg_export::bpg_limited_luma(y, out)
}
