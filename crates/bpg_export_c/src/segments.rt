// JPEG segments.
ghost use Rattle.std.specs.Prelude.{◌≡◌};
ghost use Rattle.bpg_segment_rules.specs.Calls.{import_segments, import_buffer};
ghost use Rattle.bpg_segment_export.specs.Calls.{export_segments, exported_buffer};

#[unsafe(no_mangle)]
pub extern "C" fn bpg_export_segments(
    file: &[u8],
    out: &mut [u8],
    count: &mut usize,
    offset: &mut usize,
) -> u8
    ensures value { result ≡ (export_segments file.now out.old).status }
    ensures count_after { count.new ≡ (export_segments file.now out.old).count }
    ensures offset_after { offset.new ≡ (export_segments file.now out.old).offset }
    ensures out_after { out.new ≡ exported_buffer file.now out.old }
{
    bpg_export::bpg_export_segments(file, out, count, offset)
}

#[unsafe(no_mangle)]
pub extern "C" fn bpg_import_segments(
    run: &[u8],
    out: &mut [u8],
    exif_len: &mut usize,
    xmp_len: &mut usize,
    icc_len: &mut usize,
) -> u8
    ensures value { result ≡ (import_segments run.now out.old).status }
    ensures exif_len_after { exif_len.new ≡ (import_segments run.now out.old).exif_length }
    ensures xmp_len_after { xmp_len.new ≡ (import_segments run.now out.old).xmp_length }
    ensures icc_len_after { icc_len.new ≡ (import_segments run.now out.old).icc_length }
    ensures out_after { out.new ≡ import_buffer run.now out.old }
{
    bpg_export::bpg_import_segments(run, out, exif_len, xmp_len, icc_len)
}
