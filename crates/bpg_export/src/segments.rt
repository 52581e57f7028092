// JPEG segments for C and Rust.
ghost use Rattle.std.specs.Prelude.{◌≡◌};
ghost use Rattle.bpg_segment_rules.specs.Calls.{import_segments, import_buffer};
ghost use Rattle.bpg_segment_export.specs.Calls.{export_segments, exported_buffer};

// The metadata of a file as JPEG segments, from the start of `out`: status, count and offset.
#[unsafe(no_mangle)]
pub extern "C" fn bpg_export_segments(
    file: &[u8],
    out: &mut [u8],
    count: &mut usize,
    offset: &mut usize,
) -> u8
    ensures value { result ≡ (export_segments file.now out.old).status }
    ensures count_after { count.new ≡ (export_segments file.now out.old).count }
    ensures offset_after { offset.new ≡ (export_segments file.now out.old).offset }
    ensures out_after { out.new ≡ exported_buffer file.now out.old }
{
    let written = bpg_segment_export::export_segments(file, out);
    *count = written.count;
    *offset = written.offset;
    written.status
}

// The payloads of a run of such segments, end to end from the start of `out`: status and the three lengths. A refusal's offset is 0.
#[unsafe(no_mangle)]
pub extern "C" fn bpg_import_segments(
    run: &[u8],
    out: &mut [u8],
    exif_len: &mut usize,
    xmp_len: &mut usize,
    icc_len: &mut usize,
) -> u8
    ensures value { result ≡ (import_segments run.now out.old).status }
    ensures exif_len_after { exif_len.new ≡ (import_segments run.now out.old).exif_length }
    ensures xmp_len_after { xmp_len.new ≡ (import_segments run.now out.old).xmp_length }
    ensures icc_len_after { icc_len.new ≡ (import_segments run.now out.old).icc_length }
    ensures out_after { out.new ≡ import_buffer run.now out.old }
{
    let imported = bpg_segment_import::import_segments(run, out);
    *exif_len = imported.exif_length;
    *xmp_len = imported.xmp_length;
    *icc_len = imported.icc_length;
    imported.status
}
