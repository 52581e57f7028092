// Export and import: the answer, and the buffer after it, which was filled with a5.
use bpg_cases::text;
use bpg_segment_rules::Imported;

// More than the cases take.
const MOST: usize = 1024;

fn show_buffer(out: &[u8]) {
    text::show(b" buffer ");
    text::show_bytes(out);
    text::show(b"\n");
}

pub(crate) fn show_lengths(imported: Imported) {
    text::show_number(b" lengths ", imported.exif_length as u64);
    text::show_number(b" ", imported.xmp_length as u64);
    text::show_number(b" ", imported.icc_length as u64);
}

// The call on bytes and a buffer of this size, which shows its answer, and the buffer after it.
fn show_call<F: Fn(&[u8], &mut [u8])>(bytes: &[u8], size: usize, call: F)
    requires { F.IsAlwaysCallable call }
{
    let mut space = [0xa5u8; MOST];
    if size <= MOST {
        call(bytes, &mut space[..size]);
        show_buffer(&space[..size]);
    }
}

fn export(file: &[u8], out: &mut [u8]) {
    let written = bpg_segment_export::export_segments(file, out);
    text::show_counted(written.status, written.offset, written.count);
}

fn import(run: &[u8], out: &mut [u8]) {
    let imported = bpg_segment_import::import_segments(run, out);
    text::show_answer(imported.status, imported.offset);
    show_lengths(imported);
}

pub(crate) fn show_export(file: &[u8], size: usize) {
    show_call(file, size, |file, out| export(file, out));
}

pub(crate) fn show_import(run: &[u8], size: usize) {
    show_call(run, size, |run, out| import(run, out));
}
