// The deep check for C and Rust.
ghost use Rattle.std.specs.Prelude.{◌≡◌};
ghost use Rattle.bpg_thumbnails.specs.Calls.{check_thumbnails};

// Whether the thumbnails of a file comply, and theirs at every level: status and offset.
#[unsafe(no_mangle)]
pub extern "C" fn bpg_check_thumbnails(file: &[u8], offset: &mut usize) -> u8
    ensures value { result ≡ (check_thumbnails file.now).status }
    ensures offset_after { offset.new ≡ (check_thumbnails file.now).offset }
{
    let checked = bpg_thumbnails::check_thumbnails(file);
    *offset = checked.offset;
    checked.status
}
