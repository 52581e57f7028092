// The deep check.
ghost use Rattle.std.specs.Prelude.{◌≡◌};
ghost use Rattle.bpg_thumbnails.specs.Calls.{check_thumbnails};

#[unsafe(no_mangle)]
pub extern "C" fn bpg_check_thumbnails(file: &[u8], offset: &mut usize) -> u8
    ensures value { result ≡ (check_thumbnails file.now).status }
    ensures offset_after { offset.new ≡ (check_thumbnails file.now).offset }
{
    bpg_export::bpg_check_thumbnails(file, offset)
}
