// Reading in two calls, a head being 12 numbers.
ghost use Rattle.std.specs.Prelude.{◌≡◌};
ghost use Rattle.bpg_head_list.specs.Calls.{head_answer, head_buffer};
ghost use Rattle.bpg_export_read.specs.Calls.{body_answer, body_numbers};

#[unsafe(no_mangle)]
pub extern "C" fn bpg_head(file: &[u8], numbers: &mut [u64], offset: &mut usize) -> u8
    ensures value { result ≡ (head_answer file.now numbers.old).status }
    ensures offset_after { offset.new ≡ (head_answer file.now numbers.old).offset }
    ensures numbers_after { numbers.new ≡ head_buffer file.now numbers.old }
{
    bpg_export::bpg_head(file, numbers, offset)
}

#[unsafe(no_mangle)]
pub extern "C" fn bpg_body(head: &[u64], file: &[u8], numbers: &mut [u64], offset: &mut usize) -> u8
    ensures value { result ≡ (body_answer head.now file.now numbers.old).status }
    ensures offset_after { offset.new ≡ (body_answer head.now file.now numbers.old).offset }
    ensures numbers_after { numbers.new ≡ body_numbers head.now file.now numbers.old }
{
    bpg_export::bpg_body(head, file, numbers, offset)
}
