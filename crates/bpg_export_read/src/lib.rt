// Reading for C and Rust, in one call or two, without the rest of the library: `bpg_read` and `bpg_body` of `bpg_export` are these two calls, and an
// edit of them is tried here in a fifth of the time.
#![tactic(auto)]

ghost use Rattle.std.specs.Prelude.{◌≡◌, option_copied};
ghost use Rattle.bpg_reader.specs.Calls.{either_reading};
ghost use Rattle.bpg_export_read.specs.Calls.{listed_answer, listed_numbers, read_answer, read_numbers, body_answer, body_numbers};

// Reads a file, or on from the list of its head, into the list of its record.
fn read_list(file: &[u8], head: Option<&[u64]>, numbers: &mut [u64], offset: &mut usize) -> u8
    ensures value { result ≡ (listed_answer (either_reading (option_copied head.entry) file.now) numbers.old).status }
    ensures offset_after { offset.new ≡ (listed_answer (either_reading (option_copied head.entry) file.now) numbers.old).offset }
    ensures numbers_after { numbers.new ≡ listed_numbers (either_reading (option_copied head.entry) file.now) numbers.old }
{
    let listed = bpg_read_list::read(file, head, numbers);
    *offset = listed.offset;
    listed.status
}

// Status and offset of reading a file, and the numbers of its record and coded size.
#[tactic(auto, unfolding(crate::specs::Calls::read_answer, crate::specs::Calls::read_numbers))]
pub fn read(file: &[u8], numbers: &mut [u64], offset: &mut usize) -> u8
    ensures value { result ≡ (read_answer file.now numbers.old).status }
    ensures offset_after { offset.new ≡ (read_answer file.now numbers.old).offset }
    ensures numbers_after { numbers.new ≡ read_numbers file.now numbers.old }
{
    read_list(file, None, numbers, offset)
}

// The same, if the 12 numbers are those of this file's head.
#[tactic(auto, unfolding(crate::specs::Calls::body_answer, crate::specs::Calls::body_numbers))]
pub fn body(head: &[u64], file: &[u8], numbers: &mut [u64], offset: &mut usize) -> u8
    ensures value { result ≡ (body_answer head.now file.now numbers.old).status }
    ensures offset_after { offset.new ≡ (body_answer head.now file.now numbers.old).offset }
    ensures numbers_after { numbers.new ≡ body_numbers head.now file.now numbers.old }
{
    read_list(file, Some(head), numbers, offset)
}
