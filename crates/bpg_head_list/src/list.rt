// From a file to the list of its head.
ghost use Rattle.std.specs.Prelude.{◌≡◌};
ghost use Rattle.bpg_head_list.specs.Calls.{head_answer, head_buffer};

use bpg_bytes::BytePos;
use bpg_export_list::put;
use bpg_format::Written;
use bpg_head_call::call::{HEAD_NUMBERS, coded, head_numbers};
use bpg_read_head::head;
use bpg_refusal::Reason;

// The numbers of a file's head, from the start of `numbers`; what stands after them is left, and a refusal leaves the whole list.
pub fn head(file: &[u8], numbers: &mut [u64]) -> Written
    ensures value { result ≡ head_answer file.now numbers.old }
    ensures numbers_after { numbers.new ≡ head_buffer file.now numbers.old }
{
    let found = match head::read(file) {
        Ok(found) => found,
        Err(refusal) => return Written::refused(refusal),
    };
    if numbers.len() < HEAD_NUMBERS {
        return Written::refused(Reason::BufferTooSmall.at(BytePos(0)));
    }
    put(numbers, 0, &head_numbers(coded(found)));
    Written::of(HEAD_NUMBERS)
}
