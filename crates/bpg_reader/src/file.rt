// Reading a file: all but the entries is surveyed, and the entries are then read a second time and stored in the record where it is answered, so that the array of
// entries is cleared once, and never copied.
ghost use Rattle.std.specs.Prelude.{◌≡◌, ◌↔◌, option_copied};
ghost use Rattle.bpg_format.specs.Rules.{Accepted};
ghost use Rattle.bpg_format.specs.Records.{read_file};
ghost use Rattle.bpg_reader.specs.Calls.{body_file, either_reading, verdict, verdict_of};

use crate::answer;
use bpg_format::Reading;
use bpg_head_call::call::{CodedHead, head_numbers};
use bpg_read_entries::entry;
use bpg_read_survey::{FileSurvey, survey};
use bpg_refusal::Refusal;

// What `body` answers, with the head's numbers in a list, or `read`.
fn read_or_body(file: &[u8], given: Option<&[u64]>) -> Reading
    ensures { result ≡ either_reading (option_copied given.entry) file.now }
{
    let found = survey(file, given);
    let rest = match found.rest {
        Ok(rest) => rest,
        Err(refusal) => return Reading::refused(refusal),
    };
    let head = found.head.unwrap();
    let mut reading = answer::assemble(file.len(), FileSurvey { head, rest });
    let count = rest.block.entry_count as usize;
    let end = head.end.0 + head.extension_length as usize;
    let mut next = head.end;
    for k in 0..count {
        let step = entry::read_checked(&file[..end], next).unwrap();
        reading.record.entries[k] = step.value;
        next = step.next;
    }
    reading
}

// The record of a file and its coded size; or a refusal and zeros.
pub fn read(file: &[u8]) -> Reading
    ensures value { result ≡ read_file file.now }
    ensures variant { (result.status ≡ 0) ↔ Accepted file.now }
{
    read_or_body(file, None)
}

// What `read` answers for the file, if `given` is its head. The head is read again over the file, so nobody is trusted: another head is 21 at 0.
pub fn body(given: CodedHead, file: &[u8]) -> Reading
    ensures { result ≡ body_file given file.now }
{
    let numbers = head_numbers(given);
    read_or_body(file, Some(&numbers))
}

// Whether `read` accepts the file, or the refusal that it answers: no record is made.
pub fn judge(file: &[u8]) -> Result<(), Refusal>
    ensures { verdict result ≡ verdict_of (read_file file.now) }
{
    survey(file, None).rest?;
    Ok(())
}
