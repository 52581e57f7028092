// Reading a file into the list of its record. The entries are read a second time and written where they stay: there is no array of them between. A payload's
// start and the tag offset are taken from the positions, not from the entry: that is answered through memory, where the compiler would load two adjacent
// fields at once and wait for both stores.
ghost use Rattle.std.specs.Prelude.{◌≡◌, [], ◌∷◌, ◌≤◌, length as count, option_copied};
ghost use Rattle.bpg_codec.specs.Buffer.{written};
ghost use Rattle.bpg_format.specs.Limits.{max_entries};
ghost use Rattle.bpg_format.specs.Write.{written_answer, written_buffer};
ghost use Rattle.bpg_reader.specs.Calls.{either_reading};
ghost use Rattle.bpg_export_list.specs.Numbers.{list_length};
ghost use Rattle.bpg_export_list.specs.Calls.{listed};

use crate::fixed::put_fixed;
use bpg_bytes::BytePos;
use bpg_export_list::{FIXED, put};
use bpg_format::Written;
use bpg_read_entries::entry;
use bpg_read_survey::{FileSurvey, survey};
use bpg_refusal::Reason;

// The numbers of entry k, in its place.
fn put_entry(out: &mut [u64], k: usize, tag: u32, start: usize, length: u32, tag_offset: usize)
    requires { k ≤ max_entries }
    ensures { out.new ≡ written out.old (list_length k) (tag ∷ start ∷ length ∷ tag_offset ∷ []) }
{
    let part = [tag as u64, start as u64, length as u64, tag_offset as u64];
    put(out, FIXED + 4 * k, &part);
}

// The numbers of a file's reading, or of reading on from the list of its head, from the start of `numbers`: those in use, and what stands after them is
// left. A refusal leaves the whole list.
pub fn read(file: &[u8], given: Option<&[u64]>, numbers: &mut [u64]) -> Written
    ensures value { result ≡ written_answer (listed (count numbers.old) (either_reading (option_copied given.entry) file.now)) }
    ensures numbers_after { numbers.new ≡ written_buffer (listed (count numbers.old) (either_reading (option_copied given.entry) file.now)) numbers.old }
{
    let found = survey(file, given);
    let rest = match found.rest {
        Ok(rest) => rest,
        Err(refusal) => return Written::refused(refusal),
    };
    let head = found.head.unwrap();
    let used = rest.block.entry_count as usize;
    if numbers.len() < FIXED + 4 * used {
        return Written::refused(Reason::BufferTooSmall.at(BytePos(0)));
    }
    put_fixed(numbers, file.len(), FileSurvey { head, rest });
    let end = head.end.0 + head.extension_length as usize;
    let mut next = head.end;
    for k in 0..used {
        let step = entry::read_checked(&file[..end], next).unwrap();
        let length = step.value.payload.length;
        let start = step.next.0 - length as usize;
        put_entry(numbers, k, step.value.tag, start, length, next.0);
        next = step.next;
    }
    Written::of(FIXED + 4 * used)
}
