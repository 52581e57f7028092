// Whether a list gives a record: it has the numbers that it needs, and each of them fits its field.
ghost use Rattle.std.specs.Prelude.{◌≡◌, ◌≤◌, length, length as count, MatchResult};
ghost use Rattle.bpg_codec.specs.Outcome.{ok, error};
ghost use Rattle.bpg_refusal.specs.Numbers.{reason_number};
ghost use Rattle.bpg_export_list.specs.Numbers.{fixed_length};
ghost use Rattle.bpg_import_list.specs.Fields.{list_record};
ghost use Rattle.bpg_import_list.specs.Calls.{within as within_fields, fixed_fits, words as all_words, read_list};

use crate::record::u32_at;
use bpg_export_list::{ALPHA, COLOR, COUNT, DATA, FIXED};
use bpg_format::MAX_ENTRIES;
use bpg_refusal::Reason;

// The most that a field of each kind can hold.
const FLAG: u64 = 1;

const BYTE: u64 = u8::MAX as u64;

const SHORT: u64 = u16::MAX as u64;

const WORD: u64 = u32::MAX as u64;

// Bytes 4 and 5, the size, the data length written out, the loop numbers.
const HEAD: [u64; 14] = [
    BYTE, FLAG, BYTE, BYTE, FLAG, FLAG, FLAG, FLAG, WORD, WORD, FLAG, SHORT, SHORT, SHORT,
];

// Block sizes, PCM, SPS extension, range flags.
const HEADER: [u64; 25] = [
    WORD, WORD, WORD, WORD, WORD, FLAG, FLAG, BYTE, BYTE, WORD, WORD, FLAG, FLAG, FLAG, FLAG, BYTE,
    FLAG, FLAG, FLAG, FLAG, FLAG, FLAG, FLAG, FLAG, FLAG,
];

const RANGE: [u64; 2] = [WORD, WORD];

// Whether the list begins with numbers that are at most these. Every one is compared, and not by `all`: a loop without an exit takes several in
// a step.
fn within(fields: &[u64], numbers: &[u64]) -> bool
    requires { length fields.now ≤ length numbers.now }
    ensures { result ≡ within_fields fields.now numbers.now }
{
    let mut fit = true;
    for (k, most) in fields.iter().enumerate() {
        fit &= numbers[k] <= *most;
    }
    fit
}

// Whether each of the numbers is at most a word, without an exit too.
fn words(numbers: &[u64]) -> bool
    ensures { result ≡ all_words numbers.now }
{
    let mut fit = true;
    for number in numbers {
        fit &= *number <= WORD;
    }
    fit
}

// The coded size is not looked at.
fn fixed_fits(numbers: &[u64]) -> bool
    requires { fixed_length ≤ count numbers.now }
    ensures { result ≡ fixed_fits numbers.now }
{
    let head = within(&HEAD, numbers);
    let alpha = within(&HEADER, &numbers[ALPHA..]);
    let color = within(&HEADER, &numbers[COLOR..]);
    let data = within(&RANGE, &numbers[DATA..]);
    head & (alpha & (color & (data & (numbers[COUNT] <= WORD))))
}

// Why the list gives no record, if it gives none.
pub(crate) fn judge(numbers: &[u64]) -> Result<(), Reason>
    ensures { MatchResult result (λ _. read_list numbers.now ≡ ok (list_record numbers.now)) (λ reason. read_list numbers.now ≡ error (reason_number reason) 0) }
{
    if numbers.len() < FIXED {
        return Err(Reason::BufferTooSmall);
    }
    if !fixed_fits(numbers) {
        return Err(Reason::Inconsistent);
    }
    let entries = u32_at(numbers, COUNT) as usize;
    if MAX_ENTRIES < entries {
        return Err(Reason::TooManyEntries);
    }
    let end = FIXED + 4 * entries;
    if numbers.len() < end {
        return Err(Reason::BufferTooSmall);
    }
    if !words(&numbers[FIXED..end]) {
        return Err(Reason::Inconsistent);
    }
    Ok(())
}
