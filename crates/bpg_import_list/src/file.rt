// Writing the file of a list, and how long it is.
ghost use Rattle.std.specs.Prelude.{◌≡◌};
ghost use Rattle.bpg_import_list.specs.Calls.{write_answer, write_bytes, size_answer};

use crate::check;
use crate::record::record;
use bpg_bytes::BytePos;
use bpg_format::Written;

// Writes the file of the record that a list gives, whose ranges are in `source`, from the start of `out`; a refusal leaves `out` as it is.
pub fn write(numbers: &[u64], source: &[u8], out: &mut [u8]) -> Written
    ensures value { result ≡ write_answer numbers.now source.now out.old }
    ensures out_after { out.new ≡ write_bytes numbers.now source.now out.old }
{
    if let Err(reason) = check::judge(numbers) {
        return Written::refused(reason.at(BytePos(0)));
    }
    bpg_writer::write(record(numbers), source, out)
}

// What `write` answers to a buffer that is large enough: how large it must be, or the refusal. 20 is for the list alone.
pub fn size(numbers: &[u64], source: &[u8]) -> Written
    ensures { result ≡ size_answer numbers.now source.now }
{
    if let Err(reason) = check::judge(numbers) {
        return Written::refused(reason.at(BytePos(0)));
    }
    bpg_writer::size(record(numbers), source)
}
