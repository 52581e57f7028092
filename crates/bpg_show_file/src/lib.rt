// What `bpgshow` prints for a file.
#![tactic(auto)]

ghost use Rattle.std.specs.Prelude.{◌≡◌};
ghost use Rattle.bpg_codec.specs.Buffer.{written, written_end};
ghost use Rattle.bpg_show_file.specs.Summary.{summary_of};

use bpg_refusal::Reason;
use bpg_show_line::line;

// A longer file is refused, though the library reads it.
const SUMMARY_LIMIT: usize = 65_536;

// Writes the line of a file into `out` and answers its length; where it does not fit, nothing is written and the answer is 0.
pub fn write(file: &[u8], out: &mut [u8]) -> usize
    ensures out_after { out.new ≡ written out.old 0 (summary_of file.now) }
    ensures value { result ≡ written_end out.old 0 (summary_of file.now) }
{
    if SUMMARY_LIMIT < file.len() {
        return line::write_refused(Reason::FileTooLong.number(), 0, out);
    }
    line::write(bpg_reader::read(file), out)
}
