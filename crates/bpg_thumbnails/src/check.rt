// The call.
ghost use Rattle.std.specs.Prelude.{◌≡◌};
ghost use Rattle.bpg_thumbnails.specs.Calls.{check_thumbnails};

use crate::answer::Checked;
use crate::levels::{LEVELS_BELOW, check_file};
use bpg_reader::read;

// Whether the thumbnails of a file comply, and theirs at every level; or the first refusal, at its offset in this file.
// Each file is read once. Nothing is allocated: the stack holds a record for each level, four in all.
pub fn check_thumbnails(file: &[u8]) -> Checked
    ensures { result ≡ check_thumbnails file.now }
{
    let reading = read(file);
    if reading.status != 0 {
        return Checked {
            status: reading.status,
            offset: reading.offset,
        };
    }
    Checked::of(check_file(file, &reading.record, 0, LEVELS_BELOW))
}
