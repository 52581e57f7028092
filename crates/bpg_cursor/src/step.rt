// One step of a cursor: the work, over a plain slice and an offset.
ghost use Rattle.std.specs.Prelude.{◌≡◌};
ghost use Rattle.bpg_cursor.specs.Cursors.{step_at};

use bpg_bytes::BytePos;
use bpg_format::Entry;
use bpg_read_entries::entry;

// What a cursor yields, and the offset at which it then stands, for callers that keep slice and offset themselves.
#[derive(Clone, Copy)]
pub struct Step {
    pub answer: Option<Entry>,
    pub next: BytePos,
}

// The step at an offset: where no entry can be read the offset stays.
pub fn step_at(region: &[u8], at: BytePos) -> Step
    ensures { result ≡ step_at region.now at.0 }
{
    match entry::read_checked(region, at) {
        Ok(read) => Step {
            answer: Some(read.value),
            next: read.next,
        },
        Err(_) => Step {
            answer: None,
            next: at,
        },
    }
}
