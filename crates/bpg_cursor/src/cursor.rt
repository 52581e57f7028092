// The cursor: it keeps the file up to the end of the extension block, and the offset of the next entry. Every slice
// and offset has an answer.
ghost use Rattle.std.specs.Prelude.{◌≡◌, ◌-◌, length};
ghost use Rattle.std.specs.Iterator.{at_most};
ghost use Rattle.bpg_cursor.specs.Cursors.{step_at, first_step, New, yielded, advanced};

use crate::region::region_to;
use crate::step::{Step, step_at};
use bpg_bytes::BytePos;
use bpg_format::Entry;
use bpg_parts::block_bounds;

#[derive(Clone, Copy)]
pub struct Cursor<'a> {
    pub region: &'a [u8],
    pub next: BytePos,
}

impl<'a> Cursor<'a> {
    // A cursor before the first entry. The file is read once; a refused one gives the empty slice.
    pub fn new(file: &'a [u8]) -> Cursor<'a>
        ensures { New file.entry result }
    {
        let bounds = block_bounds(file);
        Cursor {
            region: region_to(file, bounds.end),
            next: bounds.start,
        }
    }
}

impl<'a> Iterator for Cursor<'a> {
    type Item = Entry;

    ghost next_gives = { λ cursor entry after. (entry ≡ yielded cursor) × (after ≡ advanced cursor) };

    // An entry has two bytes at least.
    ghost remaining = { λ cursor. at_most (length cursor.region.now - cursor.next.0) };

    // Yields the next entry and steps past it; after the last, and in a refused file, says each time that there is none.
    fn next(&mut self) -> Option<Entry> {
        let step = step_at(self.region, self.next);
        self.next = step.next;
        step.answer
    }
}

// The step of a cursor that keeps this slice and stands at this offset, for callers that keep the two themselves.
pub fn resume(region: &[u8], at: BytePos) -> Step
    ensures { result ≡ step_at region.now at.0 }
{
    let mut cursor = Cursor { region, next: at };
    let answer = cursor.next();
    Step {
        answer,
        next: cursor.next,
    }
}

// The step of a new cursor: its first answer, and the offset at which it then stands.
pub fn first(file: &[u8]) -> Step
    ensures { result ≡ first_step file.now }
{
    let mut cursor = Cursor::new(file);
    let answer = cursor.next();
    Step {
        answer,
        next: cursor.next,
    }
}
