// Payload types and payload sizes: 255 for each byte FF, and the first other byte.
ghost use Rattle.std.specs.Prelude.{◌≡◌, MatchOption};
ghost use Rattle.bpg_codec.specs.Outcome.{error};
ghost use Rattle.bpg_sei.specs.Messages.{sum_from};
ghost use Rattle.bpg_sei.specs.Steps.{left_at, Summed};

use crate::content::Cursor;
use bpg_bytes::Located;

// A sum, if the content goes on to its end. No content is as long as the largest `usize`, so a size above it is cut short all the same; and no type
// above 257 matters.
pub(crate) fn read(unit: &[u8], cursor: Cursor) -> Option<Located<usize, Cursor>>
    ensures { MatchOption result (sum_from (left_at unit.now cursor) 0 ≡ error 22 0) (Summed unit.now cursor) }
{
    let mut value: usize = 0;
    let mut at = cursor;
    // A `loop`, and no `for`: the next byte stands where this one ends, one or two bytes on.
    loop {
        let step = at.next(unit)?;
        value = value.saturating_add(usize::from(step.value));
        at = step.next;
        if step.value != 255 {
            return Some(Located { value, next: at });
        }
    }
}
