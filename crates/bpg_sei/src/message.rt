// One message: its payload's type and size, and its payload. None is refusal 22: the content is cut short, or a duration is not of two bytes.
ghost use Rattle.std.specs.Prelude.{◌≡◌, ◌<◌, length, MatchOption};
ghost use Rattle.bpg_codec.specs.Outcome.{error};
ghost use Rattle.bpg_sei.specs.Messages.{payload_of, message_of};
ghost use Rattle.bpg_sei.specs.Steps.{left_at, Skipped, DurationRead, MessageRead};

use crate::content::Cursor;
use crate::sum;
use bpg_bytes::Located;

// The payload type of a frame's duration.
const FRAME_DURATION: usize = 257;

// The place `count` bytes further on, if the content goes on that far.
fn skip(unit: &[u8], cursor: Cursor, count: usize) -> Option<Cursor>
    ensures { MatchOption result (length (left_at unit.now cursor) < count) (Skipped unit.now cursor count) }
{
    let mut at = cursor;
    for _ in 0..count {
        at = at.next(unit)?.next;
    }
    Some(at)
}

// A duration of `size` bytes, which are to be two.
#[tactic(auto, using(crate::proofs::MessageLaws::pay_odd))]
fn duration(unit: &[u8], cursor: Cursor, size: usize) -> Option<Located<u16, Cursor>>
    ensures { MatchOption result (payload_of 257 size (left_at unit.now cursor) ≡ error 22 0) (DurationRead unit.now cursor size) }
{
    if size != 2 {
        return None;
    }
    let high = cursor.next(unit)?;
    let low = high.next.next(unit)?;
    Some(Located {
        value: u16::from(high.value) * 256 + u16::from(low.value),
        next: low.next,
    })
}

// The duration that the message here sets, if it sets one.
pub(crate) fn read(unit: &[u8], cursor: Cursor) -> Option<Located<Option<u16>, Cursor>>
    ensures { MatchOption result (message_of (left_at unit.now cursor) ≡ error 22 0) (MessageRead unit.now cursor) }
{
    let kind = sum::read(unit, cursor)?;
    let size = sum::read(unit, kind.next)?;
    if kind.value == FRAME_DURATION {
        let duration = duration(unit, size.next, size.value)?;
        return Some(Located {
            value: Some(duration.value),
            next: duration.next,
        });
    }
    let next = skip(unit, size.next, size.value)?;
    Some(Located { value: None, next })
}
