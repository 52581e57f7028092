// All messages of a unit.
ghost use Rattle.std.specs.Prelude.{◌≡◌, ◌<◌, ◌^◌};
ghost use Rattle.bpg_nal_emulation.specs.Emulation.{content_at};
ghost use Rattle.bpg_sei.specs.Messages.{ends, durations_in};
ghost use Rattle.bpg_sei.specs.Steps.{left_at, heard, or_22, summed_up};

use crate::content::Cursor;
use crate::message;
use bpg_bytes::BytePos;

// The durations that the messages of a unit set: how many, and the last; 0 where there is none. They are kept nowhere.
#[derive(Clone, Copy, Default)]
pub struct Durations {
    pub count: usize,
    pub last: u16,
}

impl Durations {
    // With that of one more message, if it sets one.
    fn with(self, duration: Option<u16>) -> Durations
        requires { self.count < 2 ^ 63 }
        ensures { result ≡ heard self duration }
    {
        match duration {
            Some(last) => Durations {
                count: self.count + 1,
                last,
            },
            None => self,
        }
    }
}

// Whether the one byte 80 is left.
fn ends_here(unit: &[u8], cursor: Cursor) -> bool
    ensures { result ≡ ends (left_at unit.now cursor) }
{
    let Some(step) = cursor.next(unit) else {
        return false;
    };
    step.value == 128 && step.next.next(unit).is_none()
}

// The messages behind the header of a unit; none where they are cut short, which is refusal 22.
pub fn read(unit: &[u8]) -> Option<Durations>
    ensures { or_22 result ≡ summed_up (durations_in (content_at unit.now 2 0)) }
{
    let mut durations = Durations::default();
    let mut cursor = Cursor {
        at: BytePos(2),
        zeros: 0,
    };
    // A `loop`, and no `for`: the next message stands where this one ends.
    loop {
        let message = message::read(unit, cursor)?;
        durations = durations.with(message.value);
        cursor = message.next;
        if ends_here(unit, cursor) {
            return Some(durations);
        }
    }
}
