// The entries of a record that are in use, judged one after another.
ghost use Rattle.std.specs.Prelude.{◌≡◌, true, false, map};
ghost use Rattle.bpg_refusal.specs.Outcomes.{outcome_at_zero};
ghost use Rattle.bpg_format.specs.Records.{bytes_in, extension_of, used_entries, record_animation};
ghost use Rattle.bpg_format.specs.Write.{in_source, entries_in_source, same_animation, check_animation, check_entries};
ghost use Rattle.bpg_read_animation.specs.Animations.{animation_control};
ghost use Rattle.bpg_write_check.specs.Check.{check_entry};

use bpg_bytes::BytePos;
use bpg_format::{Entry, Range, Record};
use bpg_read_animation::animation;
use bpg_read_animation::animation::Animation;
use bpg_record_entries::used;
use bpg_refusal::Reason;

// The record's loop numbers are these. No one type has the numbers of both sides, so this is no `==`.
pub fn same_loop(record: &Record, animation: Animation) -> bool
    ensures { result ≡ same_animation (record_animation «record».now) (animation_control animation) }
{
    (record.loop_count == animation.loop_count)
        & ((record.frame_period_num == animation.frame_period_num)
            & (record.frame_period_den == animation.frame_period_den))
}

// The payload of tag 5: its own refusals, then 19 if the record's loop numbers are others.
fn check_control(record: &Record, payload: Range, source: &[u8]) -> Result<(), Reason>
    requires { in_source source.now payload ≡ true }
    ensures { outcome_at_zero result ≡ check_animation (record_animation «record».now) (bytes_in source.now payload) }
{
    let start = payload.start as usize;
    let end = start + payload.length as usize;
    match animation::read(&source[start..end], BytePos(0)) {
        Err(refusal) => Err(refusal.reason),
        Ok(animation) if same_loop(record, animation) => Ok(()),
        Ok(_) => Err(Reason::Inconsistent),
    }
}

// One entry; `seen`: an entry with tag 5 stands before it.
fn check_entry(record: &Record, entry: &Entry, seen: bool, source: &[u8]) -> Result<(), Reason>
    requires { in_source source.now entry.now.payload ≡ true }
    ensures { outcome_at_zero result ≡ check_entry (record_animation «record».now) seen (extension_of source.now entry.now) }
{
    if entry.tag != 5 {
        return Ok(());
    }
    if seen {
        return Err(Reason::SecondLoop);
    }
    check_control(record, entry.payload, source)
}

// The entries in use, one after another.
pub(crate) fn check(record: &Record, source: &[u8]) -> Result<(), Reason>
    requires { entries_in_source source.now (used_entries «record».now) ≡ true }
    ensures { outcome_at_zero result ≡ check_entries (record_animation «record».now) false (map (extension_of source.now) (used_entries «record».now)) }
{
    let used = used::entries(record);
    let mut seen = false;
    for entry in used {
        check_entry(record, entry, seen, source)?;
        seen = seen | (entry.tag == 5);
    }
    Ok(())
}
