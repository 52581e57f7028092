// One entry of the extension block: tag, length, payload; and what tag 5 adds.
ghost use Rattle.std.specs.Prelude.{◌≡◌, ◌≤◌, length as count, take, drop};
ghost use Rattle.bpg_refusal.specs.Outcomes.{outcome};
ghost use Rattle.bpg_format.specs.Limits.{max_file};
ghost use Rattle.bpg_read_animation.specs.Animations.{animation_control};
ghost use Rattle.bpg_read_entries.specs.Entries.{entry_start, entry_head_answer, entry_control, entry_in};

use bpg_bytes::{BytePos, Located};
use bpg_format::{Entry, MAX_FILE, Range};
use bpg_read_animation::animation;
use bpg_read_animation::animation::Animation;
use bpg_refusal::{Reason, Refusal};
use bpg_ue7::ue7;

// The entry at `at`, and the offset after it. What tag 5 adds is left to `control`: an answer that held it would be copied for each entry.
pub(crate) fn read(region: &[u8], at: BytePos) -> Result<Located<Entry>, Refusal>
    requires region_bound { count region.now ≤ max_file }
    requires at_bound { at.0 ≤ count region.now }
    ensures { outcome (λ x. x) result ≡ entry_head_answer at.0 (entry_start at.0 (drop at.0 region.now)) }
{
    let tag = ue7::read(region, at, 32)?;
    let size = ue7::read(region, tag.next, 32)?;
    let start = size.next.0;
    let length = size.value as usize;
    if region.len() - start < length {
        return Err(Reason::Truncated.at(tag.next));
    }
    Ok(Located {
        value: Entry {
            tag: tag.value,
            payload: Range {
                start: start as u32,
                length: size.value,
            },
            tag_offset: at.0 as u32,
        },
        next: BytePos(start + length),
    })
}

// The loop numbers of the entry with tag 5 that stands at `at`; `seen`: another stands before it.
pub(crate) fn control(
    region: &[u8],
    at: BytePos,
    seen: bool,
    entry: Located<Entry>,
) -> Result<Animation, Refusal>
    requires { entry.next.0 ≤ count region.now }
    ensures { outcome animation_control result ≡ entry_control seen at.0 entry.value.payload.start (drop entry.value.payload.start (take entry.next.0 region.now)) }
{
    if seen {
        return Err(Reason::SecondLoop.at(at));
    }
    let end = entry.next.0;
    animation::read(&region[..end], BytePos(entry.value.payload.start as usize))
}

// The entry at `at`, for any region and offset: a region longer than a file is refused, and an offset past the region.
pub fn read_checked(region: &[u8], at: BytePos) -> Result<Located<Entry>, Refusal>
    ensures { outcome (λ x. x) result ≡ entry_head_answer at.0 (entry_in region.now at.0) }
{
    if MAX_FILE < region.len() {
        return Err(Reason::FileTooLong.at(BytePos(0)));
    }
    if region.len() < at.0 {
        return Err(Reason::Truncated.at(at));
    }
    read(region, at)
}
