// The extension block: how many entries it has, and the animation control among them.
ghost use Rattle.std.specs.Prelude.{◌≡◌, []};
ghost use Rattle.bpg_refusal.specs.Outcomes.{outcome};
ghost use Rattle.bpg_read_entries.specs.Blocks.{block_of, block_answer, entries_in};

use crate::entry;
use bpg_bytes::BytePos;
use bpg_format::{MAX_ENTRIES, MAX_FILE};
use bpg_read_animation::animation::Animation;
use bpg_refusal::{Reason, Refusal};

// How many entries there are, and what the one with tag 5 says. The entries are stored once the whole file is accepted: an answer with room for
// all of them would be cleared, and copied wherever it is handed on.
#[derive(Clone, Copy, Default)]
pub struct Block {
    pub entry_count: u32,
    pub animation: Option<Animation>,
}

// A block without entries.
#[tactic(auto, unfolding(bpg_codec::specs::Select::select))]
pub fn none() -> Block
    ensures { result ≡ block_of [] }
{
    Block::default()
}

// The entries from `at` to the end of the region. A region longer than a file is refused.
pub fn read(region: &[u8], at: BytePos) -> Result<Block, Refusal>
    ensures { outcome (λ x. x) result ≡ block_answer (entries_in region.now at.0) }
{
    if MAX_FILE < region.len() {
        return Err(Reason::FileTooLong.at(BytePos(0)));
    }
    let mut entry_count: u32 = 0;
    let mut animation: Option<Animation> = None;
    let mut next = at.0;
    // Each turn steps over one entry, by the length that is read in it: no range gives these offsets.
    while next < region.len() {
        if MAX_ENTRIES <= entry_count as usize {
            return Err(Reason::TooManyEntries.at(BytePos(next)));
        }
        let step = entry::read(region, BytePos(next))?;
        entry_count += 1;
        if step.value.tag == 5 {
            let seen = animation.is_some();
            let found = entry::control(region, BytePos(next), seen, step)?;
            animation = Some(found);
        }
        next = step.next.0;
    }
    Ok(Block {
        entry_count,
        animation,
    })
}
