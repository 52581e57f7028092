// What follows the head of a file: its extension block, what is judged after it, and what is known of all that follows.
ghost use Rattle.std.specs.Prelude.{◌≡◌, not, ◌||◌, drop};
ghost use Rattle.bpg_refusal.specs.Outcomes.{outcome};
ghost use Rattle.bpg_format.specs.Tests.{counts_to_end};
ghost use Rattle.bpg_format.specs.Read.{read_block};
ghost use Rattle.bpg_read_head.specs.Heads.{head_fields};
ghost use Rattle.bpg_read_entries.specs.Blocks.{block_answer};
ghost use Rattle.bpg_read_survey.specs.Bodies.{HeadRead};

use bpg_bytes::Located;
use bpg_read_entries::block;
use bpg_read_entries::block::Block;
use bpg_read_head::head::Head;
use bpg_read_headers::headers::Headers;
use bpg_refusal::{Reason, Refusal};

// The extension block. Without the extension flag its length is 0.
pub(crate) fn entries(file: &[u8], head: Head) -> Result<Block, Refusal>
    requires { HeadRead file.now (head_fields head) }
    ensures { outcome (λ x. x) result ≡ block_answer (read_block (head_fields head) (drop head.end.0 file.now)) }
{
    let length = head.extension_length as usize;
    if file.len() - head.end.0 < length {
        return Err(Reason::Truncated.at(head.extension_length_at));
    }
    if length == 0 {
        return Ok(block::none());
    }
    let end = head.end.0 + length;
    block::read(&file[..end], head.end)
}

// Refusal 14: with the animation flag, an entry with tag 5 is there.
pub(crate) fn control_fits(animation_flag: bool, animated: bool) -> bool
    ensures { result ≡ (not animation_flag || animated) }
{
    !animation_flag | animated
}

// Refusal 10: a data length that is not 0 counts the headers and the data.
pub(crate) fn reaches_end(data_length: u32, size: usize) -> bool
    ensures { result ≡ counts_to_end data_length size }
{
    (data_length == 0) | (data_length as usize == size)
}

// What the parts of a body were read as, but for the entries, which are stored last. The data begins after the headers.
#[derive(Clone, Copy)]
pub struct RestSurvey {
    pub block: Block,
    pub headers: Located<Headers>,
}
