// Where the extension block of a file lies.
ghost use Rattle.std.specs.Prelude.{◌≡◌};
ghost use Rattle.bpg_parts.specs.Bounds.{block_bounds};

use bpg_bytes::BytePos;
use bpg_read_survey::survey;

// The offsets of the first entry and after the last.
#[derive(Clone, Copy)]
pub struct BlockBounds {
    pub start: BytePos,
    pub end: BytePos,
}

// No option: the cursor's theorem names the bounds of a refused file too. Of a refused file both are 0; of a file without entries both are where the first would stand. The survey says it: no record is made.
pub fn block_bounds(file: &[u8]) -> BlockBounds
    ensures { result ≡ block_bounds file.now }
{
    let found = survey(file, None);
    let Ok(_) = found.rest else {
        return BlockBounds {
            start: BytePos(0),
            end: BytePos(0),
        };
    };
    let head = found.head.unwrap();
    let start = head.end;
    let end = start.0 + head.extension_length as usize;
    BlockBounds {
        start,
        end: BytePos(end),
    }
}
