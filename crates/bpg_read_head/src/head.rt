// The head of a file, up to the extension length. Whether the lengths fit the file is not judged here.
ghost use Rattle.std.specs.Prelude.{◌≡◌, drop};
ghost use Rattle.bpg_codec.specs.Outcome.{located};
ghost use Rattle.bpg_bytes.specs.Positions.{number_at};
ghost use Rattle.bpg_refusal.specs.Outcomes.{outcome};
ghost use Rattle.bpg_format.specs.Read.{read_head};
ghost use Rattle.bpg_read_head.specs.Heads.{read_extension_length, head_fields};

use crate::flags::Flags;
use crate::{flags, size};
use bpg_bytes::{BytePos, Located};
use bpg_refusal::Refusal;
use bpg_ue7::ue7;

// The fields as coded, with the offsets of the two lengths and the offset after the head. Without the extension flag the extension length is 0,
// and its offset is where the head ends.
#[derive(Clone, Copy)]
pub struct Head {
    pub flags: Flags,
    pub picture_width: u32,
    pub picture_height: u32,
    pub data_length: u32,
    pub data_length_at: BytePos,
    pub extension_length: u32,
    pub extension_length_at: BytePos,
    pub end: BytePos,
}

// The extension length, or 0 where the flag says that there is none.
#[tactic(auto, unfolding(bpg_codec::specs::Select::select))]
fn read_extension_length(file: &[u8], at: BytePos, present: bool) -> Result<Located<u32>, Refusal>
    ensures { outcome number_at result ≡ located (read_extension_length present at.0 (drop at.0 file.now)) }
{
    if present {
        return ue7::read(file, at, 32);
    }
    Ok(Located { value: 0, next: at })
}

pub fn read(file: &[u8]) -> Result<Head, Refusal>
    ensures { outcome head_fields result ≡ read_head file.now }
{
    let flags = flags::read(file)?;
    let size = size::read(file, BytePos(6))?;
    let data = ue7::read(file, size.next, 32)?;
    let present = flags.extension_present_flag;
    let extension = read_extension_length(file, data.next, present)?;
    Ok(Head {
        flags,
        picture_width: size.value.width,
        picture_height: size.value.height,
        data_length: data.value,
        data_length_at: size.next,
        extension_length: extension.value,
        extension_length_at: data.next,
        end: extension.next,
    })
}
