// Width and height.
ghost use Rattle.std.specs.Prelude.{◌≡◌, drop};
ghost use Rattle.bpg_codec.specs.Outcome.{located};
ghost use Rattle.bpg_bytes.specs.Positions.{value_at};
ghost use Rattle.bpg_refusal.specs.Outcomes.{outcome};
ghost use Rattle.bpg_read_head.specs.Sizes.{read_size, size_numbers};

use bpg_bytes::{BytePos, Located};
use bpg_refusal::{Reason, Refusal};
use bpg_ue7::ue7;

#[derive(Clone, Copy)]
pub struct Size {
    pub width: u32,
    pub height: u32,
}

// The two numbers from `at` on, of which none is 0.
pub fn read(file: &[u8], at: BytePos) -> Result<Located<Size>, Refusal>
    ensures { outcome (value_at size_numbers) result ≡ located (read_size at.0 (drop at.0 file.now)) }
{
    let width = ue7::read_nonzero(file, at, 32, Reason::EmptyPicture)?;
    let height = ue7::read_nonzero(file, width.next, 32, Reason::EmptyPicture)?;
    Ok(Located {
        value: Size {
            width: width.value,
            height: height.value,
        },
        next: height.next,
    })
}
