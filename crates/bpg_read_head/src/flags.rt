// Magic, byte 4 and byte 5.
ghost use Rattle.std.specs.Prelude.{◌≡◌, take};
ghost use Rattle.bpg_codec.specs.Lists.{same};
ghost use Rattle.bpg_refusal.specs.Outcomes.{outcome};
ghost use Rattle.bpg_format.specs.Syntax.{magic};
ghost use Rattle.bpg_format.specs.Read.{flags_of, read_flags};
ghost use Rattle.bpg_read_head.specs.FlagBytes.{flag_fields};

use bpg_bytes::BytePos;
use bpg_format::color_space_allowed;
use bpg_refusal::{Reason, Refusal};

// How many bytes they take.
const LEAST: usize = 6;

const MAGIC: [u8; 4] = [0x42, 0x50, 0x47, 0xfb];

// The fields of byte 4 and byte 5.
#[derive(Clone, Copy, Default)]
pub struct Flags {
    pub pixel_format: u8,
    pub alpha1_flag: bool,
    pub bit_depth_minus_8: u8,
    pub color_space: u8,
    pub extension_present_flag: bool,
    pub alpha2_flag: bool,
    pub limited_range_flag: bool,
    pub animation_flag: bool,
}

fn has_magic(file: &[u8]) -> bool
    ensures { result ≡ same magic (take 4 file.now) }
{
    file.starts_with(&MAGIC)
}

// What the two bytes hold, whatever they are.
fn from_bytes(byte4: u8, byte5: u8) -> Flags
    ensures { flag_fields result ≡ flags_of byte4 byte5 }
{
    Flags {
        pixel_format: byte4 / 32,
        alpha1_flag: byte4 / 16 % 2 == 1,
        bit_depth_minus_8: byte4 % 16,
        color_space: byte5 / 16,
        extension_present_flag: byte5 / 8 % 2 == 1,
        alpha2_flag: byte5 / 4 % 2 == 1,
        limited_range_flag: byte5 / 2 % 2 == 1,
        animation_flag: byte5 % 2 == 1,
    }
}

pub fn read(file: &[u8]) -> Result<Flags, Refusal>
    ensures { outcome flag_fields result ≡ read_flags file.now }
{
    if file.len() < LEAST {
        return Err(Reason::Truncated.at(BytePos(0)));
    }
    if !has_magic(file) {
        return Err(Reason::Magic.at(BytePos(0)));
    }
    let flags = from_bytes(file[4], file[5]);
    if 5 < flags.pixel_format {
        return Err(Reason::BadPixelFormat.at(BytePos(4)));
    }
    if 6 < flags.bit_depth_minus_8 {
        return Err(Reason::BadBitDepth.at(BytePos(4)));
    }
    if !color_space_allowed(flags.pixel_format, flags.color_space) {
        return Err(Reason::BadColorSpace.at(BytePos(5)));
    }
    Ok(flags)
}
