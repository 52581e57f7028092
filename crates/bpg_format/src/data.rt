// The rule that the HEVC data keeps.
ghost use Rattle.std.specs.Prelude.{◌≡◌};
ghost use Rattle.bpg_format.specs.Tests.{data_allowed};

// Refusal 26: the data is not empty, and begins neither 00 00 01 nor 00 00 00 01.
pub fn data_allowed(bytes: &[u8]) -> bool
    ensures { result ≡ data_allowed bytes.now }
{
    let start_code = bytes.starts_with(&[0, 0, 1]) | bytes.starts_with(&[0, 0, 0, 1]);
    !bytes.is_empty() & !start_code
}
