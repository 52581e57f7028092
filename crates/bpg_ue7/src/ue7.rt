// The number code ue7(n): groups of seven bits, the high group first; a byte's top bit is 1 on all but the last.
// Only the shortest form is taken.
ghost use Rattle.std.specs.Prelude.{◌≡◌, min, ◌-◌, ◌^◌, ◌<◌, drop};
ghost use Rattle.bpg_codec.specs.Outcome.{located};
ghost use Rattle.bpg_codec.specs.Codec.{at_own};
ghost use Rattle.bpg_codec.specs.Parts.{guarded};
ghost use Rattle.bpg_bytes.specs.Positions.{number_at};
ghost use Rattle.bpg_refusal.specs.Numbers.{reason_number};
ghost use Rattle.bpg_refusal.specs.Outcomes.{outcome};
ghost use Rattle.bpg_ue7.specs.Ue7.{ue7, not_zero};

use bpg_bytes::{BytePos, Located};
use bpg_refusal::{Reason, Refusal};

// The largest number of n bits; n above 32 counts as 32.
fn largest(n: u32) -> u64
    ensures { (result ≡ 2 ^ min n 32 - 1) × (result < 2 ^ 32) }
{
    (1u64 << n.min(32)) - 1
}

// The number of at most n bits at `at`; n above 32 counts as 32. Most numbers have one byte, so the first is read before the loop.
pub fn read(region: &[u8], at: BytePos, n: u32) -> Result<Located<u32>, Refusal>
    ensures { outcome number_at result ≡ located ((ue7 (min n 32)).decode at.0 at.0 (drop at.0 region.now)) }
{
    let start = at.0;
    if region.len() <= start {
        return Err(Reason::Truncated.at(at));
    }
    let first = region[start];
    if first == 0x80 {
        return Err(Reason::NumberNotShortest.at(at));
    }
    let most = largest(n);
    let low = u64::from(first % 128);
    if most < low {
        return Err(Reason::NumberTooLarge.at(at));
    }
    if first < 128 {
        return Ok(Located {
            value: u32::from(first),
            next: BytePos(start + 1),
        });
    }
    let mut value = low;
    for i in start + 1..region.len() {
        let byte = region[i];
        value = value * 128 + u64::from(byte % 128);
        if most < value {
            return Err(Reason::NumberTooLarge.at(BytePos(i)));
        }
        if byte < 128 {
            return Ok(Located {
                value: value as u32,
                next: BytePos(i + 1),
            });
        }
    }
    Err(Reason::Truncated.at(BytePos(region.len())))
}

// The number at `at`, which is not 0: a 0 is refused with `reason`, at the number.
pub fn read_nonzero(
    region: &[u8],
    at: BytePos,
    n: u32,
    reason: Reason,
) -> Result<Located<u32>, Refusal>
    ensures { outcome number_at result ≡ located ((guarded (ue7 (min n 32)) not_zero (reason_number reason) at_own).decode at.0 at.0 (drop at.0 region.now)) }
{
    let number = read(region, at, n)?;
    if number.value == 0 {
        return Err(reason.at(at));
    }
    Ok(number)
}
