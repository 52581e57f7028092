// A unit cut off and judged by the emulation rules in one go over its bytes: start codes are patterns too.
ghost use Rattle.std.specs.Prelude.{◌≡◌, ◌==◌, ◌+◌, ◌<◌, ◌≤◌, not, position, length, MatchOption};
ghost use Rattle.bpg_nal_scan.specs.Scans.{ended_at, scan_at};

use bpg_bytes::{BytePos, byte_at};
use bpg_nal_emulation::pattern;
use bpg_nal_units::{Cut, trimmed};

// Where the first byte stands that is not 0.
fn first_nonzero(bytes: &[u8]) -> Option<usize>
    ensures value { result ≡ position (λ b. not (b == 0)) bytes.now }
    ensures within { MatchOption result (Unit {0}) (λ k. k < length bytes.now) }
{
    bytes.iter().position(|b| *b != 0)
}

// What two zero bytes at `at` mean, with no 03 after them: the unit ends there, at a start code or the end of the region with zero
// bytes before it; or a rule is broken.
fn ended(region: &[u8], at: BytePos) -> Option<Cut>
    requires { at.0 + 2 ≤ length region.now }
    ensures { result ≡ ended_at region.now at.0 }
{
    let rest = &region[at.0 + 2..];
    let code = match first_nonzero(rest) {
        None => region.len(),
        Some(zeros) if rest[zeros] == 1 => at.0 + zeros,
        Some(_) => return None,
    };
    Some(Cut {
        end: at,
        code: BytePos(code),
    })
}

// The unit that starts at `start`, if it keeps the rules. A `loop`, since it goes from pattern to pattern and not by bytes.
pub fn scan_at(region: &[u8], start: BytePos) -> Option<Cut>
    ensures { result ≡ scan_at region.now start.0 }
{
    let end = region.len();
    let mut from = start;
    loop {
        let at = pattern::next(region, from).0;
        if end <= at {
            return Some(Cut {
                end: trimmed(region, from, BytePos(end)),
                code: BytePos(end),
            });
        }
        if region[at + 2] != 3 {
            return ended(region, BytePos(at));
        }
        if 3 < byte_at(region, at + 3) {
            return None;
        }
        from = BytePos(at + 3);
    }
}
