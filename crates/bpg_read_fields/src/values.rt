// The values of a HEVC header's fields, in the order of the file: one loop over a table, so that there is one piece of code for all of them.
ghost use Rattle.std.specs.Prelude.{◌≡◌};
ghost use Rattle.bpg_bits.specs.BitNumbers.{region_bits};
ghost use Rattle.bpg_read_fields.specs.Table.{values_answer, values_from, no_values, after_group};

use crate::field;
use bpg_bytes::{BitPos, Located};
use bpg_next_bits::NextBits;

// The field that follows an absent group: 12 the PCM fields (gate 6). None follows the extension (13): the range flags are absent with it, as
// their gate (14), one of its fields, is 0.
fn after_group(gate: usize) -> usize
    ensures { result ≡ after_group gate }
{
    if gate == 6 { 12 } else { 25 }
}

// Reads the values from `at` on, with a 1 after them; none, where one is missing. Field k has widths[k] bits (0: ue(v)), and is there if the value
// at gates[k] is 1; where it is not, its group is passed over at once (so the loop is no `for`), since the values of its fields are 0 from the
// start. `bits` are the next bits from `next` on.
pub(crate) fn read(region: &[u8], at: BitPos) -> Option<Located<[u32; 26], BitPos>>
    ensures { result ≡ values_answer (values_from (region_bits region.now) 25 no_values at.0) }
{
    let widths =
        b"\x00\x00\x00\x00\x00\x01\x01\x04\x04\x00\x00\x01\x01\x01\x01\x07\x01\x01\x01\x01\x01\x01\x01\x01\x01";
    let gates =
        b"\x19\x19\x19\x19\x19\x19\x19\x06\x06\x06\x06\x06\x19\x19\x0d\x0d\x0e\x0e\x0e\x0e\x0e\x0e\x0e\x0e\x0e";
    let mut values = [0u32; 26];
    values[25] = 1;
    let mut next = at.0;
    let mut bits = NextBits::new(region, at);
    let mut k: usize = 0;
    while k < 25 {
        let gate = usize::from(gates[k]);
        if values[gate] != 1 {
            k = after_group(gate);
            continue;
        }
        let field = field::read(region, BitPos(next), widths[k], bits)?;
        values[k] = field.value;
        bits = bits.after(field.next.0 - next);
        next = field.next.0;
        k += 1;
    }
    Some(Located {
        value: values,
        next: BitPos(next),
    })
}
