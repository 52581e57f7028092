// One pixel: one division makes the reciprocal of A, and each of its three quotients is then a product and a shift.
ghost use Rattle.std.specs.Prelude.{◌≡◌, ◌≤◌, ◌/◌};
ghost use Rattle.bpg_sample_rules.specs.Rules.{unpremultiplied};
ghost use Rattle.bpg_unpremultiply.specs.Reciprocal.{reciprocal_of};

// 2^44 / A, and one more; that of 1 for an A of 0, which is not used.
pub(crate) fn reciprocal(a: u16) -> u64
    ensures { result ≡ reciprocal_of a }
{
    17_592_186_044_416 / u64::from(a.max(1)) + 1
}

// What is added before a division by A that rounds down, so that it goes to the nearest, and halves up.
fn half_of(a: u16) -> u16
    ensures { result ≡ a / 2 }
{
    a / 2
}

// A colour above A is M, as A itself would be: so the quotient is at most M, and no branch hangs on the colour.
pub(crate) fn unpremultiply_sample(colour: u16, a: u16, m: u16, reciprocal: u64) -> u16
    requires { (m ≤ 16383) × (a ≤ m) × (reciprocal ≡ reciprocal_of a) }
    ensures { result ≡ unpremultiplied m colour a }
{
    let least = colour.min(a);
    let half = half_of(a);
    let n = u32::from(least) * u32::from(m) + u32::from(half);
    let q = (u64::from(n) * reciprocal) >> 44;
    if a == 0 { m } else { q as u16 }
}
