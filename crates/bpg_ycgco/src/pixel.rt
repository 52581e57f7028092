// One pixel, in unsigned numbers: where a difference would be below zero, 0 is what it is brought to. It is compiled to saturating
// instructions.
ghost use Rattle.std.specs.Prelude.{◌≡◌, ◌≤◌, ◌+◌, ◌-◌, ◌/◌, min};

// a − b, brought into 0 to m.
fn difference(a: u16, b: u16, m: u16) -> u16
    ensures { result ≡ min m (a - b) }
{
    a.saturating_sub(b).min(m)
}

// Half of 2^depth, from M.
pub(crate) fn half_range(m: u16) -> u16
    requires { m ≤ 16383 }
    ensures { result ≡ m / 2 + 1 }
{
    m / 2 + 1
}

// t = Y − Cg, and half of 2^depth more, so that it is not below zero. It is not brought into range.
pub(crate) fn t_plus_half(y: u16, cg: u16, half: u16) -> u16
    requires { (y ≤ 16383) × (cg ≤ half + half) × (half ≤ 8192) }
    ensures { result ≡ y + (half + half) - cg }
{
    y + (half + half) - cg
}

// G = Y + Cg.
pub(crate) fn green_at(y: u16, cg: u16, m: u16, half: u16) -> u16
    requires { (y ≤ 16383) × (cg ≤ 16384) }
    ensures { result ≡ min m (y + cg - half) }
{
    difference(y + cg, half, m)
}

// B = t − Co.
pub(crate) fn blue_at(t: u16, co: u16, m: u16) -> u16
    ensures { result ≡ min m (t - co) }
{
    difference(t, co, m)
}

// R = t + Co.
pub(crate) fn red_at(t: u16, co: u16, m: u16, half: u16) -> u16
    requires { (t ≤ 32767) × (co ≤ 16384) × (half ≤ 8192) }
    ensures { result ≡ min m (t + co - (half + half)) }
{
    difference(t + co, half + half, m)
}
