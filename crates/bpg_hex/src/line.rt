// How far a line of hex digits has been read.
ghost use Rattle.std.specs.Prelude.{◌≡◌, ◌<◌, ℕ};
ghost use Rattle.bpg_hex.specs.declared.line.Pending.TheVariants.{Digit};

// What stands between a line's last whole byte and its next character. No Option: there are three cases.
#[derive(Clone, Copy)]
pub(crate) enum Pending {
    Nothing,
    // A digit that waits for its second.
    Digit(u8),
    Comment,
}

// How many bytes a line has given, and what is pending. The bytes stand in the buffer that is lent to `extend`.
#[derive(Clone, Copy)]
pub struct HexLine {
    pub count: usize,
    pub(crate) pending: Pending,
    ghost below_16: { (d : ℕ) → pending ≡ Digit d → d < 16 },
}
