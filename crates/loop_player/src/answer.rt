// What the calls answer: status 0, or refusal 37 with zeros. (Numbers, for C, and because the theorems of specs/Requirements speak of the zeros of a refusal.)
#[derive(Clone, Copy)]
pub struct FrameAt {
    pub status: u8,
    pub frame: u32,
    pub ended: bool,
}

#[derive(Clone, Copy)]
pub struct TickCount {
    pub status: u8,
    pub ticks: u64,
}
