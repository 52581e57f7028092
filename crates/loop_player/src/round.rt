// One round of a loop.
ghost use Rattle.std.specs.Prelude.{true, false, ◌≡◌, ◌-◌, ◌<◌, ◌≤◌, ◌^◌, length, MatchOption};
ghost use Rattle.loop_player.specs.Player.{total, all_positive, frame_in, ended_by};

// The ticks of one round, if every duration is above 0: one pass, with no branch in it. The sums have 32 bits, so that a vector holds four of them.
pub(crate) fn add_up(durations: &[u16]) -> Option<u64>
    requires { length durations.now ≤ 256 }
    ensures { MatchOption result (all_positive durations.now ≡ false) (λ t. (t ≡ total durations.now) × (t < 2 ^ 24) × (all_positive durations.now ≡ true)) }
{
    let mut ticks = 0u32;
    let mut positive = true;
    for duration in durations {
        let d = u32::from(*duration);
        ticks += d;
        positive = positive & (0 < d);
    }
    if positive {
        Some(u64::from(ticks))
    } else {
        None
    }
}

// The frame whose span holds r: one pass, up to that frame.
pub(crate) fn frame_in(durations: &[u16], r: u64) -> u32
    requires { length durations.now ≤ 256 }
    ensures { result ≡ frame_in durations.now r }
{
    let mut left = r;
    for (i, duration) in durations.iter().enumerate() {
        let d = u64::from(*duration);
        if left < d {
            return i as u32;
        }
        left -= d;
    }
    durations.len() as u32
}

// Whether all rounds are over. The product is below 2^40.
pub(crate) fn is_over(loop_count: u16, round: u64, tick: u64) -> bool
    requires { round < 2 ^ 24 }
    ensures { result ≡ ended_by loop_count round tick }
{
    let end = u64::from(loop_count) * round;
    (0 < loop_count) & (end <= tick)
}

// The last of some frames.
pub(crate) fn last_of(count: usize) -> u32
    requires { (0 < count) × (count ≤ 256) }
    ensures { result ≡ count - 1 }
{
    (count - 1) as u32
}
