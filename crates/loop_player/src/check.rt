// What 37 is given for, but a duration of 0, which is found where durations are added up.
ghost use Rattle.std.specs.Prelude.{◌≡◌};
ghost use Rattle.loop_player.specs.Player.{period_known, frames_known};

pub(crate) fn period_known(num: u16, den: u16) -> bool
    ensures { result ≡ period_known num den }
{
    (0 < num) & (0 < den)
}

pub(crate) fn frames_known(count: usize) -> bool
    ensures { result ≡ frames_known count }
{
    (0 < count) & (count <= 256)
}
