// The payload of tag 5, animation control: loop count and frame period, then dummy bytes.
ghost use Rattle.std.specs.Prelude.{◌≡◌, drop};
ghost use Rattle.bpg_refusal.specs.Outcomes.{outcome};
ghost use Rattle.bpg_format.specs.Rules.{no_animation};
ghost use Rattle.bpg_format.specs.Read.{read_animation};
ghost use Rattle.bpg_read_animation.specs.Animations.{animation_control};

use bpg_bytes::BytePos;
use bpg_refusal::{Reason, Refusal};
use bpg_ue7::ue7;

#[derive(Clone, Copy, Default)]
pub struct Animation {
    pub loop_count: u16,
    pub frame_period_num: u16,
    pub frame_period_den: u16,
}

// There is no animation control: all its numbers are zero.
pub fn none() -> Animation
    ensures { animation_control result ≡ no_animation }
{
    Animation::default()
}

// The numbers from `at` on, in a region that ends with the payload.
pub fn read(region: &[u8], at: BytePos) -> Result<Animation, Refusal>
    ensures { outcome animation_control result ≡ read_animation at.0 (drop at.0 region.now) }
{
    let count = ue7::read(region, at, 16)?;
    let num = ue7::read_nonzero(region, count.next, 16, Reason::ZeroPeriod)?;
    let den = ue7::read_nonzero(region, num.next, 16, Reason::ZeroPeriod)?;
    Ok(Animation {
        loop_count: count.value as u16,
        frame_period_num: num.value as u16,
        frame_period_den: den.value as u16,
    })
}
