// One plane.
ghost use Rattle.std.specs.Prelude.{◌≡◌, map, ◌≤◌, length};
ghost use Rattle.bpg_sample_rules.specs.Rules.{complement};
ghost use Rattle.bpg_sample_rules.specs.Planes.{largest};

pub(crate) fn complement_plane(plane: &[u16], m: u16, out: &mut [u16])
    requires { (length out.old ≡ length plane.now) × (largest plane.now ≤ m) }
    ensures { out.new ≡ map (complement m) plane.now }
{
    for (i, sample) in out.iter_mut().enumerate() {
        *sample = m - plane[i];
    }
}
