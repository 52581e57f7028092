// One plane.
ghost use Rattle.std.specs.Prelude.{◌≡◌, map, ◌≤◌, length};
ghost use Rattle.bpg_sample_rules.specs.Rules.{full_luma};
ghost use Rattle.bpg_sample_rules.specs.Planes.{largest};
ghost use Rattle.bpg_limited_luma.specs.Tables.{TableOf};

// The table is lent: one that is named in the loop would be made anew for each sample.
pub(crate) fn look_up(y: &[u16], table: &[u16], out: &mut [u16])
    requires table_of { TableOf 256 full_luma table.now }
    requires out_len { (length out.old ≡ length y.now) × (largest y.now ≤ 255) }
    ensures { out.new ≡ map full_luma y.now }
{
    for (i, sample) in out.iter_mut().enumerate() {
        *sample = table[usize::from(y[i])];
    }
}
