// How long the parts of a run are.
ghost use Rattle.std.specs.Prelude.{◌≡◌, ◌+◌, ◌*◌, ◌/◌, ◌≤◌};
ghost use Rattle.bpg_segment_writer.specs.Sizes.{is_within, part_size, profile_size, run_size};

use crate::emit::CHUNK_SIZE;

// Refusal 34: EXIF and XMP have one segment each, and a profile at most 255 chunks.
pub(crate) fn within_limits(exif: usize, xmp: usize, icc: usize) -> bool
    ensures { result ≡ is_within exif xmp icc }
{
    (exif <= 65_527) & ((xmp <= 65_504) & (icc <= 16_707_345))
}

// A payload in one segment; an empty one has none.
fn part(prefix: usize, size: usize) -> usize
    requires prefix_bound { prefix ≤ 65533 }
    requires size_bound { size ≤ 65533 }
    ensures { (result ≡ part_size prefix size) × (result ≤ 131070) }
{
    if size == 0 { 0 } else { 4 + prefix + size }
}

// How many chunks a profile of this length has.
pub(crate) fn chunk_count(size: usize) -> usize
    ensures { result ≡ (size + 65518) / 65519 }
{
    size.div_ceil(CHUNK_SIZE)
}

fn profile(size: usize) -> usize
    requires { size ≤ 16707345 }
    ensures { (result ≡ profile_size size) × (result ≤ 16800000) }
{
    size + chunk_count(size) * 18
}

pub(crate) fn run(exif: usize, xmp: usize, icc: usize) -> usize
    requires exif_bound { exif ≤ 65527 }
    requires xmp_bound { xmp ≤ 65504 }
    requires icc_bound { icc ≤ 16707345 }
    ensures { result ≡ run_size exif xmp icc }
{
    part(6, exif) + part(29, xmp) + profile(icc)
}
