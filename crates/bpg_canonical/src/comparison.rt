// Whether two files show the same picture, by their canonical forms.
ghost use Rattle.std.specs.Prelude.{◌≡◌, ◌≤◌, length};
ghost use Rattle.bpg_format.specs.Pictures.{canonical_buffer};
ghost use Rattle.bpg_canonical.specs.Comparisons.{same_forms, comparison_of, Compares};

use crate::file::canonicalize;
use bpg_format::Written;

// What canonicalizing answers for each of two files, and whether they show the same picture: false where one is refused, or its
// buffer too small, even if the pictures are the same.
#[derive(Clone, Copy)]
pub struct Comparison {
    pub first: Written,
    pub second: Written,
    pub same: bool,
}

// Whether both were written, and the same bytes.
fn same_forms(one: Written, first: &[u8], other: Written, second: &[u8]) -> bool
    requires count_in_bounds { one.count ≤ length first.now }
    requires count_in_bounds_2 { other.count ≤ length second.now }
    ensures { result ≡ same_forms one first.now other second.now }
{
    if one.status != 0 {
        return false;
    }
    if other.status != 0 {
        return false;
    }
    first[..one.count] == second[..other.count]
}

// Canonicalizes each file into its own buffer, and compares what was written.
pub fn same_picture(
    first: &[u8],
    second: &[u8],
    first_out: &mut [u8],
    second_out: &mut [u8],
) -> Comparison
    ensures value { result ≡ comparison_of first.now second.now first_out.old second_out.old }
    ensures first_out_after { first_out.new ≡ canonical_buffer first.now first_out.old }
    ensures second_out_after { second_out.new ≡ canonical_buffer second.now second_out.old }
    ensures compares { Compares first.now second.now first_out.old second_out.old result first_out.new second_out.new }
{
    let one = canonicalize(first, first_out);
    let other = canonicalize(second, second_out);
    let same = same_forms(one, first_out, other, second_out);
    Comparison {
        first: one,
        second: other,
        same,
    }
}
