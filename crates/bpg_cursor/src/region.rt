// The region of a file that a cursor keeps.
ghost use Rattle.std.specs.Prelude.{◌≡◌, take};

use bpg_bytes::BytePos;

// The file up to an offset, as a part of the caller's slice: offsets in it are the file's own. All of the file where the offset
// is past its end.
pub fn region_to(file: &[u8], end: BytePos) -> &[u8]
    ensures result_value { result.now ≡ take end.0 file.now }
    ensures ref_ptr_value { result.ref_ptr ≡ file.entry.ref_ptr }
{
    let end = end.0.min(file.len());
    &file[..end]
}
