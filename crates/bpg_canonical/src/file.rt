// Canonicalizing a file: read, a record with the canonical choices, written or measured over the file's own bytes.
ghost use Rattle.std.specs.Prelude.{◌≡◌};
ghost use Rattle.bpg_format.specs.Zero.{refused_written};
ghost use Rattle.bpg_format.specs.Pictures.{canonical_file, canonical_buffer, canonical_size};

use bpg_format::{Reading, Written};

// The answer for a file that the reader refuses: its refusal, handed on as numbers, which is how a `Reading` has it.
fn refused(reading: &Reading) -> Written
    ensures { result ≡ refused_written reading.now.status reading.now.offset }
{
    Written {
        status: reading.status,
        offset: reading.offset,
        count: 0,
    }
}

// Writes the canonical form of a file from the start of `out`; a refusal leaves `out` as it is.
pub fn canonicalize(file: &[u8], out: &mut [u8]) -> Written
    ensures value { result ≡ canonical_file file.now out.old }
    ensures out_after { out.new ≡ canonical_buffer file.now out.old }
{
    let reading = bpg_reader::read(file);
    if reading.status != 0 {
        return refused(&reading);
    }
    let canonical = bpg_canonical_record::canonical(reading.record);
    bpg_writer::write(canonical, file, out)
}

// What `canonicalize` answers to a buffer that is large enough: how large it must be, or the refusal. Never 20.
pub fn size(file: &[u8]) -> Written
    ensures { result ≡ canonical_size file.now }
{
    let found = bpg_reader::read(file);
    if found.status != 0 {
        return refused(&found);
    }
    let canonical = bpg_canonical_record::canonical(found.record);
    bpg_writer::size(canonical, file)
}
