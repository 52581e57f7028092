// What the call answers.
ghost use Rattle.std.specs.Prelude.{◌≡◌};
ghost use Rattle.bpg_refusal.specs.Numbers.{reason_number};
ghost use Rattle.bpg_partition.specs.Partitions.{refused_partition};

use bpg_refusal::Refusal;

// Status and offset as `read` answers them, and five counts of bytes, which add up to the file's length; zeros where the file is refused.
// No result: C is handed the same fields, and the theorem `NoPartition` says that a refusal leaves zeros in them.
#[derive(Clone, Copy, Default)]
pub struct Partition {
    pub status: u8,
    pub offset: usize,
    // up to the extension length, and with it
    pub head: usize,
    // tags and lengths
    pub entry_heads: usize,
    pub payloads: usize,
    // HEVC headers with their lengths
    pub headers: usize,
    pub data: usize,
}

impl Partition {
    pub(crate) fn refused(refusal: Refusal) -> Partition
        ensures { result ≡ refused_partition (reason_number refusal.reason) refusal.offset.0 }
    {
        Partition {
            status: refusal.reason.number(),
            offset: refusal.offset.0,
            ..Partition::default()
        }
    }
}
