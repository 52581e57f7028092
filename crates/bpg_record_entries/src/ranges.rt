// Refusal 18: the ranges of a record lie in its source.
ghost use Rattle.std.specs.Prelude.{◌≡◌};
ghost use Rattle.bpg_format.specs.Records.{used_entries};
ghost use Rattle.bpg_format.specs.Write.{in_source, entries_in_source, ranges_in_source};

use crate::used;
use bpg_format::{Range, Record};

fn is_in(range: Range, source: &[u8]) -> bool
    ensures { result ≡ in_source source.now range }
{
    let end = range.start as usize + range.length as usize;
    end <= source.len()
}

// The payloads of the entries in use.
fn payloads_in(record: &Record, source: &[u8]) -> bool
    ensures { result ≡ entries_in_source source.now (used_entries «record».now) }
{
    used::entries(record)
        .iter()
        .all(|entry| is_in(entry.payload, source))
}

#[tactic(auto, unfolding(bpg_format::specs::Write::ranges_in_source))]
pub fn all_in(record: &Record, source: &[u8]) -> bool
    ensures { result ≡ ranges_in_source source.now «record».now }
{
    payloads_in(record, source) & is_in(record.data, source)
}
