// The entries of a record: those in use, and those that are not.
ghost use Rattle.std.specs.Prelude.{◌≡◌, List, map, ℕ};
ghost use Rattle.bpg_format.specs.Rules.{has_animation};
ghost use Rattle.bpg_format.specs.Records.{extension_of, used_entries};
ghost use Rattle.bpg_format.specs.Write.{is_zero, unused_zero};

use bpg_format::{Entry, Record};

// The entries in use: no more than there are, whatever the record's count says. They are lent, and not copied.
pub fn entries(record: &Record) -> &[Entry]
    ensures { result.now ≡ used_entries «record».now }
{
    let all = record.entries.as_slice();
    &all[..(record.entry_count as usize).min(all.len())]
}

// The tag's offset is not looked at, so this is no `==`.
fn is_zero(entry: &Entry) -> bool
    ensures { result ≡ is_zero entry.now }
{
    (entry.tag == 0) & ((entry.payload.start == 0) & (entry.payload.length == 0))
}

// Refusal 19: the entries that are not in use are zero.
pub fn unused_zero(record: &Record) -> bool
    ensures { result ≡ unused_zero «record».now }
{
    let entries = record.entries.as_slice();
    entries
        .iter()
        .skip(record.entry_count as usize)
        .all(is_zero)
}

// An entry with tag 5 is in use. No byte of a source matters to it.
pub fn has_control(record: &Record) -> bool
    ensures { (source : List ℕ) → result ≡ has_animation (map (extension_of source) (used_entries «record».now)) }
{
    entries(record).iter().any(|entry| entry.tag == 5)
}
