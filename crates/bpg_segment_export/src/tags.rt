// The entry of a record that has a tag.
ghost use Rattle.std.specs.Prelude.{◌≡◌};
ghost use Rattle.bpg_format.specs.Records.{used_entries};
ghost use Rattle.bpg_segment_export.specs.Steps.{only_in};

use bpg_format::{Range, Record};
use bpg_record_entries::used;

// Where the payload of the entry with this tag lies; none where the tag stands twice. An absent one is the empty range at 0.
pub(crate) fn with_tag(record: &Record, tag: u32) -> Option<Range>
    ensures { result ≡ only_in tag (used_entries «record».now) }
{
    let used = used::entries(record);
    let mut found: Option<Range> = None;
    for entry in used {
        if entry.tag == tag {
            if found.is_some() {
                return None;
            }
            found = Some(entry.payload);
        }
    }
    Some(found.unwrap_or(Range {
        start: 0,
        length: 0,
    }))
}
