// The writer's refusals but for those of size: 11, 18, 19, then the rules in file order.
ghost use Rattle.std.specs.Prelude.{◌≡◌};
ghost use Rattle.bpg_refusal.specs.Outcomes.{outcome_at_zero};
ghost use Rattle.bpg_format.specs.Write.{check_record};

use crate::{consistent, content};
use bpg_format::{MAX_ENTRIES, Record};
use bpg_record_entries::{ranges, used};
use bpg_refusal::Reason;

// Whether the record, whose ranges are in `source`, may be written.
pub fn record(record: &Record, source: &[u8]) -> Result<(), Reason>
    ensures { outcome_at_zero result ≡ check_record «record».now source.now }
{
    if MAX_ENTRIES < record.entry_count as usize {
        return Err(Reason::TooManyEntries);
    }
    if !ranges::all_in(record, source) {
        return Err(Reason::RangeOutside);
    }
    if !used::unused_zero(record) {
        return Err(Reason::Inconsistent);
    }
    if !consistent::all(record) {
        return Err(Reason::Inconsistent);
    }
    content::check(record, source)
}
