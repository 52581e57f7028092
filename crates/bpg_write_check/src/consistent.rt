// Refusal 19: the presence flags of a record fit its fields.
ghost use Rattle.std.specs.Prelude.{◌≡◌, List, ℕ};
ghost use Rattle.bpg_format.specs.Records.{content_of};
ghost use Rattle.bpg_format.specs.Write.{consistent as is_consistent};

use crate::entries;
use bpg_format::{Record, has_alpha};
use bpg_read_animation::animation;
use bpg_record_entries::used;
use bpg_write_rules::absent;

// No entries without the extension flag; no loop numbers without an entry with tag 5; no alpha header without alpha; in each header, what a
// flag leaves out is zero.
pub(crate) fn all(record: &Record) -> bool
    ensures { (source : List ℕ) → result ≡ is_consistent (content_of «record».now source) }
{
    let alpha = record.headers[0];
    let color = record.headers[1];
    let none = animation::none();
    let block = record.extension_present_flag | (record.entry_count == 0);
    let control = used::has_control(record) | entries::same_loop(record, none);
    let plane = has_alpha(record.alpha1_flag, record.alpha2_flag) | absent::header_zero(alpha);
    block & (control & (plane & (absent::absent_zero(alpha) & absent::absent_zero(color))))
}
