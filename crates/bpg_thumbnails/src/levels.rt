// The levels: the check of a file goes over its entries, and the check of an entry with tag 4 enters its payload, which is again a
// file. The levels left fall by one at each entering.
ghost use Rattle.std.specs.Prelude.{◌≡◌};
ghost use Rattle.bpg_refusal.specs.Outcomes.{outcome};
ghost use Rattle.bpg_thumbnails.specs.Thumbnails.{size_of, is_smaller, check_entries};
ghost use Rattle.bpg_thumbnails.specs.Answers.{check_entry, FileAt, EntryAt};

use bpg_bytes::BytePos;
use bpg_format::{Entry, Record};
use bpg_reader::read;
use bpg_refusal::{Reason, Refusal};

// The outer file is level 1, and level 5 is not entered: levels 2, 3 and 4.
pub(crate) const LEVELS_BELOW: u8 = 3;

// Width and height of a picture.
#[derive(Clone, Copy)]
struct Size {
    width: u32,
    height: u32,
}

impl Size {
    fn of(record: &Record) -> Size
        ensures { result ≡ size_of «record».now }
    {
        Size {
            width: record.picture_width,
            height: record.picture_height,
        }
    }

    // Refusal 29: neither wider nor taller than its parent, and not of its size.
    fn is_smaller(self, parent: Size) -> bool
        ensures { result ≡ is_smaller self parent }
    {
        self.width <= parent.width
            && self.height <= parent.height
            && !(self.width == parent.width && self.height == parent.height)
    }
}

// The entries of an accepted file, which stands at `start` in the outer file and has this record. `left` levels may be entered below it.
#[cycle(check_entry_check_file)]
pub(crate) fn check_file(
    file: &[u8],
    record: &Record,
    start: usize,
    left: u8,
) -> Result<(), Refusal>
    requires { FileAt file.now «record».now start }
    ensures { outcome (λ u. u) result ≡ check_entries left file.now start }
{
    let size = Size::of(record);
    let used = &record.entries[..record.entry_count as usize];
    for entry in used {
        check_entry(file, entry, size, start, left)?;
    }
    Ok(())
}

// An entry of a file of this size: a thumbnail is judged before its own entries are.
#[cycle(check_entry_check_file)]
fn check_entry(
    file: &[u8],
    entry: &Entry,
    parent: Size,
    start: usize,
    left: u8,
) -> Result<(), Refusal>
    requires { EntryAt file.now entry.now parent start }
    ensures { outcome (λ u. u) result ≡ check_entry left file.now start entry.now }
{
    if entry.tag != 4 {
        return Ok(());
    }
    let payload = entry.payload.start as usize;
    let offset = start + payload;
    let Some(below) = left.checked_sub(1) else {
        return Err(Reason::DeepThumbnail.at(BytePos(offset)));
    };
    let thumbnail = &file[payload..payload + entry.payload.length as usize];
    let reading = read(thumbnail);
    if reading.status != 0 {
        return Err(Reason::BadThumbnail.at(BytePos(offset)));
    }
    if !Size::of(&reading.record).is_smaller(parent) {
        return Err(Reason::LargeThumbnail.at(BytePos(offset)));
    }
    check_file(thumbnail, &reading.record, offset, below)
}
