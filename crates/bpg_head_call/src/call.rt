// The head of a file for callers that go by it alone (request 9/13): the list view fetches 27 bytes.
ghost use Rattle.std.specs.Prelude.{◌≡◌};
ghost use Rattle.bpg_head_rules.specs.Calls.{fields_of, head_numbers, is_head, head_file};

pub use bpg_head_rules::{CodedHead, HeadReading};
use bpg_read_head::head;
use bpg_read_head::head::Head;

// How many fields a head has.
pub const HEAD_NUMBERS: usize = 12;

// A head without the places that later refusals name. (A function and no method, as the next two are: the type is of the crate below.)
pub fn coded(head: Head) -> CodedHead
    ensures { result ≡ fields_of head }
{
    let flags = head.flags;
    CodedHead {
        flags,
        picture_width: head.picture_width,
        picture_height: head.picture_height,
        data_length: head.data_length,
        extension_length: head.extension_length,
    }
}

// The fields as numbers, in the order of the file; a flag is 1 or 0.
pub fn head_numbers(head: CodedHead) -> [u64; HEAD_NUMBERS]
    ensures { result ≡ head_numbers head }
{
    let flags = head.flags;
    [
        u64::from(flags.pixel_format),
        u64::from(flags.alpha1_flag),
        u64::from(flags.bit_depth_minus_8),
        u64::from(flags.color_space),
        u64::from(flags.extension_present_flag),
        u64::from(flags.alpha2_flag),
        u64::from(flags.limited_range_flag),
        u64::from(flags.animation_flag),
        u64::from(head.picture_width),
        u64::from(head.picture_height),
        u64::from(head.data_length),
        u64::from(head.extension_length),
    ]
}

// Whether a list begins with the numbers of this head: no field differs. What stands after them is not looked at.
pub fn is_head(list: &[u64], head: CodedHead) -> bool
    ensures { result ≡ is_head list.now head }
{
    list.starts_with(&head_numbers(head))
}

// The head of a file. Its first 27 bytes are always enough, and so is all of a shorter file; whether the block fits the file is not judged.
pub fn head(file: &[u8]) -> HeadReading
    ensures { result ≡ head_file file.now }
{
    match head::read(file) {
        Ok(head) => HeadReading {
            status: 0,
            offset: 0,
            head: coded(head),
        },
        Err(refusal) => HeadReading::refused(refusal),
    }
}
