// Why a file, a record or a call's arguments are refused: the reason, and the place that it is reported at.
#![tactic(auto)]

ghost use Rattle.std.specs.Prelude.{◌≡◌};
ghost use Rattle.bpg_refusal.specs.Numbers.{reason_number};

use bpg_bytes::BytePos;

/// The reason of a refusal. Its discriminant is the refusal's number in docs/FORMAT.md.
#[derive(Clone, Copy, Debug, PartialEq, Eq, Hash)]
pub enum Reason {
    /// 1: the file has more than 16,777,216 bytes.
    FileTooLong = 1,
    /// 2: an item does not fit the file, block, payload or data region.
    Truncated = 2,
    /// 3: the magic is not that of a BPG file.
    Magic = 3,
    /// 4: the pixel format is above 5.
    BadPixelFormat = 4,
    /// 5: the bit depth is above 14.
    BadBitDepth = 5,
    /// 6: the color space is above 4, or not 0 in a grayscale picture.
    BadColorSpace = 6,
    /// 7: an integer is not in its shortest form.
    NumberNotShortest = 7,
    /// 8: an integer is too large.
    NumberTooLarge = 8,
    /// 9: the width or height is 0.
    EmptyPicture = 9,
    /// 10: the picture data length misses the end of the file.
    BadDataLength = 10,
    /// 11: there are more than 64 extension entries.
    TooManyEntries = 11,
    /// 12: a number of the frame period is 0.
    ZeroPeriod = 12,
    /// 13: there is a second animation control entry.
    SecondLoop = 13,
    /// 14: an animation has no animation control entry.
    NoLoop = 14,
    /// 15: the fields and the length of a HEVC header disagree, a trailing bit is 1, or a field is too large.
    BadHeader = 15,
    /// 16: a HEVC header breaks a rule on sizes or depths.
    HevcRule = 16,
    /// 17: a HEVC header sets a forbidden extension bit or range flag.
    ForbiddenBit = 17,
    /// 18: a range of the record lies outside the source.
    RangeOutside = 18,
    /// 19: an absent field of the record is not zero, its fields contradict each other, or a field cannot hold its number.
    Inconsistent = 19,
    /// 20: the buffer or list is too small.
    BufferTooSmall = 20,
    /// 21: the head is not that of this file.
    OtherHead = 21,
    /// 22: a NAL unit is too short, or its header, emulation prevention or SEI messages are wrong.
    BadNalUnit = 22,
    /// 23: a NAL unit has a layer above 1, layer 1 without alpha, or is a VPS or SPS.
    BadNalLayer = 23,
    /// 24: a frame duration is 0, is the second for its frame, or has no frame after it.
    BadDuration = 24,
    /// 25: a still file has not exactly one frame, or an animated one fewer than two.
    BadFrameCount = 25,
    /// 26: the HEVC data is empty or begins with a start code.
    BadDataStart = 26,
    /// 27: a thumbnail stands at level 5.
    DeepThumbnail = 27,
    /// 28: a thumbnail is itself refused.
    BadThumbnail = 28,
    /// 29: a thumbnail is wider or taller than its parent, or of its size.
    LargeThumbnail = 29,
    /// 30: the lengths do not add up to the buffer, or the lists differ in length.
    BadBatch = 30,
    /// 31: the planes and buffers of samples differ in length.
    UnequalLengths = 31,
    /// 32: the depth of the samples is not 8 to 14.
    BadSampleDepth = 32,
    /// 33: a sample is above the largest of its depth.
    SampleTooLarge = 33,
    /// 34: a payload is too long for JPEG segments.
    PayloadTooLong = 34,
    /// 35: an EXIF, XMP or ICC profile entry stands twice.
    TagTwice = 35,
    /// 36: the run is not one of EXIF, XMP and ICC segments as export makes it.
    BadSegments = 36,
    /// 37: a loop has no frame or more than 256, a duration of 0, or a frame period number of 0.
    Unplayable = 37,
}

impl Reason {
    /// The refusal's number.
    pub fn number(self) -> u8
        ensures { result ≡ reason_number self }
    {
        self as u8
    }

    /// The refusal for this reason, reported at `offset`.
    pub fn at(self, offset: BytePos) -> Refusal
        ensures { result ≡ record { reason = self; offset = offset } }
    {
        Refusal {
            reason: self,
            offset,
        }
    }
}

/// A refusal: its reason, and the offset that it is reported at.
#[derive(Clone, Copy)]
pub struct Refusal {
    pub reason: Reason,
    pub offset: BytePos,
}
