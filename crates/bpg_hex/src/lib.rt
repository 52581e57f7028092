// Hex digits: lines of them, read character by character into a buffer of bytes, and the digits of a byte.
#![tactic(auto)]

ghost use Rattle.std.specs.Prelude.{◌≡◌, ◌<◌, IfSome, length as count};
ghost use Rattle.bpg_hex.specs.declared.line.Pending.TheVariants.{Nothing};
ghost use Rattle.bpg_hex.specs.HexLines.{digit_value, count_after, pending_after, bytes_after, digit_of, digits_of};

mod line;

pub use line::HexLine;
use line::Pending;

// A line of which nothing has been read.
pub fn none() -> HexLine
    ensures count { result.count ≡ 0 }
    ensures pending { result.pending ≡ Nothing }
{
    HexLine {
        count: 0,
        pending: Pending::Nothing,
    }
}

// A digit's value.
#[tactic(auto, unfolding(crate::specs::HexLines::digit_value, bpg_codec::specs::Select::select))]
fn digit(c: u8) -> Option<u8>
    ensures below_16 { IfSome result (λ d. d < 16) }
    ensures value { result ≡ digit_value c }
{
    match c {
        b'0'..=b'9' => Some(c - b'0'),
        b'a'..=b'f' => Some(c - 87),
        _ => None,
    }
}

// Takes one more character of a line, whose bytes are put into a buffer. What is not a digit is passed over, and so is a comment
// from `#` on, and what does not fit.
#[tactic(auto, unfolding(crate::specs::HexLines::after_character, bpg_codec::specs::Select::select))]
pub fn extend(bytes: &mut [u8], line: HexLine, c: u8) -> HexLine
    ensures count { result.count ≡ count_after (count bytes.old) line.count line.pending c }
    ensures pending { result.pending ≡ pending_after (count bytes.old) line.count line.pending c }
    ensures bytes_after { bytes.new ≡ bytes_after bytes.old line.count line.pending c }
{
    let count = line.count;
    if c == b'#' {
        return HexLine {
            count,
            pending: Pending::Comment,
        };
    }
    let Some(d) = digit(c) else {
        return line;
    };
    match line.pending {
        Pending::Comment => line,
        Pending::Nothing => HexLine {
            count,
            pending: Pending::Digit(d),
        },
        Pending::Digit(high) => {
            if bytes.len() <= count {
                return line;
            }
            bytes[count] = high * 16 + d;
            HexLine {
                count: count + 1,
                pending: Pending::Nothing,
            }
        }
    }
}

// The digit of a number below 16.
#[tactic(auto, unfolding(bpg_codec::specs::Select::select))]
fn glyph(n: u8) -> u8
    requires { n < 16 }
    ensures { result ≡ digit_of n }
{
    if n < 10 { b'0' + n } else { 87 + n }
}

// The two digits of a byte.
pub fn digits(byte: u8) -> [u8; 2]
    ensures { result ≡ digits_of byte }
{
    [glyph(byte / 16), glyph(byte % 16)]
}
