// A line of text, gathered part by part.
ghost use Rattle.std.specs.Prelude.{◌≡◌, [], ◌≤◌, take};
ghost use Rattle.bpg_codec.specs.Buffer.{written, written_end};
ghost use Rattle.bpg_show_line.specs.Text.{decimal};
ghost use Rattle.bpg_show_line.specs.LineBuffer.{line_size, holding, appended};

use bpg_bytes::{BytePos, buffer};

// More than the longest line takes.
const LINE_SIZE: usize = 160;

// A fixed array and how much of it is in use: a line takes no heap.
#[derive(Clone, Copy)]
pub struct LineBuffer {
    bytes: [u8; LINE_SIZE],
    len: usize,
}

impl LineBuffer {
    pub fn new() -> LineBuffer
        ensures { result ≡ holding [] }
    {
        LineBuffer {
            bytes: [0; LINE_SIZE],
            len: 0,
        }
    }

    // Appends the text; text that does not fit leaves the buffer as it is.
    pub fn append(&mut self, text: &[u8])
        ensures { self.new ≡ appended self.old text.now }
    {
        self.len = buffer::write(&mut self.bytes, BytePos(self.len), text).0;
    }

    // Appends v in decimal. The digits are filled in from the last one back: a number of 64 bits has at most 20.
    pub fn append_decimal(&mut self, v: u64)
        ensures { self.new ≡ appended self.old (decimal v) }
    {
        let mut digits = [0u8; 20];
        let mut next: usize = 19;
        let mut left = v / 10;
        digits[19] = (48 + v % 10) as u8;
        // A `while`: how many digits there are shows only as they are divided off.
        while 0 < left {
            next -= 1;
            digits[next] = (48 + left % 10) as u8;
            left /= 10;
        }
        self.append(&digits[next..]);
    }

    // Appends a label and a number.
    pub fn append_labelled(&mut self, label: &[u8], v: u64)
        ensures { self.new ≡ appended (appended self.old label.now) (decimal v) }
    {
        self.append(label);
        self.append_decimal(v);
    }

    // Writes the line into `out` and answers its length; where it does not fit, nothing is written and the answer is 0.
    pub(crate) fn write(&self, out: &mut [u8]) -> usize
        requires { self.now.len ≤ line_size }
        ensures out_after { out.new ≡ written out.old 0 (take self.now.len self.now.bytes) }
        ensures value { result ≡ written_end out.old 0 (take self.now.len self.now.bytes) }
    {
        buffer::write(out, BytePos(0), &self.bytes[..self.len]).0
    }
}
