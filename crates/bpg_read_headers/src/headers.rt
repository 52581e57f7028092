// The HEVC headers of a file: the alpha plane's where it has one, then the colour's.
ghost use Rattle.std.specs.Prelude.{◌≡◌};
ghost use Rattle.bpg_codec.specs.Outcome.{located};
ghost use Rattle.bpg_refusal.specs.Outcomes.{outcome};
ghost use Rattle.bpg_read_headers.specs.Headers.{header_at};
ghost use Rattle.bpg_read_headers.specs.BothHeaders.{alpha_in, headers_at, headers_in};

use crate::header;
use bpg_bytes::{BytePos, Located};
use bpg_format::Header;
use bpg_refusal::Refusal;

// The two headers; the alpha plane's is zero where there is none, and no Option, as the record has it.
#[derive(Clone, Copy)]
pub struct Headers {
    pub alpha: Header,
    pub color: Header,
}

// The alpha plane's header, or zeros if the file has none.
fn alpha_header(
    file: &[u8],
    at: BytePos,
    present: bool,
    depth: u8,
) -> Result<Located<Header>, Refusal>
    ensures { outcome header_at result ≡ located (alpha_in file.now present depth at.0) }
{
    if present {
        return header::read(file, at, depth);
    }
    Ok(Located {
        value: Header::default(),
        next: at,
    })
}

// The headers from `at` on, and the offset after them; `depth` is the file's bit depth. A file that is too long is refused.
pub fn read(file: &[u8], at: BytePos, alpha: bool, depth: u8) -> Result<Located<Headers>, Refusal>
    ensures { outcome headers_at result ≡ headers_in file.now alpha depth at.0 }
{
    let first = alpha_header(file, at, alpha, depth)?;
    let second = header::read(file, first.next, depth)?;
    Ok(Located {
        value: Headers {
            alpha: first.value,
            color: second.value,
        },
        next: second.next,
    })
}
