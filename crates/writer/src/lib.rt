// A book written as a snapshot message (document 01, "Quote and writing"). A dry run of the same body over no bytes gives
// the length, so that 9 and the refusal 25 are known before anything is written.
#![tactic(auto)]

ghost use Rattle.std.specs.Prelude.{◌≡◌, ◌^◌, ◌≤◌, ◌<◌};
ghost use Rattle.text.specs.Text.{Wrote};
ghost use Rattle.orderid.specs.OrderIds.{is_id};
ghost use Rattle.chain.specs.Bytes.{bytes_of};
ghost use Rattle.writer.specs.Writing.{written_of, out_after, opening_fields};
ghost use Rattle.writer.specs.Results.{page_in, written_in};

use pen::{Bytes, Fixed, Number};
use snapshot::{Letter, Sheet};

// The output is too short for the message: answer 25.
#[derive(Clone, Copy, Debug, PartialEq, Eq)]
pub struct TooShort;

// The bytes of 8, 9 and 10, but for 9's digits.
const FRAME_BYTES: usize = 20;

// Whether bytes are a sender or a target: 1 to 16 bytes as in 37.
pub fn id_bytes(text: &[u8]) -> bool
    ensures { result ≡ is_id text.now }
{
    orderid::read(text).is_some()
}

// 8, and 9 with a length.
fn opening(out: &mut [u8], n: u64) -> usize
    requires { n < 10 ^ 18 }
    ensures { Wrote out.old 0 (bytes_of (opening_fields n)) out.new result × (result ≤ 100) }
{
    let a = pen::field(out, 0, 8, Bytes(b"FIX.4.4"));
    pen::field(out, a, 9, Number(n))
}

// The snapshot of a book at the start of out, with later bytes unchanged, and its length; or out as it was, where it is too short.
pub fn write_page(out: &mut [u8], letter: &Letter<'_>, sheet: &Sheet<'_>) -> Result<usize, TooShort>
    ensures value { written_in result ≡ written_of (page_in letter.now sheet.now) out.old }
    ensures out_after { out.new ≡ out_after (page_in letter.now sheet.now) out.old }
{
    let n = snapshot::body(&mut [], 0, letter, sheet);
    let w = text::width(n as u64);
    if out.len() < n + w + FRAME_BYTES {
        return Err(TooShort);
    }
    let a = opening(out, n as u64);
    let b = snapshot::body(out, a, letter, sheet);
    let sum = Fixed {
        width: 3,
        number: u64::from(frame::sum(out, b)),
    };
    Ok(pen::field(out, b, 10, sum))
}
