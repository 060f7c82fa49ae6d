// The reader of digits by itself, for the bench to measure (crate gauge_c), beside the one before it. In the archive that users link,
// fields that may have more than three digits call one function of it, and the others have its loop in them; this crate is not in that
// archive.
#![tactic(auto)]

ghost use Rattle.std.specs.Prelude.{◌≡◌};
ghost use Rattle.digits.specs.Digits.{digits_of};
ghost use Rattle.gauge.specs.Gauge.{gauge_of};

// The widest that the reader takes.
const WIDTH: usize = 18;
// Above every number of 18 digits.
const NONE: u64 = u64::MAX;

// The number that 1 to 18 digits write, or NONE where they are none.
#[tactic(auto, unfolding(crate::specs::Gauge::gauge_of))]
pub fn selkavorn_gauge_digits(text: &[u8]) -> u64
    ensures { result ≡ gauge_of text.now }
{
    digits::digits(text, WIDTH).unwrap_or(NONE)
}

// 1 to width digits as `digits::digits` read them before document 02's K3: one a turn. Its loop is a `for` today.
fn by_one(text: &[u8], width: usize) -> Option<u64>
    ensures { result ≡ digits_of width text.now }
{
    let n = text.len();
    if n == 0 || width < n || WIDTH < width {
        return None;
    }
    let mut v = 0;
    for b in text {
        if *b < b'0' || b'9' < *b {
            return None;
        }
        v = v * 10 + u64::from(*b - b'0');
    }
    Some(v)
}

// The same number, read so: what the reader is held to.
#[tactic(auto, unfolding(crate::specs::Gauge::gauge_of))]
pub fn selkavorn_gauge_by_one(text: &[u8]) -> u64
    ensures { result ≡ gauge_of text.now }
{
    by_one(text, WIDTH).unwrap_or(NONE)
}
