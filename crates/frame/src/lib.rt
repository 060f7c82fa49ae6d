// The frame of a message (document 01, "Frame"): tags 8, 9, 35 and 10, the sum, and the type. Nothing is copied: an answer
// holds places in the lent bytes.
#![tactic(auto)]

ghost use Rattle.std.specs.Prelude.{◌≡◌, ◌%◌, ◌<◌, ◌≤◌, length, take};
ghost use Rattle.chain.specs.Places.{field_at};
ghost use Rattle.frame.specs.Frames.{equal, total, is_type, typed, frame_of};
ghost use Rattle.frame.specs.ByPlace.{tagged, preamble, head_of, trailer_of, parts_of, judged, outline_of};

use chain::Step;

// The type, and the place of the first field after 35; the trailer starts 7 bytes before the end.
// Kept: the type is its byte and no enum, since `lead::typed` answers for every byte, as `lead_of` says.
#[derive(Clone, Copy)]
pub struct Framed {
    pub kind: u8,
    pub from: usize,
}

// Why a message has no frame.
#[derive(Clone, Copy, PartialEq, Eq)]
pub enum FrameError {
    // 11: no chain of fields in their order, or 9 or 10 is no number
    BadFrame,
    // 12: 10 says another sum
    BadSum,
    // 13: the type is none of ours
    BadType,
}

// What 9 says, where 35 starts, and its value as from..to.
#[derive(Clone, Copy)]
struct Opening {
    count: u64,
    at: usize,
    from: usize,
    to: usize,
}

// The value of 35 as from..to, and what 10 says.
#[derive(Clone, Copy)]
struct Shape {
    from: usize,
    to: usize,
    sum: u64,
}

const SOH: u8 = 1;

const MOST_BYTES: usize = 8192;
// 8=FIX.4.4 and its SOH
pub const BEGIN_BYTES: usize = 10;
// 10=, three digits and SOH
pub const TRAILER_BYTES: usize = 7;

// The sum of the bytes before a place, wrapped at 256.
#[tactic(auto, using(crate::proofs::Scan::one_more))]
pub fn sum(s: &[u8], end: usize) -> u8
    ensures { result ≡ total (take end s.now) % 256 }
{
    let mut v = 0u8;
    for b in &s[..end.min(s.len())] {
        v = v.wrapping_add(*b);
    }
    v
}

// Whether two runs of bytes are the same.
pub fn same(a: &[u8], b: &[u8]) -> bool
    ensures { result ≡ equal a.now b.now }
{
    a == b
}

// The field that starts at a place, if it has this tag.
pub fn field_of(s: &[u8], at: usize, tag: u64) -> Option<Step>
    ensures { result ≡ tagged tag (field_at s.now at) }
{
    chain::field(s, at).filter(|f| f.tag == tag)
}

// Whether 8=FIX.4.4 stands first.
pub fn begins(s: &[u8]) -> bool
    ensures { result ≡ equal (take 10 s.now) preamble }
{
    s.first_chunk() == Some(b"8=FIX.4.4\x01")
}

// 8, then 9, then 35.
#[tactic(auto, unfolding(crate::specs::ByPlace::head_of))]
fn head(s: &[u8]) -> Option<Opening>
    ensures { result ≡ head_of s.now }
{
    if !begins(s) {
        return None;
    }
    let nine = field_of(s, BEGIN_BYTES, 9)?;
    let count = digits::whole(&s[nine.from..nine.to], 5)?;
    let at = nine.to + 1;
    let Step { tag: _, from, to } = field_of(s, at, 35)?;
    Some(Opening {
        count,
        at,
        from,
        to,
    })
}

// What 10 says, where these bytes are the trailer.
#[tactic(auto, unfolding(crate::specs::ByPlace::trailer_of))]
fn trailer(t: &[u8]) -> Option<u64>
    ensures { result ≡ trailer_of t.now }
{
    if t.len() != TRAILER_BYTES || !t.starts_with(b"10=") || t[6] != SOH {
        return None;
    }
    digits::digits(&t[3..6], 3)
}

// All that is 11 where it is broken, but for the chain of the fields after 35.
#[tactic(auto, unfolding(crate::specs::ByPlace::parts_of))]
fn parts(s: &[u8]) -> Option<Shape>
    ensures { result ≡ parts_of s.now }
{
    let n = s.len();
    if MOST_BYTES < n {
        return None;
    }
    let Opening {
        count,
        at,
        from,
        to,
    } = head(s)?;
    if at + count as usize + TRAILER_BYTES != n {
        return None;
    }
    let end = n - TRAILER_BYTES;
    if end < to + 1 {
        return None;
    }
    let sum = trailer(&s[end..])?;
    Some(Shape { from, to, sum })
}

// Whether a byte is one of the types.
fn is_type(k: u8) -> bool
    ensures { result ≡ is_type k }
{
    matches!(k, b'X' | b'W' | b'0' | b'f' | b'y' | b'B')
}

// The type that the value of 35 says; the fields after it start at from.
fn kind(text: &[u8], from: usize) -> Result<Framed, FrameError>
    ensures { result ≡ typed text.now from }
{
    match text {
        [kind] if is_type(*kind) => Ok(Framed { kind: *kind, from }),
        _ => Err(FrameError::BadType),
    }
}

// The sum and the type of a message of a shape: 12 first, then 13.
fn judge(s: &[u8], from: usize, to: usize, given: u64) -> Result<Framed, FrameError>
    requires { (7 ≤ length s.now) × ((from ≤ to) × (to < length s.now)) }
    ensures { result ≡ judged s.now from to given }
{
    let end = s.len() - TRAILER_BYTES;
    if u64::from(sum(s, end)) != given {
        return Err(FrameError::BadSum);
    }
    kind(&s[from..to], to + 1)
}

// The frame of a message but for the chain of the fields after 35, which whoever walks them sees.
#[tactic(auto, unfolding(crate::specs::ByPlace::outline_of))]
pub fn outline(s: &[u8]) -> Result<Framed, FrameError>
    ensures { result ≡ outline_of s.now }
{
    let Shape { from, to, sum } = parts(s).ok_or(FrameError::BadFrame)?;
    judge(s, from, to, sum)
}

// The frame of a message: 11 first, then 12, then 13.
#[tactic(auto, using(crate::proofs::Framing::by_places))]
pub fn frame(s: &[u8]) -> Result<Framed, FrameError>
    ensures { result ≡ frame_of s.now }
{
    let Shape { from, to, sum } = parts(s).ok_or(FrameError::BadFrame)?;
    if !chain::chain(&s[to + 1..s.len() - TRAILER_BYTES]) {
        return Err(FrameError::BadFrame);
    }
    judge(s, from, to, sum)
}
