// Where messages stand in a recording (document 02, K12). A message is taken at a place exactly if 11 and 12 of document 01 would not
// refuse some stretch that starts there; the stretch is the one that tag 9 names. Nothing is copied: an answer is a place or a length.
#![tactic(auto)]

ghost use Rattle.std.specs.Prelude.{◌≡◌, ◌≤◌, length};
ghost use Rattle.frame.specs.Frames.{frame_of};
ghost use Rattle.stretch.specs.Stretches.{passes, some_length, named_of, stretch_of, stretch_at};
ghost use Rattle.stretch.specs.Runs.{Ends};

use chain::Step;
use frame::FrameError;

// 8=FIX.4.4 and its SOH, 9= with five digits and its SOH
const HEAD_BYTES: usize = frame::BEGIN_BYTES + 8;

// Where a run of passed bytes ends, and the length of the message that is taken there, if one is.
#[derive(Clone, Copy)]
pub struct Gap {
    pub end: usize,
    pub next: Option<usize>,
}

// The length of the stretch that 8 and 9 name. The first 18 bytes settle it, so a look costs the same at every place.
#[tactic(auto, unfolding(crate::specs::Stretches::named_of))]
fn named(h: &[u8]) -> Option<usize>
    requires { length h.now ≡ 18 }
    ensures { result ≡ some_length (named_of h.now) }
{
    if !frame::begins(h) {
        return None;
    }
    let Step { tag: _, from, to } = frame::field_of(h, frame::BEGIN_BYTES, 9)?;
    let count = digits::whole(&h[from..to], 5)?;
    Some(to + 1 + count as usize + frame::TRAILER_BYTES)
}

// Whether neither 11 nor 12 refuses the bytes.
fn accepted(s: &[u8]) -> bool
    ensures { result ≡ passes (frame_of s.now) }
{
    matches!(frame::frame(s), Ok(_) | Err(FrameError::BadType))
}

// The length of the message that is taken at the start of the bytes.
fn message_of(s: &[u8]) -> Option<usize>
    ensures { result ≡ some_length (stretch_of s.now) }
{
    let m = named(s.get(..HEAD_BYTES)?)?;
    if accepted(s.get(..m)?) { Some(m) } else { None }
}

// The length of the message that is taken at a place of a recording. Most bytes of a hole cost one comparison.
pub fn message_at(rec: &[u8], at: usize) -> Option<usize>
    ensures { result ≡ some_length (stretch_at rec.now at) }
{
    if *rec.get(at)? != b'8' {
        return None;
    }
    message_of(&rec[at..])
}

// Where the bytes that are passed over from a place on end: at the next message, or at the end.
pub fn run(rec: &[u8], at: usize) -> Gap
    requires { at ≤ length rec.now }
    ensures { Ends rec.now at result.end result.next }
{
    for i in at..rec.len() {
        if let Some(m) = message_at(rec, i) {
            return Gap {
                end: i,
                next: Some(m),
            };
        }
    }
    Gap {
        end: rec.len(),
        next: None,
    }
}
