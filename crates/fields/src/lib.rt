// The reader (document 01, "Frame" and "Fields"): from the bytes of a message to what a board takes. The frame is
// checked first, but for the chain of the fields between 35 and 10: these are walked once, and bytes that are no field are
// refused where they stand.
#![tactic(auto)]

ghost use Rattle.std.specs.Prelude.{◌≡◌, ◌≤◌, length};
ghost use Rattle.message.specs.Message.{told};
ghost use Rattle.frame.specs.Frames.{frame_of};
ghost use Rattle.chain.specs.Places.{left};
ghost use Rattle.group.specs.Reads.{run_size, Reads};
ghost use Rattle.lead.specs.Messages.{typed_as};
ghost use Rattle.fields.specs.Messages.{refusal_of, message_in};
ghost use Rattle.fields.specs.Bodies.{Body};

use frame::{FrameError, Framed};
use message::{Reading, Refusal};

// Why a message is not read: its frame, or else a breach under "Fields".
fn refusal(s: &[u8]) -> Refusal
    ensures { result ≡ refusal_of (frame_of s.now) }
{
    match frame::frame(s) {
        Err(FrameError::BadFrame) => Refusal::BadFrame,
        Err(FrameError::BadSum) => Refusal::BadSum,
        Err(FrameError::BadType) => Refusal::BadType,
        Ok(_) => Refusal::BadFields,
    }
}

// The fields between 35 and 10 on a channel of a depth kind, unless they breach a rule. Their entries are written into
// the run.
fn body(s: &[u8], kind: u8, depth: u64, run: &mut [u64]) -> Option<Reading>
    requires { run_size ≤ length run.old }
    ensures { Body (typed_as depth kind (left s.now 0)) result run.old run.new }
{
    let lead = lead::typed(s, kind)?;
    let top = lead.top;
    let count = group::listed(s, lead.at, lead.count, depth, &top, run)?;
    Some(Reading {
        kind: lead.kind,
        number: top.number,
        heard: top.heard,
        id: top.id,
        last: top.last,
        loops: top.loops,
        count,
    })
}

// The message that bytes are, on a channel of a depth kind. Its entries are written into the run. It is walked once; only
// where it is not read is its frame asked whether its fields are a chain.
pub fn read(s: &[u8], depth: u64, run: &mut [u64]) -> Result<Reading, Refusal>
    requires { run_size ≤ length run.old }
    ensures { Reads (told (message_in depth s.now)) result run.old run.new }
{
    let Ok(Framed { kind, from }) = frame::outline(s) else {
        return Err(refusal(s));
    };
    let end = s.len() - frame::TRAILER_BYTES;
    match body(&s[from..end], kind, depth, run) {
        Some(r) => Ok(r),
        None => Err(refusal(s)),
    }
}
