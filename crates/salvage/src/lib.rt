// Walks a recording (document 02, K12): messages end to end, with holes and bad bytes between them. It is given as pieces, each a
// message or a run of bytes that were passed over, in the room that the caller lends.
#![tactic(auto)]

ghost use Rattle.std.specs.Prelude.{◌≡◌, ◌+◌, ◌≤◌, ◌<◌, ◌∷◌, [], length};
ghost use Rattle.std.proofs.lemmas.List.Edits.{sets};
ghost use Rattle.stretch.specs.Stretches.{some_length, stretch_at};
ghost use Rattle.salvage.specs.Rooms.{least_room, number_of, First, Filled, Salvaged};

use stretch::Gap;

const DONE: u64 = 0;
// 18: there is no such place, or too little room.
const BAD_ARGUMENT: u64 = 18;
// The byte to go on at, and how many pieces follow.
const HEADING: usize = 2;
// What it is, its start, its length.
const PIECE: usize = 3;

const LEAST_ROOM: usize = HEADING + PIECE;

// What a piece is: a message, or bytes that were passed over.
#[derive(Clone, Copy, PartialEq, Eq)]
enum Kind {
    Message,
    Passed,
}

impl From<Kind> for u64 {
    ghost from_gives = { λ kind n. n ≡ number_of kind };

    // What stands for it in the room.
    fn from(kind: Kind) -> u64 {
        match kind {
            Kind::Message => 1,
            Kind::Passed => 0,
        }
    }
}

// A piece of a recording, how many bytes it has, and the length of the message that is taken behind it, if one is: so no message
// is looked at twice.
#[derive(Clone, Copy)]
struct Part {
    kind: Kind,
    bytes: usize,
    next: Option<usize>,
}

// Where a walk stopped, and after how many pieces.
#[derive(Clone, Copy)]
struct Stop {
    at: usize,
    count: usize,
}

// The piece that starts at a place, where a message of so many bytes is taken, or none.
fn first(rec: &[u8], at: usize, message: Option<usize>) -> Part
    requires { (at < length rec.now) × (message ≡ some_length (stretch_at rec.now at)) }
    ensures { First rec.now at (number_of result.kind) result.bytes result.next }
{
    if let Some(bytes) = message {
        let next = stretch::message_at(rec, at + bytes);
        return Part {
            kind: Kind::Message,
            bytes,
            next,
        };
    }
    let Gap { end, next } = stretch::run(rec, at);
    Part {
        kind: Kind::Passed,
        bytes: end - at,
        next,
    }
}

// A piece as three numbers.
fn put(out: &mut [u64], at: usize, kind: Kind, start: usize, bytes: usize)
    requires { at + 3 ≤ length out.old }
    ensures { out.new ≡ sets out.old at (number_of kind ∷ start ∷ bytes ∷ []) }
{
    out[at] = u64::from(kind);
    out[at + 1] = start as u64;
    out[at + 2] = bytes as u64;
}

// The pieces from a place on, as many as fit, from the third number of the room on.
fn fill(rec: &[u8], from: usize, out: &mut [u64]) -> Stop
    requires { (from ≤ length rec.now) × (least_room ≤ length out.old) }
    ensures { Filled rec.now from out.old out.new result.at result.count }
{
    let n = rec.len();
    let room = out.len();
    let mut i = from;
    let mut at: usize = HEADING;
    let mut k: usize = 0;
    let mut m = stretch::message_at(rec, from);
    while i < n {
        if room - at < PIECE {
            return Stop { at: i, count: k };
        }
        let Part { kind, bytes, next } = first(rec, i, m);
        put(out, at, kind, i, bytes);
        i += bytes;
        at += PIECE;
        k += 1;
        m = next;
    }
    Stop { at: i, count: k }
}

// Walks a recording from a place on. The room gets the byte to go on at (the recording's length when the walk is whole), how many
// pieces follow, and three numbers for each: 1 for a message or 0 for a passed run, its start, its length.
// Kept: it answers a number, since `selkavorn_salvage` hands it to C as it is.
pub fn walk(rec: &[u8], from: u64, out: &mut [u64]) -> u64
    ensures { Salvaged rec.now from out.old result out.new }
{
    if (rec.len() as u64) < from {
        return BAD_ARGUMENT;
    }
    if out.len() < LEAST_ROOM {
        return BAD_ARGUMENT;
    }
    let s = fill(rec, from as usize, out);
    out[0] = s.at as u64;
    out[1] = s.count as u64;
    DONE
}
