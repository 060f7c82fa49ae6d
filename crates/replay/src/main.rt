// Replays recordings of calls on the nine exported functions, and writes a line for each call: its answer, and after a 0 the
// quote, the state, the summary, the snapshot, the walk or the lot. The recordings are the files that the arguments name. The lines that must come out are
// written by the second implementation from the same recordings, so a run holds the proved code to an independent one.
//
// A recording is a chain of records: a byte that says the kind, two bytes of length (low byte first), and that many bytes.
//
//   O  depth byte, then 8 bytes for each SecurityID             opening
//   F  the message                                              feed
//   Q  SecurityID 8 bytes, limit 8 bytes, then now              quote, in room of 17 numbers
//   S  SecurityID 8 bytes                                       state, in room of 4 numbers
//   B  nothing                                                  summary of the board, in room of 5 numbers
//   W  SecurityID 8 bytes, k, m, sender's and target's length,
//      a byte each, then sender, target, time                   writing, in room of 4,307 bytes
//   R  from 8 bytes, numbers of the room a byte, then the bytes  walk of a recording, in room of so many numbers
//   L  SecurityID 8 bytes, limit 8 bytes, quantity 8 bytes,
//      then now                                                 lot sold, in room of 5 numbers
//   P  the same                                                 lot bought, likewise
//   D  index 2 bytes, value 8 bytes                             the store's number at the index is set; no line
//
// Numbers stand low byte first; a byte that is missing reads as 0. A record that is cut off ends its recording, and so does one
// of another kind. Every record fits the buffer, whose 65,536 bytes are more than two bytes of length can say.

#![tactic(auto)]

use record::Body;
use std::io::{BufWriter, ErrorKind, Read, Write};
use std::rt::Files;
use std::{env, fs, io};

mod lines;
mod record;

// The numbers of a store.
const STORE: usize = 7168;

// The most SecurityIDs that are handed to an opening. It refuses more than 16, so none beyond these can matter.
const MOST_IDS: usize = 32;

// Opens the store.
fn open_call(out: &mut impl Write, store: &mut [u64], body: Body) -> io::Result<()> {
    let mut ids = [0u64; MOST_IDS];
    let n = MOST_IDS.min(body.bytes.len() / 8);
    for (i, id) in ids[..n].iter_mut().enumerate() {
        *id = body.number(1 + 8 * i);
    }
    let answer = selkavorn::selkavorn_open(store, u64::from(body.byte(0)), &ids[..n]);
    lines::opened(out, answer)
}

// Feeds a message.
fn feed_call(out: &mut impl Write, store: &mut [u64], body: Body) -> io::Result<()> {
    let answer = selkavorn::selkavorn_feed(store, body.bytes);
    lines::fed(out, answer % 256, answer / 256)
}

// Asks for a quote.
fn quote_call(out: &mut impl Write, store: &[u64], body: Body) -> io::Result<()> {
    let mut room = [0u64; 17];
    let answer = selkavorn::selkavorn_quote(
        store,
        body.number(0),
        body.rest(16),
        body.number(8),
        &mut room,
    );
    lines::told(out, b"quote", answer, &room)
}

// Asks for a state.
fn state_call(out: &mut impl Write, store: &[u64], body: Body) -> io::Result<()> {
    let mut room = [0u64; 4];
    let answer = selkavorn::selkavorn_state(store, body.number(0), &mut room);
    lines::told(out, b"state", answer, &room)
}

// Asks for a summary of the board.
fn board_call(out: &mut impl Write, store: &[u64]) -> io::Result<()> {
    let mut room = [0u64; 5];
    let answer = selkavorn::selkavorn_board(store, &mut room);
    lines::told(out, b"board", answer, &room)
}

// Has a snapshot written.
fn write_call(out: &mut impl Write, store: &[u64], body: Body) -> io::Result<()> {
    let mut room = [0u8; 4307];
    let sender = usize::from(body.byte(10));
    let target = usize::from(body.byte(11));
    let answer = selkavorn::selkavorn_write(
        store,
        body.number(0),
        body.part(12, sender),
        body.part(12 + sender, target),
        u64::from(body.byte(8)),
        u64::from(body.byte(9)),
        body.rest(12 + sender + target),
        &mut room,
    );
    lines::written(out, answer % 256, answer / 256, &room)
}

// Has a recording walked, in a room of so many numbers.
fn walk_call(out: &mut impl Write, body: Body) -> io::Result<()> {
    let mut numbers = [0u64; 256];
    let room = &mut numbers[..usize::from(body.byte(8))];
    let answer = selkavorn::selkavorn_salvage(body.rest(9), body.number(0), room);
    lines::told(out, b"salvage", answer, room)
}

// Has a lot sold or bought, as the word and the call say.
fn lot_call<F: Fn(&[u64], u64, u64, &[u8], u64, &mut [u64]) -> u64>(
    out: &mut impl Write,
    store: &[u64],
    word: &[u8],
    call: F,
    body: Body,
) -> io::Result<()>
    requires { F.IsAlwaysCallable call }
{
    let mut room = [0u64; 5];
    let answer = call(
        store,
        body.number(0),
        body.number(16),
        body.rest(24),
        body.number(8),
        &mut room,
    );
    lines::told(out, word, answer, &room)
}

// Sets a number of the store.
fn set_number(store: &mut [u64], body: Body) {
    let at = usize::from(u16::from_le_bytes([body.byte(0), body.byte(1)]));
    if let Some(number) = store.get_mut(at) {
        *number = body.number(2);
    }
}

// Does what a record says, and answers whether its kind is one of the ten.
fn call(out: &mut impl Write, store: &mut [u64], kind: u8, body: Body) -> io::Result<bool> {
    match kind {
        b'O' => open_call(out, store, body)?,
        b'F' => feed_call(out, store, body)?,
        b'Q' => quote_call(out, store, body)?,
        b'S' => state_call(out, store, body)?,
        b'B' => board_call(out, store)?,
        b'W' => write_call(out, store, body)?,
        b'R' => walk_call(out, body)?,
        b'L' => lot_call(out, store, b"sell", selkavorn::selkavorn_sell, body)?,
        b'P' => lot_call(out, store, b"buy", selkavorn::selkavorn_buy, body)?,
        b'D' => set_number(store, body),
        _ => return Ok(false),
    }
    Ok(true)
}

// Whether the file filled the buffer before it ended.
fn filled(file: &mut impl Read, buf: &mut [u8]) -> io::Result<bool> {
    match file.read_exact(buf) {
        Ok(()) => Ok(true),
        Err(error) if error.kind() == ErrorKind::UnexpectedEof => Ok(false),
        Err(error) => Err(error),
    }
}

// Reads one record and does what it says; answers whether to go on.
fn next(out: &mut impl Write, file: &mut impl Read, store: &mut [u64]) -> io::Result<bool> {
    let mut head = [0u8; 3];
    if !filled(file, &mut head)? {
        return Ok(false);
    }
    let mut body = [0u8; 65536];
    let bytes = &mut body[..usize::from(record::size(&head))];
    if !filled(file, bytes)? {
        return Ok(false);
    }
    call(out, store, head[0], Body { bytes })
}

// A proved loop has to end, and nothing says that a file does. So the loop counts its turns, to a number that no run comes to.
fn replay(out: &mut impl Write, file: &mut impl Read, store: &mut [u64]) -> io::Result<()> {
    for _ in 0..u64::MAX {
        if !next(out, file, store)? {
            break;
        }
    }
    Ok(())
}

// Replays a recording on a store of zeros. One that cannot be opened is told on standard error, and passed over.
fn replay_file<R: Files + Eprint>(rt: &R, out: &mut impl Write, path: &str) -> io::Result<()> {
    match fs::open(rt, path) {
        Ok(mut file) => {
            let mut store = [0u64; STORE];
            replay(out, &mut file, &mut store)
        }
        Err(error) => eprintln!(rt; "{path}: {error}"),
    }
}

// Replays the recording that an argument names, under a line with its name.
fn recording<R: Files + Eprint>(rt: &R, out: &mut impl Write, path: &str) -> io::Result<()> {
    lines::title(out, path.as_bytes())?;
    replay_file(rt, out, path)
}

fn main(rt: HostRuntime) -> io::Result<()> {
    let mut out = BufWriter::new(rt.alloc(), rt.stdout())?;
    for path in env::args(&rt)?.skip(1) {
        recording(&rt, &mut out, path.as_str())?;
    }
    out.flush()
}
