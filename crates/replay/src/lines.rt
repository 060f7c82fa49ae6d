// Lines of answers, as they are written.
use crate::record;
use std::io;
use std::io::Write;

// The digits of a byte that is not seen.
const DIGITS: [u8; 16] = *b"0123456789abcdef";

fn end(out: &mut impl Write) -> io::Result<()> {
    out.write_all(b"\n")
}

// A space and a number for each.
fn numbers(out: &mut impl Write, ns: &[u64]) -> io::Result<()> {
    for n in ns {
        write!(out, " {n}")?;
    }
    Ok(())
}

// The start of a call's line: its word and the answer.
fn answered(out: &mut impl Write, word: &[u8], answer: u64) -> io::Result<()> {
    out.write_all(word)?;
    write!(out, " {answer}")
}

// The line before a recording.
pub(crate) fn title(out: &mut impl Write, name: &[u8]) -> io::Result<()> {
    out.write_all(b"recording ")?;
    out.write_all(name)?;
    end(out)
}

// The line of an opening.
pub(crate) fn opened(out: &mut impl Write, answer: u64) -> io::Result<()> {
    answered(out, b"open", answer)?;
    end(out)
}

// The line of a feed: the answer and how many wait.
pub(crate) fn fed(out: &mut impl Write, answer: u64, waiting: u64) -> io::Result<()> {
    answered(out, b"feed", answer)?;
    write!(out, " {waiting}")?;
    end(out)
}

// The line of a quote, a state or a summary: after a 0 its numbers.
pub(crate) fn told(out: &mut impl Write, word: &[u8], answer: u64, room: &[u64]) -> io::Result<()> {
    answered(out, word, answer)?;
    if answer == 0 {
        numbers(out, room)?;
    }
    end(out)
}

// The line of a writing: the length, and after a 0 that many bytes.
pub(crate) fn written(
    out: &mut impl Write,
    answer: u64,
    length: u64,
    room: &[u8],
) -> io::Result<()> {
    answered(out, b"write", answer)?;
    write!(out, " {length}")?;
    if answer == 0 {
        bytes(out, record::start(room, length as usize))?;
    }
    end(out)
}

// A place later in the line, with a byte put there; where the line is full nothing is put.
fn put(line: &mut [u8], at: usize, b: u8) -> usize {
    match line.get_mut(at) {
        Some(place) => {
            *place = b;
            at + 1
        }
        None => at,
    }
}

// A byte as text: a bar for SOH, itself where it can be seen and is neither bar nor backslash, else its hexadecimal digits.
fn put_byte(line: &mut [u8], at: usize, b: u8) -> usize {
    match b {
        1 => put(line, at, b'|'),
        b'|' | b'\\' | 0..=b' ' | 127..=255 => {
            let high = DIGITS[usize::from(b / 16)];
            let low = DIGITS[usize::from(b % 16)];
            let x = put(line, at, b'\\');
            let digits = put(line, x, b'x');
            let last = put(line, digits, high);
            put(line, last, low)
        }
        seen => put(line, at, seen),
    }
}

// A space and the bytes as text: up to 4,307 bytes, each of at most four in the line. The line goes out in one write: byte by byte it
// takes longer, and the buffer behind it is flushed in the middle of a line.
fn bytes(out: &mut impl Write, text: &[u8]) -> io::Result<()> {
    let mut line = [0u8; 17228];
    let mut n = 0;
    for b in text {
        n = put_byte(&mut line, n, *b);
    }
    out.write_all(b" ")?;
    out.write_all(record::start(&line, n))
}
