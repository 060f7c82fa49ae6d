// The fields of a snapshot from 35 up to 10, written into lent bytes (document 01, "Quote and writing"): what stands before the
// entries, the bids, the offers.
#![tactic(auto)]

ghost use Rattle.std.specs.Prelude.{◌+◌, ◌^◌, ◌≤◌, ◌<◌, length};
ghost use Rattle.text.specs.Text.{Wrote};
ghost use Rattle.chain.specs.Bytes.{bytes_of};
ghost use Rattle.line.specs.Entries.{AllWritable};
ghost use Rattle.snapshot.specs.Snapshot.{side_fields};
ghost use Rattle.snapshot.specs.Writing.{letter_of, fields_in, sender_fields, book_fields};

use book::{Book, Entry};
use pen::{Byte, Bytes, Moment, Number};

mod letters;

pub use letters::{Letter, Sheet};

// 269 of a bid and of an offer.
const BID: u8 = b'0';

const OFFER: u8 = b'1';

// The entries of a side, place 1 first.
fn side(out: &mut [u8], at: usize, depth: u64, sort: u8, held: &[Entry]) -> usize
    requires { (at < 2 ^ 20) × (length held.now ≤ 20) × AllWritable held.now }
    ensures { Wrote out.old at (bytes_of (side_fields depth sort 1 held.now)) out.new result × (result ≤ at + 7000) }
{
    let mut next = at;
    for (i, e) in held.iter().enumerate() {
        next = line::entry(out, next, depth, sort, i as u64 + 1, e);
    }
    next
}

// 35, 49, 56, 34, 52.
fn sender_part(out: &mut [u8], at: usize, letter: &Letter<'_>) -> usize
    requires { at < 2 ^ 20 }
    ensures { Wrote out.old at (bytes_of (sender_fields (letter_of letter.now))) out.new result × (result ≤ at + 250) }
{
    let a = pen::field(out, at, 35, Byte(b'W'));
    let b = pen::field(out, a, 49, Bytes(letter.sender));
    let d = pen::field(out, b, 56, Bytes(letter.target));
    let e = pen::field(out, d, 34, Number(letter.k));
    pen::field(out, e, 52, Moment(letter.time))
}

// 48, 22, 207, 369, 911, 268.
fn book_part(out: &mut [u8], at: usize, id: u64, last: u64, m: u64, entries: u64) -> usize
    requires { (at < 2 ^ 21) × (id < 10 ^ 18) × (last ≤ 4294967295) × (m ≤ 16) × (entries ≤ 40) }
    ensures { Wrote out.old at (bytes_of (book_fields id last m entries)) out.new result × (result ≤ at + 300) }
{
    let a = pen::field(out, at, 48, Number(id));
    let b = pen::field(out, a, 22, Byte(b'8'));
    let d = pen::field(out, b, 207, Bytes(b"BVMF"));
    let e = pen::field(out, d, 369, Number(last));
    let f = pen::field(out, e, 911, Number(m));
    pen::field(out, f, 268, Number(entries))
}

// From 35 up to 10.
pub fn body(out: &mut [u8], at: usize, letter: &Letter<'_>, sheet: &Sheet<'_>) -> usize
    requires { at ≤ 100 }
    ensures { Wrote out.old at (bytes_of (fields_in letter.now sheet.now)) out.new result × (result ≤ at + 15000) }
{
    let Book { bids, offers } = sheet.book;
    let ours = &bids.places[..bids.held];
    let theirs = &offers.places[..offers.held];
    let entries = (bids.held + offers.held) as u64;
    let a = sender_part(out, at, letter);
    let b = book_part(out, a, sheet.id, sheet.last, letter.m, entries);
    let d = side(out, b, sheet.depth, BID, ours);
    side(out, d, sheet.depth, OFFER, theirs)
}
