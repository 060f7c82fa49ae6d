// A book of the store written as a snapshot message into bytes that the caller lends (document 01, "Quote and writing").
#![tactic(auto)]

ghost use Rattle.std.specs.Prelude.{◌≡◌, true, ◌≤◌, ◌<◌, length, IfOk};
ghost use Rattle.board.specs.Board.{look};
ghost use Rattle.store.specs.Layout.{store_size};
ghost use Rattle.store.specs.Meaning.{book_at, board_at};
ghost use Rattle.sound.specs.Sound.{sound};
ghost use Rattle.snapshot.specs.Writing.{letter_of, Ready};
ghost use Rattle.writer.specs.Writing.{page_of, written_of, out_after};
ghost use Rattle.send.specs.Send.{arguments_fine, page_at, written_number, page_answer, page_out, Sent};
ghost use Rattle.send.specs.Results.{fine, number_in};

use book::Book;
use snapshot::{Letter, Sheet};

mod refusals;

pub use refusals::Refusal;

// A loop has at most 16 messages.
const MOST_LOOP: u64 = 16;

// The length stands above the answer's 8 bits.
const LENGTHS: u64 = 256;

// Whether the arguments are in their ranges.
#[tactic(auto, unfolding(crate::specs::Send::arguments_fine))]
fn arguments_fine(id: u64, sender: &[u8], target: &[u8], k: u64, m: u64) -> bool
    ensures { result ≡ arguments_fine id sender.now target.now k m }
{
    book::is_id(id)
        && writer::id_bytes(sender)
        && writer::id_bytes(target)
        && 1 <= k
        && k <= m
        && m <= MOST_LOOP
}

// The book of the instrument at index i.
fn load_book(store: &[u64], i: usize) -> Book
    requires { (store_size ≤ length store.now) × (i < 16) }
    ensures { result ≡ book_at store.now i }
{
    Book {
        bids: cells::load_side(store, store::BIDS + i * store::BOOK),
        offers: cells::load_side(store, store::OFFERS + i * store::BOOK),
    }
}

// The book of the instrument at index i, written.
fn write_book(
    store: &[u64],
    i: usize,
    depth: u64,
    last: u64,
    id: u64,
    letter: &Letter<'_>,
    out: &mut [u8],
) -> Result<usize, Refusal>
    requires { (store_size ≤ length store.now) × (i < 16) × Ready (letter_of letter.now) id last (book_at store.now i) }
    ensures value { number_in result ≡ written_number (written_of (page_of depth (letter_of letter.now) id last (book_at store.now i)) out.old) }
    ensures out_after { out.new ≡ out_after (page_of depth (letter_of letter.now) id last (book_at store.now i)) out.old }
    ensures short { IfOk result (λ n. n ≤ 12000) }
{
    let book = load_book(store, i);
    let sheet = Sheet {
        depth,
        id,
        last,
        book: &book,
    };
    Ok(writer::write_page(out, letter, &sheet)?)
}

// The snapshot of a sound store's instrument, its arguments in their ranges.
#[tactic(auto, using(sound::proofs::Readers::formed, sound::proofs::Readers::marks))]
fn write_sound(
    store: &[u64],
    id: u64,
    letter: &Letter<'_>,
    out: &mut [u8],
) -> Result<usize, Refusal>
    requires { (sound store.now ≡ true) × (fine id letter.now ≡ true) }
    ensures value { number_in result ≡ page_answer (page_at (look id (board_at store.now).insts) (letter_of letter.now) id (board_at store.now)) out.old }
    ensures out_after { out.new ≡ page_out (page_at (look id (board_at store.now).insts) (letter_of letter.now) id (board_at store.now)) out.old }
    ensures short { IfOk result (λ n. n ≤ 12000) }
{
    let h = store::load_heading(store);
    let i = store::find(store, h, id);
    if h.followed <= i {
        return Err(Refusal::NotFollowed);
    }
    if h.waits(i) {
        return Err(Refusal::Waiting);
    }
    write_book(store, i, h.depth, h.number, id, letter, out)
}

// The snapshot of an instrument of any store, whatever the arguments.
fn try_write(
    store: &[u64],
    id: u64,
    sender: &[u8],
    target: &[u8],
    k: u64,
    m: u64,
    time: &[u8],
    out: &mut [u8],
) -> Result<usize, Refusal>
    ensures sent { Sent id sender.now target.now k m time.now out.old store.now (number_in result) out.new }
    ensures short { IfOk result (λ n. n ≤ 12000) }
{
    if !sound::sound(store) {
        return Err(Refusal::BadStore);
    }
    let time = moment::moment(time).ok_or(Refusal::BadArgument)?;
    if !arguments_fine(id, sender, target, k, m) {
        return Err(Refusal::BadArgument);
    }
    let letter = Letter {
        sender,
        target,
        k,
        m,
        time,
    };
    write_sound(store, id, &letter, out)
}

// The snapshot of the instrument with this SecurityID from sender to target, message k of a loop of m, at a time shaped as tag
// 52: 17, 18, 20, 21, 25, else 0 and 256 times the message's length, with the message at the start of out.
pub fn write(
    store: &[u64],
    id: u64,
    sender: &[u8],
    target: &[u8],
    k: u64,
    m: u64,
    time: &[u8],
    out: &mut [u8],
) -> u64
    ensures { Sent id sender.now target.now k m time.now out.old store.now result out.new }
{
    // Kept: a number, since the export for C answers document 01's and `Sent` says it.
    match try_write(store, id, sender, target, k, m, time, out) {
        Ok(bytes) => LENGTHS * bytes as u64,
        Err(why) => u64::from(why),
    }
}
