// What a caller asks of a store without changing it: a dated quote, and the state of an instrument, each as numbers in room
// that the caller lends (document 01, "Quote and writing"). A refusal writes nothing there.
#![tactic(auto)]

ghost use Rattle.std.specs.Prelude.{◌≡◌, true, ◌+◌, ◌≤◌, ◌<◌, length};
ghost use Rattle.std.proofs.lemmas.List.Edits.{sets};
ghost use Rattle.moment.specs.Moments.{moments};
ghost use Rattle.board.specs.Board.{at};
ghost use Rattle.store.specs.Meaning.{st, board_in, board_at};
ghost use Rattle.store.specs.Canon.{Formed};
ghost use Rattle.sound.specs.Sound.{sound};
ghost use Rattle.quote.specs.Quotes.{quote_of};
ghost use Rattle.ask.specs.Ask.{quote_size, bits_of, moment_words, by_words, entry_words, top_words, quote_words, room_after, quote_number, quote_values, Asked, state_words, Stated};
ghost use Rattle.ask.specs.Fine.{FineTop, FineQuote, FineQuoted};

use book::Entry;
use heading::Heading;
use quote::{NoQuote, Quote};

// The numbers of a quote, of one of its sides, and of a state.
const QUOTE: usize = 17;

const TOP: usize = 7;

const STATE: usize = 4;

// A price or a sum as its 64 bits, two's complement.
#[tactic(auto, unfolding(crate::specs::Ask::bits_of))]
pub fn bits(p: i64) -> u64
    ensures { result ≡ bits_of p }
{
    p.cast_unsigned()
}

// A moment's date and time of day.
// Kept: the room and a place in it stay two parameters, as in crate text.
pub fn put_moment(out: &mut [u64], at: usize, m: u64)
    requires { (at + 2 ≤ length out.old) × (m < moments) }
    ensures { out.new ≡ sets out.old at (moment_words m) }
{
    out[at] = calendar::date_number(m / moment::SPAN);
    out[at + 1] = moment::time_number(m % moment::SPAN);
}

// The order id's bytes, or the number of orders.
fn put_by(out: &mut [u64], at: usize, depth: u64, by: u64, more: u64)
    requires { at + 2 ≤ length out.old }
    ensures { out.new ≡ sets out.old at (by_words depth by more) }
{
    if depth == 0 {
        out[at] = orderid::packed(by);
        out[at + 1] = orderid::packed(more);
        return;
    }
    out[at] = by;
    out[at + 1] = 0;
}

// What a place holds.
fn put_entry(out: &mut [u64], at: usize, depth: u64, e: Entry)
    requires { (at + 7 ≤ length out.old) × (e.moment < moments) }
    ensures { out.new ≡ sets out.old at (entry_words depth e) }
{
    out[at] = 1;
    out[at + 1] = bits(e.price);
    out[at + 2] = e.size;
    put_by(out, at + 3, depth, e.by, e.more);
    put_moment(out, at + 5, e.moment);
}

// Place 1 of a side, or zeros.
fn put_top(out: &mut [u64], at: usize, depth: u64, t: Option<Entry>)
    requires { (at + 7 ≤ length out.old) × FineTop t }
    ensures { out.new ≡ sets out.old at (top_words depth t) }
{
    match t {
        Some(e) => put_entry(out, at, depth, e),
        None => cells::zero_run(out, at, TOP),
    }
}

// A quote's 17 numbers.
fn put_quote(out: &mut [u64], depth: u64, q: Quote)
    requires { (quote_size ≤ length out.old) × FineQuote q }
    ensures { out.new ≡ sets out.old 0 (quote_words depth q) }
{
    out[0] = q.number;
    put_moment(out, 1, q.heard);
    put_top(out, 3, depth, q.bid);
    put_top(out, 3 + TOP, depth, q.offer);
}

// Document 01's number of a quote, with its numbers in the room.
fn tell(out: &mut [u64], depth: u64, q: Result<Quote, NoQuote>) -> u64
    requires { (quote_size ≤ length out.old) × FineQuoted q }
    ensures value { result ≡ quote_number q }
    ensures out_after { out.new ≡ room_after result (quote_values depth q) out.old }
{
    match q {
        Ok(x) => {
            put_quote(out, depth, x);
            store::DONE
        }
        Err(why) => u64::from(why),
    }
}

// A quote of a sound store into room that is long enough.
fn quote_into(store: &[u64], id: u64, time: &[u8], limit: u64, out: &mut [u64]) -> u64
    requires { (sound store.now ≡ true) × (quote_size ≤ length out.old) }
    ensures value { result ≡ quote_number (quote_of id time.now limit (board_at store.now)) }
    ensures out_after { out.new ≡ room_after result (quote_values (board_at store.now).depth (quote_of id time.now limit (board_at store.now))) out.old }
{
    let h = store::load_heading(store);
    let q = quote::quote_for(store, h, id, time, limit);
    tell(out, h.depth, q)
}

// Kept: a number and no Result, since `selkavorn_quote` alone calls it, for C, and `Asked` says document 01's number.
// The dated quote of the instrument with this SecurityID, now a date and time shaped as tag 52, the limit in seconds: 17, 18,
// 20 to 24, else 0 and 17 numbers at the start of the room.
#[tactic(auto, unfolding(crate::specs::Ask::quote_answer, crate::specs::Ask::quote_out))]
pub fn quote(store: &[u64], id: u64, time: &[u8], limit: u64, out: &mut [u64]) -> u64
    ensures { Asked id time.now limit out.old store.now result out.new }
{
    if !sound::sound(store) {
        return store::BAD_STORE;
    }
    if out.len() < QUOTE {
        return store::BAD_ARGUMENT;
    }
    quote_into(store, id, time, limit, out)
}

// The state of the instrument at index i.
fn put_state(store: &[u64], h: Heading, i: usize, out: &mut [u64])
    requires { Formed (st h store.now) × (i < h.followed) × (4 ≤ length out.old) }
    ensures { out.new ≡ sets out.old 0 (state_words (at i (board_in (st h store.now)))) }
{
    out[0] = u64::from(h.waits(i));
    out[1] = store[store::REASONS + i * store::RECORD];
    out[2] = store[store::BIDS + i * store::BOOK];
    out[3] = store[store::OFFERS + i * store::BOOK];
}

// Kept: a number and no Result, since `selkavorn_state` alone calls it, for C, and `Stated` says document 01's number.
// The state of the instrument with this SecurityID: 17, 18, 20, else 0 and 4 numbers at the start of the room.
#[tactic(auto, unfolding(crate::specs::Ask::state_answer, crate::specs::Ask::state_out))]
pub fn state(store: &[u64], id: u64, out: &mut [u64]) -> u64
    ensures { Stated id out.old store.now result out.new }
{
    if !sound::sound(store) {
        return store::BAD_STORE;
    }
    if out.len() < STATE {
        return store::BAD_ARGUMENT;
    }
    if !book::is_id(id) {
        return store::BAD_ARGUMENT;
    }
    let h = store::load_heading(store);
    let i = store::find(store, h, id);
    if h.followed <= i {
        return store::NOT_FOLLOWED;
    }
    put_state(store, h, i, out);
    store::DONE
}
