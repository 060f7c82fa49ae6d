// The scan of a store (document 01, "The store is unsound when .."): tests of its numbers by position, which touch each about
// once, since every call of the library pays for them. Books are tested by column first (crate sweep), and place by place where that
// doesn't settle it (crate sides). Crate sound shows that it finds exactly the sound stores.
#![tactic(auto)]

ghost use Rattle.std.specs.Prelude.{◌≡◌, true, ℕ, ◌+◌, ◌*◌, ◌≤◌, ◌<◌, List, length, get_or, drop};
ghost use Rattle.board.specs.Sound.{distinct, among};
ghost use Rattle.loops.specs.Sound.{sound_loop};
ghost use Rattle.store.specs.Layout.{store_size, at_followed, at_base, at_queued, id_of, bids_of};
ghost use Rattle.sides.specs.Side.{each, room_of};
ghost use Rattle.store.specs.Meaning.{loop_at};
ghost use Rattle.scan.specs.Scan.{heading_scan, record_scan, spread, records_scan, most_of, full_of, book_scan, books_scan, update_scan, slot_scan, queue_scan, rest_scan, scan};

use sides::Limits;
use std::marker::Model;

// How many instruments and how many queued entries there are at most, as numbers of a store.
const MOST_INSTS: u64 = store::MOST_INSTS as u64;

const MOST_QUEUED: u64 = store::MOST_QUEUED as u64;

// Reasons are 0, 1 and 2.
const MOST_REASON: u64 = 2;

// 279.
const MOST_ACTION: u64 = 4;

// 290.
const MOST_PLACE: u64 = 65535;

// On an order-depth channel `by` and `more` are 37 in words of up to 8 bytes: the last word, and the first of 8 bytes.
const ORDER_DEPTH: Limits = Limits {
    most: 6161234432565770,
    full: 65545047154955,
};

// On a price-depth channel `by` is 346: the most orders, and one more, so that there is no second word.
const PRICE_DEPTH: Limits = Limits {
    most: 65535,
    full: 65536,
};

// The heading.
#[tactic(auto, unfolding(crate::specs::Scan::heading_scan))]
fn heading(store: &[u64]) -> bool
    requires { store_size ≤ length store.now }
    ensures { result ≡ heading_scan store.now }
{
    let n = store[store::FOLLOWED];
    if MOST_INSTS < n {
        return false;
    }
    let h = store[store::NUMBER];
    let b = store[store::BASE];
    let heard = store[store::HEARD];
    let marks = store[store::MARKS];
    let q = store[store::QUEUED];
    (store[store::AT_LAYOUT] == store::LAYOUT)
        & (store[store::DEPTH] <= 1)
        & (1 <= n)
        & (h <= message::MOST_NUMBER)
        & (b <= h)
        & (heard < sides::MOMENTS)
        & ((h != 0) | (heard == 0))
        & (marks >> n == 0)
        & (q <= MOST_QUEUED)
        & ((marks != 0) | ((q == 0) & (b == h)))
}

// An instrument's record: its SecurityID, its reason, spare numbers.
#[tactic(auto, unfolding(crate::specs::Scan::record_scan))]
fn instrument(store: &[u64], at: usize) -> bool
    requires { at + 8 ≤ length store.now }
    ensures { result ≡ record_scan store.now at }
{
    let id = store[at];
    let reason = store[at + 1];
    let spare = sides::zero(store, at + 2, 6);
    book::is_id(id) & (reason <= MOST_REASON) & spare
}

// The n numbers at `at`, `at` + step and so on of a run.
#[derive(Drop)]
struct Spread<'a> {
    run: &'a [u64],
    at: usize,
    step: usize,
    n: usize,
}

impl<'a> Model for Spread<'a> {
    ghost Value = { List ℕ };

    ghost view = { λ s. spread s.run.now s.at s.step s.n };

    ghost invariant = { λ s. (k : ℕ) → k < s.n → s.at + k * s.step < length s.run.now };
}

impl Spread<'_> {
    // The number at index i.
    #[tactic(auto, using(crate::proofs::Spreads::spread_length, crate::proofs::Spreads::spread_at))]
    fn number(&self, i: usize) -> u64
        requires { i < length self.now }
        ensures { result ≡ get_or self.now i 0 }
    {
        self.run[self.at + i * self.step]
    }

    // Whether d stands among them, from the one at the index `from` on.
    #[tactic(auto, using(crate::proofs::Spreads::spread_length, crate::proofs::Spreads::left_turn, crate::proofs::Spreads::left_end))]
    fn holds(&self, from: usize, d: u64) -> bool
        ensures { result ≡ among d (drop from self.now) }
    {
        for j in from..self.n {
            if self.number(j) == d {
                return true;
            }
        }
        false
    }

    // Whether they rise from above 0: true says that none of them stands there twice, false says nothing.
    #[tactic(auto, using(crate::proofs::Spreads::spread_length, crate::proofs::Spreads::left_turn, crate::proofs::Spreads::left_end, crate::proofs::Ascents::ascends_end, crate::proofs::Ascents::ascends_turn, crate::proofs::Ascents::ascends_distinct))]
    fn rises(&self) -> bool
        ensures { result ≡ true → distinct self.now ≡ true }
    {
        let mut last = 0;
        for i in 0..self.n {
            let d = self.number(i);
            if d <= last {
                return false;
            }
            last = d;
        }
        true
    }
}

// The records of the n instruments, one by one.
fn each_record(store: &[u64], n: usize) -> bool
    requires { (store_size ≤ length store.now) × (n ≤ 16) }
    ensures { result ≡ each (λ (i : ℕ). record_scan store.now (id_of i)) n }
{
    (0..n).all(|i| instrument(store, store::IDS + i * store::RECORD))
}

// Whether none of the n numbers at `at`, `at` + step and so on stands there twice. Ids are often followed in their order.
#[tactic(auto, using(crate::proofs::Spreads::spread_length, crate::proofs::Spreads::left_turn, crate::proofs::Spreads::left_end), unfolding(board::specs::Sound::distinct))]
pub fn apart(run: &[u64], at: usize, step: usize, n: usize) -> bool
    requires { (k : ℕ) → k < n → at + k * step < length run.now }
    ensures { result ≡ distinct (spread run.now at step n) }
{
    let ids = Spread { run, at, step, n };
    if ids.rises() {
        return true;
    }
    for i in 0..n {
        if ids.holds(i + 1, ids.number(i)) {
            return false;
        }
    }
    true
}

// The records of the n instruments, no SecurityID twice, and what is spare before them and behind them.
#[tactic(auto, unfolding(crate::specs::Scan::records_scan))]
fn records(store: &[u64], n: usize) -> bool
    requires { (store_size ≤ length store.now) × (n ≤ 16) }
    ensures { result ≡ records_scan store.now n }
{
    if !sides::zero(store, store::HEADING_SPARE, store::HEADING_SPARE_SIZE)
        || !each_record(store, n)
    {
        return false;
    }
    let unused = sides::zero(
        store,
        store::IDS + n * store::RECORD,
        store::RECORDS_SIZE - n * store::RECORD,
    );
    unused && apart(store, store::IDS, store::RECORD, n)
}

// The limits of the depth kind.
#[tactic(auto, unfolding(crate::specs::Scan::most_of, crate::specs::Scan::full_of))]
fn limits_of(depth: u64) -> Limits
    ensures { (result.most ≡ most_of depth) × (result.full ≡ full_of depth) × (1 ≤ result.most) }
{
    if depth == 0 { ORDER_DEPTH } else { PRICE_DEPTH }
}

// Both sides of instrument i.
#[tactic(auto, unfolding(crate::specs::Scan::book_scan))]
fn book(store: &[u64], marks: u64, i: usize, limits: Limits) -> bool
    requires { (store_size ≤ length store.now) × (i < 16) }
    ensures { result ≡ book_scan (room_of marks i) limits.most limits.full store.now (bids_of i) }
{
    let at = store::BIDS + i * store::BOOK;
    let room = sides::room_of(marks, i);
    sides::side(store, at, room, limits) && sides::side(store, at + store::SIDE, room, limits)
}

// The books of the n instruments: all at once, or else one by one.
fn each_book(store: &[u64], n: usize, marks: u64, limits: Limits) -> bool
    requires { (store_size ≤ length store.now) × (n ≤ 16) × (1 ≤ limits.most) }
    ensures { result ≡ each (λ (i : ℕ). book_scan (room_of marks i) limits.most limits.full store.now (bids_of i)) n }
{
    if sweep::tried(store, marks, 2 * n, limits) {
        return true;
    }
    (0..n).all(|i| book(store, marks, i, limits))
}

// The books of the instruments that are followed, and what is unused behind them.
#[tactic(auto, unfolding(crate::specs::Scan::books_scan))]
fn books(store: &[u64], limits: Limits) -> bool
    requires { (store_size ≤ length store.now) × (get_or store.now at_followed 0 ≤ 16) × (1 ≤ limits.most) }
    ensures { result ≡ books_scan limits.most limits.full store.now }
{
    let n = store[store::FOLLOWED] as usize;
    each_book(store, n, store[store::MARKS], limits)
        && sides::zeros(
            store,
            store::BIDS + n * store::BOOK,
            store::BOOKS_SIZE - n * store::BOOK,
        )
}

// Who, what, action, place and entry of a queued entry.
#[tactic(auto, unfolding(crate::specs::Scan::update_scan))]
fn update(store: &[u64], at: usize, limits: Limits) -> bool
    requires { at + 9 ≤ length store.now }
    ensures { result ≡ update_scan limits.most limits.full store.now at }
{
    let what = store[at + cells::UPDATE_WHAT];
    let action = store[at + 2];
    let place = store[at + 3];
    if book::OFFER < what {
        let who = store[at];
        let is_j = (what == book::J) | ((what == book::J_FOR_ALL) & (who == 0));
        let none = sides::zero(store, at + cells::UPDATE_ENTRY, cells::ENTRY);
        return is_j & (action == 0) & (place == 0) & none;
    }
    if MOST_ACTION < action || place < 1 || MOST_PLACE < place {
        return false;
    }
    if action <= 1 {
        sides::entry(store, at + cells::UPDATE_ENTRY, limits)
    } else {
        sides::zero(store, at + cells::UPDATE_ENTRY, cells::ENTRY)
    }
}

// A queued entry, its number in `low` to `high`, of one of n instruments.
#[tactic(auto, unfolding(crate::specs::Scan::slot_scan))]
fn slot(store: &[u64], at: usize, low: u64, high: u64, n: u64, limits: Limits) -> bool
    requires { at + 11 ≤ length store.now }
    ensures { result ≡ slot_scan low high n limits.most limits.full store.now at }
{
    let number = store[at];
    if number < low || high < number || n <= store[at + 1] {
        return false;
    }
    update(store, at + 1, limits) && store[at + 10] == 0
}

// The queue.
#[tactic(auto, using(sides::proofs::Each::each_none, sides::proofs::Each::each_more, crate::proofs::Lowest::low_first, crate::proofs::Lowest::low_next), unfolding(crate::specs::Scan::queue_scan))]
fn queue(store: &[u64], limits: Limits) -> bool
    requires { (store_size ≤ length store.now) × (get_or store.now at_queued 0 ≤ 256) × (get_or store.now at_base 0 ≤ 4294967295) }
    ensures { result ≡ queue_scan limits.most limits.full store.now }
{
    let q = store[store::QUEUED] as usize;
    let n = store[store::FOLLOWED];
    let high = store[store::NUMBER];
    let mut low = store[store::BASE] + 1;
    for i in 0..q {
        let at = store::QUEUE + i * store::SLOT;
        if !slot(store, at, low, high, n, limits) {
            return false;
        }
        low = store[at];
    }
    sides::zeros(
        store,
        store::QUEUE + q * store::SLOT,
        store::QUEUE_AND_SPARE_SIZE - q * store::SLOT,
    )
}

// The record of the loop of snapshots.
fn loop_record(store: &[u64]) -> bool
    requires { (store_size ≤ length store.now) × (get_or store.now at_followed 0 ≤ 16) }
    ensures { result ≡ sound_loop (get_or store.now at_followed 0) (loop_at store.now) }
{
    loops::is_sound(
        store[store::LOOPS],
        store[store::COME],
        store[store::LOW],
        store[store::NAMED],
        store[store::FOLLOWED],
    )
}

// The loop's record, the books and the queue.
#[tactic(auto, unfolding(crate::specs::Scan::rest_scan))]
fn rest(store: &[u64]) -> bool
    requires { (store_size ≤ length store.now) × (get_or store.now at_followed 0 ≤ 16) × (get_or store.now at_queued 0 ≤ 256) × (get_or store.now at_base 0 ≤ 4294967295) }
    ensures { result ≡ rest_scan store.now }
{
    if !loop_record(store) {
        return false;
    }
    let limits = limits_of(store[store::DEPTH]);
    books(store, limits) && queue(store, limits)
}

// Whether the store passes every test.
#[tactic(auto, unfolding(crate::specs::Scan::scan))]
pub fn scan(store: &[u64]) -> bool
    ensures { result ≡ scan store.now }
{
    if store.len() < store::STORE || !heading(store) {
        return false;
    }
    let n = store[store::FOLLOWED] as usize;
    records(store, n) && rest(store)
}
