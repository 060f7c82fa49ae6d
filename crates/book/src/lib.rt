// A side of a book and a book of two sides, with what one entry of a message does to them (document 01, "A side of a
// book"). A side is asked first whether it refuses; where it does not it goes in by value, is shifted, and comes back.
#![tactic(auto)]

ghost use Rattle.std.specs.Prelude.{◌≡◌, ◌∷◌, ◌++◌, ◌+◌, ◌≤◌, take, drop};
ghost use Rattle.book.specs.Ids.{id_fine};
ghost use Rattle.book.specs.Rules.{most_places};
ghost use Rattle.book.specs.Sides.{no_entry, no_side, no_book, pad, breach_of, first_changed, side_step, book_step};
ghost use Rattle.book.specs.Results.{breach_number, done_at, turn_at, turn_from};

mod reasons;

pub use reasons::Breach;

// The most places of a side; the arrays below have this many.
pub const PLACES: usize = 20;

// The greatest SecurityID: 48 has at most 18 digits.
pub const MOST_ID: u64 = 999999999999999999;

// What an entry is of: a bid,
pub const BID: u64 = 0;

// an offer,
pub const OFFER: u64 = 1;

// the empty book of one instrument,
pub const J: u64 = 2;

// or the empty book of all instruments, as which a book takes any number above too.
pub const J_FOR_ALL: u64 = 3;

// What an entry does: new moves the rest down,
pub const NEW: u64 = 0;

// change replaces a place whole,
pub const CHANGE: u64 = 1;

// delete thru removes place 1 up to a place,
pub const DELETE_THRU: u64 = 3;

// delete from removes a place up to the last; what is left of 0 to 4, delete, removes a place.
pub const DELETE_FROM: u64 = 4;

// One place of a side. price is a whole number; its unit is nothing to a book. by and more are the two numbers of the order id,
// or the number of orders and 0. moment is a date and time as one number. An unused place is all zero.
// Kept: by and more are numbers and no enum of order id and orders, since `cells::load_entry` says each of any five numbers of the lent
// store, and which of the two they are is told by the depth kind in its heading.
#[derive(Clone, Copy)]
pub struct Entry {
    pub price: i64,
    pub size: u64,
    pub by: u64,
    pub more: u64,
    pub moment: u64,
}

// The bids or the offers, place 1 first; the first `held` places are used.
// Kept: 20 places with a number beside and no shorter list, since `cells::load_side` says that number of any store and `taking::show` counts
// a side past 20, and memory is fixed.
#[derive(Clone, Copy)]
pub struct Side {
    pub places: [Entry; PLACES],
    pub held: usize,
}

// The bids and the offers of one instrument.
#[derive(Clone, Copy)]
pub struct Book {
    pub bids: Side,
    pub offers: Side,
}

// One entry of a message. who is the instrument: its SecurityID in a message, its index on a board; 0 where the entry is for all.
// what: 0 bid, 1 offer, 2 J, 3 J for all. action: 0 new, 1 change, 2 delete, 3 delete thru, 4 delete from. Places count from 1.
// Kept: what and action are numbers, since `cells::load_update` answers on any nine numbers of the lent store, and `apply` for every what
// (J for each above 2) and every action (a breach of place for each above 4), as `book_step` and the theorems over it say.
#[derive(Clone, Copy)]
pub struct Update {
    pub who: u64,
    pub what: u64,
    pub action: u64,
    pub place: usize,
    pub entry: Entry,
}

// Whether a number is a SecurityID.
pub fn is_id(id: u64) -> bool
    ensures { result ≡ id_fine id }
{
    matches!(id, 1..=MOST_ID)
}

// The entry of an unused place.
pub fn no_entry() -> Entry
    ensures { result ≡ no_entry }
{
    Entry {
        price: 0,
        size: 0,
        by: 0,
        more: 0,
        moment: 0,
    }
}

// A side that holds nothing.
pub fn no_side() -> Side
    ensures { result ≡ no_side }
{
    Side {
        places: [no_entry(); PLACES],
        held: 0,
    }
}

// A book that holds nothing.
pub fn no_book() -> Book
    ensures { result ≡ no_book }
{
    let side = no_side();
    Book {
        bids: side,
        offers: side,
    }
}

// Puts e at index `at`; the rest moves down, and the last falls off.
#[tactic(auto, using(crate::proofs::Shifts::pushed, crate::proofs::Shifts::past))]
fn push(mut a: [Entry; PLACES], at: usize, e: Entry) -> [Entry; PLACES]
    ensures { result ≡ pad most_places (take at a ++ e ∷ drop at a) }
{
    if at < PLACES {
        a.copy_within(at..PLACES - 1, at + 1);
        a[at] = e;
    }
    a
}

// Takes `count` entries out from index `at`; the rest moves up, and unused places come at the end.
fn pull(mut a: [Entry; PLACES], at: usize, count: usize) -> [Entry; PLACES]
    ensures { result ≡ pad most_places (take at a ++ drop (at + count) a) }
{
    if PLACES <= at || PLACES - at <= count {
        return keep(a, at);
    }
    a.copy_within(at + count.., at);
    keep(a, PLACES - count)
}

// Keeps the entries before index `at`; the rest becomes unused places.
#[tactic(auto, using(crate::proofs::Shifts::cleared, crate::proofs::Shifts::kept_past))]
fn keep(mut a: [Entry; PLACES], at: usize) -> [Entry; PLACES]
    ensures { result ≡ pad most_places (take at a) }
{
    if at < PLACES {
        a[at..].fill(no_entry());
    }
    a
}

// Replaces the entry at index `at`.
#[tactic(auto, using(crate::proofs::Shifts::replaced, crate::proofs::Shifts::past))]
fn put(mut a: [Entry; PLACES], at: usize, e: Entry) -> [Entry; PLACES]
    ensures { result ≡ pad most_places (take at a ++ e ∷ drop (at + 1) a) }
{
    if at < PLACES {
        a[at] = e;
    }
    a
}

// Whether a side that holds n places refuses an action at place p, and why. The place is tested before the room, and an action
// above 4 is a breach of place.
#[tactic(auto, unfolding(crate::specs::Sides::breach_of))]
pub fn breach(n: usize, action: u64, p: usize) -> Result<(), Breach>
    ensures { breach_number result ≡ breach_of n action p }
{
    if p == 0 {
        return Err(Breach::Place);
    }
    if action == NEW {
        if n < p - 1 {
            return Err(Breach::Place);
        }
        if PLACES <= n {
            return Err(Breach::Room);
        }
        return Ok(());
    }
    if n < p || DELETE_FROM < action {
        return Err(Breach::Place);
    }
    Ok(())
}

// The index of the first place that an action may change, where the place that it names has the index `at`.
pub fn first_changed(action: u64, at: usize) -> usize
    ensures { (result ≡ first_changed action at) × (result ≤ at) }
{
    if action == DELETE_THRU { 0 } else { at }
}

// The side after an action that is no breach.
#[tactic(auto, using(crate::proofs::Breaches::no_breach, crate::proofs::Breaches::new_leaves, crate::proofs::Breaches::change_leaves, crate::proofs::Breaches::gone_leaves, crate::proofs::Breaches::from_leaves))]
pub fn worked(s: Side, action: u64, p: usize, e: Entry) -> Side
    requires { breach_of s.held action p ≡ 0 }
    ensures { result ≡ (side_step s action p e).side }
{
    let at = p - 1;
    match action {
        NEW => Side {
            places: push(s.places, at, e),
            held: s.held + 1,
        },
        CHANGE => Side {
            places: put(s.places, at, e),
            ..s
        },
        DELETE_FROM => Side {
            places: keep(s.places, at),
            held: at,
        },
        _ => {
            let from = first_changed(action, at);
            let gone = p - from;
            Side {
                places: pull(s.places, from, gone),
                held: s.held - gone,
            }
        }
    }
}

// The operation that the action names, on a side where it stands, or its breach, which leaves the side.
#[tactic(auto, using(crate::proofs::Breaches::refused_by, crate::proofs::Breaches::step_reason))]
fn on_side(s: &mut Side, action: u64, p: usize, e: Entry) -> Result<(), Breach>
    ensures { done_at s.new result ≡ side_step s.old action p e }
{
    breach(s.held, action, p)?;
    *s = worked(*s, action, p, e);
    Ok(())
}

// One entry of a message on the book of its instrument where it stands: the side that it names is worked and the other stays; J
// empties both. A breach leaves the book.
#[tactic(auto, unfolding(crate::specs::Sides::book_step))]
pub fn work(b: &mut Book, u: Update) -> Result<(), Breach>
    ensures { turn_at b.new result ≡ book_step b.old u }
{
    match u.what {
        BID => on_side(&mut b.bids, u.action, u.place, u.entry),
        OFFER => on_side(&mut b.offers, u.action, u.place, u.entry),
        _ => {
            *b = no_book();
            Ok(())
        }
    }
}

// The same on a book by value.
pub fn apply(b: Book, u: Update) -> Result<Book, Breach>
    ensures { turn_from b result ≡ book_step b u }
{
    let mut after = b;
    work(&mut after, u)?;
    Ok(after)
}
