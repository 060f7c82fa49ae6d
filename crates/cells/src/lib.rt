// Entries, sides and queued entries in the lent run of numbers: read from a place, and written at one (document 01: "All
// books live in one lent run of 64-bit numbers").
// Kept: the whole run and an index into it stay two parameters: `entry_at` and `sets store at ..` say each number by its place in the whole,
// and a part that is lent would have to be tied to it at each call.
#![tactic(auto)]

ghost use Rattle.std.specs.Prelude.{◌≡◌, ◌+◌, ◌≤◌, length, take};
ghost use Rattle.std.proofs.lemmas.List.Edits.{sets};
ghost use Rattle.cells.specs.Cells.{zeros, words, entry_at, side_size, side_words, side_at, update_words, queued_words, update_at};

use book::{Entry, Side, Update};

pub mod run;

// The numbers of an entry.
pub const ENTRY: usize = 5;

// The numbers of a side: how many places are held, and 20 entries.
pub const SIDE: usize = 101;

// The numbers of an update, and where among them stand what it is of and its entry.
pub const UPDATE: usize = 9;

pub const UPDATE_WHAT: usize = 1;

pub const UPDATE_ENTRY: usize = 4;

// The entry in the 5 numbers from `at` on.
pub fn load_entry(store: &[u64], at: usize) -> Entry
    requires { at + 5 ≤ length store.now }
    ensures { result ≡ entry_at store.now at }
{
    Entry {
        price: holding::of_held(store[at]),
        size: store[at + 1],
        by: store[at + 2],
        more: store[at + 3],
        moment: store[at + 4],
    }
}

pub fn save_entry(store: &mut [u64], at: usize, e: Entry)
    requires { at + 5 ≤ length store.old }
    ensures { store.new ≡ sets store.old at (words e) }
{
    store[at] = holding::held(e.price);
    store[at + 1] = e.size;
    store[at + 2] = e.by;
    store[at + 3] = e.more;
    store[at + 4] = e.moment;
}

// The side in the 101 numbers from `at` on: all 20 places, used or not.
#[tactic(auto, using(crate::proofs::Tables::fill_turn), unfolding(crate::specs::Cells::tab))]
pub fn load_side(store: &[u64], at: usize) -> Side
    requires { at + side_size ≤ length store.now }
    ensures { result ≡ side_at store.now at }
{
    let mut places = [book::no_entry(); book::PLACES];
    for (i, place) in places.iter_mut().enumerate() {
        *place = load_entry(store, at + 1 + i * ENTRY);
    }
    Side {
        places,
        held: store[at] as usize,
    }
}

pub fn save_side(store: &mut [u64], at: usize, s: Side)
    requires { at + side_size ≤ length store.old }
    ensures { store.new ≡ sets store.old at (side_words s) }
{
    save_side_from(store, at, s, 0);
}

// The same where the first `from` places stand there already: they are not written again.
#[tactic(auto, using(crate::proofs::Tables::save_turn, crate::proofs::Windows::places_again))]
pub fn save_side_from(store: &mut [u64], at: usize, s: Side, from: usize)
    requires { (at + side_size ≤ length store.old) × (take from s.places ≡ take from (side_at store.old at).places) }
    ensures { store.new ≡ sets store.old at (side_words s) }
{
    store[at] = s.held as u64;
    for i in from..book::PLACES {
        save_entry(store, at + 1 + i * ENTRY, s.places[i]);
    }
}

// The update in the 9 numbers from `at` on.
pub fn load_update(store: &[u64], at: usize) -> Update
    requires { at + 9 ≤ length store.now }
    ensures { result ≡ update_at store.now at }
{
    Update {
        who: store[at],
        what: store[at + UPDATE_WHAT],
        action: store[at + 2],
        place: store[at + 3] as usize,
        entry: load_entry(store, at + UPDATE_ENTRY),
    }
}

pub fn save_update(store: &mut [u64], at: usize, u: Update)
    requires { at + 9 ≤ length store.old }
    ensures { store.new ≡ sets store.old at (update_words u) }
{
    store[at] = u.who;
    store[at + UPDATE_WHAT] = u.what;
    store[at + 2] = u.action;
    store[at + 3] = u.place as u64;
    save_entry(store, at + UPDATE_ENTRY, u.entry);
}

// A queued entry: the number of its message, and the update.
pub fn save_queued(store: &mut [u64], at: usize, number: u64, u: Update)
    requires { at + 10 ≤ length store.old }
    ensures { store.new ≡ sets store.old at (queued_words number u) }
{
    store[at] = number;
    save_update(store, at + 1, u);
}

// n zeros from `at` on.
#[tactic(auto, using(crate::proofs::Tables::filled))]
pub fn zero_run(store: &mut [u64], at: usize, n: usize)
    requires { at + n ≤ length store.old }
    ensures { store.new ≡ sets store.old at (zeros n) }
{
    store[at..at + n].fill(0);
}
