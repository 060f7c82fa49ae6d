// Live instruments get their entries, in place in the store (document 01, "A side of a book" and "Numbers, queue and
// marks"). A breach breaks the instrument: both sides emptied, mark Waiting, the reason.
// Kept: store and heading stay two parameters, here and in crates store, queue, count, taking, kept, channel, rounds, quote and ask: a struct that
// holds the lent store needs in each method a second clause, as crate text shows, and with `Formed` for its invariant it would ask of `break_off`,
// `settle` and `let_go` more than they ask.
#![tactic(auto)]

ghost use Rattle.std.specs.Prelude.{◌≡◌, ◌+◌, ◌≤◌, ◌<◌, length};
ghost use Rattle.book.specs.Results.{breach_number};
ghost use Rattle.cells.specs.Cells.{side_size};
ghost use Rattle.cells.specs.Updates.{updates_of};
ghost use Rattle.store.specs.Layout.{store_size};
ghost use Rattle.store.specs.Meaning.{st};
ghost use Rattle.store.specs.Canon.{Formed};
ghost use Rattle.deliver.specs.Gives.{taken, on_side_s, apply_s, break_s, give_to_s, give_each_s, give_s, give_all_s};

use book::{Breach, Update};
use cells::run::Updates;
use heading::Heading;

// The side at `at` takes an entry, or refuses it and stays.
fn on_side(store: &mut [u64], at: usize, u: Update) -> Result<(), Breach>
    requires { at + side_size ≤ length store.old }
    ensures { taken (breach_number result) store.new ≡ on_side_s at u store.old }
{
    let s = cells::load_side(store, at);
    book::breach(s.held, u.action, u.place)?;
    let t = book::worked(s, u.action, u.place, u.entry);
    let from = book::first_changed(u.action, u.place - 1);
    cells::save_side_from(store, at, t, from);
    Ok(())
}

// The book of instrument i takes an entry, or refuses it and stays.
#[tactic(auto, unfolding(crate::specs::Gives::apply_s))]
fn apply(store: &mut [u64], i: usize, u: Update) -> Result<(), Breach>
    requires { (store_size ≤ length store.old) × (i < 16) }
    ensures { taken (breach_number result) store.new ≡ apply_s i u store.old }
{
    let at = i * store::BOOK;
    match u.what {
        book::BID => on_side(store, store::BIDS + at, u),
        book::OFFER => on_side(store, store::OFFERS + at, u),
        _ => {
            cells::zero_run(store, store::BIDS + at, store::BOOK);
            Ok(())
        }
    }
}

// Instrument i breaks for a reason.
// Kept: the reason is a number and no Breach, since `break_s` says it of every number and docs/CONTRACTS.md names the function.
pub fn break_off(store: &mut [u64], h: Heading, i: usize, reason: u64) -> Heading
    requires { (store_size ≤ length store.old) × (i < 16) }
    ensures { st result store.new ≡ break_s i reason (st h store.old) }
{
    cells::zero_run(store, store::BIDS + i * store::BOOK, store::BOOK);
    store[store::REASONS + i * store::RECORD] = reason;
    h.wait(i)
}

// An entry, to instrument i if that is Live.
fn give_to(store: &mut [u64], h: Heading, i: usize, u: Update) -> Heading
    requires { (store_size ≤ length store.old) × (i < 16) }
    ensures { st result store.new ≡ give_to_s i u (st h store.old) }
{
    if h.waits(i) {
        return h;
    }
    match apply(store, i, u) {
        Ok(()) => h,
        Err(why) => break_off(store, h, i, u64::from(why)),
    }
}

// An entry, to each of the first k instruments that is Live.
#[tactic(auto, unfolding(crate::specs::Gives::give_each_s))]
fn give_each(store: &mut [u64], h: Heading, k: usize, u: Update) -> Heading
    requires { (store_size ≤ length store.old) × (k ≤ 16) }
    ensures { st result store.new ≡ give_each_s k u (st h store.old) }
{
    let mut g = h;
    for i in 0..k {
        g = give_to(store, g, i, u);
    }
    g
}

// An entry: one for all to all that are followed, any other to its instrument if that is followed.
#[tactic(auto, unfolding(crate::specs::Gives::give_s))]
fn give(store: &mut [u64], h: Heading, u: Update) -> Heading
    requires { (store_size ≤ length store.old) × (h.followed ≤ 16) }
    ensures { st result store.new ≡ give_s u (st h store.old) }
{
    if u.what == book::J_FOR_ALL {
        return give_each(store, h, h.followed, u);
    }
    if h.followed as u64 <= u.who {
        return h;
    }
    give_to(store, h, u.who as usize, u)
}

// The entries of a message, in order.
#[tactic(auto, using(cells::proofs::Runs::none_left), unfolding(crate::specs::Gives::give_all_s))]
pub fn give_all(store: &mut [u64], h: Heading, us: Updates) -> Heading
    requires { Formed (st h store.old) }
    ensures { st result store.new ≡ give_all_s (updates_of us.entry) (st h store.old) }
{
    let mut g = h;
    for i in 0..us.count {
        g = give(store, g, us.at(i));
    }
    g
}
