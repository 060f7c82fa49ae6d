// A snapshot, in place on the store (document 01, "Numbers, queue and marks"): refused before anything is written, or its
// book is set, queued entries for the instrument and for all with numbers above S are applied, and it is Live.
#![tactic(auto)]

ghost use Rattle.std.specs.Prelude.{◌≡◌, ◌≤◌, ◌<◌, length};
ghost use Rattle.book.specs.Results.{turn_from};
ghost use Rattle.book.specs.Canonical.{side_of};
ghost use Rattle.cells.specs.Cells.{tab};
ghost use Rattle.cells.specs.Updates.{updates_of};
ghost use Rattle.message.specs.Answers.{number_of};
ghost use Rattle.board.specs.Snapshot.{entries_of};
ghost use Rattle.store.specs.Layout.{store_size};
ghost use Rattle.store.specs.Meaning.{queued_at, st};
ghost use Rattle.store.specs.Canon.{Formed};
ghost use Rattle.store.specs.Answers.{fed};
ghost use Rattle.taking.specs.Replays.{replay_b, live_s, take_s, take_shown_s, snap_s};

use book::{Book, Breach, Side};
use cells::run::Updates;
use heading::Heading;
use message::Answer;
use store::Fed;

// The first q queued entries on a book, up to the first breach.
#[tactic(auto, using(cells::proofs::Tables::tab_end), unfolding(crate::specs::Replays::replay_b))]
fn replay(store: &[u64], q: usize, i: usize, last: u64, book: Book) -> Result<Book, Breach>
    requires { (store_size ≤ length store.now) × (q ≤ 256) }
    ensures { let t = replay_b i last (tab (queued_at store.now) q) book in turn_from t.book result ≡ t }
{
    let mut b = book;
    for k in 0..q {
        let at = store::QUEUE + k * store::SLOT;
        let says = at + 1;
        if terms::is_due(
            i,
            last,
            store[says],
            store[says + cells::UPDATE_WHAT],
            store[at],
        ) {
            book::work(&mut b, cells::load_update(store, says))?;
        }
    }
    Ok(b)
}

// Instrument i is Live with a book.
fn put_live(store: &mut [u64], h: Heading, i: usize, b: Book) -> Heading
    requires { (store_size ≤ length store.old) × (i < 16) }
    ensures { st result store.new ≡ live_s i b (st h store.old) }
{
    cells::save_side(store, store::BIDS + i * store::BOOK, b.bids);
    cells::save_side(store, store::OFFERS + i * store::BOOK, b.offers);
    store[store::REASONS + i * store::RECORD] = 0;
    h.live(i)
}

// The snapshot of instrument i is taken; a replay that breaks leaves it Waiting with the reason.
#[tactic(auto, using(crate::proofs::Turns::has_reason), unfolding(crate::specs::Replays::take_s))]
fn take(store: &mut [u64], h: Heading, i: usize, last: u64, book: Book) -> Fed
    requires { (store_size ≤ length store.old) × (h.queued ≤ 256) × (i < 16) }
    ensures { fed (number_of result.answer) (st result.head store.new) ≡ take_s i last book (st h store.old) }
{
    match replay(store, h.queued, i, last, book) {
        Ok(b) => {
            let g = put_live(store, h, i, b);
            Fed {
                head: queue::settle(store, g),
                answer: Answer::Taken,
            }
        }
        Err(why) => Fed {
            head: deliver::break_off(store, h, i, u64::from(why)),
            answer: Answer::Broke,
        },
    }
}

// The bids or the offers of a W; a side over 20 keeps its count and its first 20.
fn show(us: Updates, side: u64) -> Side
    ensures { result ≡ side_of (entries_of side (updates_of us.entry)) }
{
    let mut places = [book::no_entry(); book::PLACES];
    let mut n = 0;
    for i in 0..us.count {
        if us.what(i) == side {
            if n < book::PLACES {
                places[n] = us.entry(i);
            }
            n += 1;
        }
    }
    Side { places, held: n }
}

// The snapshot of instrument i, if neither side is over 20.
fn take_shown(store: &mut [u64], h: Heading, i: usize, last: u64, us: Updates) -> Fed
    requires { (store_size ≤ length store.old) × (h.queued ≤ 256) × (i < 16) }
    ensures { fed (number_of result.answer) (st result.head store.new) ≡ take_shown_s i last (updates_of us.entry) (st h store.old) }
{
    let bids = show(us, book::BID);
    let offers = show(us, book::OFFER);
    if book::PLACES < bids.held || book::PLACES < offers.held {
        return Fed {
            head: h,
            answer: Answer::TooWide,
        };
    }
    take(store, h, i, last, Book { bids, offers })
}

// A snapshot for the SecurityID with 369 = last, and its bids and offers.
#[tactic(auto, unfolding(crate::specs::Replays::snap_s))]
pub fn snapshot(store: &mut [u64], h: Heading, id: u64, last: u64, us: Updates) -> Fed
    requires { Formed (st h store.old) }
    ensures { fed (number_of result.answer) (st result.head store.new) ≡ snap_s id last (updates_of us.entry) (st h store.old) }
{
    let i = store::find(store, h, id);
    match terms::refusal(h, i, last) {
        Ok(()) => take_shown(store, h, i, last, us),
        Err(answer) => Fed { head: h, answer },
    }
}
