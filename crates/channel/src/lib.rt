// A message that was read, given to the board in the store (document 01, "Numbers, queue and marks"): a number is counted,
// a snapshot taken or refused, and a message that could not be read changes nothing.
#![tactic(auto)]

ghost use Rattle.std.specs.Prelude.{◌≡◌, ◌*◌, ◌≤◌, length};
ghost use Rattle.cells.specs.Runs.{update_size, updates_in};
ghost use Rattle.message.specs.Message.{says, said, count_in};
ghost use Rattle.message.specs.Answers.{number_of};
ghost use Rattle.store.specs.Layout.{store_size};
ghost use Rattle.store.specs.Meaning.{st};
ghost use Rattle.store.specs.Canon.{Canon};
ghost use Rattle.channel.specs.Feeds.{index_in, Aims, Feeds};

use cells::run::Updates;
use heading::Heading;
use message::{Kind, Reading, Refusal};
use store::Fed;

// The index of the instrument that an entry names, or 0 where it is for all.
fn index(store: &[u64], h: Heading, id: u64, what: u64) -> usize
    requires { (store_size ≤ length store.now) × (h.followed ≤ 16) }
    ensures { result ≡ index_in (st h store.now) id what }
{
    if what == book::J_FOR_ALL {
        return 0;
    }
    store::find(store, h, id)
}

// The first `count` entries of a run get the index of their instrument for the SecurityID.
fn aim(store: &[u64], h: Heading, run: &mut [u64], count: usize)
    requires { (store_size ≤ length store.now) × (h.followed ≤ 16) × (count * update_size ≤ length run.old) }
    ensures { Aims (st h store.now) count run.old run.new }
{
    for i in 0..count {
        let at = i * cells::UPDATE;
        let k = index(store, h, run[at], run[at + cells::UPDATE_WHAT]);
        run[at] = k as u64;
    }
}

// A message that was read, on the same. Its entries are aimed where they stand.
fn feed_reading(store: &mut [u64], h: Heading, r: Reading, run: &mut [u64]) -> Fed
    requires { Canon (st h store.old) × (r.count * update_size ≤ length run.old) }
    ensures feeds { Feeds (says r (updates_in run.old r.count)) (st h store.old) (number_of result.answer) (st result.head store.new) }
    ensures aims { Aims (st h store.old) r.count run.old run.new }
{
    aim(store, h, run, r.count);
    let us = Updates {
        run,
        count: r.count,
    };
    match r.kind {
        Kind::Numbered => count::number(store, h, r.number, r.heard, us),
        Kind::Snapshot => kept::snapshot(store, h, r.head(), us),
    }
}

// The message that the reader's answer and the entries in a run say, on the board that the heading and the store are. The
// entries are aimed where they stand.
pub fn feed_read(store: &mut [u64], h: Heading, r: Result<Reading, Refusal>, run: &mut [u64]) -> Fed
    requires { Canon (st h store.old) × (count_in r * update_size ≤ length run.old) }
    ensures feeds { Feeds (said r (updates_in run.old (count_in r))) (st h store.old) (number_of result.answer) (st result.head store.new) }
    ensures aims { Aims (st h store.old) (count_in r) run.old run.new }
{
    match r {
        Ok(r) => feed_reading(store, h, r, run),
        Err(why) => kept::unread(h, why),
    }
}
