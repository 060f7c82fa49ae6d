// The queue, in place in the store (document 01, "Numbers, queue and marks"): a message's entries for followed instruments
// and for all join it; more than 256 let it go, and so does the end of a call after which none waits.
#![tactic(auto)]

ghost use Rattle.std.specs.Prelude.{◌≡◌, cond, ◌+◌, ◌≤◌, ◌<◌, ltb, length};
ghost use Rattle.std.specs.Result.{is_err};
ghost use Rattle.cells.specs.Updates.{updates_of};
ghost use Rattle.store.specs.Layout.{store_size};
ghost use Rattle.store.specs.Meaning.{st};
ghost use Rattle.store.specs.Canon.{Formed};
ghost use Rattle.queue.specs.Joins.{let_go_s, settle_s, join_one_s, join_all_s, how_many, either, Joins};

use book::Update;
use cells::run::Updates;
use heading::Heading;

// The queue is let go: it is emptied, and B becomes H.
pub fn let_go(store: &mut [u64], h: Heading) -> Heading
    requires { store_size ≤ length store.old }
    ensures { st result store.new ≡ let_go_s (st h store.old) }
{
    cells::zero_run(store, store::QUEUE, store::QUEUE_SIZE);
    h.let_go()
}

// At the end of a call: where none waits, the queue is let go.
pub fn settle(store: &mut [u64], h: Heading) -> Heading
    requires { store_size ≤ length store.old }
    ensures { st result store.new ≡ settle_s (st h store.old) }
{
    if h.marks == 0 {
        return let_go(store, h);
    }
    h
}

// One entry of message n.
fn join_one(store: &mut [u64], h: Heading, n: u64, u: Update) -> Heading
    requires { (store_size ≤ length store.old) × (h.queued + cond (ltb u.who h.followed) 1 0 ≤ 256) }
    ensures { st result store.new ≡ join_one_s n u (st h store.old) }
{
    if u.who < h.followed as u64 {
        cells::save_queued(store, store::QUEUE + h.queued * store::SLOT, n, u);
        return h.more();
    }
    h
}

// The entries of message n, for which there is room.
#[tactic(auto, using(cells::proofs::Runs::none_left, crate::proofs::Joining::one_followed, crate::proofs::Joining::one_queued), unfolding(crate::specs::Joins::join_all_s, crate::specs::Joins::how_many))]
fn join_all(store: &mut [u64], h: Heading, n: u64, us: Updates) -> Heading
    requires { (store_size ≤ length store.old) × (h.queued + how_many h.followed (updates_of us) ≤ 256) }
    ensures { st result store.new ≡ join_all_s n (updates_of us.entry) (st h store.old) }
{
    let mut g = h;
    for i in 0..us.count {
        g = join_one(store, g, n, us.at(i));
    }
    g
}

// How many of the entries join: those for the first k instruments, and those for all, whose who is 0.
#[tactic(auto, using(cells::proofs::Runs::none_left, cells::proofs::Runs::next_left), unfolding(crate::specs::Joins::how_many))]
fn how_many(us: Updates, k: usize) -> usize
    ensures { (result ≡ how_many k (updates_of us.entry)) × (result ≤ us.entry.count) }
{
    let followed = k as u64;
    let mut r = 0;
    for i in 0..us.count {
        r += usize::from(us.who(i) < followed);
    }
    r
}

// The entries of message n join the queue; where they would make too many they let it go, and the heading comes as the `Err`.
#[tactic(auto, unfolding(crate::specs::Joins::join_s))]
pub fn join(store: &mut [u64], h: Heading, n: u64, us: Updates) -> Result<Heading, Heading>
    requires { Formed (st h store.old) }
    ensures { Joins n (updates_of us.entry) (st h store.old) (is_err result) (st (either result) store.new) }
{
    let more = how_many(us, h.followed);
    if store::MOST_QUEUED < h.queued + more {
        return Err(let_go(store, h));
    }
    Ok(join_all(store, h, n, us))
}
