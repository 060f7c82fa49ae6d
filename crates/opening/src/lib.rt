// Opening (document 01): it doesn't read the old store; it takes the depth kind and 1 to 16 distinct SecurityIDs.
#![tactic(auto)]

ghost use Rattle.std.specs.Prelude.{◌≡◌, true, ◌++◌, ◌≤◌, length, drop};
ghost use Rattle.board.specs.Ranges.{all, id_fine};
ghost use Rattle.board.specs.Sound.{opens};
ghost use Rattle.loops.specs.Calls.{opened_channel};
ghost use Rattle.store.specs.Layout.{store_size};
ghost use Rattle.store.specs.Meaning.{written};
ghost use Rattle.opening.specs.Opening.{Opened};
ghost use Rattle.opening.specs.Steps.{fresh_heading, ids_in};

use heading::Heading;

// The depth kind is 0 or 1.
const MOST_DEPTH: u64 = 1;

// Whether each SecurityID is in range.
fn ids_fine(ids: &[u64]) -> bool
    ensures { result ≡ all id_fine ids.now }
{
    ids.iter().all(|id| book::is_id(*id))
}

// Whether opening takes them.
#[tactic(auto, using(crate::proofs::Written::apart_all))]
fn takes(depth: u64, ids: &[u64]) -> bool
    ensures { result ≡ opens depth ids.now }
{
    let n = ids.len();
    if MOST_DEPTH < depth || n < 1 || store::MOST_INSTS < n {
        return false;
    }
    scan::apart(ids, 0, 1, n) && ids_fine(ids)
}

// The heading at opening: H and B are 0, all n instruments are Waiting.
#[tactic(auto, unfolding(heading::specs::Marks::all_marks))]
fn fresh(depth: u64, n: usize) -> Heading
    requires { (1 ≤ n) × (n ≤ 16) }
    ensures { result ≡ fresh_heading depth n }
{
    Heading {
        depth,
        followed: n,
        number: 0,
        base: 0,
        heard: 0,
        marks: u16::MAX >> (16 - n),
        queued: 0,
    }
}

// The SecurityIDs into their records.
fn put_ids(store: &mut [u64], ids: &[u64])
    requires { (store_size ≤ length store.old) × (length ids.now ≤ 16) }
    ensures { store.new ≡ ids_in store.old 0 ids.now }
{
    for (i, id) in ids.iter().enumerate() {
        store[store::IDS + i * store::RECORD] = *id;
    }
}

// The opened channel's numbers, all 7,168 of them.
#[tactic(auto, using(crate::proofs::Written::length_ids, crate::proofs::Written::opens_some))]
fn write(store: &mut [u64], depth: u64, ids: &[u64])
    requires { (store_size ≤ length store.old) × (opens depth ids.now ≡ true) }
    ensures { store.new ≡ written (opened_channel depth ids.now) ++ drop store_size store.old }
{
    let h = fresh(depth, ids.len());
    cells::zero_run(store, 0, store::STORE);
    store[store::AT_LAYOUT] = store::LAYOUT;
    store::save_heading(store, h);
    put_ids(store, ids);
}

// Opens the store: 17, then 18, else 0. A refusal changes nothing, and nothing beyond the 7,168 numbers changes.
// Kept: a number and no Result, since `selkavorn_open` alone calls it, for C, and `Opened` says document 01's number.
#[tactic(auto, unfolding(crate::specs::Opening::open_answer, crate::specs::Opening::open_store))]
pub fn open_store(store: &mut [u64], depth: u64, ids: &[u64]) -> u64
    ensures { Opened depth ids.now store.old result store.new }
{
    if store.len() < store::STORE {
        return store::BAD_STORE;
    }
    if !takes(depth, ids) {
        return store::BAD_ARGUMENT;
    }
    write(store, depth, ids);
    store::DONE
}
