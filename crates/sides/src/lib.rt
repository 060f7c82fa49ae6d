// A side's numbers tested one by one (document 01, "The store is unsound when .."): runs of zeros, entries, the places that a side
// holds and what is behind them. Every call of the library pays for these tests.
// Kept: the store and a place in it stay two parameters, here and in crates sweep and scan: `entry_scan`, `side_scan` and what is proved of
// them test a store by position, and a part that is lent would have to be tied to the whole at each call.
#![tactic(auto)]

ghost use Rattle.std.specs.Prelude.{◌≡◌, ℕ, ◌+◌, ◌*◌, ◌≤◌, ◌<◌, eqb, length};
ghost use Rattle.sides.specs.Side.{each, all_zero, more_to, entry_scan, side_scan, room_of};

// 271.
pub const MOST_SIZE: u64 = 999999999999;

// A moment is below this many.
pub const MOMENTS: u64 = 320829012000000;

// The limits of an entry's `by` and `more` on a depth kind: `by` is at most `most`, and `more` too, but 0 beside a `by` below `full`.
// Kept: that `most` isn't 0 is asked by crates sweep and scan and no ghost field, since `entry`, `places` and `side` take any limits.
#[derive(Clone, Copy)]
pub struct Limits {
    pub most: u64,
    pub full: u64,
}

impl Limits {
    // The most that `more` may be beside `by`.
    #[tactic(auto, unfolding(crate::specs::Side::more_to))]
    fn more_to(self, by: u64) -> u64
        ensures { result ≡ more_to self.most self.full by }
    {
        if by < self.full { 0 } else { self.most }
    }
}

// The n numbers from `at` on joined by `|`, with no way out of the loop: several are taken at a time.
#[tactic(auto, using(crate::proofs::Each::zero_none, crate::proofs::Each::part_long, crate::proofs::Each::part_turn))]
pub fn joined(store: &[u64], at: usize, n: usize) -> u64
    requires { at + n ≤ length store.now }
    ensures { eqb result 0 ≡ all_zero store.now at n }
{
    let mut acc = 0;
    for x in &store[at..at + n] {
        acc |= *x;
    }
    acc
}

// Whether the n numbers from `at` on are zero.
pub fn zero(store: &[u64], at: usize, n: usize) -> bool
    requires { at + n ≤ length store.now }
    ensures { result ≡ all_zero store.now at n }
{
    joined(store, at, n) == 0
}

// The same of a long run: its quarters side by side, so that a join need not wait for the one before it.
// Kept: as one run, by `zero`, the scan of a store has 15 % more instructions.
#[tactic(auto, using(crate::proofs::Each::zero_none, crate::proofs::Each::zero_turn))]
pub fn zeros(store: &[u64], at: usize, n: usize) -> bool
    requires { at + n ≤ length store.now }
    ensures { result ≡ all_zero store.now at n }
{
    let h = n / 4;
    let second = at + h;
    let third = second + h;
    let fourth = third + h;
    let mut a = 0;
    let mut b = 0;
    let mut c = 0;
    let mut d = 0;
    for i in 0..h {
        a |= store[at + i];
        b |= store[second + i];
        c |= store[third + i];
        d |= store[fourth + i];
    }
    let last = zero(store, fourth + h, n - 4 * h);
    (a == 0) & (b == 0) & (c == 0) & (d == 0) & last
}

// An entry that is used. Each test leaves by itself: a sound store passes them all, so the processor foresees them.
#[tactic(auto, unfolding(crate::specs::Side::entry_scan))]
pub fn entry(store: &[u64], at: usize, limits: Limits) -> bool
    requires { at + 5 ≤ length store.now }
    ensures { result ≡ entry_scan limits.most limits.full store.now at }
{
    if holding::MOST_HELD < store[at] {
        return false;
    }
    let size = store[at + 1];
    if (size < 1) | (MOST_SIZE < size) {
        return false;
    }
    let by = store[at + 2];
    if (by < 1) | (limits.most < by) {
        return false;
    }
    if limits.more_to(by) < store[at + 3] {
        return false;
    }
    store[at + 4] < MOMENTS
}

// n places from `at` on. By `all` in place of the loop, the scan of a store has 3 % more instructions.
#[tactic(auto, using(crate::proofs::Each::each_none, crate::proofs::Each::each_more))]
pub fn places(store: &[u64], at: usize, n: usize, limits: Limits) -> bool
    requires { at + n * 5 ≤ length store.now }
    ensures { result ≡ each (λ (k : ℕ). entry_scan limits.most limits.full store.now (at + k * 5)) n }
{
    for i in 0..n {
        if !entry(store, at + i * cells::ENTRY, limits) {
            return false;
        }
    }
    true
}

// The places of instrument i: none where it is Waiting.
#[tactic(auto, unfolding(crate::specs::Side::room_of, heading::specs::Marks::marked))]
pub fn room_of(marks: u64, i: usize) -> usize
    requires { i < 16 }
    ensures { (result ≡ room_of marks i) × (result ≤ 20) }
{
    if (marks >> i) % 2 == 1 {
        0
    } else {
        book::PLACES
    }
}

// A side with room for so many places.
#[tactic(auto, unfolding(crate::specs::Side::side_scan))]
pub fn side(store: &[u64], at: usize, room: usize, limits: Limits) -> bool
    requires { (at + 128 ≤ length store.now) × (room ≤ 20) }
    ensures { result ≡ side_scan room limits.most limits.full store.now at }
{
    let n = store[at] as usize;
    if room < n || !places(store, at + 1, n, limits) {
        return false;
    }
    let unused = zero(
        store,
        at + 1 + n * cells::ENTRY,
        store::PLACES_SIZE - n * cells::ENTRY,
    );
    let spare = zero(store, at + store::SIDE_SPARE, store::SIDE_SPARE_SIZE);
    unused & spare
}
