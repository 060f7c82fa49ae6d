// The sides of a store tested by column (document 01, "The store is unsound when .."): many numbers of one kind are joined by `|` and
// compared once. Where that passes it settles every place; where it doesn't it says nothing, and crate scan tests place by place.
#![tactic(auto)]

ghost use Rattle.std.specs.Prelude.{◌≡◌, ◌+◌, ◌-◌, ◌*◌, ◌≤◌, true, ◌&&◌, length, if◌then◌else◌, ◌==◌, nat_lt, IfSome};
ghost use Rattle.store.specs.Layout.{store_size, side_spare};
ghost use Rattle.sides.specs.Side.{all_zero};
ghost use Rattle.sweep.specs.Quick.{Spans, fits, joined, Alone, Joins, Keeps, few_of, Sides, Settles, settled_to};
ghost use Rattle.cells.specs.Cells.{side_size};

use sides::Limits;
use std::ops::BitOr;

// The numbers of four places.
const FOUR: usize = 20;

// Many places by column: each column's numbers, less the least that they may be, joined by `|`. `even` and `odd` have the second words
// that stand beside a first one of fewer than 8 bytes. In this order the compiler takes neighbours two at a time.
#[derive(Clone, Copy, Default)]
struct Columns {
    size: u64,
    by: u64,
    more: u64,
    moment: u64,
    even: u64,
    odd: u64,
    price: u64,
}

impl Columns {
    // Whether they stay within what every place must.
    #[tactic(auto, unfolding(crate::specs::Quick::fits))]
    fn fit(self) -> bool
        ensures { result ≡ fits self }
    {
        (self.price <= holding::MOST_HELD)
            & (self.size < sides::MOST_SIZE)
            & (self.moment < sides::MOMENTS)
            & (self.even == 0)
            & (self.odd == 0)
    }
}

// Joined column by column.
impl BitOr for Columns {
    type Output = Columns;

    ghost bitor_gives = { λ c d r. r ≡ joined c d };

    fn bitor(self, more: Columns) -> Columns {
        Columns {
            size: self.size | more.size,
            by: self.by | more.by,
            more: self.more | more.more,
            moment: self.moment | more.moment,
            even: self.even | more.even,
            odd: self.odd | more.odd,
            price: self.price | more.price,
        }
    }
}

// How order ids are taken: `by` is at least `low`, and `more` at most `top`. Where some ids are shorter than 8 bytes and others longer,
// they are mixed, and the two are held against each other.
#[derive(Clone, Copy)]
struct Way {
    low: u64,
    top: u64,
    mixed: bool,
}

// The columns of the sides up to the index `upto`, and what else must be 0 in them.
#[derive(Clone, Copy)]
struct Swept {
    columns: Columns,
    rest: u64,
    upto: usize,
}

// Four numbers of a column, each less `low`, joined by `|`: none of them is further above `low` than that, since one below `low`
// wraps to the top of 64 bits.
fn four(store: &[u64], at: usize, low: u64) -> u64
    requires { at + 16 ≤ length store.now }
    ensures { Spans store.now at low result }
{
    let a = store[at].wrapping_sub(low);
    let b = store[at + 5].wrapping_sub(low);
    let c = store[at + 10].wrapping_sub(low);
    let d = store[at + 15].wrapping_sub(low);
    (a | b) | (c | d)
}

// The second word of an order id, or 0 beside a first one of 8 bytes.
fn beside(by: u64, more: u64, full: u64) -> u64
    ensures { result ≡ (if nat_lt by full then more else 0) }
{
    if by < full { more } else { 0 }
}

// Those of the places at `at` and two behind it, joined by `|`.
#[tactic(auto, using(crate::proofs::Columned::or_l, crate::proofs::Columned::or_r))]
fn two(store: &[u64], at: usize, full: u64) -> u64
    requires { at + 15 ≤ length store.now }
    ensures { result ≡ 0 → Alone full store.now at × Alone full store.now (at + 10) }
{
    let a = beside(store[at + 2], store[at + 3], full);
    let b = beside(store[at + 12], store[at + 13], full);
    a | b
}

// Four more places: enough in a row for the compiler to take neighbours as one. Where words are MIXED, the second ones are held
// against the first ones. Each way is a loop of its own, since a test in it would keep the compiler from taking neighbours as one.
fn turn<const MIXED: bool>(store: &[u64], at: usize, low: u64, full: u64, c: Columns) -> Columns
    requires { at + 20 ≤ length store.now }
    ensures { Joins store.now at 4 low full MIXED c result }
{
    let price = four(store, at, 0);
    let size = four(store, at + 1, 1);
    let by = four(store, at + 2, low);
    let more = four(store, at + 3, 0);
    let moment = four(store, at + 4, 0);
    let (even, odd) = if MIXED {
        (two(store, at, full), two(store, at + 5, full))
    } else {
        (0, 0)
    };
    c | Columns {
        size,
        by,
        more,
        moment,
        even,
        odd,
        price,
    }
}

// n fours of places.
#[tactic(auto, using(crate::proofs::Columned::joins_none, crate::proofs::Columned::joins_more))]
fn fours<const MIXED: bool>(
    store: &[u64],
    at: usize,
    n: usize,
    low: u64,
    full: u64,
    c: Columns,
) -> Columns
    requires { (at + n * 20 ≤ length store.now) × (n ≤ 5) }
    ensures { Joins store.now at (n * 4) low full MIXED c result }
{
    let mut acc = c;
    for i in 0..n {
        acc = turn::<MIXED>(store, at + i * FOUR, low, full, acc);
    }
    acc
}

// n places of a side in fours, unless they are too few. The last four overlap those before them where n is no multiple of 4:
// joined twice is joined.
#[tactic(auto, using(crate::proofs::Columned::joins_none, crate::proofs::Columned::joins_more, crate::proofs::Columned::few_all, crate::proofs::Columned::few_none))]
fn held<const MIXED: bool>(
    store: &[u64],
    at: usize,
    n: usize,
    low: u64,
    full: u64,
    c: Columns,
) -> Columns
    requires { (at + n * 5 ≤ length store.now) × (n ≤ 20) }
    ensures { Joins store.now at (n - few_of n) low full MIXED c result }
{
    if n < 4 {
        return c;
    }
    let acc = fours::<MIXED>(store, at, n / 4, low, full, c);
    if n % 4 == 0 {
        return acc;
    }
    turn::<MIXED>(store, at + (n - 4) * cells::ENTRY, low, full, acc)
}

// n places of a side, in the way that is asked for.
fn taken(store: &[u64], at: usize, n: usize, way: Way, full: u64, c: Columns) -> Columns
    requires { (at + n * 5 ≤ length store.now) × (n ≤ 20) }
    ensures { Joins store.now at (n - few_of n) way.low full way.mixed c result }
{
    if way.mixed {
        held::<true>(store, at, n, way.low, full, c)
    } else {
        held::<false>(store, at, n, way.low, full, c)
    }
}

// How many of a side's n places are too few for a four.
#[tactic(auto, unfolding(crate::specs::Quick::few_of))]
fn few(n: usize) -> usize
    ensures { (result ≡ few_of n) × (result ≤ n) }
{
    if n < 4 { n } else { 0 }
}

// What is behind the n places of a side, joined by `|`.
#[tactic(auto, using(sides::proofs::Each::or_zero))]
fn behind(store: &[u64], at: usize, n: usize) -> u64
    requires { (at + 128 ≤ length store.now) × (n ≤ 20) }
    ensures { (result == 0) ≡ all_zero store.now (at + 1 + n * 5) (100 - n * 5) && all_zero store.now (at + side_size) side_spare }
{
    let unused = sides::joined(
        store,
        at + 1 + n * cells::ENTRY,
        store::PLACES_SIZE - n * cells::ENTRY,
    );
    let spare = sides::joined(store, at + store::SIDE_SPARE, store::SIDE_SPARE_SIZE);
    unused | spare
}

// The sides from the index `from` up to `to`, their places taken by column, so that each column of all sides is tested once. It stops
// before a side whose order ids don't go the way that is asked for: what comes is of the sides before it. None where a side isn't
// sound in what is seen of it alone. Where the tests don't pass it says nothing: numbers that lie within a limit may reach above it
// when they are joined.
fn sweep(
    store: &[u64],
    marks: u64,
    from: usize,
    to: usize,
    way: Way,
    limits: Limits,
) -> Option<Swept>
    requires { (store_size ≤ length store.now) × (to ≤ 32) × (way.low ≤ limits.most) }
    ensures { IfSome result (Settles way limits.most limits.full marks store.now from) }
{
    let span = limits.most - way.low;
    let mut c = Columns::default();
    let mut rest = 0;
    for j in from..to {
        let at = store::BIDS + j * store::SIDE;
        let n = store[at] as usize;
        if sides::room_of(marks, j / 2) < n {
            return None;
        }
        c = taken(store, at + 1, n, way, limits.full, c);
        if !sides::places(store, at + 1, few(n), limits) {
            return None;
        }
        // Joined before the test: behind it, the scan of a store has 2 % more instructions.
        let seen = rest | behind(store, at, n);
        if (span < c.by) | (way.top < c.more) {
            return Some(Swept {
                columns: c,
                rest,
                upto: j,
            });
        }
        rest = seen;
    }
    Some(Swept {
        columns: c,
        rest,
        upto: to,
    })
}

// The index of the side up to which what was swept from `from` on settles it.
fn settled(swept: Option<Swept>, from: usize) -> usize
    ensures { result ≡ settled_to swept from }
{
    match swept {
        Some(s) if s.columns.fit() & (s.rest == 0) => s.upto,
        _ => from,
    }
}

// Where the places of the first of n sides start that holds a four, or those of the first side.
fn first_four(store: &[u64], n: usize) -> usize
    requires { (store_size ≤ length store.now) × (n ≤ 32) }
    ensures { result ≤ 4129 }
{
    for j in 0..n {
        let at = store::BIDS + j * store::SIDE;
        if 4 <= store[at] {
            return at + 1;
        }
    }
    store::BIDS + 1
}

// Words are mixed.
fn mixed_way(limits: Limits) -> Way
    requires { 1 ≤ limits.most }
    ensures { Keeps result limits.most limits.full }
{
    Way {
        low: 1,
        top: limits.most,
        mixed: true,
    }
}

// The way that a four suggests for all: no id has a second word; or the first word of each has 8 bytes; or they are mixed. `by` has
// `full` taken off.
#[tactic(auto, using(crate::proofs::Columned::limits_short))]
fn way_like(by: u64, more: u64, limits: Limits) -> Way
    requires { 1 ≤ limits.most }
    ensures { Keeps result limits.most limits.full }
{
    if more == 0 || limits.full < 1 || limits.most < limits.full {
        return Way {
            low: 1,
            top: 0,
            mixed: false,
        };
    }
    if limits.most - limits.full < by {
        return mixed_way(limits);
    }
    Way {
        low: limits.full,
        top: limits.most,
        mixed: false,
    }
}

// The way that the first four of n sides suggests.
fn way_of(store: &[u64], n: usize, limits: Limits) -> Way
    requires { (store_size ≤ length store.now) × (n ≤ 32) × (1 ≤ limits.most) }
    ensures { Keeps result limits.most limits.full }
{
    let at = first_four(store, n);
    let by = four(store, at + 2, limits.full);
    let more = four(store, at + 3, 0);
    way_like(by, more, limits)
}

// Whether the first n sides are sound: in the way that the first four suggests as far as that goes, and in the mixed one from there
// on. False says nothing.
#[tactic(auto, using(crate::proofs::Columned::settles, crate::proofs::Columned::sides_join))]
pub fn tried(store: &[u64], marks: u64, n: usize, limits: Limits) -> bool
    requires { (store_size ≤ length store.now) × (n ≤ 32) × (1 ≤ limits.most) }
    ensures { result ≡ true → Sides limits.most limits.full marks store.now 0 n }
{
    let way = way_of(store, n, limits);
    let first = settled(sweep(store, marks, 0, n, way, limits), 0);
    if first == n {
        return true;
    }
    let mixed = mixed_way(limits);
    settled(sweep(store, marks, first, n, mixed, limits), first) == n
}
