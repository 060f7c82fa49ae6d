// The lent store: where everything stands in it (document 01, "All books live in one lent run of 64-bit numbers"), its
// heading and its loop's record read and saved, an instrument found, a gap.
#![tactic(auto)]

ghost use Rattle.std.specs.Prelude.{◌≡◌, ◌≤◌, ◌<◌, length, get_or};
ghost use Rattle.std.proofs.lemmas.List.Edits.{sets};
ghost use Rattle.board.specs.Board.{look};
ghost use Rattle.store.specs.Layout.{store_size, at_depth, at_marks, at_named};
ghost use Rattle.store.specs.Meaning.{heading_at, head_words, loop_at, with_loop, st, board_in};
ghost use Rattle.store.specs.Steps.{gap_s};

use heading::Heading;
use loops::Loop;
use message::Answer;

// The store's numbers.
pub const STORE: usize = 7168;

// The number of this layout, and where it stands.
pub const LAYOUT: u64 = 4603;

pub const AT_LAYOUT: usize = 0;

// The heading's numbers, behind the layout's own.
pub const DEPTH: usize = 1;

pub const FOLLOWED: usize = 2;

pub const NUMBER: usize = 3;

pub const BASE: usize = 4;

pub const HEARD: usize = 5;

pub const MARKS: usize = 6;

pub const QUEUED: usize = 7;

// The record of the loop of snapshots, behind the heading: 911, how many have come, the lowest 369, the named.
pub const LOOPS: usize = 8;

pub const COME: usize = 9;

pub const LOW: usize = 10;

pub const NAMED: usize = 11;

// The spare numbers behind it: where they start, and how many there are.
pub const HEADING_SPARE: usize = 12;

pub const HEADING_SPARE_SIZE: usize = 20;

// A channel follows at most so many instruments.
pub const MOST_INSTS: usize = 16;

// The instruments' records: where the SecurityIDs and the reasons start, how far apart they stand, and how many numbers they take.
pub const IDS: usize = 32;

pub const REASONS: usize = 33;

pub const RECORD: usize = 8;

pub const RECORDS_SIZE: usize = 128;

// The books: where the bids and the offers start, how far apart a book's numbers stand, and how many numbers they take.
pub const BIDS: usize = 160;

pub const OFFERS: usize = 288;

pub const BOOK: usize = 256;

pub const BOOKS_SIZE: usize = 4096;

// A side: how many numbers it takes, and its places; where its spare numbers start, and how many there are.
pub const SIDE: usize = 128;

pub const PLACES_SIZE: usize = 100;

pub const SIDE_SPARE: usize = cells::SIDE;

pub const SIDE_SPARE_SIZE: usize = 27;

// The queue: where it starts, how far apart its entries stand, how many numbers it takes, alone and with the spare ones behind it,
// and how many entries it holds at most.
pub const QUEUE: usize = 4256;

pub const SLOT: usize = 11;

pub const QUEUE_SIZE: usize = 2816;

pub const QUEUE_AND_SPARE_SIZE: usize = 2912;

pub const MOST_QUEUED: usize = 256;

// The books and the queue are one run.
const BOOKS_AND_QUEUE: usize = 6912;

// Answers of document 01 that several calls give: done; the store is under 7,168 numbers or unsound; an argument is outside its
// range; the instrument is not followed; it is Waiting.
// Kept: these are the numbers that the C functions answer (include/selkavorn.h).
pub const DONE: u64 = 0;

pub const BAD_STORE: u64 = 17;

pub const BAD_ARGUMENT: u64 = 18;

pub const NOT_FOLLOWED: u64 = 20;

pub const WAITING: u64 = 21;

// What a call answers, and the heading that goes with the store it leaves.
#[derive(Clone, Copy)]
pub struct Fed {
    pub head: Heading,
    pub answer: Answer,
}

// The heading that stands in the store.
// Kept: the store's length is a clause and no type, here and above: C lends a slice, whose length the exported functions test; a struct round it
// needs a second clause in each function, as crate text shows, and an array of 7,168 would not do, since a lent store may be longer.
pub fn load_heading(store: &[u64]) -> Heading
    requires { (store_size ≤ length store.now) × (get_or store.now at_marks 0 < 65536) }
    ensures { result ≡ heading_at store.now }
{
    Heading {
        depth: store[DEPTH],
        followed: store[FOLLOWED] as usize,
        number: store[NUMBER],
        base: store[BASE],
        heard: store[HEARD],
        marks: store[MARKS] as u16,
        queued: store[QUEUED] as usize,
    }
}

pub fn save_heading(store: &mut [u64], h: Heading)
    requires { store_size ≤ length store.old }
    ensures { store.new ≡ sets store.old at_depth (head_words h) }
{
    store[DEPTH] = h.depth;
    store[FOLLOWED] = h.followed as u64;
    store[NUMBER] = h.number;
    store[BASE] = h.base;
    store[HEARD] = h.heard;
    store[MARKS] = u64::from(h.marks);
    store[QUEUED] = h.queued as u64;
}

pub fn load_loop(store: &[u64]) -> Loop
    requires { (store_size ≤ length store.now) × (get_or store.now at_named 0 < 65536) }
    ensures { result ≡ loop_at store.now }
{
    Loop {
        loops: store[LOOPS],
        come: store[COME],
        low: store[LOW],
        named: store[NAMED] as u16,
    }
}

pub fn save_loop(store: &mut [u64], l: Loop)
    requires { store_size ≤ length store.old }
    ensures { store.new ≡ with_loop l store.old }
{
    store[LOOPS] = l.loops;
    store[COME] = l.come;
    store[LOW] = l.low;
    store[NAMED] = u64::from(l.named);
}

// The index of the instrument with this SecurityID, or how many are followed.
// Kept: a number and no Option, since `look` says that number of an instrument that is not followed, and `refusal_of`, `in_row` and the
// contracts of `terms`, `taking` and `loops` take it as it is.
#[tactic(auto, using(cells::proofs::Tables::tab_turn, cells::proofs::Tables::tab_end), unfolding(board::specs::Board::look, crate::specs::Meaning::inst_at, crate::specs::Meaning::board_of))]
pub fn find(store: &[u64], h: Heading, id: u64) -> usize
    requires { (store_size ≤ length store.now) × (h.followed ≤ 16) }
    ensures { (result ≡ look id (board_in (st h store.now)).insts) × (result ≤ h.followed) }
{
    for i in 0..h.followed {
        if store[IDS + i * RECORD] == id {
            return i;
        }
    }
    h.followed
}

// A gap before the number n: all Waiting with empty books, reasons kept, the queue emptied.
pub fn gap(store: &mut [u64], h: Heading, n: u64) -> Heading
    requires { (store_size ≤ length store.old) × (1 ≤ n) × (1 ≤ h.followed) × (h.followed ≤ 16) }
    ensures { st result store.new ≡ gap_s n (st h store.old) }
{
    cells::zero_run(store, BIDS, BOOKS_AND_QUEUE);
    h.gap(n)
}
