// What a snapshot is written from, each part in its range.
ghost use Rattle.std.specs.Prelude.{◌≤◌, ◌<◌, ◌^◌, length};
ghost use Rattle.moment.specs.Moments.{moments};
ghost use Rattle.book.specs.Canonical.{KeptBook, held_in};
ghost use Rattle.line.specs.Entries.{AllWritable};

use book::Book;

// Who writes to whom, message k of a loop of m, at a time.
#[derive(Clone, Copy)]
pub struct Letter<'a> {
    pub sender: &'a [u8],
    pub target: &'a [u8],
    pub k: u64,
    pub m: u64,
    pub time: u64,
    pub ghost sender_short: { length sender.now ≤ 16 },
    pub ghost target_short: { length target.now ≤ 16 },
    pub ghost k_low: { k ≤ 16 },
    pub ghost m_low: { m ≤ 16 },
    pub ghost is_moment: { time < moments },
}

// What is written: the book of the instrument with this SecurityID, with 369 = last. Depth 0 is an order-depth channel.
// Kept: depth is a number and no enum, as the heading has it (`heading::Heading`) and `snapshot_fields`, which `Sent` rests on, says it.
#[derive(Clone, Copy)]
pub struct Sheet<'a> {
    pub depth: u64,
    pub id: u64,
    pub last: u64,
    pub book: &'a Book,
    pub ghost id_low: { id < 10 ^ 18 },
    pub ghost last_low: { last ≤ 4294967295 },
    pub ghost kept: { KeptBook book.now },
    pub ghost bids: { AllWritable (held_in book.now.bids) },
    pub ghost offers: { AllWritable (held_in book.now.offers) },
}
