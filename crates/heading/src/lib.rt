// A channel's heading by value: H, B, the heard moment, the marks, the length of the queue (document 01, "Numbers, queue
// and marks"). Its methods take it, count a number, let the queue go, and hand it back.
#![tactic(auto)]

ghost use Rattle.std.specs.Prelude.{◌≡◌, ◌≤◌, ◌<◌};
ghost use Rattle.heading.specs.Marks.{marked, marked_in, with_mark, without_mark};
ghost use Rattle.heading.specs.Headings.{counted_to, let_go, gap_at, marks_now, queued_more};

// depth: 0 order depth, 1 price depth. followed: how many instruments. number: H. base: B. heard: the moment of message H.
// marks: one bit an instrument, 1 for Waiting. queued: how many entries the queue holds.
// Kept: depth is a number and no enum, here and in each function that takes one, since `store::load_heading` says with `heading_at` that number
// of any store, also one above 1, and the readers and writers answer for every number, as `values_of` and `entry_fields` say.
#[derive(Clone, Copy)]
pub struct Heading {
    pub depth: u64,
    pub followed: usize,
    pub number: u64,
    pub base: u64,
    pub heard: u64,
    pub marks: u16,
    pub queued: usize,
}

// Whether mark i of m is set.
// Kept: `i < 16` is a clause, here and in the crates above, since docs/CONTRACTS.md names these functions as ones that take a number below 16,
// and a type of index would ask more of their callers.
#[tactic(auto, unfolding(crate::specs::Marks::marked))]
pub fn marked(m: u16, i: usize) -> bool
    requires { i < 16 }
    ensures { result ≡ marked m i }
{
    (m >> i) % 2 == 1
}

// m with mark i set.
#[tactic(auto, using(crate::proofs::Bits::power), unfolding(crate::specs::Marks::with_mark))]
pub fn with_mark(m: u16, i: usize) -> u16
    requires { i < 16 }
    ensures { result ≡ with_mark m i }
{
    m | (1u16 << i)
}

impl Heading {
    // A number is counted: H and the heard moment are taken.
    pub fn count(self, n: u64, heard: u64) -> Heading
        ensures { result ≡ counted_to self n heard }
    {
        Heading {
            number: n,
            heard,
            ..self
        }
    }

    // The queue is let go: B becomes H.
    pub fn let_go(self) -> Heading
        ensures { result ≡ let_go self }
    {
        Heading {
            base: self.number,
            queued: 0,
            ..self
        }
    }

    // A gap before n: all Waiting, the queue emptied, B the number less one.
    #[tactic(auto, unfolding(crate::specs::Marks::all_marks))]
    pub fn gap(self, n: u64) -> Heading
        requires { (1 ≤ n) × (1 ≤ self.followed) × (self.followed ≤ 16) }
        ensures { result ≡ gap_at self n }
    {
        Heading {
            base: n - 1,
            marks: u16::MAX >> (16 - self.followed),
            queued: 0,
            ..self
        }
    }

    // Whether instrument i is Waiting.
    pub fn waits(self, i: usize) -> bool
        requires { i < 16 }
        ensures { result ≡ marked self.marks i }
    {
        marked(self.marks, i)
    }

    // Instrument i is Waiting from now on.
    pub fn wait(self, i: usize) -> Heading
        requires { i < 16 }
        ensures { result ≡ marks_now self (with_mark self.marks i) }
    {
        Heading {
            marks: with_mark(self.marks, i),
            ..self
        }
    }

    // Instrument i is Live from now on.
    #[tactic(auto, using(crate::proofs::Bits::power), unfolding(crate::specs::Marks::without_mark))]
    pub fn live(self, i: usize) -> Heading
        requires { i < 16 }
        ensures { result ≡ marks_now self (without_mark self.marks i) }
    {
        Heading {
            marks: self.marks & !(1u16 << i),
            ..self
        }
    }

    // How many instruments are Waiting: the ones of the marks.
    #[tactic(auto, using(crate::proofs::Bits::ones_marked))]
    pub fn waiting(self) -> u32
        ensures { result ≡ marked_in self.marks 16 }
    {
        self.marks.count_ones()
    }

    // One more entry is queued.
    pub fn more(self) -> Heading
        requires { self.queued < 256 }
        ensures { result ≡ queued_more self }
    {
        Heading {
            queued: self.queued + 1,
            ..self
        }
    }
}
