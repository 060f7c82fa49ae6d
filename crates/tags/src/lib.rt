// Where tags stand in a message (document 01, "Fields"). A place of the message is a run of fields: those before 268, or
// those of an entry. Of the tags that are named only some may stand in it, and none twice. What stands in it is marked
// by the slot of its tag, as a part of the lent bytes, and nothing is read until it is needed.
#![tactic(auto)]

ghost use Rattle.std.specs.Prelude.{None, ◌≡◌, ◌≤◌, ◌<◌, not, eqb, get_or};
ghost use Rattle.tags.specs.Slots.{slot_of, no_marks, text_at, strays};

// The slots, in an order in which what may stand in a place is one run of them. Slots 0 to 3 are those of 8, 9, 35 and
// 10, which may stand in no place.
pub const SEQ: usize = 4;

pub const SENT: usize = 5;

pub const LAST: usize = 6;

pub const LOOPS: usize = 7;

pub const INSTRUMENT: usize = 8;

pub const SOURCE: usize = 9;

pub const MARKET: usize = 10;

pub const ACTION: usize = 11;

pub const SORT: usize = 12;

pub const PRICE: usize = 13;

pub const SIZE: usize = 14;

pub const ORDER: usize = 15;

pub const ORDERS: usize = 16;

pub const DATE: usize = 17;

pub const TIME: usize = 18;

pub const POSITION: usize = 19;

pub const COUNT: usize = 20;

// How many tags are named, and the slot of every other tag.
pub const NAMED: usize = 21;

// Where a value stands: the bytes from..to.
#[derive(Clone, Copy)]
pub struct Span {
    pub from: usize,
    pub to: usize,
}

// Where the values of a place stand, by the slot of their tag.
#[derive(Clone, Copy)]
pub struct Marks {
    pub spans: [Option<Span>; 22],
}

// The values of a place: the lent bytes, and where they stand there.
#[derive(Clone, Copy)]
pub struct Values<'a, 'm> {
    pub text: &'a [u8],
    pub marks: &'m Marks,
}

impl<'a, 'm> Values<'a, 'm> {
    // The value of slot k, or no bytes where there is none.
    #[tactic(auto, unfolding(crate::specs::Slots::text_at))]
    pub fn get(self, k: usize) -> &'a [u8]
        requires { k < 22 }
        ensures { result.now ≡ text_at self.entry.text.now (get_or self.entry.marks.now.spans k None) }
    {
        match self.marks.spans[k] {
            Some(Span { from, to }) if from <= to && to <= self.text.len() => &self.text[from..to],
            _ => &self.text[..0],
        }
    }
}

// The slot of a tag.
#[tactic(auto, unfolding(crate::specs::Slots::slot_of))]
pub fn slot(tag: u64) -> usize
    ensures { (result ≡ slot_of tag) × (result ≤ 21) }
{
    match tag {
        8 => 0,
        9 => 1,
        35 => 2,
        10 => 3,
        34 => SEQ,
        52 => SENT,
        369 => LAST,
        911 => LOOPS,
        48 => INSTRUMENT,
        22 => SOURCE,
        207 => MARKET,
        279 => ACTION,
        269 => SORT,
        270 => PRICE,
        271 => SIZE,
        37 => ORDER,
        346 => ORDERS,
        272 => DATE,
        273 => TIME,
        290 => POSITION,
        268 => COUNT,
        _ => NAMED,
    }
}

// Nothing is marked.
pub fn no_marks() -> Marks
    ensures { result ≡ no_marks }
{
    Marks { spans: [None; 22] }
}

// Whether a field of slot k breaches the rules of a place: its tag is one of the first `named`, and may not stand there
// or was seen there, which any number but 0 says.
pub fn stray(k: usize, named: usize, low: usize, high: usize, seen: usize) -> bool
    ensures { result ≡ strays k named low high (not (eqb seen 0)) }
{
    k < named && (k < low || high <= k || seen != 0)
}
