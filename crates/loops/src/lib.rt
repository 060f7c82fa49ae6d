// The record of a loop of snapshots, by value (document 02, K1): how far the row of W messages has come, the lowest 369 in it, and the
// followed instruments that it named.
#![tactic(auto)]

ghost use Rattle.std.specs.Prelude.{◌≡◌, ◌≤◌, ◌<◌};
ghost use Rattle.message.specs.Message.{most_number};
ghost use Rattle.heading.specs.Marks.{marked};
ghost use Rattle.loops.specs.Loops.{loop_of, no_loop, is_whole, with_name, in_row};
ghost use Rattle.loops.specs.Sound.{sound_loop};

use message::Head;

// loops: 911, or 0 where no loop runs. come: how many W have come. low: the lowest 369 among them. named: one bit an instrument, 1 for
// one that a W of the loop was for.
// Kept: no loop is a record of zeros and no `None`, since `store::load_loop` says with `loop_at` each of the four numbers of any store, also
// where 911 is 0 and another is not, and `is_sound` tells the two.
#[derive(Clone, Copy)]
pub struct Loop {
    pub loops: u64,
    pub come: u64,
    pub low: u64,
    pub named: u16,
}

// No loop runs.
pub fn none() -> Loop
    ensures { result ≡ no_loop }
{
    Loop {
        loops: 0,
        come: 0,
        low: 0,
        named: 0,
    }
}

// Whether four numbers are the record of a loop on a channel of n instruments: none runs, or one of which fewer than 911 have come.
// Kept: four numbers and no Loop, since the named of a store that is not sound may take more than the 16 bits that a Loop has for them.
#[tactic(auto, using(crate::proofs::Ranges::rests, crate::proofs::Ranges::runs))]
pub fn is_sound(loops: u64, come: u64, low: u64, named: u64, n: u64) -> bool
    requires { n ≤ 16 }
    ensures { result ≡ sound_loop n (loop_of loops come low named) }
{
    if loops == 0 {
        return come == 0 && low == 0 && named == 0;
    }
    1 <= come
        && come < loops
        && loops <= message::MOST_NUMBER
        && low <= message::MOST_NUMBER
        && named >> n == 0
}

// The names with the instrument at index i of n; one that is not followed has the index n, and adds no name.
#[tactic(auto, using(crate::proofs::Joins::not_named, crate::proofs::Joins::is_named_lem))]
fn with_name(named: u16, n: usize, i: usize) -> u16
    requires { n ≤ 16 }
    ensures { result ≡ with_name n i named }
{
    if n <= i {
        return named;
    }
    heading::with_mark(named, i)
}

impl Loop {
    // A W has come for the instrument at index i of n: its 34 is 1 and begins a loop, or it is the next of this one with the same
    // 911; any other drops it.
    #[tactic(auto, using(crate::proofs::Joins::lower_min, crate::proofs::Joins::begins, crate::proofs::Joins::drops, crate::proofs::Joins::grows))]
    pub fn join(self, r: Head, n: usize, i: usize) -> Loop
        requires { (self.come ≤ most_number) × (n ≤ 16) }
        ensures { result ≡ in_row r n i self }
    {
        if r.number == 1 {
            return Loop {
                loops: r.loops,
                come: 1,
                low: r.last,
                named: with_name(0, n, i),
            };
        }
        if r.number != self.come + 1 || r.loops != self.loops {
            return none();
        }
        Loop {
            come: r.number,
            low: self.low.min(r.last),
            named: with_name(self.named, n, i),
            ..self
        }
    }

    // Whether the loop is whole.
    #[tactic(auto, unfolding(crate::specs::Loops::is_whole))]
    pub fn is_whole(self) -> bool
        ensures { result ≡ is_whole self }
    {
        0 < self.loops && self.come == self.loops
    }

    // Whether the loop named the instrument at index i.
    pub fn named_at(self, i: usize) -> bool
        requires { i < 16 }
        ensures { result ≡ marked self.named i }
    {
        heading::marked(self.named, i)
    }
}
