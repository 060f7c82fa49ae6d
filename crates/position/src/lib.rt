// An entry of a group by its marks (document 01, "Fields"): what it says in an X, and in a W, where it must stand at the next
// position of its side.
#![tactic(auto)]

ghost use Rattle.std.specs.Prelude.{◌≡◌, ◌<◌};
ghost use Rattle.tags.specs.ByTag.{by_tag};
ghost use Rattle.position.specs.Positions.{next_on, next_after, entry_next};

use entries::Said;
use tags::Values;

// The first tag of an entry in X and in W.
pub const FIRST_X: u64 = 279;

pub const FIRST_W: u64 = 269;

// The slots that may stand in an entry of X and of W, up to a last one.
pub const ENTRY_X: usize = tags::INSTRUMENT;

pub const ENTRY_W: usize = tags::SORT;

pub const ENTRY_END: usize = tags::COUNT;

// How a group is read and what stands before it: the first tag of an entry and the first slot that may stand in one,
// and the reading's numbers.
// Kept: first and low stand here and no kind of message, since `entry` answers for every Top and `group::listed` for every one that is `Fair`, of any first tag.
#[derive(Clone, Copy)]
pub struct Top {
    pub first: u64,
    pub low: usize,
    pub number: u64,
    pub heard: u64,
    pub id: u64,
    pub last: u64,
    pub loops: u64,
}

// The next position of each side in a W.
#[derive(Clone, Copy)]
pub struct Next {
    pub bid: usize,
    pub offer: usize,
}

impl Next {
    // The next position of a side.
    fn on(self, side: u64) -> usize
        ensures { result ≡ next_on self side }
    {
        if side == book::BID {
            self.bid
        } else {
            self.offer
        }
    }

    // The next positions after an entry of a side.
    pub fn after(self, side: u64) -> Next
        requires { (self.bid < 65536) × (self.offer < 65536) }
        ensures { result ≡ next_after self side }
    {
        if side == book::BID {
            Next {
                bid: self.bid + 1,
                ..self
            }
        } else {
            Next {
                offer: self.offer + 1,
                ..self
            }
        }
    }
}

// What an entry says; in a W it must stand at the next position of its side.
#[tactic(auto, using(crate::proofs::Tops::numbered_said), unfolding(crate::specs::Positions::entry_next, crate::specs::Positions::entry_in, crate::specs::Positions::at_next))]
pub fn entry(v: Values, depth: u64, t: &Top, next: Next) -> Said
    ensures { result ≡ entry_next depth t.now next (by_tag v.entry) }
{
    if t.first == FIRST_X {
        return entries::in_x(v, depth);
    }
    match entries::in_w(v, depth, t.id)? {
        Some(u) if u.place != next.on(u.what) => None,
        said => Some(said),
    }
}
