// What a quantity brings down a side, place 1 first: the exact sum of price times units, and what is left; or that a sum on the way does
// not fit a signed 64-bit number (document 02, K11).
#![tactic(auto)]

ghost use Rattle.std.specs.Prelude.{◌≡◌};
ghost use Rattle.book.specs.Canonical.{held_in};
ghost use Rattle.proceeds.specs.Lots.{lot_of};

use book::Side;

// The sum, and the units that no place took.
#[derive(Clone, Copy)]
pub struct Sale {
    pub sum: i64,
    pub left: u64,
}

// What a lot brings down a side, or none where a sum does not fit.
pub fn of_side(s: &Side, quantity: u64) -> Option<Sale>
    ensures { result ≡ lot_of quantity (held_in s.now) }
{
    let mut level = sums::HALF;
    let mut left = quantity;
    let places = s.places.as_slice();
    for e in &places[..s.held.min(places.len())] {
        if left == 0 {
            break;
        }
        let units = left.min(e.size);
        level = sums::moved(level, e.price, units)?;
        left -= units;
    }
    Some(Sale {
        sum: sums::sum_at(level),
        left,
    })
}
