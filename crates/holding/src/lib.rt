// The digits of a price and what follows from them, and the numbers that hold a price, a moment and an order id, each an index of
// one contiguous range, so that what is held is sound by comparisons alone (document 01: "All books live in one lent run of 64-bit
// numbers").
#![tactic(auto)]

ghost use Rattle.std.specs.Prelude.{◌≡◌};
ghost use Rattle.holding.specs.Prices.{held_of, of_held};

// The most digits of tag 270 before the point, and after it.
pub const WHOLES: usize = 9;

pub const DECIMALS: usize = 8;

// Powers of ten, by the number of their zeros.
// Kept: the checker refuses a call in a constant's value, so `10_u64.pow(8)` is not to be had here.
const TENS: [u64; 10] = [
    1, 10, 100, 1000, 10000, 100000, 1000000, 10000000, 100000000, 1000000000,
];

// A price of 1, in hundred-millionths.
pub const UNIT: u64 = TENS[DECIMALS];

// The greatest number that holds a price of tag 270.
pub const MOST_HELD: u64 = (TENS[WHOLES] * UNIT - 1) * 2;

// The number that holds a price: 0 for 0, then 1 for the first below, 2 for the first above, and so on. Every number of
// 64 bits holds one price, and the prices of tag 270 fill one range from 0.
#[tactic(auto, unfolding(crate::specs::Prices::held_of))]
pub fn held(p: i64) -> u64
    ensures { result ≡ held_of p }
{
    if p < 0 {
        (p.unsigned_abs() - 1) * 2 + 1
    } else {
        p.unsigned_abs() * 2
    }
}

// The price that a number holds.
#[tactic(auto, unfolding(crate::specs::Prices::of_held))]
pub fn of_held(w: u64) -> i64
    ensures { result ≡ of_held w }
{
    let m = (w / 2) as i64;
    if w % 2 == 0 { m } else { -1 - m }
}
