// Exact sums of price times units in a signed number of 64 bits, and that a sum does not fit (document 02, K11). A sum is worked on as
// its level, the sum plus 2^63, an unsigned number: what a step up or down leaves is a level again exactly if the sum fits.
#![tactic(auto)]

ghost use Rattle.std.specs.Prelude.{◌≡◌, pos, ◌+ℤ◌, ◌*ℤ◌};
ghost use Rattle.sums.specs.Sums.{sum_of, level_of};

// 2^63: the level of the sum 0.
pub const HALF: u64 = 1 << 63;

// The level after so many units at a price: below 0 it falls, else it rises, by the product's distance from 0. Where that is no number
// of 64 bits, no level is so far from another.
#[tactic(auto, using(crate::proofs::Levels::moved_up, crate::proofs::Levels::moved_down, crate::proofs::Levels::moved_out))]
pub fn moved(level: u64, price: i64, units: u64) -> Option<u64>
    ensures { result ≡ level_of (sum_of level +ℤ price *ℤ pos units) }
{
    let step = price.unsigned_abs().checked_mul(units)?;
    if price < 0 {
        level.checked_sub(step)
    } else {
        level.checked_add(step)
    }
}

// The sum at a level.
#[tactic(auto, unfolding(crate::specs::Sums::sum_of))]
pub fn sum_at(level: u64) -> i64
    ensures { result ≡ sum_of level }
{
    level.checked_signed_diff(HALF).unwrap()
}
