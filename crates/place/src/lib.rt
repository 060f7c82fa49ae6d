// A place of a message walked (document 01, "Fields"): its fields one by one, each marked in its slot, up to the tag that ends it
// or to a field that breaches its rules.
#![tactic(auto)]

ghost use Rattle.std.specs.Prelude.{true, ◌≡◌, ◌≤◌};
ghost use Rattle.tags.specs.Slots.{breaks};
ghost use Rattle.place.specs.Places.{place_of};
ghost use Rattle.place.specs.Walks.{Walk};

use chain::Step;
use tags::{Marks, Span};

// Walks a place from `start` up to the first field with the tag `stop`, or to the end, and marks each field that it
// passes. Of the first `named` slots only those from low up to high may stand in it, each once, and bytes that are no field
// may not. It answers where the place ends, or where the field stands that breaches these rules.
// Kept: the Err says where, though no caller asks, since that was promised before (`Walk`).
pub fn walk(
    s: &[u8],
    start: usize,
    marks: &mut Marks,
    stop: u64,
    named: usize,
    low: usize,
    high: usize,
) -> Result<usize, usize>
    requires { (named ≤ 21) × ((high ≤ 21) × (breaks stop named low high ≡ true)) }
    ensures { Walk s.now start stop named low high marks.old (place_of result marks.new) }
{
    let end = s.len();
    let mut at = start;
    while at < end {
        let Some(Step { tag, from, to }) = chain::field(s, at) else {
            return Err(at);
        };
        if tag == stop {
            return Ok(at);
        }
        let k = tags::slot(tag);
        if tags::stray(k, named, low, high, usize::from(marks.spans[k].is_some())) {
            return Err(at);
        }
        marks.spans[k] = Some(Span { from, to });
        at = to + 1;
    }
    Ok(at)
}
